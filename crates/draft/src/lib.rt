// The bytes of a text as it grows, at most 1,024.
#![tactic(auto)]

mod draft;
mod pushing;

pub use draft::Draft;

// JSON text: whether bytes are one, by RFC 8259, with a limit on how deep they are nested.
#![tactic(auto)]

mod figure;
mod judge;
mod mode;
mod nested;
mod parts;
mod quoted;
mod scanner;
mod structure;
mod word;

pub use judge::check;
pub use parts::{skip_white, split_value};

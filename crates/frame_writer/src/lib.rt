// Writing frames: the JSON text of a transmission.
#![tactic(auto)]

mod pieces;
mod words;
mod writing;

pub use writing::write;

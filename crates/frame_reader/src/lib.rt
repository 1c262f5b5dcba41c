// Frames: the JSON text of a transmission.
#![tactic(auto)]

mod array;
mod call;
mod fields;
mod info;
mod meter;
mod payload;
mod reader;
mod reading;
mod values;

pub use reader::read;

// Invoicing a sheet of meter readings, one session to a line.
#![tactic(auto)]

mod entry;
mod read;
mod totals;

pub use entry::{Charge, Entry, Field, Misread};
pub use read::{charge, read_line, read_price};
pub use totals::Totals;

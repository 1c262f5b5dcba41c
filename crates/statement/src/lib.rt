// The statement: the rows of a ledger as invoice lines, at a price.
#![tactic(auto)]

mod line;
mod part;
mod rows;
mod writing;

pub use writing::write;

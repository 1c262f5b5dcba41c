// Runs: stretches of consecutive numbers, and a table of them that numbers are added to in any order.
#![tactic(auto)]

mod run;
mod table;

pub use run::Run;
pub use table::{MOST_RUNS, RunTable};

// A table of runs, rising, that numbers are added to in any order.
ghost use Rattle.std.specs.Prelude.{◌≡◌, ◌≤◌, true, length, take};
ghost use Rattle.runs.specs.Stretches.{ascending};

use crate::run::Run;

mod adding;
mod looks;

pub const MOST_RUNS: usize = 16;

#[derive(Clone, Copy)]
pub struct RunTable {
    // Kept: an array with its count beside it, since a table is copied with the row that it stands in, in lent memory,
    // and an ArrayVec is not Copy.
    runs: [Run; 16],
    // how many places are used
    count: usize,
    ghost fits: { (count ≤ 16) × (length runs ≡ 16) },
    ghost rising: { ascending 0 (take count runs) ≡ true },
}

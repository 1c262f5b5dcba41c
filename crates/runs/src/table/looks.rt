// What a table tells: its runs, the gaps between them, their size and the highest number.
ghost use Rattle.std.specs.Prelude.{◌≡◌};
ghost use Rattle.runs.specs.Contents.{runs_in};
ghost use Rattle.runs.specs.Gaps.{between, highest};
ghost use Rattle.runs.specs.Stretches.{Counts, Stretches};

use super::RunTable;
use crate::run::Run;

impl RunTable {
    // The runs, rising.
    pub fn as_slice(&self) -> &[Run]
        ensures { result.now ≡ runs_in self.now }
    {
        &self.runs[0..self.count]
    }

    // The stretches of the numbers below the highest that lie in no run.
    pub fn gaps(&self) -> RunTable
        ensures { Stretches (between (runs_in self.now)) (runs_in result) }
    {
        let mut gaps = RunTable::new();
        let [first, later @ ..] = self.as_slice() else {
            return gaps;
        };
        if first.first > 0 {
            gaps.push(Run {
                first: 0,
                last: first.first - 1,
            });
        }
        // Kept: the run below goes along, since `windows` gives slices that would have to be taken apart again.
        let mut below = *first;
        for run in later {
            gaps.push(below.gap_to(*run));
            below = *run;
        }
        gaps
    }

    // How many numbers lie in the runs.
    pub fn size(&self) -> u32
        ensures { Counts (runs_in self.now) result }
    {
        // Kept: a `for`, since `.map(..).sum()` was tried, and what `Run::size` asks of each run stayed open.
        let mut numbers = 0;
        for run in self.as_slice() {
            numbers += run.size();
        }
        numbers
    }

    // The highest number in the runs; 0 where there is none.
    pub fn highest(&self) -> u16
        ensures { result ≡ highest (runs_in self.now) }
    {
        self.as_slice().last().map_or(0, |run| run.last)
    }
}

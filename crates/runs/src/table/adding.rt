// Making a table, and adding numbers and runs to it.
ghost use Rattle.std.specs.Prelude.{◌≡◌, ◌<◌, true, [], ◌∷◌, ◌++◌};
ghost use Rattle.runs.specs.Contents.{runs_in};
ghost use Rattle.runs.specs.Places.{Between, Place, Touches};
ghost use Rattle.runs.specs.Stretches.{Adds, CountedOut, Stretches, Unique, ascending, covers, with_number};

use super::{MOST_RUNS, RunTable};
use crate::run::Run;
use refusal::Refusal;

impl RunTable {
    pub fn new() -> RunTable
        ensures empty { runs_in result ≡ [] }
        ensures unique { Unique }
        ensures counted_out { CountedOut }
    {
        RunTable {
            runs: [Run { first: 0, last: 0 }; 16],
            count: 0,
        }
    }

    // The first place whose run does not end before the number, with another between.
    fn place(&self, number: u16) -> usize
        ensures { Place (runs_in self.now) number result }
    {
        self.as_slice()
            .iter()
            .position(|run| !run.ends_before(number))
            .unwrap_or(self.count)
    }

    // Opens a run at the place; those from there on move up.
    fn open_at(&mut self, place: usize, number: u16)
        requires room { self.old.count < 16 }
        requires apart { Between (runs_in self.old) number place }
        ensures { Stretches (with_number (covers (runs_in self.old)) number) (runs_in self.new) }
    {
        let end = self.count + 1;
        self.runs[place..end].rotate_right(1);
        self.runs[place].open(number);
        self.count = end;
    }

    // Takes the number into the run at the place, and the next run too where no number is left between them.
    fn extend_at(&mut self, place: usize, number: u16)
        requires { Touches (runs_in self.old) number place }
        ensures { Stretches (with_number (covers (runs_in self.old)) number) (runs_in self.new) }
    {
        self.runs[place].widen(number);
        let end = self.count;
        let next = place + 1;
        if next < end && !self.runs[next].begins_after(self.runs[place].last) {
            let after = self.runs[next];
            self.runs[place].join(after);
            self.runs[next..end].rotate_left(1);
            self.count = end - 1;
        }
    }

    // Adds a number, or refuses it where it would take a 17th run; then nothing changes.
    pub fn add(&mut self, number: u16) -> Result<(), Refusal>
        ensures { Adds (runs_in self.old) number result (runs_in self.new) }
    {
        let place = self.place(number);
        if place < self.count && !self.runs[place].begins_after(number) {
            self.extend_at(place, number);
            return Ok(());
        }
        if self.count == MOST_RUNS {
            return Err(Refusal::TooManyRuns);
        }
        self.open_at(place, number);
        Ok(())
    }

    // One run more, above all others.
    pub(super) fn push(&mut self, run: Run)
        requires room { self.old.count < 16 }
        requires rising { ascending 0 (runs_in self.old ++ run ∷ []) ≡ true }
        ensures { runs_in self.new ≡ runs_in self.old ++ run ∷ [] }
    {
        self.runs[self.count] = run;
        self.count += 1;
    }
}

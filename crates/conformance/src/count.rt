// How many texts there were, and how many of them were as expected.
ghost use Rattle.std.specs.Prelude.{◌≡◌, ◌+◌, ◌-◌, ◌^◌, ◌≤◌, cond, MatchOption};

use std::fmt;

#[derive(Clone, Copy)]
pub struct Count {
    pub texts: u64,
    pub expected: u64,
    ghost ok: { expected ≤ texts },
}

impl Count {
    // Before the first text.
    pub fn new() -> Count
        ensures { (result.texts ≡ 0) × (result.expected ≡ 0) }
    {
        Count {
            texts: 0,
            expected: 0,
        }
    }

    // One text more; none where their number would not fit.
    pub fn with(self, as_expected: bool) -> Option<Count>
        ensures { MatchOption result (self.texts ≡ 2 ^ 64 - 1) (λ c. (c.texts ≡ self.texts + 1) × (c.expected ≡ self.expected + cond as_expected 1 0)) }
    {
        let texts = self.texts.checked_add(1)?;
        let expected = if as_expected {
            self.expected + 1
        } else {
            self.expected
        };
        Some(Count { texts, expected })
    }

    // Those that were not as expected.
    pub fn others(self) -> u64
        ensures { result ≡ self.texts - self.expected }
    {
        self.texts - self.expected
    }
}

impl fmt::Display for Count {
    fn fmt<W: fmt::Write>(&self, f: &mut fmt::Formatter<W>) -> fmt::Result {
        let others = self.others();
        write!(
            f,
            "{} texts, {} as expected, {others} not",
            self.texts, self.expected
        )
    }
}

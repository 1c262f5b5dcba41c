// One run of consecutive numbers.
ghost use Rattle.std.specs.Prelude.{◌≡◌, suc, ◌+◌, ◌-◌, ◌≤◌, min, max, nat_le};

// Both ends belong to it.
#[derive(Clone, Copy)]
pub struct Run {
    pub first: u16,
    pub last: u16,
}

impl Run {
    // The number lies past the run, with another between.
    pub(crate) fn ends_before(self, number: u16) -> bool
        ensures { result ≡ nat_le (suc (suc self.last)) number }
    {
        self.last < number && number - self.last > 1
    }

    // The number lies before the run, with another between.
    pub(crate) fn begins_after(self, number: u16) -> bool
        ensures { result ≡ nat_le (suc (suc number)) self.first }
    {
        number < self.first && self.first - number > 1
    }

    // Begins anew, at one number.
    pub(crate) fn open(&mut self, number: u16)
        ensures { self.new ≡ record { first = number; last = number } }
    {
        self.first = number;
        self.last = number;
    }

    // Takes in a number at either end.
    pub(crate) fn widen(&mut self, number: u16)
        ensures { self.new ≡ record { first = min self.old.first number; last = max self.old.last number } }
    {
        self.first = self.first.min(number);
        self.last = self.last.max(number);
    }

    // Takes in the run after it.
    pub(crate) fn join(&mut self, next: Run)
        ensures { self.new ≡ record { first = self.old.first; last = next.last } }
    {
        self.last = next.last;
    }

    // How many numbers lie in it.
    pub(crate) fn size(self) -> u32
        requires { self.first ≤ self.last }
        ensures { (result ≡ self.last - self.first + 1) × (result ≤ 65536) }
    {
        u32::from(self.last - self.first) + 1
    }

    // The numbers between it and a run above it.
    pub(crate) fn gap_to(self, above: Run) -> Run
        requires { self.last + 2 ≤ above.first }
        ensures { result ≡ record { first = suc self.last; last = above.first - 1 } }
    {
        Run {
            first: self.last + 1,
            last: above.first - 1,
        }
    }
}

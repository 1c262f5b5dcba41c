// Counts and sums over a sheet.
ghost use Rattle.std.specs.Prelude.{◌≡◌};
ghost use Rattle.sheet.specs.Sums.{Becomes, nothing, with_charge, with_refusal};

use crate::entry::Charge;

#[derive(Clone, Copy)]
pub struct Totals {
    pub billed: u64,
    pub refused: u64,
    // in Wh
    pub energy: u64,
    pub cents: u64,
}

impl Totals {
    // Before the first line.
    pub fn new() -> Totals
        ensures { result ≡ nothing }
    {
        Totals {
            billed: 0,
            refused: 0,
            energy: 0,
            cents: 0,
        }
    }

    // One line billed; none where a sum would not fit.
    pub fn with_charge(self, charge: Charge) -> Option<Totals>
        ensures { Becomes result (with_charge self charge) }
    {
        Some(Totals {
            billed: self.billed.checked_add(1)?,
            refused: self.refused,
            energy: self.energy.checked_add(charge.energy)?,
            cents: self.cents.checked_add(charge.cents)?,
        })
    }

    // One line refused; none where their count would not fit.
    pub fn with_refusal(self) -> Option<Totals>
        ensures { Becomes result (with_refusal self) }
    {
        Some(Totals {
            refused: self.refused.checked_add(1)?,
            ..self
        })
    }
}

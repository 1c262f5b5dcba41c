// A price that is in its range.
ghost use Rattle.std.specs.Prelude.{◌≡◌, ◌≤◌, ◌<◌, MatchResult};
ghost use Rattle.cents.specs.Cents.{Charges, largest_price};
ghost use Rattle.refusal.specs.declared.Refusal.TheVariants.{OutOfRange};

use event::LARGEST_REGISTER;
use refusal::Refusal;

// in thousandths of a currency unit for each kWh
pub const LARGEST_PRICE: u64 = 100_000;

#[derive(Clone, Copy)]
pub struct Price {
    // of a currency unit for each kWh
    thousandths: u64,
    ghost within: { thousandths ≤ largest_price },
}

impl Price {
    pub fn new(thousandths: u64) -> Result<Price, Refusal>
        ensures { MatchResult result (λ price. price.thousandths ≡ thousandths) (λ refusal. (refusal ≡ OutOfRange) × (largest_price < thousandths)) }
    {
        if thousandths > LARGEST_PRICE {
            return Err(Refusal::OutOfRange);
        }
        Ok(Price { thousandths })
    }

    // The cents for this many Wh, to the nearest, a half up.
    pub fn cents(self, watt_hours: u64) -> Result<u64, Refusal>
        ensures { Charges watt_hours self.thousandths result }
    {
        if watt_hours > LARGEST_REGISTER {
            return Err(Refusal::OutOfRange);
        }
        Ok((watt_hours * self.thousandths + 5_000) / 10_000)
    }
}

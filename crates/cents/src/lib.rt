// What a session's energy costs.
#![tactic(auto)]

ghost use Rattle.cents.specs.Cents.{Charges};

use refusal::Refusal;

mod price;

pub use price::{LARGEST_PRICE, Price};

// The cents for this many Wh at this price, to the nearest, a half up.
pub fn cents(watt_hours: u64, price: u64) -> Result<u64, Refusal>
    ensures { Charges watt_hours price result }
{
    Price::new(price)?.cents(watt_hours)
}

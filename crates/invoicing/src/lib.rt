// What the invoicing package, written in C, calls.
#![tactic(auto)]

mod frames;

ghost use Rattle.invoicing.specs.Exports.{Charged};

pub use frames::makwirfa_frame_check;

// 0 and the cents stored, or the refusal's number and *cents as it was. Kept: a number and a place to store, for C.
#[unsafe(no_mangle)]
pub extern "C" fn makwirfa_cents(watt_hours: u64, price: u64, cents: &mut u64) -> u32
    ensures { Charged watt_hours price cents.old cents.new result }
{
    match cents::cents(watt_hours, price) {
        Ok(charge) => {
            *cents = charge;
            0
        }
        Err(refusal) => refusal.number(),
    }
}

// Writing the statement.
ghost use Rattle.ledger.specs.Contents.{events_in};
ghost use Rattle.statement.specs.Statement.{Writes};

use crate::part::Part;
use crate::rows::{Lines, billed_count, total_line};
use cents::Price;
use ledger::Ledger;
use refusal::Refusal;

// Writes the statement at a price to the beginning of the buffer and tells its length; 1 for a price out of range, 60
// for a buffer that is too short, and then nothing is written.
pub fn write(ledger: &Ledger<'_>, price: u64, out: &mut [u8]) -> Result<usize, Refusal>
    ensures { Writes (events_in ledger.now) price out.old result out.new }
{
    let price = Price::new(price)?;
    let billed = billed_count(ledger);
    let total = total_line(billed, ledger.len() - billed);
    let bills = Lines {
        ledger,
        price,
        part: Part::Billed,
    };
    let lacks = Lines {
        part: Part::Open,
        ..bills
    };
    let rows = bills.size() + lacks.size();
    let size = rows + total.len();
    if size > out.len() {
        return Err(Refusal::BufferTooSmall);
    }
    let end = bills.write(out);
    lacks.write(&mut out[end..]);
    out[rows..size].copy_from_slice(total.text());
    Ok(size)
}

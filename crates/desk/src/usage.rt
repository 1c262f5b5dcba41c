// What the program says of itself.
use anyhow::anyhow;
use refusal::Refusal;
use std::alloc::{AllocError, Global};

pub const HELP: &str = "desk: the settlement desk for hired-out charging stations

  desk bill PRICE < FRAMES   the statement of the frames' events, and a report
  desk frames < FRAMES       what each frame says, or why it is none
  desk sheet PRICE < SHEET   invoice a sheet of meter readings
  desk --help                this text

PRICE   thousandths of a currency unit for each kWh, 0 to 100000 (350 is 0.350)
FRAMES  a frame on each line: a TransactionEvent call as OCPP-J writes it, at
        most 1,024 bytes
SHEET   a line for each session: TRANSACTION-ID STARTED-WH ENDED-WH
        with one space between them, for example
        00017-00000003 1250 13750

bill prints a statement: a line `B id Wh cents` for each session that is held
from start to end, then a line `O id missing held|absent stretches` for each
other one, then `T billed open`. Then it reports each line whose event is not
held, with its number and the number and the meaning of the refusal, and how
many frames were read, held, repeats and refused.

frames prints each frame in plain words, or the number and the meaning of its
refusal, and how many there were of each.

sheet prints each good line with its energy and what it costs. A bad line is
reported with its number, the place of the wrong field, and the number and
the meaning of the refusal; the other lines are billed all the same.
";

pub fn bad_price(heap: Global, text: &str, why: Refusal) -> Result<anyhow::Error, AllocError> {
    let number = why.number();
    let said = format!(in heap; "price {text:?}: refused {number}: {why}")?;
    Ok(anyhow!(said))
}

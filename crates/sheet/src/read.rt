// Reads the lines of a sheet.
ghost use Rattle.std.specs.Prelude.{◌≡◌, ◌-◌, ◌^◌, ◌<◌, MatchResult};
ghost use Rattle.cents.specs.Cents.{largest_price};
ghost use Rattle.event.specs.Lawful.{largest_register};
ghost use Rattle.ids.specs.Ids.{Id as IdIn, NoId};
ghost use Rattle.sheet.specs.Sheet.{Charged, NoNumber, Number, ReadsNumber, Refused, Says, Uncharged};
ghost use Rattle.sheet.specs.declared.entry.Field.{Field};

use crate::entry::{Charge, Entry, Field, Misread};
use cents::{LARGEST_PRICE, cents};
use decimal::plain_value;
use event::{LARGEST_REGISTER, Register};
use ids::TransactionId;
use refusal::Refusal;
use split::cut;

// A number without needless leading zeros, within the limit.
fn number(text: &[u8], limit: u64) -> Result<u64, Refusal>
    requires { limit < 2 ^ 64 - 1 }
    ensures { ReadsNumber limit text.now result }
{
    let number = plain_value(text).ok_or(Refusal::BadValue)?;
    if number > limit {
        return Err(Refusal::OutOfRange);
    }
    Ok(number)
}

// The price as a command line gives it.
pub fn read_price(text: &[u8]) -> Result<u64, Refusal>
    ensures { ReadsNumber largest_price text.now result }
{
    number(text, LARGEST_PRICE)
}

// The id at the beginning of a line.
fn id(text: &[u8]) -> Result<TransactionId, Misread>
    ensures { MatchResult result (IdIn text.now) (λ m. (m.field ≡ Field.Id) × (m.place ≡ 1) × NoId text.now m.why) }
{
    TransactionId::try_from(text).map_err(|why| Misread {
        field: Field::Id,
        place: 1,
        why,
    })
}

// The register in a field, which begins at the place.
fn register(text: &[u8], field: Field, place: usize) -> Result<Register, Misread>
    ensures { MatchResult result (Number largest_register text.now) (λ m. (m.field ≡ field) × (m.place ≡ place) × NoNumber largest_register text.now m.why) }
{
    number(text, LARGEST_REGISTER).map_err(|why| Misread { field, place, why })
}

// What the line says, or its first wrong field.
pub fn read_line(line: &[u8]) -> Result<Entry, Misread>
    ensures { MatchResult result (Says line.now) (Refused line.now) }
{
    let (id_field, rest) = cut(line, b' ');
    let (started_field, ended_field) = cut(rest, b' ');
    let started_place = id_field.len() + 2;
    let ended_place = started_place + started_field.len() + 1;
    let id = id(id_field)?;
    let started = register(started_field, Field::Started, started_place)?;
    let ended = register(ended_field, Field::Ended, ended_place)?;
    if ended < started {
        return Err(Misread {
            field: Field::Ended,
            place: ended_place,
            why: Refusal::RegisterFell,
        });
    }
    Ok(Entry { id, started, ended })
}

// What the line's session costs at this price.
pub fn charge(line: &[u8], price: u64) -> Result<Charge, Misread>
    ensures { MatchResult result (Charged line.now price) (Uncharged line.now price) }
{
    let entry = read_line(line)?;
    let energy = entry.ended - entry.started;
    let cents = cents(energy, price).map_err(|why| Misread {
        field: Field::Price,
        place: 0,
        why,
    })?;
    Ok(Charge {
        id: entry.id,
        energy,
        cents,
    })
}

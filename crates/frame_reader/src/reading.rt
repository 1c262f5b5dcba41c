// Reads the event that the values of a payload tell.
ghost use Rattle.std.specs.Prelude.{◌≡◌, ℕ, ◌≤◌, Bool, List, codes, Decides, Option, MatchOption};
ghost use Rattle.event.specs.Lawful.{largest_register};
ghost use Rattle.event.specs.declared.events.Transmission.{Transmission as Sent};
ghost use Rattle.frame_reader.specs.Fields.{FieldsOf, MeterOf, SampleOf, ValueIf};
ghost use Rattle.frame_reader.specs.Frame.{Says, measurand_text};
ghost use Rattle.frame_reader.specs.Reading.{EventTold, FlagIs, MeasuresRegister, NoEvent, NoRegister, NoSampled, RegisterIs, SampleTells, SmallRegister};
ghost use Rattle.frame.specs.Members.{under};
ghost use Rattle.ids.specs.Ids.{MessageWritten};
ghost use Rattle.json_text.specs.Grammar.{Json, Membs, Value};
ghost use Rattle.json_text.specs.Grammar.Json.{jstring};

use crate::fields::{Fields, Sample};
use crate::values::{is_front, named, number, time, truth};
use event::{Event, Register, Transmission};
use frame::is_string;
use ids::MessageId;

// The flag; a missing one is false.
fn flag(value: Option<&[u8]>) -> Option<bool>
    ensures { (tree : Option Json) → ValueIf tree value.entry → MatchOption result ((b : Bool) → FlagIs tree b → ⊥) (FlagIs tree) }
{
    value.map_or(Some(false), truth)
}

// The value is the register's measurand.
fn is_register(value: &[u8]) -> bool
    ensures { (tree : Json) → Value tree value.now → Decides result (tree ≡ jstring measurand_text) }
{
    is_string(value, b"\"Energy.Active.Import.Register\"")
}

// The measurand is the register's, or missing.
fn measures_register(value: Option<&[u8]>) -> bool
    ensures { (tree : Option Json) → ValueIf tree value.entry → Decides result (MeasuresRegister tree) }
{
    value.is_none_or(is_register)
}

// The register that a sample tells.
fn sampled(sample: Sample<'_>) -> Option<Register>
    ensures { (ms : Membs) → SampleOf ms sample.entry → MatchOption result (NoSampled ms) (λ n. (n ≤ largest_register) × SampleTells ms n) }
{
    if !measures_register(sample.measurand) {
        return None;
    }
    number(sample.value)
}

// The register, which may be absent; nothing where there is a meterValue that does not tell one.
fn register(meter: Option<Option<Sample<'_>>>) -> Option<Option<Register>>
    ensures { (payload : Membs) → MeterOf (under (codes "meterValue") payload) meter.entry → MatchOption result (NoRegister payload) (RegisterIs payload) }
{
    let Some(sample) = meter else {
        return Some(None);
    };
    let register = sampled(sample?)?;
    Some(Some(register))
}

// The event that the payload tells, of the message id's station, session and number.
fn told(fields: Fields<'_>, id: &[u8], message: MessageId) -> Option<Event>
    requires { MessageWritten id.now message }
    ensures { (payload : Membs) → FieldsOf payload fields.entry → MatchOption result (NoEvent payload message) (λ e. EventTold payload message e × SmallRegister e.register) }
{
    if message.station > u64::from(u16::MAX) {
        return None;
    }
    if number(fields.seq_no)? != message.number {
        return None;
    }
    if !is_front(fields.transaction_id?, id) {
        return None;
    }
    Some(Event {
        station: message.station as u16,
        session: message.session as u32,
        number: message.number as u16,
        kind: named(fields.event_type)?,
        time: time(fields.timestamp)?,
        offline: flag(fields.offline)?,
        register: register(fields.meter)?,
        reason: named(fields.trigger_reason)?,
    })
}

// The transmission that message id and payload are of; nothing where they are of none that is lawful.
pub fn transmission(fields: Fields<'_>, id: &[u8]) -> Option<Transmission>
    ensures { (payload : Membs) → FieldsOf payload fields.entry → MatchOption result ((t : Sent) → Says id.now payload t → ⊥) (Says id.now payload) }
{
    let message = MessageId::read(id)?;
    let event = told(fields, id, message)?;
    let transmission = Transmission {
        event,
        attempt: message.attempt as u8,
    };
    if transmission.is_lawful() {
        Some(transmission)
    } else {
        None
    }
}

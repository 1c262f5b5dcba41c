// The values of a payload that are read, as they are written.
ghost use Rattle.frame_reader.specs.Fields.{Finds, MeterFinds, RegisterFinds};
ghost use Rattle.frame_reader.specs.Payload.{FoundAll};
ghost use Rattle.frame.specs.Slots.{Found};
ghost use Rattle.json_text.specs.Grammar.{Membs};
ghost use Rattle.std.specs.Prelude.{codes};

use crate::payload::Payload;
use frame::Slot;
use refusal::Refusal;

// The element of sampledValue.
#[derive(Clone, Copy)]
pub struct Sample<'a> {
    pub value: &'a [u8],
    pub measurand: Option<&'a [u8]>,
}

#[derive(Clone, Copy)]
pub struct Fields<'a> {
    pub event_type: &'a [u8],
    pub timestamp: &'a [u8],
    pub trigger_reason: &'a [u8],
    pub seq_no: &'a [u8],
    pub offline: Option<&'a [u8]>,
    // nothing where transactionInfo is of another kind
    pub transaction_id: Option<&'a [u8]>,
    // nothing where there is no meterValue; Some(None) where it or its sampledValue is of another kind or length
    pub meter: Option<Option<Sample<'a>>>,
}

// What the meterValue of a payload holds, where there is one.
fn find_register<'a>(
    meter_value: Slot<Result<Option<Sample<'a>>, Refusal>>,
) -> Result<Option<Option<Sample<'a>>>, Refusal>
    ensures { (payload : Membs) → Found MeterFinds meter_value.entry (codes "meterValue") payload → RegisterFinds payload result }
{
    meter_value.optional()?.transpose()
}

impl<'a> Fields<'a> {
    // The values that are read; 55 where a name that is read stands twice, or a required one is missing.
    pub fn find(payload: Payload<'a>) -> Result<Fields<'a>, Refusal>
        ensures { (ms : Membs) → FoundAll payload.entry ms → Finds ms result }
    {
        Ok(Fields {
            event_type: payload.event_type.required()?,
            timestamp: payload.timestamp.required()?,
            trigger_reason: payload.trigger_reason.required()?,
            seq_no: payload.seq_no.required()?,
            offline: payload.offline.optional()?,
            transaction_id: payload.transaction_info.required()??,
            meter: find_register(payload.meter_value)?,
        })
    }
}

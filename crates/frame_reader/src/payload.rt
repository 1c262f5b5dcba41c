// The members of a payload that are read, found in one walk.
ghost use Rattle.std.specs.Prelude.{◌≡◌, ℕ, ◌≤◌, List, length};
ghost use Rattle.frame_reader.specs.Payload.{FoundAll, SoFarAll};
ghost use Rattle.frame.specs.Walks.{Taken, ThroughObject};
ghost use Rattle.json_text.specs.Grammar.{Membs};

use crate::fields::Sample;
use crate::info::find_id;
use crate::meter::find_meter;
use frame::{Collects, Slot, collect, cut, note};
use refusal::Refusal;

const EVENT_TYPE: &[u8] = b"\"eventType\"";

const TIMESTAMP: &[u8] = b"\"timestamp\"";

const TRIGGER_REASON: &[u8] = b"\"triggerReason\"";

const SEQ_NO: &[u8] = b"\"seqNo\"";

const OFFLINE: &[u8] = b"\"offline\"";

const TRANSACTION_INFO: &[u8] = b"\"transactionInfo\"";

const METER_VALUE: &[u8] = b"\"meterValue\"";

#[derive(Clone, Copy)]
pub struct Payload<'a> {
    pub event_type: Slot<&'a [u8]>,
    pub timestamp: Slot<&'a [u8]>,
    pub trigger_reason: Slot<&'a [u8]>,
    pub seq_no: Slot<&'a [u8]>,
    pub offline: Slot<&'a [u8]>,
    // the transaction id in it, nothing where it is of another kind
    pub transaction_info: Slot<Result<Option<&'a [u8]>, Refusal>>,
    // the sample in it, nothing where it is of another kind or length
    pub meter_value: Slot<Result<Option<Sample<'a>>, Refusal>>,
}

impl<'a> Collects<'a> for Payload<'a> {
    ghost so_far = { λ _ found ms left. SoFarAll found ms left };

    fn take(&mut self, called: &[u8], value: &'a [u8]) -> &'a [u8] {
        if called == TRANSACTION_INFO {
            let (info, behind) = find_id(value);
            self.transaction_info = self.transaction_info.add(info);
            return behind;
        }
        if called == METER_VALUE {
            let (meter, behind) = find_meter(value);
            self.meter_value = self.meter_value.add(meter);
            return behind;
        }
        let (value, behind) = cut(value);
        // Kept: a call for each name, since each has a field of its own.
        self.event_type = note(self.event_type, called, value, EVENT_TYPE);
        self.timestamp = note(self.timestamp, called, value, TIMESTAMP);
        self.trigger_reason = note(self.trigger_reason, called, value, TRIGGER_REASON);
        self.seq_no = note(self.seq_no, called, value, SEQ_NO);
        self.offline = note(self.offline, called, value, OFFLINE);
        behind
    }
}

// What stands under each name that is read among the members after the payload's brace; also what follows the payload.
pub fn find_all<'a>(s: &'a [u8]) -> (Payload<'a>, &'a [u8])
    ensures { ThroughObject (λ ms found. FoundAll found ms) s.now result.0 result.1.now }
{
    let mut found = Payload {
        event_type: Slot::Missing,
        timestamp: Slot::Missing,
        trigger_reason: Slot::Missing,
        seq_no: Slot::Missing,
        offline: Slot::Missing,
        transaction_info: Slot::Missing,
        meter_value: Slot::Missing,
    };
    let behind = collect(&mut found, s);
    (found, behind)
}

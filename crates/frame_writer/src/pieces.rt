// The pieces of a frame, each pushed behind the draft's text.
// Kept: the room that a piece needs stands in its contract, since each needs its own; and a draft and a timestamp are two
// parameters, since one is written to and the other read.
ghost use Rattle.std.specs.Prelude.{◌≡◌, ◌+◌, ◌≤◌, ◌++◌, length, Some};
ghost use Rattle.draft.specs.Growing.{most, text_in};
ghost use Rattle.frame_writer.specs.Compact.{members, other_members};
ghost use Rattle.frame_writer.specs.Tree.{bytes_of, message_id, meter_value, payload_with};
ghost use Rattle.ids.specs.Ids.{id_text};
ghost use Rattle.json_text.specs.Grammar.Membs.{no_memb};

use crate::words::flag_word;
use draft::Draft;
use event::{Event, Named, Register, Transmission};

// The transaction id: station and session. Kept: a line of a statement pushes an id by the same three calls; `ids` knows no
// drafts and `draft` no ids.
fn push_id(draft: &mut Draft, station: u16, session: u32)
    requires { length (text_in draft.old) + 14 ≤ most }
    ensures { text_in draft.new ≡ text_in draft.old ++ id_text station session }
{
    draft.push_fixed(5, u64::from(station));
    draft.push(b'-');
    draft.push_fixed(8, u64::from(session));
}

// The message id: the transaction id, the number and the attempt.
fn push_message_id(draft: &mut Draft, transmission: Transmission)
    requires { length (text_in draft.old) + 22 ≤ most }
    ensures { text_in draft.new ≡ text_in draft.old ++ message_id transmission }
{
    let event = transmission.event;
    push_id(draft, event.station, event.session);
    draft.push(b'-');
    draft.push_fixed(4, u64::from(event.number));
    draft.push(b'-');
    draft.push_fixed(2, u64::from(transmission.attempt));
}

// The members of every payload; the stamp is the text of the event's time.
fn push_event(draft: &mut Draft, event: Event, stamp: &[u8; 20])
    requires { length (text_in draft.old) + 200 ≤ most }
    ensures text { text_in draft.new ≡ text_in draft.old ++ members (payload_with stamp.now event no_memb) }
    ensures long { length (text_in draft.new) ≤ length (text_in draft.old) + 200 }
{
    draft.push_text(b"\"eventType\":\"");
    draft.push_text(event.kind.name().as_bytes());
    draft.push_text(b"\",\"timestamp\":\"");
    draft.push_text(stamp);
    draft.push_text(b"\",\"triggerReason\":\"");
    draft.push_text(event.reason.name().as_bytes());
    draft.push_text(b"\",\"seqNo\":");
    draft.push_plain(u64::from(event.number));
    draft.push_text(b",\"offline\":");
    draft.push_text(flag_word(event.offline));
    draft.push_text(b",\"transactionInfo\":{\"transactionId\":\"");
    push_id(draft, event.station, event.session);
    draft.push_text(b"\"}");
}

// The member that tells the register.
fn push_meter(draft: &mut Draft, stamp: &[u8; 20], wh: Register)
    requires { length (text_in draft.old) + 150 ≤ most }
    ensures text { text_in draft.new ≡ text_in draft.old ++ other_members (meter_value stamp.now (Some wh)) }
    ensures long { length (text_in draft.new) ≤ length (text_in draft.old) + 150 }
{
    draft.push_text(b",\"meterValue\":[{\"timestamp\":\"");
    draft.push_text(stamp);
    draft.push_text(b"\",\"sampledValue\":[{\"value\":");
    draft.push_plain(wh);
    draft.push_text(b",\"measurand\":\"Energy.Active.Import.Register\"}]}]");
}

// The member that tells the register, or nothing where it is absent.
fn push_register(draft: &mut Draft, stamp: &[u8; 20], register: Option<Register>)
    requires { length (text_in draft.old) + 150 ≤ most }
    ensures text { text_in draft.new ≡ text_in draft.old ++ other_members (meter_value stamp.now register) }
    ensures long { length (text_in draft.new) ≤ length (text_in draft.old) + 150 }
{
    if let Some(wh) = register {
        push_meter(draft, stamp, wh);
    }
}

// The whole frame.
pub(crate) fn frame(transmission: Transmission, stamp: &[u8; 20]) -> Draft
    ensures { text_in result ≡ bytes_of stamp.now transmission }
{
    let mut draft = Draft::new();
    draft.push_text(b"[2,\"");
    push_message_id(&mut draft, transmission);
    draft.push_text(b"\",\"TransactionEvent\",{");
    push_event(&mut draft, transmission.event, stamp);
    push_register(&mut draft, stamp, transmission.event.register);
    draft.push_text(b"}]");
    draft
}

// Transaction ids: a station and a session as `00017-00000003`. Message ids have number and attempt, too.
#![tactic(auto)]

mod message;

ghost use Rattle.std.specs.Prelude.{◌≡◌, Decides, MatchOption};
ghost use Rattle.ids.specs.Ids.{NotWritten, Possible, ReadsId, Written};

use crate::message::{take_last, take_lead};
pub use message::MessageId;
use refusal::Refusal;
use std::fmt;

#[derive(Clone, Copy, Default)]
pub struct TransactionId {
    pub station: u16,
    pub session: u32,
}

// There is such a station, and such a session at it; eight digits keep the session below its limit.
fn possible(station: u64, session: u64) -> bool
    ensures { Decides result (Possible station session) }
{
    station <= u64::from(u16::MAX) && session >= 1
}

// The numbers of a station and a session in five digits, a hyphen and eight digits.
fn numbers(text: &[u8]) -> Option<(u64, u64)>
    ensures { MatchOption result (NotWritten text.now) (λ p. Written text.now p.0 p.1) }
{
    let station = take_lead::<5>(text)?;
    let session = take_last::<8>(station.rest)?;
    Some((station.number, session))
}

// Five digits, a hyphen, eight digits: 56 for any other text, 1 where no station or session has such a number.
impl TryFrom<&[u8]> for TransactionId {
    type Error = Refusal;

    ghost try_from_gives = { λ text. ReadsId text.now };

    fn try_from(text: &[u8]) -> Result<TransactionId, Refusal> {
        let (station, session) = numbers(text).ok_or(Refusal::BadValue)?;
        if !possible(station, session) {
            return Err(Refusal::OutOfRange);
        }
        Ok(TransactionId {
            station: station as u16,
            session: session as u32,
        })
    }
}

impl TransactionId {
    // The same, by name.
    pub fn read(text: &[u8]) -> Result<TransactionId, Refusal>
        ensures { ReadsId text.now result }
    {
        TransactionId::try_from(text)
    }
}

impl fmt::Display for TransactionId {
    fn fmt<W: fmt::Write>(&self, f: &mut fmt::Formatter<W>) -> fmt::Result {
        write!(f, "{:05}-{:08}", self.station, self.session)
    }
}

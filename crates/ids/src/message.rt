// Message ids: station, session, number and attempt as `00017-00000003-0000-01`.
ghost use Rattle.std.specs.Prelude.{◌≡◌, ℕ, ◌<◌, ◌≤◌, List, ◌∷◌, ◌++◌, MatchOption};
ghost use Rattle.ids.specs.Ids.{Digits, Leads, MessageWritten, NoDigits, NoLead, NoMessage};

use decimal::fixed_value;

// The numbers of a message id, each as large as its digits can write.
#[derive(Clone, Copy)]
pub struct MessageId {
    pub station: u64,
    pub session: u64,
    pub number: u64,
    pub attempt: u64,
}

// A number at the front of bytes, and what follows the hyphen after it.
#[derive(Clone, Copy)]
pub(crate) struct Lead<'a> {
    pub number: u64,
    pub rest: &'a [u8],
}

// N digits and a hyphen.
pub(crate) fn take_lead<const N: usize>(text: &[u8]) -> Option<Lead<'_>>
    requires { (0 < N) × (N ≤ 18) }
    ensures { MatchOption result (NoLead N text.now) (λ lead. Leads N text.now lead.number lead.rest.now) }
{
    let (digits, behind) = text.split_first_chunk::<N>()?;
    let [b'-', rest @ ..] = behind else {
        return None;
    };
    let number = fixed_value(digits)?;
    Some(Lead { number, rest })
}

// N digits and no more.
pub(crate) fn take_last<const N: usize>(text: &[u8]) -> Option<u64>
    requires { (0 < N) × (N ≤ 18) }
    ensures { MatchOption result (NoDigits N text.now) (Digits N text.now) }
{
    if text.len() != N {
        return None;
    }
    fixed_value(text)
}

impl MessageId {
    // Five digits, a hyphen, eight digits, a hyphen, four digits, a hyphen and two digits; nothing for any other text.
    // Kept: there is one reason for nothing, and `TryFrom` would want a type for it, as `Option` does not.
    pub fn read(text: &[u8]) -> Option<MessageId>
        ensures { MatchOption result (NoMessage text.now) (MessageWritten text.now) }
    {
        let station = take_lead::<5>(text)?;
        let session = take_lead::<8>(station.rest)?;
        let number = take_lead::<4>(session.rest)?;
        Some(MessageId {
            station: station.number,
            session: session.number,
            number: number.number,
            attempt: take_last::<2>(number.rest)?,
        })
    }
}

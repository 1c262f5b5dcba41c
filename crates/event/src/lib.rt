// Transaction events of charging stations: what they are, which are lawful, their key numbers, and the search by key.
#![tactic(auto)]

mod events;
mod keys;
mod names;
mod search;

pub use events::{
    Answer, Event, EventType, LARGEST_REGISTER, LAST_ATTEMPT, LAST_NUMBER, LAST_SESSION, LAST_TIME,
    Register, Transmission, TriggerReason, Verdict,
};
pub use keys::{EventId, key_number, session_key};
pub use names::{Named, find_named};
pub use search::{Keyed, find};

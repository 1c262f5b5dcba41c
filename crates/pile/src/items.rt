// What the piles carry: transmissions and answers that differ in their number alone.
use event::{Answer, Event, Transmission, Verdict};

pub const SESSION: u32 = 7;

pub const STATION: u16 = 17;

// Lawful for the numbers 1 to 9,999.
pub fn transmission(number: u16) -> Transmission {
    let event = Event {
        station: STATION,
        session: SESSION,
        number,
        time: 825_670_800,
        offline: true,
        ..Event::default()
    };
    Transmission { event, attempt: 1 }
}

pub fn answer(number: u16) -> Answer {
    Answer {
        station: STATION,
        session: SESSION,
        number,
        attempt: 1,
        verdict: Verdict::CallResult,
    }
}

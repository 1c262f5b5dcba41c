// The names that OCPP gives to the kinds of an event, and reading them.
ghost use Rattle.std.specs.Prelude.{◌≡◌, ◌≢◌, List, ℕ, MatchOption, Some, All, Contains};
ghost use Rattle.event.specs.Names.{reason_text, type_text};

use crate::events::{EventType, TriggerReason};
use std::fmt;

// A kind that OCPP has a name for.
pub trait Named: Copy {
    ghost named: { Self → List ℕ };

    // Every kind.
    fn all() -> &'static [Self]
        ensures { (kind : Self) → Contains result.now kind };

    fn name(self) -> &'static str
        ensures { result.now ≡ named self };
}

impl Named for EventType {
    ghost named = { type_text };

    fn all() -> &'static [EventType] {
        &[EventType::Started, EventType::Updated, EventType::Ended]
    }

    fn name(self) -> &'static str {
        match self {
            EventType::Started => "Started",
            EventType::Updated => "Updated",
            EventType::Ended => "Ended",
        }
    }
}

// Kept: tables, as for the event types, of other names.
impl Named for TriggerReason {
    ghost named = { reason_text };

    fn all() -> &'static [TriggerReason] {
        &[
            TriggerReason::CablePluggedIn,
            TriggerReason::MeterValuePeriodic,
            TriggerReason::EVDeparted,
        ]
    }

    fn name(self) -> &'static str {
        match self {
            TriggerReason::CablePluggedIn => "CablePluggedIn",
            TriggerReason::MeterValuePeriodic => "MeterValuePeriodic",
            TriggerReason::EVDeparted => "EVDeparted",
        }
    }
}

// The first of the kinds that has this name.
fn first_named<K: Named>(kinds: &[K], text: &[u8]) -> Option<K>
    ensures { MatchOption result (All (λ kind. text.now ≢ K.named kind) kinds.now) (λ kind. text.now ≡ K.named kind) }
{
    kinds
        .iter()
        .copied()
        .find(|kind| kind.name().as_bytes() == text)
}

// The kind that has this name; nothing where the text is no name.
pub fn find_named<K: Named + 'static>(text: &[u8]) -> Option<K>
    ensures { MatchOption result ((kind : K) → text.now ≢ K.named kind) (λ kind. text.now ≡ K.named kind) }
{
    first_named(K::all(), text)
}

impl fmt::Display for EventType {
    ghost output = { λ kind. Some (type_text kind) };

    fn fmt<W: fmt::Write>(&self, f: &mut fmt::Formatter<W>) -> fmt::Result {
        let kind = self.name();
        f.write_str(kind)
    }
}

impl fmt::Display for TriggerReason {
    ghost output = { λ reason. Some (reason_text reason) };

    fn fmt<W: fmt::Write>(&self, f: &mut fmt::Formatter<W>) -> fmt::Result {
        let reason = self.name();
        f.write_str(reason)
    }
}

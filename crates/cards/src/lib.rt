// The examination's worked examples, as one proved list.
#![tactic(auto)]

ghost use Rattle.std.specs.Prelude.{◌≡◌};
ghost use Rattle.cards.specs.Cards.{Cards};

const COUNT: u32 = 13;

// Each worked example holds of the definitions that the program is proved against; the answer is how many there are.
pub fn worked_examples() -> u32
    ensures stand { Cards }
    ensures count { result ≡ 13 }
{
    COUNT
}

// The search by key, at two kinds of record, and the written frame.
#[cfg(test)]
mod tests {
    use event::{Answer, Event, EventType, Transmission, TriggerReason, Verdict, find, key_number};
    use std::test::Fail;

    fn update(session: u32, number: u16) -> Event {
        Event {
            station: 17,
            session,
            number,
            kind: EventType::Updated,
            time: 825_670_800,
            offline: false,
            register: None,
            reason: TriggerReason::MeterValuePeriodic,
        }
    }

    fn result(session: u32, number: u16) -> Answer {
        Answer {
            station: 17,
            session,
            number,
            attempt: 1,
            verdict: Verdict::CallResult,
        }
    }

    #[test]
    fn finds_events(rt: HostRuntime) {
        let events = [update(3, 1), update(3, 2), update(4, 1), update(3, 2)];
        assert_eq!(rt; find(&events, key_number(17, 3, 2)), Some(1));
        assert_eq!(rt; find(&events, key_number(17, 4, 1)), Some(2));
        assert_eq!(rt; find(&events, key_number(18, 3, 1)), None);
    }

    #[test]
    fn finds_answers(rt: HostRuntime) {
        let answers = [result(3, 0), result(3, 1)];
        assert_eq!(rt; find(&answers, key_number(17, 3, 1)), Some(1));
        assert_eq!(rt; find(&answers, key_number(17, 1, 3)), None);
    }

    const FRAME: &[u8] =
        b"[2,\"00017-00000003-0000-01\",\"TransactionEvent\",{\"eventType\":\"Started\",\"timestamp\":\"2026-03-01T09:00:00Z\",\"triggerReason\":\"CablePluggedIn\",\"seqNo\":0,\"offline\":false,\"transactionInfo\":{\"transactionId\":\"00017-00000003\"},\"meterValue\":[{\"timestamp\":\"2026-03-01T09:00:00Z\",\"sampledValue\":[{\"value\":1250,\"measurand\":\"Energy.Active.Import.Register\"}]}]}]";

    #[test]
    fn writes_and_reads_a_frame(rt: HostRuntime) -> Result<(), Fail> {
        let event = Event {
            number: 0,
            kind: EventType::Started,
            register: Some(1_250),
            reason: TriggerReason::CablePluggedIn,
            ..update(3, 0)
        };
        let mut buffer = [7; 350];
        let length = frame_writer::write(Transmission { event, attempt: 1 }, &mut buffer).ok();
        assert_eq!(rt; length, Some(346));
        assert!(rt; &buffer[..346] == FRAME);
        assert_eq!(rt; buffer[346], 7);
        match frame_reader::read(FRAME) {
            Ok(read) => {
                assert!(rt; read.event == event && read.attempt == 1);
                Ok(())
            },
            Err(why) => {
                assert_eq!(rt; why.number(), 0);
                Ok(())
            },
        }
    }
}

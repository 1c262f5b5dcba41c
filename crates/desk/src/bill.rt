// The statement of frames, one on each line, and the report on them.
use crate::refused::Refused;
use anyhow::bail;
use event::Event;
use ids::TransactionId;
use ledger::{Ledger, MOST_EVENTS, MOST_ROWS, Row, Taken};
use refusal::Refusal;
use split::Pieces;
use std::alloc::Global;
use std::io::Write;
use std::{fmt, io};

#[derive(Clone, Copy, Default)]
struct Tally {
    frames: u64,
    held: u64,
    repeats: u64,
}

impl fmt::Display for Tally {
    fn fmt<W: fmt::Write>(&self, f: &mut fmt::Formatter<W>) -> fmt::Result {
        writeln!(f, "frames read:      {:>10}", self.frames)?;
        writeln!(f, "events held:      {:>10}", self.held)?;
        write!(f, "repeats:          {:>10}", self.repeats)
    }
}

// Reads the frame, takes its event, and counts it.
fn take_line(ledger: &mut Ledger<'_>, tally: &mut Tally, line: &[u8]) -> Result<(), Refusal> {
    let transmission = frame_reader::read(line)?;
    tally.frames = tally.frames.saturating_add(1);
    match ledger.take(transmission.event)? {
        Taken::Held => tally.held = tally.held.saturating_add(1),
        Taken::Repeat => tally.repeats = tally.repeats.saturating_add(1),
    }
    Ok(())
}

// Takes the events of all lines; gives the lines that were refused.
fn take_all(
    heap: Global,
    ledger: &mut Ledger<'_>,
    tally: &mut Tally,
    text: &[u8],
) -> anyhow::Result<Vec<Refused>> {
    let mut refused = Vec::new(heap);
    for (line, frame) in (1..).zip(Pieces::of(text, b'\n')) {
        if let Err(why) = take_line(ledger, tally, frame) {
            refused.push(Refused { line, why })?;
        }
    }
    Ok(refused)
}

// No statement is longer: a line for each row, and the total line, none longer than 1,024 bytes.
const LONGEST_STATEMENT: usize = 1_050_000;

fn print_statement<W: Write>(
    out: &mut W,
    heap: Global,
    ledger: &Ledger<'_>,
    price: u64,
) -> anyhow::Result<()> {
    let mut buffer = vec![in heap; 0u8; LONGEST_STATEMENT]?;
    let Ok(length) = statement::write(ledger, price, buffer.as_mut_slice()) else {
        bail!("the statement is too long to be written");
    };
    buffer.truncate(length);
    out.write_all(buffer.as_slice())?;
    Ok(())
}

fn print_report<W: Write>(out: &mut W, tally: &Tally, refused: &[Refused]) -> io::Result<()> {
    writeln!(out)?;
    for one in refused {
        writeln!(out, "{one}")?;
    }
    writeln!(out, "{tally}")?;
    writeln!(out, "refused:          {:>10}", refused.len())
}

pub fn report<W: Write>(out: &mut W, heap: Global, text: &[u8], price: u64) -> anyhow::Result<()> {
    let mut events = vec![in heap; Event::default(); MOST_EVENTS]?;
    let mut rows = vec![in heap; Row::new(TransactionId::default()); MOST_ROWS]?;
    let mut ledger = Ledger::open(events.as_mut_slice(), rows.as_mut_slice());
    let mut tally = Tally::default();
    let refused = take_all(heap, &mut ledger, &mut tally, text)?;
    print_statement(out, heap, &ledger, price)?;
    print_report(out, &tally, refused.as_slice())?;
    Ok(())
}

// The report on frames, one on each line.
use crate::refused::Refused;
use event::Transmission;
use split::Pieces;
use std::fmt;
use std::io::Write;

// What a frame says, in plain words.
#[derive(Clone, Copy)]
struct Told {
    line: usize,
    transmission: Transmission,
}

impl fmt::Display for Told {
    fn fmt<W: fmt::Write>(&self, f: &mut fmt::Formatter<W>) -> fmt::Result {
        let Transmission { event, attempt } = self.transmission;
        write!(
            f,
            "line {}: station {}, session {}, number {}, attempt {attempt}: {} at ",
            self.line, event.station, event.session, event.number, event.kind
        )?;
        if let Ok(stamp) = calendar::write(event.time)
            && let Ok(stamp) = str::from_utf8(&stamp)
        {
            f.write_str(stamp)?;
        }
        write!(f, ", {}", event.reason)?;
        match event.register {
            Some(register) => write!(f, ", register {register} Wh")?,
            None => f.write_str(", no register")?,
        }
        f.write_str(if event.offline { ", offline" } else { "" })
    }
}

pub fn report<W: Write>(out: &mut W, text: &[u8]) -> anyhow::Result<()> {
    let mut read: u64 = 0;
    let mut refused: u64 = 0;
    for (line, frame) in (1..).zip(Pieces::of(text, b'\n')) {
        match frame_reader::read(frame) {
            Ok(transmission) => {
                writeln!(out, "{}", Told { line, transmission })?;
                read = read.saturating_add(1);
            }
            Err(why) => {
                writeln!(out, "{}", Refused { line, why })?;
                refused = refused.saturating_add(1);
            }
        }
    }
    writeln!(out)?;
    writeln!(out, "frames read:      {read:>10}")?;
    writeln!(out, "frames refused:   {refused:>10}")?;
    Ok(())
}

// A ring of answers, alone.
use crate::demo::write_title;
use crate::items::answer;
use channel::{Channel, RING_LAYER, Ring};
use event::Answer;
use std::io;
use std::io::Write;

fn send<W: Write>(out: &mut W, ring: &mut Ring<'_, Answer>, number: u16) -> io::Result<()> {
    match ring.send(answer(number)) {
        Ok(()) => writeln!(out, "  send the answer to {number}: accepted"),
        Err(full) => writeln!(
            out,
            "  send the answer to {number}: refused by layer {}",
            full.layer
        ),
    }
}

fn receive<W: Write>(out: &mut W, ring: &mut Ring<'_, Answer>) -> io::Result<()> {
    match ring.receive() {
        Some(answer) => writeln!(out, "  receive: the answer to {}", answer.number),
        None => writeln!(out, "  receive: nothing"),
    }
}

pub fn show<W: Write>(out: &mut W) -> io::Result<()> {
    write_title(out, "A ring of answers, with 2 places")?;
    writeln!(out, "  layer {RING_LAYER}")?;
    let mut memory = [answer(0); 2];
    let mut ring = Ring::open(&mut memory);
    receive(out, &mut ring)?;
    send(out, &mut ring, 1)?;
    send(out, &mut ring, 2)?;
    send(out, &mut ring, 3)?;
    receive(out, &mut ring)?;
    send(out, &mut ring, 3)?;
    for _turn in 0..3 {
        receive(out, &mut ring)?;
    }
    Ok(())
}

// A pile that is shown at work: each step is a line, and after it what the pile has.
use crate::items::{SESSION, transmission};
use crate::pile::Pile;
use event::Transmission;
use refusal::{Fault, Refusal};
use std::io::Write;
use std::{fmt, io};

// ` 1 1 2`, or ` nothing`
#[derive(Clone, Copy)]
struct Numbers<'a>(&'a [Transmission], &'a [Transmission]);

impl<'a> fmt::Display for Numbers<'a> {
    fn fmt<W: fmt::Write>(&self, f: &mut fmt::Formatter<W>) -> fmt::Result {
        if self.0.is_empty() && self.1.is_empty() {
            return write!(f, " nothing");
        }
        for item in self.0.iter().chain(self.1) {
            write!(f, " {}", item.event.number)?;
        }
        Ok(())
    }
}

// A title with an empty line before it.
pub fn write_title<W: Write>(out: &mut W, title: &str) -> io::Result<()> {
    writeln!(out)?;
    writeln!(out, "{title}")
}

#[derive(Drop)]
pub struct Demo<'o, W, P> {
    out: &'o mut W,
    pub pile: P,
}

impl<'o, W: Write, P: Pile + Drop> Demo<'o, W, P> {
    // The title and the layers.
    pub fn begin(out: &'o mut W, title: &str, pile: P) -> io::Result<Demo<'o, W, P>> {
        write_title(out, title)?;
        write!(out, "  ")?;
        pile.write_layers(out)?;
        writeln!(out)?;
        Ok(Demo { out, pile })
    }

    // `      at the bottom 1 1 2; held 3; free count 30`
    fn write_state(&mut self) -> io::Result<()> {
        let (first, second) = self.pile.bottom();
        let bottom = Numbers(first, second);
        let held = Numbers(self.pile.held(), &[]);
        let free = self.pile.free_count();
        writeln!(
            self.out,
            "      at the bottom{bottom}; held{held}; free count {free}"
        )
    }

    // Sends the transmission and tells no state. A refusal names the layer that refused, with the session and the number.
    fn try_send(&mut self, number: u16) -> io::Result<()> {
        let fault = match self.pile.send(transmission(number)) {
            Ok(()) => return writeln!(self.out, "  send {number}: accepted"),
            Err(full) => Fault {
                layer: full.layer,
                session: SESSION,
                number,
            },
        };
        let why = Refusal::UplinkFull(fault);
        writeln!(self.out, "  send {number}: refused {}: {why}", why.number())
    }

    pub fn send(&mut self, number: u16) -> io::Result<()> {
        self.try_send(number)?;
        self.write_state()
    }

    // Sends the numbers from 1 to the last.
    pub fn send_up_to(&mut self, last: u16) -> io::Result<()> {
        for number in 1..=last {
            self.try_send(number)?;
        }
        Ok(())
    }

    pub fn receive(&mut self) -> io::Result<()> {
        match self.pile.receive() {
            Some(transmission) => writeln!(self.out, "  receive: {}", transmission.event.number)?,
            None => writeln!(self.out, "  receive: nothing")?,
        }
        self.write_state()
    }

    // What was done with the pile from outside.
    pub fn told(&mut self, text: &str) -> io::Result<()> {
        writeln!(self.out, "  {text}")?;
        self.write_state()
    }
}

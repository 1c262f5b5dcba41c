// Piles of layers above a channel, of any height and order.
use channel::{Channel, Ring};
use event::Transmission;
use hall::Hall;
use layers::{Repeater, Spool};
use std::io;
use std::io::Write;

pub trait Pile: Channel<Item = Transmission> {
    // What waits at the bottom, the oldest first, in two parts.
    fn bottom(&self) -> (&[Transmission], &[Transmission]);

    // What a spool in the pile holds, the oldest first.
    fn held(&self) -> &[Transmission] {
        &[]
    }

    // The layer numbers, the top first.
    fn write_layers<W: Write>(&self, out: &mut W) -> io::Result<()> {
        write!(out, "layer {}", Self::LAYER)
    }
}

impl<'a> Pile for Ring<'a, Transmission> {
    fn bottom(&self) -> (&[Transmission], &[Transmission]) {
        self.waiting()
    }
}

impl<'a> Pile for Hall<'a, Transmission> {
    fn bottom(&self) -> (&[Transmission], &[Transmission]) {
        self.waiting()
    }
}

// Kept: the two lines on layers stand here and below; a function for both was tried, which leads back to the impls and so
// gets no proof.
impl<C: Pile> Pile for Repeater<C> {
    fn bottom(&self) -> (&[Transmission], &[Transmission]) {
        self.below.bottom()
    }

    fn held(&self) -> &[Transmission] {
        self.below.held()
    }

    fn write_layers<W: Write>(&self, out: &mut W) -> io::Result<()> {
        write!(out, "layer {} above ", Self::LAYER)?;
        self.below.write_layers(out)
    }
}

// No pile here has two spools; of two it would show the upper one's.
impl<C: Pile> Pile for Spool<C> {
    fn bottom(&self) -> (&[Transmission], &[Transmission]) {
        self.below.bottom()
    }

    fn held(&self) -> &[Transmission] {
        Spool::held(self)
    }

    fn write_layers<W: Write>(&self, out: &mut W) -> io::Result<()> {
        write!(out, "layer {} above ", Self::LAYER)?;
        self.below.write_layers(out)
    }
}

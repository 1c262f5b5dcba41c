// Piles above a ring: the bottom is closed while the ring is full, and opens as it is drained.
use crate::demo::Demo;
use crate::items::transmission;
use channel::Ring;
use layers::{Repeater, Spool};
use std::io;
use std::io::Write;

pub fn show_repeater<W: Write>(out: &mut W) -> io::Result<()> {
    let mut memory = [transmission(0); 5];
    let pile = Repeater::open(Ring::open(&mut memory), 2);
    let mut demo = Demo::begin(out, "A repeater (2 times) above a ring with 5 places", pile)?;
    demo.send(1)?;
    demo.send(2)?;
    demo.send(3)?;
    demo.receive()?;
    demo.send(3)?;
    demo.send(4)
}

pub fn show_repeater_spool<W: Write>(out: &mut W) -> io::Result<()> {
    let mut memory = [transmission(0); 3];
    let pile = Repeater::open(Spool::open(Ring::open(&mut memory)), 2);
    let title = "A repeater (2 times) above a spool above a ring with 3 places";
    let mut demo = Demo::begin(out, title, pile)?;
    demo.send_up_to(17)?;
    demo.send(18)?;
    demo.receive()?;
    demo.send(18)?;
    demo.send(19)
}

pub fn show_spool_repeater<W: Write>(out: &mut W) -> io::Result<()> {
    let mut memory = [transmission(0); 4];
    let pile = Spool::open(Repeater::open(Ring::open(&mut memory), 2));
    let title = "A spool above a repeater (2 times) above a ring with 4 places";
    let mut demo = Demo::begin(out, title, pile)?;
    for number in 1..=4 {
        demo.send(number)?;
    }
    demo.receive()?;
    demo.receive()?;
    demo.receive()?;
    demo.send(5)
}

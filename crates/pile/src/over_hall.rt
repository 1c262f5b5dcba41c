// A pile above the examination hall's channel, which is told to close, to reopen, to lose, to double and to reorder.
use crate::demo::Demo;
use crate::items::transmission;
use event::Transmission;
use hall::{Command, Hall};
use layers::{Repeater, Spool};
use std::io;
use std::io::Write;

type HallDemo<'o, 'a, W> = Demo<'o, W, Spool<Repeater<Hall<'a, Transmission>>>>;

fn tell<W: Write>(demo: &mut HallDemo<'_, '_, W>, command: Command) -> io::Result<()> {
    demo.pile.below.below.obey(command);
    demo.told(match command {
        Command::Carry => "the bottom is open and carries",
        Command::Lose => "the bottom loses",
        Command::Double => "the bottom doubles",
        Command::Reorder => "the bottom reorders",
        Command::Close => "the bottom is closed",
    })
}

pub fn show<W: Write>(out: &mut W) -> io::Result<()> {
    let mut memory = [transmission(0); 8];
    let pile = Spool::open(Repeater::open(Hall::open(&mut memory), 2));
    let title = "A spool above a repeater (2 times) above the hall's channel with 8 places";
    let mut demo = Demo::begin(out, title, pile)?;
    demo.send(1)?;
    tell(&mut demo, Command::Close)?;
    demo.send(2)?;
    demo.send(3)?;
    demo.receive()?;
    tell(&mut demo, Command::Carry)?;
    demo.send(4)?;
    for _turn in 0..3 {
        demo.receive()?;
    }
    tell(&mut demo, Command::Lose)?;
    demo.receive()?;
    tell(&mut demo, Command::Double)?;
    demo.receive()?;
    tell(&mut demo, Command::Reorder)?;
    demo.receive()?;
    demo.send(5)
}

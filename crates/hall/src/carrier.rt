// The channel of the examination hall: a ring that does not always do as a ring should.
ghost use Rattle.std.specs.Prelude.{◌≡◌, ◌<◌, [], ◌++◌, length};
ghost use Rattle.channel.specs.Places.{places};
ghost use Rattle.hall.specs.Hall.{Gives, HallReceives, HallSends, after_send, carried, free_in, hall_layer, hall_meaning, overtaking, then, with_command, with_waiting};
ghost use Rattle.hall.specs.declared.command.Command.TheVariants.{Carry as Carrying};

use crate::command::Command;
use channel::{Channel, Full, Ring};

pub const HALL_LAYER: u8 = 9;

#[derive(Drop)]
pub struct Hall<'a, T> {
    ring: Ring<'a, T>,
    command: Command,
}

impl<'a, T: Copy> Hall<'a, T> {
    // An empty channel over the memory, which carries faithfully until it is told otherwise.
    pub fn open(memory: &'a mut [T]) -> Hall<'a, T>
        ensures { carried result ≡ record { command = Carrying; room = places memory.old; waiting = [] } }
    {
        Hall {
            ring: Ring::open(memory),
            command: Command::Carry,
        }
    }

    // From now on the channel does as it is told. What waits stays as it is.
    pub fn obey(&mut self, command: Command)
        ensures { carried self.new ≡ with_command (carried self.old) command }
    {
        self.command = command;
    }

    // What waits, the oldest first, in two parts.
    pub fn waiting(&self) -> (&[T], &[T])
        ensures { result.0.now ++ result.1.now ≡ (carried self.now).waiting }
    {
        self.ring.waiting()
    }

    // Puts the item behind the others.
    fn put(&mut self, item: T)
        requires { length (carried self.old).waiting < (carried self.old).room }
        ensures { carried self.new ≡ with_waiting (carried self.old) (then (carried self.old).waiting item) }
    {
        self.ring.send(item).unwrap();
    }

    // Takes the first away.
    fn take(&mut self) -> Option<T>
        ensures gives { Gives Carrying (carried self.old).waiting result (carried self.new).waiting }
        ensures same { carried self.new ≡ with_waiting (carried self.old) (carried self.new).waiting }
    {
        self.ring.receive()
    }

    // Puts the item before all but the first, and that behind the others.
    fn overtake(&mut self, item: T)
        requires { 0 < free_in (with_command (carried self.old) Carrying) }
        ensures { carried self.new ≡ with_waiting (carried self.old) (overtaking item (carried self.old).waiting) }
    {
        let first = self.take();
        self.put(item);
        if let Some(first) = first {
            self.put(first);
        }
    }

    fn carry(&mut self, item: T)
        requires { 0 < free_in (carried self.old) }
        ensures { carried self.new ≡ with_waiting (carried self.old) (after_send (carried self.old).command item (carried self.old).waiting) }
    {
        match self.command {
            Command::Carry => self.put(item),
            Command::Double => {
                self.put(item);
                self.put(item);
            }
            Command::Reorder => self.overtake(item),
            Command::Lose | Command::Close => {}
        }
    }
}

impl<'a, T: Copy> Channel for Hall<'a, T> {
    type Item = T;

    const LAYER: u8 = HALL_LAYER;

    ghost meaning = { λ s. hall_meaning (carried s) };

    ghost layer = { hall_layer };

    ghost sends = { λ s item r s'. HallSends (carried s) item r (carried s') };

    ghost receives = { λ s r s'. HallReceives (carried s) r (carried s') };

    fn layer_number() -> u8 {
        HALL_LAYER
    }

    fn send(&mut self, item: T) -> Result<(), Full> {
        if self.free_count() == 0 {
            return Err(Full { layer: HALL_LAYER });
        }
        self.carry(item);
        Ok(())
    }

    fn receive(&mut self) -> Option<T> {
        match self.command {
            Command::Carry => self.take(),
            Command::Lose => {
                let _ = self.take();
                None
            }
            Command::Double => {
                let first = self.take()?;
                self.put(first);
                Some(first)
            }
            Command::Reorder => {
                let first = self.take()?;
                self.put(first);
                self.take()
            }
            Command::Close => None,
        }
    }

    fn free_count(&self) -> u32 {
        match self.command {
            Command::Close => 0,
            _ => self.ring.free_count() / 2,
        }
    }
}

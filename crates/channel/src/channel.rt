// What every channel does, whatever carries its items.
ghost use Rattle.std.specs.Prelude.{◌≡◌, ℕ, Option as Optional, Result as Outcome};
ghost use Rattle.channel.specs.Laws.{Meaning, Receives, Sends};
ghost use Rattle.channel.specs.declared.faults.Full.{Full as Fault};

use crate::faults::Full;

pub trait Channel {
    type Item: Copy;

    // the fixed layer number of this kind of channel
    const LAYER: u8;

    // what waits, the free count, and who would refuse now
    ghost meaning: { Self → Meaning Self.Item };

    // LAYER, for promises. Kept: a ghost constant of the same name, which the check would tie to LAYER, was tried; it gets no
    // proof in an impl with a lifetime, as the ring's.
    ghost layer: { ℕ };

    // what a send and a receive of this kind of channel do, beyond the laws of every channel
    ghost sends: { Self → Self.Item → Outcome (Unit {0}) Fault → Self → Type 0 };

    ghost receives: { Self → Optional Self.Item → Self → Type 0 };

    fn layer_number() -> u8
        ensures { result ≡ layer };

    fn send(&mut self, item: Self::Item) -> Result<(), Full>
        ensures law { Sends (meaning self.old) item result (meaning self.new) }
        ensures rule { sends self.old item result self.new };

    fn receive(&mut self) -> Option<Self::Item>
        ensures law { Receives (meaning self.old) result (meaning self.new) }
        ensures rule { receives self.old result self.new };

    // Changes nothing.
    fn free_count(&self) -> u32
        ensures { result ≡ (meaning self.now).free };
}

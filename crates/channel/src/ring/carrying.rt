// A ring as a channel.
ghost use Rattle.std.specs.Prelude.{◌≡◌};
ghost use Rattle.channel.specs.Ring.{RingReceives, RingSends, contents, ring_layer, ring_meaning};

use super::{RING_LAYER, Ring};
use crate::channel::Channel;
use crate::faults::Full;

impl<'a, T: Copy> Channel for Ring<'a, T> {
    type Item = T;

    const LAYER: u8 = RING_LAYER;

    ghost meaning = { λ s. ring_meaning (contents s) };

    ghost layer = { ring_layer };

    // over the same memory all along
    ghost sends = { λ s item r s'. RingSends (contents s) item r (contents s') × (s'.memory.ghost_name ≡ s.memory.ghost_name) };

    ghost receives = { λ s r s'. RingReceives (contents s) r (contents s') × (s'.memory.ghost_name ≡ s.memory.ghost_name) };

    fn layer_number() -> u8 {
        RING_LAYER
    }

    fn send(&mut self, item: T) -> Result<(), Full> {
        let places = self.places();
        let count = self.len();
        if count == places {
            return Err(Full { layer: RING_LAYER });
        }
        let start = self.start();
        let end = start + count;
        let place = if end < places { end } else { end - places };
        self.memory[place] = item;
        self.first = start;
        self.count = count + 1;
        Ok(())
    }

    fn receive(&mut self) -> Option<T> {
        let count = self.len();
        if count == 0 {
            return None;
        }
        let start = self.start();
        let item = self.memory[start];
        let next = start + 1;
        self.first = if next < self.places() { next } else { 0 };
        self.count = count - 1;
        Some(item)
    }

    fn free_count(&self) -> u32 {
        (self.places() - self.len()) as u32
    }
}

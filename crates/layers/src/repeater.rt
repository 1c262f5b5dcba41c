// The repeater: sends each item once, twice or three times.
ghost use Rattle.std.specs.Prelude.{◌≡◌};
ghost use Rattle.layers.specs.Below.{Got};
ghost use Rattle.layers.specs.Limits.{repeater_layer, times_for};
ghost use Rattle.layers.specs.Repeater.{RepeaterSends, repeater_meaning};

use channel::{Channel, Full};

pub const REPEATER_LAYER: u8 = 4;

#[derive(Drop)]
pub struct Repeater<C> {
    // the channel that it stands on, which its owner may also use itself
    pub below: C,
    // how often each item is sent: 0 counts as 1, more than 3 as 3
    // Kept: the number as it was given, and no invariant: it is clamped in one place either way.
    n: u32,
}

impl<C: Channel> Repeater<C> {
    // A repeater above the channel, for n times: 0 counts as 1, more than 3 as 3.
    pub fn open(below: C, n: u32) -> Repeater<C>
        ensures below { result.below ≡ below }
        ensures times { result.n ≡ n }
    {
        Repeater { below, n }
    }

    // How often each item is sent.
    pub fn times(&self) -> u32
        ensures { result ≡ times_for self.now.n }
    {
        self.n.clamp(1, 3)
    }
}

impl<C: Channel> Channel for Repeater<C> {
    type Item = C::Item;

    const LAYER: u8 = REPEATER_LAYER;

    ghost meaning = { λ s. repeater_meaning C.Channel (times_for s.n) s.below };

    ghost layer = { repeater_layer };

    ghost sends = { λ s item r s'. RepeaterSends C.Channel (times_for s.n) s.below item r s'.below × (s'.n ≡ s.n) };

    ghost receives = { λ s r s'. Got C.Channel s.below r s'.below × (s'.n ≡ s.n) };

    fn layer_number() -> u8 {
        REPEATER_LAYER
    }

    fn send(&mut self, item: C::Item) -> Result<(), Full> {
        let times = self.times();
        let free = self.below.free_count();
        if free > 0 && free < times {
            return Err(Full {
                layer: REPEATER_LAYER,
            });
        }
        for _copy in 0..times {
            self.below.send(item)?;
        }
        Ok(())
    }

    fn receive(&mut self) -> Option<C::Item> {
        self.below.receive()
    }

    fn free_count(&self) -> u32 {
        self.below.free_count() / self.times()
    }
}

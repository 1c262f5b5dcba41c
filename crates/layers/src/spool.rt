// The spool: holds transmissions while the channel below is closed.
ghost use Rattle.std.specs.Prelude.{◌≡◌, ◌≤◌, [], length};
ghost use Rattle.layers.specs.Limits.{spool_layer, spool_places};
ghost use Rattle.layers.specs.Spool.{Passes, SpoolReceives, SpoolSends, spool_meaning, spooled};

use arrayvec::ArrayVec;
use channel::{Channel, Full};
use event::Transmission;

pub const SPOOL_LAYER: u8 = 3;

// How many a spool can hold.
pub const SPOOL_PLACES: usize = 32;

#[derive(Drop)]
pub struct Spool<C> {
    // the channel that it stands on, which its owner may also use itself
    pub below: C,
    // the oldest first
    held: ArrayVec<Transmission, SPOOL_PLACES>,
}

impl<C: Channel<Item = Transmission>> Spool<C> {
    // A spool above the channel, which holds nothing yet.
    pub fn open(below: C) -> Spool<C>
        ensures { spooled result ≡ record { below = below; held = [] } }
    {
        Spool {
            below,
            held: ArrayVec::new(),
        }
    }

    // The held transmissions, the oldest first.
    pub fn held(&self) -> &[Transmission]
        ensures held { result.now ≡ (spooled self.now).held }
        ensures fits { length result.now ≤ spool_places }
    {
        self.held.as_slice()
    }

    // Passes the oldest down while any is held and below is open. Kept: they go by their place and are taken off at once at
    // the end, since to take the first off moves all that is held each time; and in a `for` over what is held, which is lent out
    // then, the proof has no hold of the channel beside it.
    fn pass_down(&mut self)
        ensures passes { Passes C.Channel (spooled self.old) (spooled self.new) }
        ensures fits { length (spooled self.old).held ≤ spool_places }
    {
        let count = self.held.len();
        let mut passed = 0;
        while passed < count && self.below.free_count() > 0 {
            let oldest = self.held.as_slice()[passed];
            self.below.send(oldest).unwrap();
            passed += 1;
        }
        self.held.as_mut_slice().rotate_left(passed);
        self.held.truncate(count - passed);
    }
}

impl<C: Channel<Item = Transmission>> Channel for Spool<C> {
    type Item = Transmission;

    const LAYER: u8 = SPOOL_LAYER;

    ghost meaning = { λ s. spool_meaning C.Channel (spooled s) };

    ghost layer = { spool_layer };

    ghost sends = { λ s item r s'. SpoolSends C.Channel (spooled s) item r (spooled s') };

    ghost receives = { λ s r s'. SpoolReceives C.Channel (spooled s) r (spooled s') };

    fn layer_number() -> u8 {
        SPOOL_LAYER
    }

    fn send(&mut self, item: Transmission) -> Result<(), Full> {
        self.pass_down();
        if self.held.is_empty() && self.below.free_count() > 0 {
            return self.below.send(item);
        }
        if self.held.is_full() {
            return Err(Full { layer: SPOOL_LAYER });
        }
        self.held.push(item);
        Ok(())
    }

    fn receive(&mut self) -> Option<Transmission> {
        self.pass_down();
        self.below.receive()
    }

    fn free_count(&self) -> u32 {
        let own = self.held.remaining_capacity() as u32;
        self.below.free_count().saturating_add(own)
    }
}

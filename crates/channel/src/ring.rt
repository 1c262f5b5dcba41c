// The ring: first in, first out, over lent memory.
ghost use Rattle.std.specs.Prelude.{◌<◌, ◌≤◌, max};
ghost use Rattle.channel.specs.Places.{places};

mod calls;
mod carrying;

pub const RING_LAYER: u8 = 1;

// A ring uses no more than so many places of the memory that it is lent.
pub const MOST_PLACES: usize = 4_096;

// Kept: a slice, a first place and a count, and no collection of the library, since the memory is lent and holds the items.
#[derive(Drop)]
pub struct Ring<'a, T> {
    // all that was lent; past the first 4,096 places it is never touched
    memory: &'a mut [T],
    // the used place where the item stands that has waited longest; 0 where no place is used
    first: usize,
    // how many wait
    count: usize,
    ghost begins: { first < max 1 (places memory.now) },
    ghost counted: { count ≤ places memory.now },
}

// A ring as its owner sees it.
ghost use Rattle.std.specs.Prelude.{◌≡◌, ◌≤◌, ◌++◌, length};
ghost use Rattle.channel.specs.Places.{places as usable};
ghost use Rattle.channel.specs.Ring.{Opened, Starts, contents};

use super::{MOST_PLACES, Ring};

impl<'a, T: Copy> Ring<'a, T> {
    // An empty ring over the first 4,096 places of the memory, or over all where there are fewer.
    pub fn open(memory: &'a mut [T]) -> Ring<'a, T>
        ensures opened { Opened memory.old (contents result) }
        ensures lent { result.memory.ghost_name ≡ memory.entry.ghost_name }
    {
        Ring {
            memory,
            first: 0,
            count: 0,
        }
    }

    // All of the memory that the ring was lent.
    pub fn memory(&self) -> &[T]
        ensures { result.now ≡ (contents self.now).memory }
    {
        &*self.memory
    }

    // What waits, the oldest first, in two parts: up to the end of the places, and on from their start.
    pub fn waiting(&self) -> (&[T], &[T])
        ensures { result.0.now ++ result.1.now ≡ (contents self.now).waiting }
    {
        let places = self.places();
        let start = self.start();
        let end = start + self.len();
        if end <= places {
            (&self.memory[start..end], &self.memory[0..0])
        } else {
            (&self.memory[start..places], &self.memory[0..end - places])
        }
    }

    // How many places are used. Kept: a ledger has the same expression for its two memories, and one expression is all.
    pub(super) fn places(&self) -> usize
        ensures { result ≡ usable (contents self.now).memory }
    {
        self.memory.len().min(MOST_PLACES)
    }

    // How many wait.
    pub(super) fn len(&self) -> usize
        ensures count { result ≡ length (contents self.now).waiting }
        ensures fits { result ≤ usable (contents self.now).memory }
    {
        self.count
    }

    // The used place where the oldest stands.
    pub(super) fn start(&self) -> usize
        ensures { Starts (contents self.now) result }
    {
        self.first
    }
}

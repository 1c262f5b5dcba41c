// Channels: what carries items from one side to another, and the ring, the channel at the bottom of every pile.
#![tactic(auto)]

mod channel;
mod faults;
mod ring;

pub use channel::Channel;
pub use faults::Full;
pub use ring::{MOST_PLACES, RING_LAYER, Ring};

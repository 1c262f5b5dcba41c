// Layers: channels that stand above any other channel, in piles of any height and order.
#![tactic(auto)]

mod repeater;
mod spool;

pub use repeater::{REPEATER_LAYER, Repeater};
pub use spool::{SPOOL_LAYER, SPOOL_PLACES, Spool};

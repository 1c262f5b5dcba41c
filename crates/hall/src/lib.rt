// The examination hall's channel, which loses, doubles and reorders what it carries when it is told to.
#![tactic(auto)]

mod carrier;
mod command;

pub use carrier::{HALL_LAYER, Hall};
pub use command::Command;

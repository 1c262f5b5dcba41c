// Frames: the JSON text of a transmission.
#![tactic(auto)]

mod array;
mod call;
mod elements;
mod members;
mod slot;
mod texts;
mod walk;

pub use array::{find_call, open_call};
pub use call::Parts;
pub use members::{find_inside, find_member, note, optional, required};
pub use slot::Slot;
pub use texts::{is_string, is_two, string_bytes};
pub use walk::{Collects, after, collect, cut};

// Scans bytes for JSON, one after the other.
ghost use Rattle.std.specs.Prelude.{◌≤◌};
ghost use Rattle.arrayvec.specs.ArrayVec.{array_vec_len};

use crate::mode::{Container, Mode};
use arrayvec::ArrayVec;

// How many arrays and objects may be open at once.
pub const DEEPEST: usize = 8;

// What has been read, as far as it matters to what may follow.
#[derive(Drop)]
pub struct Scanner<'a> {
    pub mode: Mode,
    // what is open, the innermost last; lent, since beside an array that is indexed the mode would stay in memory
    pub containers: &'a mut ArrayVec<Container, DEEPEST>,
    ghost shallow: { array_vec_len containers.now ≤ 8 },
}

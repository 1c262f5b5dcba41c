// What the channel is told to do with what it carries.

#[derive(Clone, Copy)]
pub enum Command {
    // first in, first out
    Carry,
    // what is sent or would be received is lost
    Lose,
    // what is sent waits twice, and what is received waits still
    Double,
    // what is sent waits first, and what waits last is received
    Reorder,
    // nothing is taken and nothing given
    Close,
}

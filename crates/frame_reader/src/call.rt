// What is found of the array of four.
use crate::payload::Payload;

// The message id, without its quotes, and what was found in the payload. Kept: beside `frame`'s, which has the payload's
// bytes; a parameter for the payload would stand in every clause that names either.
#[derive(Clone, Copy)]
pub struct Parts<'a> {
    pub id: &'a [u8],
    pub payload: Payload<'a>,
}

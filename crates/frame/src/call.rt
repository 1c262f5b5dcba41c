// The array of four.

// The first three values of an array, and what begins with the fourth.
#[derive(Clone, Copy)]
pub struct Four<'a> {
    pub first: &'a [u8],
    pub second: &'a [u8],
    pub third: &'a [u8],
    pub fourth: &'a [u8],
}

// The message id, without its quotes, and the payload, or what begins with it.
#[derive(Clone, Copy)]
pub struct Parts<'a> {
    pub id: &'a [u8],
    pub payload: &'a [u8],
}

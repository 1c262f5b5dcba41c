// What a written text is made of.

// A byte, how often it stands, and how many bytes of the table write it.
#[derive(Clone, Copy)]
pub struct Piece {
    pub byte: u8,
    pub times: u64,
    pub width: usize,
}

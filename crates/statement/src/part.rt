// The two parts of a statement.

// Kept: a closure in place of a part would have to say in its contract what text it gives for each row; found_text says
// it for both parts in one place.
#[derive(Clone, Copy)]
pub enum Part {
    // the rows that are billed
    Billed,
    // the others
    Open,
}

// A line of the input that is refused.
use refusal::Refusal;
use std::fmt;

#[derive(Clone, Copy)]
pub struct Refused {
    pub line: usize,
    pub why: Refusal,
}

// `line 3: refused 53: the text is not JSON`
impl fmt::Display for Refused {
    fn fmt<W: fmt::Write>(&self, f: &mut fmt::Formatter<W>) -> fmt::Result {
        let Refused { line, why } = *self;
        write!(f, "line {line}: refused {}: {why}", why.number())
    }
}

// What is said of a text.
ghost use Rattle.conformance.specs.Verdicts.{Fits};

use refusal::Refusal;
use std::fmt;

// The most bytes that a text may have.
const LONGEST: usize = 1024;

// JSON, or why not.
pub type Verdict = Result<(), Refusal>;

// A verdict as a table names it: `json`, or the refusal's number.
#[derive(Clone, Copy)]
pub struct Word(pub Verdict);

impl fmt::Display for Word {
    fn fmt<W: fmt::Write>(&self, f: &mut fmt::Formatter<W>) -> fmt::Result {
        match self.0 {
            Ok(()) => f.write_str("json"),
            Err(why) => write!(f, "{}", why.number()),
        }
    }
}

// The length decides first, then the scanner.
pub fn judge(text: &[u8]) -> Verdict
    ensures { Fits text.now result }
{
    if text.len() > LONGEST {
        return Err(Refusal::TextTooLong);
    }
    json_text::check(text)
}

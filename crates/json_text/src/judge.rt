// Whether bytes are JSON.
ghost use Rattle.std.specs.Prelude.{◌≡◌, ◌≤◌, [], length, IfSome};
ghost use Rattle.json_text.specs.Beginnings.{OneTree};
ghost use Rattle.json_text.specs.Machine.{accepts, begin, ending, step};
ghost use Rattle.json_text.specs.Machine.Mode.{chars};
ghost use Rattle.json_text.specs.Scanning.{figure_mode, mode_of, opened_in, stack, top};
ghost use Rattle.json_text.specs.Verdict.{Judged, Passes, Stepped, state_of};

use crate::mode::{Container, Mode, Move, NumberPart, StringPart};
use crate::quoted::{after_string, plain_length};
use crate::scanner::{DEEPEST, Scanner};
use crate::structure::next;
use arrayvec::ArrayVec;
use refusal::Refusal;

impl<'a> Scanner<'a> {
    // Before the first byte: what it is lent for what is open is empty.
    fn new(containers: &'a mut ArrayVec<Container, DEEPEST>) -> Scanner<'a>
        requires { containers.old.items ≡ [] }
        ensures { state_of result ≡ begin }
    {
        Scanner {
            mode: Mode::Value,
            containers,
        }
    }

    // The innermost open container.
    fn inner(&self) -> Option<Container>
        ensures { top (stack self.now.containers.now.items) ≡ result }
    {
        self.containers.last().copied()
    }

    // One container more is open.
    fn push(&mut self, container: Container) -> Result<(), Refusal>
        ensures { Stepped (opened_in container (stack self.old.containers.now.items)) result (state_of self.new) }
    {
        if self.containers.is_full() {
            return Err(Refusal::TooDeep);
        }
        self.containers.push(container);
        self.mode = match container {
            Container::Array => Mode::First,
            Container::Object => Mode::Opened,
        };
        Ok(())
    }

    // One byte more.
    fn step(&mut self, byte: u8) -> Result<(), Refusal>
        ensures { Stepped (step (state_of self.old) byte) result (state_of self.new) }
    {
        match next(self.mode, self.inner(), byte) {
            Some(Move::To(mode)) => self.mode = mode,
            Some(Move::Open(container)) => return self.push(container),
            Some(Move::Close) => {
                self.mode = Mode::After;
                self.containers.pop();
            }
            None => return Err(Refusal::NotJson),
        }
        Ok(())
    }
}

// A number may end here.
fn ends_number(part: NumberPart) -> bool
    ensures { result ≡ ending (figure_mode part) }
{
    matches!(
        part,
        NumberPart::Zero | NumberPart::Whole | NumberPart::Places | NumberPart::Scale
    )
}

// A value may end here.
fn ends_value(mode: Mode) -> bool
    ensures { result ≡ ending (mode_of mode) }
{
    match mode {
        Mode::After => true,
        Mode::Figure(part) => ends_number(part),
        _ => false,
    }
}

impl<'a> Scanner<'a> {
    // A text may end here.
    fn is_complete(&self) -> bool
        ensures { result ≡ accepts (state_of self.now) }
    {
        ends_value(self.mode) && self.containers.is_empty()
    }

    // Whether the string in which the next byte stands, and belongs to no escape, is a member's name.
    fn in_chars(&self) -> Option<bool>
        ensures { IfSome result (λ name. mode_of self.now.mode ≡ chars name) }
    {
        match self.mode {
            Mode::Text(StringPart::Chars, name) => Some(name),
            _ => None,
        }
    }

    // Passes the bytes of a string that stand for themselves, and its closing quote where that follows; tells how many.
    fn pass_plain(&mut self, rest: &[u8]) -> usize
        ensures bound { result ≤ length rest.now }
        ensures passed { Passes (state_of self.old) result rest.now (state_of self.new) }
    {
        let Some(name) = self.in_chars() else {
            return 0;
        };
        let length = plain_length(rest);
        if length < rest.len() && rest[length] == b'"' {
            self.mode = after_string(name);
            return length + 1;
        }
        length
    }
}

// Whether the bytes are a JSON text: 52 where they are nested too deep, 53 where they are none, whichever shows first from the left.
pub fn check(text: &[u8]) -> Result<(), Refusal>
    ensures judged { Judged text.now result }
    ensures one_tree { OneTree text.now }
{
    let mut containers = ArrayVec::new();
    let mut scanner = Scanner::new(&mut containers);
    let mut left = text;
    while let [byte, rest @ ..] = left {
        scanner.step(*byte)?;
        left = &rest[scanner.pass_plain(rest)..];
    }
    if scanner.is_complete() {
        Ok(())
    } else {
        Err(Refusal::NotJson)
    }
}

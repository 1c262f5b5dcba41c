// The bytes around values: white space, brackets, braces, commas, colons, and the first byte of a value.
ghost use Rattle.std.specs.Prelude.{◌≡◌, cond};
ghost use Rattle.json_text.specs.Grammar.{white};
ghost use Rattle.json_text.specs.Machine.{first_step, go_on, move, opened_step, start};
ghost use Rattle.json_text.specs.Machine.Mode.{colon, name, value};
ghost use Rattle.json_text.specs.Machine.State.{dead, live};
ghost use Rattle.json_text.specs.Scanning.{Right, RightIn, mode_of};

use crate::figure::in_figure;
use crate::mode::{Container, Mode, Move, NumberPart, StringPart, WordRest};
use crate::quoted::in_string;
use crate::word::in_word;

// Most bytes are past the space, so that is asked first.
pub fn is_white(byte: u8) -> bool
    ensures { result ≡ white byte }
{
    byte <= b' ' && matches!(byte, b' ' | b'\t' | b'\n' | b'\r')
}

// The byte after a value: white space, a comma, or the end of what is open.
pub fn after_value(inner: Option<Container>, byte: u8) -> Option<Move>
    ensures { RightIn inner result (λ k. go_on k byte) }
{
    if is_white(byte) {
        return Some(Move::To(Mode::After));
    }
    match inner {
        None => None,
        Some(Container::Array) => match byte {
            b',' => Some(Move::To(Mode::Value)),
            b']' => Some(Move::Close),
            _ => None,
        },
        Some(Container::Object) => match byte {
            b',' => Some(Move::To(Mode::Name)),
            b'}' => Some(Move::Close),
            _ => None,
        },
    }
}

// The first byte of a value.
fn start_value(byte: u8) -> Option<Move>
    ensures { Right result (λ k. start k byte) }
{
    match byte {
        b'"' => Some(Move::To(Mode::Text(StringPart::Chars, false))),
        b'[' => Some(Move::Open(Container::Array)),
        b'{' => Some(Move::Open(Container::Object)),
        b'-' => Some(Move::To(Mode::Figure(NumberPart::Minus))),
        b'0' => Some(Move::To(Mode::Figure(NumberPart::Zero))),
        b'1'..=b'9' => Some(Move::To(Mode::Figure(NumberPart::Whole))),
        b't' => Some(Move::To(Mode::Word(WordRest::Rue))),
        b'f' => Some(Move::To(Mode::Word(WordRest::Alse))),
        b'n' => Some(Move::To(Mode::Word(WordRest::Ull))),
        _ => None,
    }
}

fn in_value(byte: u8) -> Option<Move>
    ensures { Right result (λ k. move value k byte) }
{
    if is_white(byte) {
        Some(Move::To(Mode::Value))
    } else {
        start_value(byte)
    }
}

// The byte after an opening bracket.
fn in_first(inner: Option<Container>, byte: u8) -> Option<Move>
    ensures { RightIn inner result (λ k. first_step k byte) }
{
    match inner {
        Some(Container::Array) if is_white(byte) => Some(Move::To(Mode::First)),
        Some(Container::Array) if byte == b']' => Some(Move::Close),
        Some(Container::Array) => start_value(byte),
        _ => None,
    }
}

fn in_name(byte: u8) -> Option<Move>
    ensures { Right result (λ k. move name k byte) }
{
    if is_white(byte) {
        Some(Move::To(Mode::Name))
    } else if byte == b'"' {
        Some(Move::To(Mode::Text(StringPart::Chars, true)))
    } else {
        None
    }
}

// The byte after an opening brace.
fn in_opened(inner: Option<Container>, byte: u8) -> Option<Move>
    ensures { RightIn inner result (λ k. opened_step k byte) }
{
    match inner {
        Some(Container::Object) if is_white(byte) => Some(Move::To(Mode::Opened)),
        Some(Container::Object) if byte == b'}' => Some(Move::Close),
        Some(Container::Object) if byte == b'"' => Some(Move::To(Mode::Text(
            StringPart::Chars,
            true,
        ))),
        _ => None,
    }
}

fn in_colon(byte: u8) -> Option<Move>
    ensures { Right result (λ k. move colon k byte) }
{
    if is_white(byte) {
        Some(Move::To(Mode::Colon))
    } else if byte == b':' {
        Some(Move::To(Mode::Value))
    } else {
        None
    }
}

// What a byte does in a mode, with this container the innermost that is open. Kept: container and byte are two parameters
// of each step; a struct of both would be taken apart at once in each.
pub fn next(mode: Mode, inner: Option<Container>, byte: u8) -> Option<Move>
    ensures { RightIn inner result (λ k. move (mode_of mode) k byte) }
{
    match mode {
        Mode::Value => in_value(byte),
        Mode::First => in_first(inner, byte),
        Mode::Name => in_name(byte),
        Mode::Opened => in_opened(inner, byte),
        Mode::Colon => in_colon(byte),
        Mode::After => after_value(inner, byte),
        Mode::Text(part, name) => in_string(part, name, byte),
        Mode::Figure(part) => in_figure(part, inner, byte),
        Mode::Word(rest) => in_word(rest, byte),
    }
}

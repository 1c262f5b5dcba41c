// The bytes of a string.
ghost use Rattle.std.specs.Prelude.{◌≡◌, ◌≤◌, List, length, if◌then◌else◌, MatchBool};
ghost use Rattle.json_text.specs.Grammar.{digit, escapable, hex, plain};
ghost use Rattle.json_text.specs.Machine.{Kind, closed, move};
ghost use Rattle.json_text.specs.Machine.Mode.{chars, escaped};
ghost use Rattle.json_text.specs.Machine.State.{dead, live};
ghost use Rattle.json_text.specs.Parts.{PlainTo, string_length};
ghost use Rattle.json_text.specs.Scanning.{Right, mode_of, text_mode};

use crate::mode::{Mode, Move, StringPart};

fn is_hex(byte: u8) -> bool
    ensures { result ≡ hex byte }
{
    byte.is_ascii_hexdigit()
}

fn is_escapable(byte: u8) -> bool
    ensures { result ≡ escapable byte }
{
    matches!(byte, b'"' | b'\\' | b'/' | b'b' | b'f' | b'n' | b'r' | b't')
}

// A byte that stands for itself in a string.
fn is_plain(byte: u8) -> bool
    ensures { result ≡ plain byte }
{
    byte >= 0x20 && byte != b'"' && byte != b'\\'
}

// The first eight bytes are there and stand for themselves in a string. All eight are looked at at once.
fn are_plain(s: &[u8]) -> bool
    ensures { MatchBool result ((8 ≤ length s.now) × PlainTo 8 s.now) (Unit {0}) }
{
    match s {
        [a, b, c, d, e, f, g, h, ..] => {
            is_plain(*a)
                & is_plain(*b)
                & is_plain(*c)
                & is_plain(*d)
                & is_plain(*e)
                & is_plain(*f)
                & is_plain(*g)
                & is_plain(*h)
        }
        _ => false,
    }
}

// How many bytes at the front stand for themselves in a string, by whole eights.
fn plain_eights(s: &[u8]) -> usize
    ensures bound { result ≤ length s.now }
    ensures plain { PlainTo result s.now }
{
    let mut left = s;
    while are_plain(left) {
        left = &left[8..];
    }
    s.len() - left.len()
}

// How many bytes at the front stand for themselves in a string. Kept: a walk of its own, as `skip_white` says.
pub fn plain_length(s: &[u8]) -> usize
    ensures bound { result ≤ length s.now }
    ensures plain { PlainTo result s.now }
{
    let mut left = &s[plain_eights(s)..];
    while let [byte, rest @ ..] = left
        && is_plain(*byte)
    {
        left = rest;
    }
    s.len() - left.len()
}

// How many bytes there are after an opening quote up to the closing one, and with it.
#[tactic(auto, unfolding(crate::specs::Parts::string_length, crate::specs::Parts::escaped_length))]
pub fn string_length(s: &[u8]) -> usize
    ensures value { result ≡ string_length s.now }
    ensures bound { result ≤ length s.now }
{
    let mut left = &s[plain_length(s)..];
    loop {
        left = match left {
            [] => return s.len(),
            [b'"', rest @ ..] => return s.len() - rest.len(),
            [b'\\', _, rest @ ..] => rest,
            [_, rest @ ..] => rest,
        };
    }
}

// What may come after a string, which is a member's name or not.
pub fn after_string(name: bool) -> Mode
    ensures { (k : List Kind) → live (mode_of result) k ≡ closed name k }
{
    if name { Mode::Colon } else { Mode::After }
}

// A byte of a string, outside its escapes. Kept, here and below: byte and whether it is a name are two parameters, as one
// comes with the text and the other with the mode.
fn in_chars(byte: u8, name: bool) -> Option<Move>
    ensures { Right result (λ k. move (chars name) k byte) }
{
    if byte == b'"' {
        Some(Move::To(after_string(name)))
    } else if byte == b'\\' {
        Some(Move::To(Mode::Text(StringPart::Escaped, name)))
    } else if byte < 0x20 {
        None
    } else {
        Some(Move::To(Mode::Text(StringPart::Chars, name)))
    }
}

// The byte after a backslash.
fn in_escape(byte: u8, name: bool) -> Option<Move>
    ensures { Right result (λ k. move (escaped name) k byte) }
{
    if is_escapable(byte) {
        Some(Move::To(Mode::Text(StringPart::Chars, name)))
    } else if byte == b'u' {
        Some(Move::To(Mode::Text(StringPart::Hex4, name)))
    } else {
        None
    }
}

// A hexadecimal digit.
fn in_hex(byte: u8, name: bool, next: StringPart) -> Option<Move>
    ensures { Right result (λ k. (if hex byte then live (text_mode next name) k else dead)) }
{
    is_hex(byte).then_some(Move::To(Mode::Text(next, name)))
}

pub fn in_string(part: StringPart, name: bool, byte: u8) -> Option<Move>
    ensures { Right result (λ k. move (text_mode part name) k byte) }
{
    match part {
        StringPart::Chars => in_chars(byte, name),
        StringPart::Escaped => in_escape(byte, name),
        StringPart::Hex4 => in_hex(byte, name, StringPart::Hex3),
        StringPart::Hex3 => in_hex(byte, name, StringPart::Hex2),
        StringPart::Hex2 => in_hex(byte, name, StringPart::Hex1),
        StringPart::Hex1 => in_hex(byte, name, StringPart::Chars),
    }
}

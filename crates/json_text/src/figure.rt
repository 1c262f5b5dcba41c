// The bytes of a number.
ghost use Rattle.std.specs.Prelude.{◌≡◌, if◌then◌else◌};
ghost use Rattle.json_text.specs.Grammar.{digit, power};
ghost use Rattle.json_text.specs.Machine.{after_whole, go_on, move};
ghost use Rattle.json_text.specs.Machine.Mode.{minused, powered};
ghost use Rattle.json_text.specs.Machine.State.{dead, live};
ghost use Rattle.json_text.specs.Scanning.{Right, RightIn, figure_mode};

use crate::mode::{Container, Mode, Move, NumberPart};
use crate::structure::after_value;

fn is_digit(byte: u8) -> bool
    ensures { result ≡ digit byte }
{
    byte.is_ascii_digit()
}

fn is_power(byte: u8) -> bool
    ensures { result ≡ power byte }
{
    matches!(byte, b'e' | b'E')
}

// The byte after a minus.
fn after_minus(byte: u8) -> Option<Move>
    ensures { Right result (λ k. move minused k byte) }
{
    match byte {
        b'0' => Some(Move::To(Mode::Figure(NumberPart::Zero))),
        b'1'..=b'9' => Some(Move::To(Mode::Figure(NumberPart::Whole))),
        _ => None,
    }
}

// The byte after the digits of a number's fraction, which is no digit.
fn after_places(inner: Option<Container>, byte: u8) -> Option<Move>
    ensures { RightIn inner result (λ k. (if power byte then live powered k else go_on k byte)) }
{
    if is_power(byte) {
        Some(Move::To(Mode::Figure(NumberPart::Power)))
    } else {
        after_value(inner, byte)
    }
}

// The byte after the whole part of a number, which is no digit of it.
fn after_whole(inner: Option<Container>, byte: u8) -> Option<Move>
    ensures { RightIn inner result (λ k. after_whole k byte) }
{
    if byte == b'.' {
        Some(Move::To(Mode::Figure(NumberPart::Point)))
    } else {
        after_places(inner, byte)
    }
}

// A digit must come.
fn digit_to(part: NumberPart, byte: u8) -> Option<Move>
    ensures { Right result (λ k. (if digit byte then live (figure_mode part) k else dead)) }
{
    is_digit(byte).then_some(Move::To(Mode::Figure(part)))
}

// The byte after an e.
fn after_power(byte: u8) -> Option<Move>
    ensures { Right result (λ k. move powered k byte) }
{
    if matches!(byte, b'+' | b'-') {
        Some(Move::To(Mode::Figure(NumberPart::Sign)))
    } else {
        digit_to(NumberPart::Scale, byte)
    }
}

pub fn in_figure(part: NumberPart, inner: Option<Container>, byte: u8) -> Option<Move>
    ensures { RightIn inner result (λ k. move (figure_mode part) k byte) }
{
    match part {
        NumberPart::Minus => after_minus(byte),
        NumberPart::Zero => after_whole(inner, byte),
        NumberPart::Whole if is_digit(byte) => Some(Move::To(Mode::Figure(part))),
        NumberPart::Whole => after_whole(inner, byte),
        NumberPart::Point => digit_to(NumberPart::Places, byte),
        NumberPart::Places if is_digit(byte) => Some(Move::To(Mode::Figure(part))),
        NumberPart::Places => after_places(inner, byte),
        NumberPart::Power => after_power(byte),
        NumberPart::Sign => digit_to(NumberPart::Scale, byte),
        NumberPart::Scale if is_digit(byte) => Some(Move::To(Mode::Figure(part))),
        NumberPart::Scale => after_value(inner, byte),
    }
}

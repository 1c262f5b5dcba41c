// Texts as a table writes them.
ghost use Rattle.std.specs.Prelude.{◌≡◌, ℕ, ◌<◌, ◌≤◌, IfSome, IfOk, Decides, MatchOption, OnOk};
ghost use Rattle.conformance.specs.Encoding.{Gains, HexDigit, Hexadecimal, IsPiece, Itself, NoText, Plain, Repeated, Wide, Writes};

use crate::piece::Piece;
use decimal::fixed_value;
use std::alloc::{AllocError, Global};

// What stands for itself: space to ~, but for the percent sign.
fn is_plain(byte: u8) -> bool
    ensures { Decides result (Plain byte) }
{
    byte >= b' ' && byte <= b'~' && byte != b'%'
}

fn hex_digit(byte: u8) -> Option<u8>
    ensures { MatchOption result ((v : ℕ) → HexDigit byte v → ⊥) (HexDigit byte) }
{
    match byte {
        b'0'..=b'9' => Some(byte - b'0'),
        b'A'..=b'F' => Some(byte - b'A' + 10),
        _ => None,
    }
}

// A character that stands for itself.
fn itself(written: &[u8]) -> Option<Piece>
    ensures { MatchOption result ((p : Piece) → Itself written.now p → ⊥) (Itself written.now) }
{
    match written {
        [byte, ..] if is_plain(*byte) => Some(Piece {
            byte: *byte,
            times: 1,
            width: 1,
        }),
        _ => None,
    }
}

// `%HH`
fn hexadecimal(written: &[u8]) -> Option<Piece>
    ensures { MatchOption result ((p : Piece) → Hexadecimal written.now p → ⊥) (Hexadecimal written.now) }
{
    let [b'%', high, low, ..] = written else {
        return None;
    };
    let high = hex_digit(*high)?;
    let low = hex_digit(*low)?;
    Some(Piece {
        byte: high * 16 + low,
        times: 1,
        width: 3,
    })
}

// `%*NNNNc`
fn repeated(written: &[u8]) -> Option<Piece>
    ensures { MatchOption result ((p : Piece) → Repeated written.now p → ⊥) (Repeated written.now) }
{
    match written {
        [b'%', b'*', _, _, _, _, byte, ..] if is_plain(*byte) => Some(Piece {
            byte: *byte,
            times: fixed_value(&written[2..6])?,
            width: 7,
        }),
        _ => None,
    }
}

// What the written text begins with.
fn first_piece(written: &[u8]) -> Option<Piece>
    ensures pieces { MatchOption result ((p : Piece) → IsPiece written.now p → ⊥) (IsPiece written.now) }
    ensures wide { IfSome result (Wide written.now) }
{
    // Kept: `or_else` was tried; what its closures answer is out of the proof's reach.
    if let Some(piece) = itself(written) {
        return Some(piece);
    }
    if let Some(piece) = hexadecimal(written) {
        return Some(piece);
    }
    repeated(written)
}

fn put(text: &mut Vec<u8>, piece: Piece) -> Result<(), AllocError>
    ensures { OnOk result (Gains text.old.items piece text.new.items) }
{
    // Kept: no `resize`, which wants the new length, a sum that might not fit.
    for _ in 0..piece.times {
        text.push(piece.byte)?;
    }
    Ok(())
}

// The text that is written so, or none where it is written wrong.
pub fn decode(heap: Global, written: &[u8]) -> Result<Option<Vec<u8>>, AllocError>
    ensures { IfOk result (λ o. MatchOption o (NoText written.now) (λ v. Writes written.now v.items)) }
{
    let mut text = Vec::new(heap);
    let mut rest = written;
    while !rest.is_empty() {
        let Some(piece) = first_piece(rest) else {
            return Ok(None);
        };
        put(&mut text, piece)?;
        let width = piece.width;
        rest = &rest[width..];
    }
    Ok(Some(text))
}

// Cuts a text of bytes at a separator, as at a line feed or a space.
#![tactic(auto)]

mod pieces;

ghost use Rattle.std.specs.Prelude.{◌≡◌, ◌+◌, ◌<◌, ◌≤◌, length};
ghost use Rattle.split.specs.Split.{Cut, after, before};

use memchr::memchr;
pub use pieces::Pieces;

// The bytes before the first separator, and those after it. Where there is none, the whole text and nothing.
pub fn cut(text: &[u8], separator: u8) -> (&[u8], &[u8])
    ensures front { result.0.now ≡ before separator text.now }
    ensures back { result.1.now ≡ after separator text.now }
    ensures sides { Cut separator text.now result.0.now result.1.now }
    ensures lengths { length result.0.now + length result.1.now ≤ length text.now }
    ensures shorter { 0 < length text.now → length result.1.now < length text.now }
{
    match memchr(separator, text) {
        Some(place) => (&text[..place], &text[place + 1..]),
        None => (text, &text[..0]),
    }
}

// Takes a JSON text apart that is known to be one.
ghost use Rattle.std.specs.Prelude.{◌≡◌, ℕ, ◌≤◌, List, [], ◌∷◌, ◌++◌, length};
ghost use Rattle.json_text.specs.Beginnings.Spot.{outside};
ghost use Rattle.json_text.specs.Grammar.{Chars};
ghost use Rattle.json_text.specs.Parts.{Split, closing, follow, scalar_length, skip, value_length};

use crate::nested::closing_length;
use crate::quoted::string_length;
use crate::structure::is_white;

// The bytes after white space. Kept: this walk, that of `scalar_length` and that of `plain_length` are not one with a
// closure, whose contract would say in more words what each definition says.
pub fn skip_white(s: &[u8]) -> &[u8]
    ensures { result.now ≡ skip s.now }
{
    let mut left = s;
    while let [byte, rest @ ..] = left
        && is_white(*byte)
    {
        left = rest;
    }
    left
}

// A byte that may follow a value.
fn may_follow(byte: u8) -> bool
    ensures { result ≡ follow byte }
{
    is_white(byte) || matches!(byte, b',' | b']' | b'}')
}

// How long the number or literal at the front is. Kept, as above.
fn scalar_length(s: &[u8]) -> usize
    ensures value { result ≡ scalar_length s.now }
    ensures bound { result ≤ length s.now }
{
    let mut left = s;
    while let [byte, rest @ ..] = left
        && !may_follow(*byte)
    {
        left = rest;
    }
    s.len() - left.len()
}

// How long the value at the front is.
fn value_length(s: &[u8]) -> usize
    ensures value { result ≡ value_length s.now }
    ensures bound { result ≤ length s.now }
{
    match s {
        [] => 0,
        [b'"', rest @ ..] => 1 + string_length(rest),
        [b'[', ..] => closing_length(s),
        [b'{', ..] => closing_length(s),
        _ => scalar_length(s),
    }
}

// The value at the front and what follows it, where the bytes begin with a value; a string may be followed by anything.
pub fn split_value(s: &[u8]) -> (&[u8], &[u8])
    ensures parts { (v rest : List ℕ) → Split s.now v rest → (result.0.now ≡ v) × (result.1.now ≡ rest) }
    ensures text { (cs rest : List ℕ) → s.now ≡ 34 ∷ (cs ++ (34 ∷ rest)) → Chars cs → (result.0.now ≡ 34 ∷ (cs ++ (34 ∷ []))) × (result.1.now ≡ rest) }
    ensures whole { result.0.now ++ result.1.now ≡ s.now }
{
    let length = value_length(s);
    s.split_at(length)
}

// The values of an array in a text that is known to be JSON.
ghost use Rattle.std.specs.Prelude.{ℕ, List, MatchOption};
ghost use Rattle.frame.specs.Kinds.{At};
ghost use Rattle.frame.specs.Walks.{AheadIn, NoValues, TakenOff, Values};
ghost use Rattle.json_text.specs.Grammar.{Elems, Json};

use crate::walk::after;
use json_text::{skip_white, split_value};

// A value and what follows the comma after it, or nothing where it was the last.
#[derive(Clone, Copy)]
pub struct Element<'a> {
    pub value: &'a [u8],
    pub rest: Option<&'a [u8]>,
}

// Takes the first value off.
pub fn next_element<'a>(s: &'a [u8]) -> Element<'a>
    ensures { (es : Elems) (end : List ℕ) → AheadIn es s.now end → TakenOff es result.value.now result.rest end }
{
    let (value, behind) = split_value(skip_white(s));
    let rest = after(behind, b',');
    Element { value, rest }
}

// The values of the array at the front: what follows its bracket, or nothing where it has none or where no array is there.
pub fn first_element<'a>(s: &'a [u8]) -> Option<&'a [u8]>
    ensures { (tree : Json) → At tree s.now → MatchOption result (NoValues tree) (λ x. Values tree x.now) }
{
    let inside = after(s, b'[')?;
    match after(inside, b']') {
        Some(_) => None,
        None => Some(inside),
    }
}

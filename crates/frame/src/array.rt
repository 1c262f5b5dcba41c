// Finds the array of four.
ghost use Rattle.frame.specs.Call.{CallFront, CallOf, FourOf, NoCall, NotFour};
ghost use Rattle.frame.specs.Kinds.{At};
ghost use Rattle.json_text.specs.Grammar.{Json};
ghost use Rattle.std.specs.Option.{MatchOption};

use crate::call::{Four, Parts};
use crate::elements::{first_element, next_element};
use crate::texts::{is_object, is_string, is_two, string_bytes};
use crate::walk::{after, cut};
use json_text::skip_white;

// The first three values of the array at the front and what begins with the fourth, or none where it has fewer.
fn four_values<'a>(s: &'a [u8]) -> Option<Four<'a>>
    ensures { (tree : Json) → At tree s.now → MatchOption result (NotFour tree) (FourOf tree) }
{
    let a = next_element(first_element(s)?);
    let b = next_element(a.rest?);
    let c = next_element(b.rest?);
    let fourth = skip_white(c.rest?);
    Some(Four {
        first: a.value,
        second: b.value,
        third: c.value,
        fourth,
    })
}

// The action of the calls that are read.
const ACTION: &[u8] = b"\"TransactionEvent\"";

// The id of the call at the front and what begins with its payload, or none where no such call is there.
pub fn open_call<'a>(s: &'a [u8]) -> Option<Parts<'a>>
    ensures { (tree : Json) → At tree s.now → MatchOption result (NoCall tree) (CallFront tree) }
{
    let four = four_values(s)?;
    if !is_two(four.first) {
        return None;
    }
    if !is_string(four.third, ACTION) {
        return None;
    }
    let id = string_bytes(four.second)?;
    Some(Parts {
        id,
        payload: four.fourth,
    })
}

// The id and the payload of the call at the front, or none where no such call is there.
pub fn find_call<'a>(s: &'a [u8]) -> Option<Parts<'a>>
    ensures { (tree : Json) → At tree s.now → MatchOption result (NoCall tree) (CallOf tree) }
{
    let call = open_call(s)?;
    let (payload, behind) = cut(call.payload);
    if after(behind, b',').is_some() || !is_object(payload) {
        return None;
    }
    Some(Parts {
        id: call.id,
        payload,
    })
}

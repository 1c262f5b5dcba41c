// Finds the array of four.
ghost use Rattle.frame.specs.Call.{NoCall};
ghost use Rattle.frame.specs.Kinds.{At};
ghost use Rattle.frame_reader.specs.Parts.{CallOf};
ghost use Rattle.json_text.specs.Grammar.{Json};
ghost use Rattle.std.specs.Option.{MatchOption};

use crate::call::Parts;
use crate::payload::find_all;
use frame::{after, open_call};

// The id of the call at the front and what its payload has, or none where no such call is there.
pub fn find_call<'a>(s: &'a [u8]) -> Option<Parts<'a>>
    ensures { (tree : Json) → At tree s.now → MatchOption result (NoCall tree) (CallOf tree) }
{
    let call = open_call(s)?;
    let (payload, behind) = find_all(after(call.payload, b'{')?);
    if after(behind, b',').is_some() {
        return None;
    }
    Some(Parts {
        id: call.id,
        payload,
    })
}

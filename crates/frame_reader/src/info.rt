// The transaction id in a transactionInfo.
ghost use Rattle.std.specs.Prelude.{◌≤◌, length, codes};
ghost use Rattle.frame_reader.specs.Fields.{IdFinds};
ghost use Rattle.frame.specs.Slots.{Bytes, Found};
ghost use Rattle.frame.specs.Walks.{Through};
ghost use Rattle.json_text.specs.Grammar.{Membs};
ghost use Rattle.json_text.specs.Grammar.Json.{jobject};

use frame::{Slot, after, cut, find_inside};
use refusal::Refusal;

// The id by what stands under its name.
fn id_of<'a>(id: Slot<&'a [u8]>) -> Result<Option<&'a [u8]>, Refusal>
    ensures { (info : Membs) → Found Bytes id.entry (codes "transactionId") info → IdFinds (jobject info) result }
{
    id.required().map(Some)
}

// The id in the transactionInfo at the front, and what follows that.
pub fn find_id<'a>(s: &'a [u8]) -> (Result<Option<&'a [u8]>, Refusal>, &'a [u8])
    ensures through { Through IdFinds s.now result.0 result.1.now }
    ensures bound { length result.1.now ≤ length s.now }
{
    let Some(inside) = after(s, b'{') else {
        let (_, behind) = cut(s);
        return (Ok(None), behind);
    };
    let (id, behind) = find_inside(inside, b"\"transactionId\"");
    (id_of(id), behind)
}

// Looks for a name among the members of an object in a text that is known to be JSON.
ghost use Rattle.std.specs.Prelude.{◌≡◌, ℕ, ◌≤◌, List, length};
ghost use Rattle.frame.specs.Slots.{Bytes, Found, Optional, Required, SoFar};
ghost use Rattle.frame.specs.Walks.{Taken, ThroughObject, quoted};
ghost use Rattle.json_text.specs.Grammar.{Membs, Value};
ghost use Rattle.json_text.specs.Grammar.Json.{jobject};

use crate::slot::Slot;
use crate::walk::{Collects, after, collect, cut};
use refusal::Refusal;

// One member more: its value goes into the slot where it has the name, given with its quotes.
pub fn note<'a>(slot: Slot<&'a [u8]>, called: &[u8], value: &'a [u8], name: &[u8]) -> Slot<&'a [u8]>
    ensures { (word start end : List ℕ) (ms left : Membs) → name.now ≡ quoted word → (t : Taken left called.now start end) → Value t.tree value.now → SoFar Bytes slot.entry word ms left → SoFar Bytes result word ms t.others }
{
    if called == name {
        slot.add(value)
    } else {
        slot
    }
}

// A name that is looked for, with its quotes, and what stands under it so far.
#[derive(Drop)]
struct Look<'a, 'n> {
    name: &'n [u8],
    found: Slot<&'a [u8]>,
}

impl<'a, 'n> Collects<'a> for Look<'a, 'n> {
    ghost so_far = { λ start now ms left. (now.name ≡ start.name) × ((word : List ℕ) → start.name.now ≡ quoted word → SoFar Bytes now.found word ms left) };

    fn take(&mut self, called: &[u8], value: &'a [u8]) -> &'a [u8] {
        let (value, behind) = cut(value);
        self.found = note(self.found, called, value, self.name);
        behind
    }
}

// Looks for a name, given with its quotes, among the members after an object's brace; also what follows the object.
pub fn find_inside<'a>(s: &'a [u8], name: &[u8]) -> (Slot<&'a [u8]>, &'a [u8])
    ensures through { (word : List ℕ) → name.now ≡ quoted word → ThroughObject (λ ms found. Found Bytes found word ms) s.now result.0 result.1.now }
    ensures bound { length result.1.now ≤ length s.now }
{
    let mut look = Look {
        name,
        found: Slot::Missing,
    };
    let behind = collect(&mut look, s);
    (look.found, behind)
}

// Looks for a name, given with its quotes, among the members of an object. Kept: object and name are two parameters, as a
// caller may ask one object for several names.
pub fn find_member<'a>(object: &'a [u8], name: &[u8]) -> Slot<&'a [u8]>
    ensures { (called : List ℕ) (ms : Membs) → name.now ≡ quoted called → Value (jobject ms) object.now → Found Bytes result called ms }
{
    let Some(inside) = after(object, b'{') else {
        return Slot::Missing;
    };
    let (found, _) = find_inside(inside, name);
    found
}

// The value under a name that must stand once.
pub fn required<'a>(object: &'a [u8], name: &[u8]) -> Result<&'a [u8], Refusal>
    ensures { (called : List ℕ) (ms : Membs) → name.now ≡ quoted called → Value (jobject ms) object.now → Required called ms result }
{
    find_member(object, name).required()
}

// The value under a name that may stand once.
pub fn optional<'a>(object: &'a [u8], name: &[u8]) -> Result<Option<&'a [u8]>, Refusal>
    ensures { (called : List ℕ) (ms : Membs) → name.now ≡ quoted called → Value (jobject ms) object.now → Optional called ms result }
{
    find_member(object, name).optional()
}

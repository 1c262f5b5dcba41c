// A walk through the members of an object in a text that is known to be JSON.
ghost use Rattle.std.specs.Prelude.{◌≡◌, ℕ, ◌<◌, ◌≤◌, List, ◌∷◌, length, IfSome, MatchOption, ◌≢◌};
ghost use Rattle.frame.specs.Lefts.{Shorter, bytes_of};
ghost use Rattle.frame.specs.Slots.{Bytes};
ghost use Rattle.frame.specs.Walks.{Ahead, Behind, LeftOf, Opened, Taken, Through};
ghost use Rattle.json_text.specs.Grammar.{Membs};
ghost use Rattle.json_text.specs.Grammar.Membs.{no_memb};
ghost use Rattle.json_text.specs.Parts.{skip};

use json_text::{skip_white, split_value};
use std::ops::ControlFlow;

// What follows the byte, where the bytes begin with it after white space.
pub fn after<'a>(s: &'a [u8], byte: u8) -> Option<&'a [u8]>
    ensures found { MatchOption result ((rest : List ℕ) → skip s.now ≢ byte ∷ rest) (λ x. skip s.now ≡ byte ∷ x.now) }
    ensures shorter { IfSome result (λ x. length x.now < length s.now) }
{
    match skip_white(s) {
        [first, rest @ ..] if *first == byte => Some(rest),
        _ => None,
    }
}

// What follows the byte, where they are known to begin with it after white space.
fn past<'a>(s: &'a [u8], byte: u8) -> &'a [u8]
    ensures found { (rest : List ℕ) → skip s.now ≡ byte ∷ rest → result.now ≡ rest }
    ensures bound { length result.now ≤ length s.now }
{
    after(s, byte).unwrap_or(s)
}

// The value at the front and what follows it.
pub fn cut<'a>(s: &'a [u8]) -> (&'a [u8], &'a [u8])
    ensures through { Through Bytes s.now result.0 result.1.now }
    ensures bound { length result.1.now ≤ length s.now }
{
    split_value(s)
}

// Takes the first member's name off, with its quotes; its value is next.
fn take_name<'a>(s: &'a [u8]) -> (&'a [u8], &'a [u8])
    ensures taken { (ms : Membs) (end : List ℕ) → Ahead ms s.now end → Taken ms result.0.now result.1.now end }
    ensures bound { length result.1.now ≤ length s.now }
{
    let (name, behind) = split_value(skip_white(s));
    (name, skip_white(past(behind, b':')))
}

// What is left after a member's value: more members, or what follows the object.
fn next_member<'a>(s: &'a [u8]) -> ControlFlow<&'a [u8], &'a [u8]>
    ensures left { (ms : Membs) (end : List ℕ) → Behind ms s.now end → LeftOf ms end result }
    ensures shorter { Shorter result (length s.now) }
{
    match after(s, b',') {
        Some(rest) => ControlFlow::Continue(rest),
        None => ControlFlow::Break(past(s, b'}')),
    }
}

// What is left after an object's brace: its members, or what follows the object.
fn first_member<'a>(s: &'a [u8]) -> ControlFlow<&'a [u8], &'a [u8]>
    ensures left { (ms : Membs) (end : List ℕ) → Opened ms s.now end → LeftOf ms end result }
    ensures bound { length (bytes_of result).now ≤ length s.now }
{
    match after(s, b'}') {
        Some(rest) => ControlFlow::Break(rest),
        None => ControlFlow::Continue(s),
    }
}

// Collects what it wants of the members of an object, one after the other.
// Kept: that what follows is no longer than what was given stands in each contract of a walk. It is about two slices, so
// no type can hold it, and by it a walk ends over any bytes.
pub trait Collects<'a> {
    // What began as the first is the second where an object has these members and those are left.
    ghost so_far: { Self → Self → Membs → Membs → Type 0 };

    // Takes one member more, by its name with its quotes and what begins with its value; gives what follows the value. Kept:
    // two parameters, since a struct of both would be made in the one loop and taken apart at once.
    fn take(&mut self, called: &[u8], value: &'a [u8]) -> &'a [u8]
        ensures through { (end : List ℕ) (start : Self) (ms left : Membs) (t : Taken left called.now value.now end) → so_far start self.old ms left → so_far start self.new ms t.others × (result.now ≡ t.behind) }
        ensures bound { length result.now ≤ length value.now };
}

// Lets it take each member of the object that the bytes are in, after the brace; gives what follows the object.
pub fn collect<'a, C: Collects<'a>>(found: &mut C, s: &'a [u8]) -> &'a [u8]
    ensures through { (start : C) (ms : Membs) (end : List ℕ) → Opened ms s.now end → C.so_far start found.old ms ms → C.so_far start found.new ms no_memb × (result.now ≡ end) }
    ensures bound { length result.now ≤ length s.now }
{
    let mut left = first_member(s);
    loop {
        match left {
            ControlFlow::Continue(member) => {
                let (called, value) = take_name(member);
                left = next_member(found.take(called, value));
            }
            ControlFlow::Break(behind) => return behind,
        }
    }
}

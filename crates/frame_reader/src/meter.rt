// The sample in a meterValue. Kept: that what follows is no longer than what was given stands in each contract, as in the
// walk of `frame`, and for the same reason: it is about two slices.
ghost use Rattle.std.specs.Prelude.{◌≡◌, ℕ, ◌<◌, ◌≤◌, List, length, IfSome, None, Ok, Option, Result, codes, MatchOption};
ghost use Rattle.frame.specs.Slots.{Bytes, SoFar};
ghost use Rattle.frame.specs.Walks.{Begins, Through};
ghost use Rattle.frame_reader.specs.Fields.{ElementFinds, MeterFinds, OnlyFinds, SampleFinds, SampledFinds};
ghost use Rattle.frame_reader.specs.Walks.{FirstObject, NoObject};
ghost use Rattle.frame_reader.specs.declared.fields.Sample.{Sample as Found};
ghost use Rattle.json_text.specs.Grammar.{Json, Membs};
ghost use Rattle.json_text.specs.Grammar.Membs.{no_memb};
ghost use Rattle.refusal.specs.declared.Refusal.{Refusal as Why};

use crate::fields::Sample;
use frame::{Collects, Slot, after, collect, cut, note};
use refusal::Refusal;

// What stands after the brace, where the value at the front is an array that begins with an object.
fn first_object<'a>(s: &'a [u8]) -> Option<&'a [u8]>
    ensures opened { (tree : Json) (behind : List ℕ) → Begins tree s.now behind → MatchOption result (NoObject tree) (λ x. FirstObject tree x.now behind) }
    ensures shorter { IfSome result (λ x. length x.now < length s.now) }
{
    let first = after(s, b'[')?;
    after(first, b'{')
}

// Nothing is read in the value at the front; also what follows it.
fn unreadable<'a>(s: &'a [u8]) -> (Result<Option<Sample<'a>>, Refusal>, &'a [u8])
    ensures through { Through (λ _ found. found ≡ Ok None) s.now result.0 result.1.now }
    ensures bound { length result.1.now ≤ length s.now }
{
    let (_, behind) = cut(s);
    (Ok(None), behind)
}

// Finds a sample by the members of an object.
trait FindsSample<'a>: Collects<'a> + Copy {
    // What is found in an object with these members.
    ghost finds: { Membs → Result (Option Found) Why → Type 0 };

    fn start() -> Self
        ensures { (ms : Membs) → Self.so_far result result ms ms };

    // The sample, nothing where there is none to read.
    fn finish(self) -> Result<Option<Sample<'a>>, Refusal>
        ensures { (start : Self) (ms : Membs) → Self.so_far start self ms no_memb → finds ms result };
}

// The sample in the object that is the only value of the array at the front, nothing where it is of another kind or
// length; also what follows it.
fn find_only<'a, C: FindsSample<'a>>(s: &'a [u8]) -> (Result<Option<Sample<'a>>, Refusal>, &'a [u8])
    ensures through { Through (OnlyFinds C.finds) s.now result.0 result.1.now }
    ensures bound { length result.1.now ≤ length s.now }
{
    let Some(inside) = first_object(s) else {
        return unreadable(s);
    };
    let mut found = C::start();
    let behind = collect(&mut found, inside);
    match after(behind, b']') {
        Some(rest) => (found.finish(), rest),
        None => unreadable(s),
    }
}

// The members of the element of sampledValue that are read.
#[derive(Clone, Copy)]
struct SampleMembers<'a> {
    value: Slot<&'a [u8]>,
    measurand: Slot<&'a [u8]>,
}

impl<'a> Collects<'a> for SampleMembers<'a> {
    ghost so_far = { λ _ found ms left. SoFar Bytes found.value (codes "value") ms left × SoFar Bytes found.measurand (codes "measurand") ms left };

    fn take(&mut self, called: &[u8], value: &'a [u8]) -> &'a [u8] {
        let (value, behind) = cut(value);
        self.value = note(self.value, called, value, b"\"value\"");
        self.measurand = note(self.measurand, called, value, b"\"measurand\"");
        behind
    }
}

impl<'a> FindsSample<'a> for SampleMembers<'a> {
    ghost finds = { SampleFinds };

    fn start() -> Self {
        SampleMembers {
            value: Slot::Missing,
            measurand: Slot::Missing,
        }
    }

    fn finish(self) -> Result<Option<Sample<'a>>, Refusal> {
        let value = self.value.required()?;
        let measurand = self.measurand.optional()?;
        Ok(Some(Sample { value, measurand }))
    }
}

// The sample in the sampledValue at the front, nothing where it is of another kind or length; also what follows it.
fn find_sampled<'a>(s: &'a [u8]) -> (Result<Option<Sample<'a>>, Refusal>, &'a [u8])
    ensures through { Through SampledFinds s.now result.0 result.1.now }
    ensures bound { length result.1.now ≤ length s.now }
{
    find_only::<SampleMembers<'a>>(s)
}

const SAMPLED_VALUE: &[u8] = b"\"sampledValue\"";

// The member of the element of meterValue that is read.
#[derive(Clone, Copy)]
struct MeterMembers<'a> {
    // the sample in it, nothing where it is of another kind or length
    sampled_value: Slot<Result<Option<Sample<'a>>, Refusal>>,
}

impl<'a> Collects<'a> for MeterMembers<'a> {
    ghost so_far = { λ _ found ms left. SoFar SampledFinds found.sampled_value (codes "sampledValue") ms left };

    fn take(&mut self, called: &[u8], value: &'a [u8]) -> &'a [u8] {
        if called == SAMPLED_VALUE {
            let (sampled, behind) = find_sampled(value);
            self.sampled_value = self.sampled_value.add(sampled);
            return behind;
        }
        let (_, behind) = cut(value);
        behind
    }
}

impl<'a> FindsSample<'a> for MeterMembers<'a> {
    ghost finds = { ElementFinds };

    fn start() -> Self {
        MeterMembers {
            sampled_value: Slot::Missing,
        }
    }

    fn finish(self) -> Result<Option<Sample<'a>>, Refusal> {
        self.sampled_value.required()?
    }
}

// The sample in the meterValue at the front, nothing where it or its sampledValue is of another kind or length; also
// what follows it.
pub fn find_meter<'a>(s: &'a [u8]) -> (Result<Option<Sample<'a>>, Refusal>, &'a [u8])
    ensures through { Through MeterFinds s.now result.0 result.1.now }
    ensures bound { length result.1.now ≤ length s.now }
{
    find_only::<MeterMembers<'a>>(s)
}

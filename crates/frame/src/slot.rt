// What a look for a name finds.
ghost use Rattle.std.specs.Prelude.{◌≡◌};
ghost use Rattle.frame.specs.Slots.{added, optional_of, required_of};

use refusal::Refusal;

// The name stands nowhere, once with this value, or more often. Kept: of three cases none is a failure while members are
// collected; `required` and `optional` make the Result and the Option of it.
#[derive(Clone, Copy)]
pub enum Slot<T> {
    Missing,
    Once(T),
    Twice,
}

impl<T: Copy> Slot<T> {
    // One value more under the name.
    pub fn add(self, value: T) -> Slot<T>
        ensures { result ≡ added self value }
    {
        match self {
            Slot::Missing => Slot::Once(value),
            _ => Slot::Twice,
        }
    }

    // The value under a name that must stand once.
    pub fn required(self) -> Result<T, Refusal>
        ensures { result ≡ required_of self }
    {
        match self {
            Slot::Once(value) => Ok(value),
            Slot::Missing | Slot::Twice => Err(Refusal::BadMembers),
        }
    }

    // The value under a name that may stand once.
    pub fn optional(self) -> Result<Option<T>, Refusal>
        ensures { result ≡ optional_of self }
    {
        match self {
            Slot::Missing => Ok(None),
            Slot::Once(value) => Ok(Some(value)),
            Slot::Twice => Err(Refusal::BadMembers),
        }
    }
}

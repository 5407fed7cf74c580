//! Why objects aren't linked.

ghost use Rattle.std.specs.Prelude.{◌≡◌};
ghost use Rattle.ebc_link.specs.declared.end.LinkEnd.TheVariants as ends;

use ebc_base::{Name, NoMemory};
use std::alloc::{AllocError, AllocFailed};

/// Why objects aren't linked. docs/LINKING.md, "Faults", has the order in which the faults are tried.
#[derive(PartialEq, Drop)]
pub enum LinkEnd {
    /// An object uses this name; neither it nor another defines the name.
    Undefined(Name),
    /// This name is defined for all objects twice.
    Twice(Name),
    /// The distance at this place of the image doesn't fit its bytes, or is odd where words count.
    Far(u32),
    /// The plan's entry isn't defined for all in the code, or is at an odd offset or at the end of its object's code.
    Entry,
    /// The image takes more than 4 MiB.
    Size,
    /// There was no memory for the answer.
    NoMemory,
}

impl From<AllocError> for LinkEnd {
    ghost from_gives = { λ _ e. e ≡ ends.NoMemory };

    fn from(_: AllocError) -> Self {
        LinkEnd::NoMemory
    }
}

impl<T: Drop> From<AllocFailed<T>> for LinkEnd {
    ghost from_gives = { λ _ e. e ≡ ends.NoMemory };

    fn from(_: AllocFailed<T>) -> Self {
        LinkEnd::NoMemory
    }
}

impl From<NoMemory> for LinkEnd {
    ghost from_gives = { λ _ e. e ≡ ends.NoMemory };

    fn from(_: NoMemory) -> Self {
        LinkEnd::NoMemory
    }
}

//! What notes say already, what is found, and why nothing is.

ghost use Rattle.std.specs.Prelude.{◌≡◌};
ghost use Rattle.stack_needs.specs.declared.outcome.NotFound.TheVariants as ends;

use ebc_base::NoMemory;
use note_types::Pair;
use std::alloc::{AllocError, AllocFailed};

/// Whether a function's level and need stand in its notes.
#[derive(Clone, Copy)]
pub struct Known {
    pub level: bool,
    pub need: bool,
}

/// The level and the need of a function.
#[derive(Clone, Copy)]
pub struct Found {
    pub level: u64,
    pub need: Pair,
}

/// Why levels and needs aren't found.
#[derive(Clone, Copy, PartialEq, Eq)]
pub enum NotFound {
    /// The calls of a function, by its number, lead back to it.
    Recursion { function: usize },
    /// Two ways come to a place with different amounts on the stack.
    Uneven { place: u32 },
    /// There is no memory.
    NoMemory,
}

impl From<AllocError> for NotFound {
    ghost from_gives = { λ _ e. e ≡ ends.NoMemory };

    fn from(_: AllocError) -> Self {
        NotFound::NoMemory
    }
}

impl<T: Drop> From<AllocFailed<T>> for NotFound {
    ghost from_gives = { λ _ e. e ≡ ends.NoMemory };

    fn from(_: AllocFailed<T>) -> Self {
        NotFound::NoMemory
    }
}

impl From<NoMemory> for NotFound {
    ghost from_gives = { λ _ e. e ≡ ends.NoMemory };

    fn from(_: NoMemory) -> Self {
        NotFound::NoMemory
    }
}

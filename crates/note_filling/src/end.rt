//! Why a text isn't filled.
ghost use Rattle.std.specs.Prelude.{◌≡◌};
ghost use Rattle.note_filling.specs.declared.end.FillEnd.TheVariants as ends;
ghost use Rattle.note_filling.specs.Ends.{of_notes};

use ebc_base::Name;
use note_types::{NotesEnd, TomlFault};
use std::alloc::{AllocError, AllocFailed};

/// A fault of a text, with the path of its key, and the label that stands there, where it is one of a label.
#[derive(Drop)]
pub struct Flaw {
    pub fault: TomlFault,
    pub label: Option<Name>,
}

/// Why a text isn't filled.
#[derive(Drop)]
pub enum FillEnd {
    /// It has a fault.
    Flaw(Flaw),
    /// There was no memory.
    NoMemory,
}

impl From<AllocError> for FillEnd {
    ghost from_gives = { λ _ e. e ≡ ends.NoMemory };

    fn from(_: AllocError) -> Self {
        FillEnd::NoMemory
    }
}

impl<T: Drop> From<AllocFailed<T>> for FillEnd {
    ghost from_gives = { λ _ e. e ≡ ends.NoMemory };

    fn from(_: AllocFailed<T>) -> Self {
        FillEnd::NoMemory
    }
}

impl From<ebc_base::NoMemory> for FillEnd {
    ghost from_gives = { λ _ e. e ≡ ends.NoMemory };

    fn from(_: ebc_base::NoMemory) -> Self {
        FillEnd::NoMemory
    }
}

impl From<NotesEnd> for FillEnd {
    ghost from_gives = { λ end e. e ≡ of_notes end };

    fn from(end: NotesEnd) -> Self {
        match end {
            NotesEnd::Fault(fault) => FillEnd::Flaw(Flaw { fault, label: None }),
            NotesEnd::NoMemory => FillEnd::NoMemory,
        }
    }
}

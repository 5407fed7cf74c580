//! Why a text isn't made complete.

ghost use Rattle.std.specs.Prelude.{◌≡◌};
ghost use Rattle.note_completion.specs.declared.halt.Halt.TheVariants as halts;
ghost use Rattle.note_completion.specs.Halts.{IsRefusal, halt_completion, halt_of_fill, halt_of_notes};

use crate::completion::Completion;
use ebc_base::NoMemory;
use note_filling::{FillEnd, Flaw};
use note_types::{NotesEnd, RuleName};
use std::alloc::{AllocError, AllocFailed, Global};

/// Why a text isn't made complete.
#[derive(Drop)]
pub(crate) enum Halt {
    /// It has a fault.
    Fault(Flaw),
    /// A rule fails at a place, in a state of these lines.
    Refused {
        place: u32,
        rule: RuleName,
        state: String,
    },
    /// Its notes are too large.
    Large,
    /// There was no memory.
    NoMemory,
}

impl From<AllocError> for Halt {
    ghost from_gives = { λ _ e. e ≡ halts.NoMemory };

    fn from(_: AllocError) -> Self {
        Halt::NoMemory
    }
}

impl<T: Drop> From<AllocFailed<T>> for Halt {
    ghost from_gives = { λ _ e. e ≡ halts.NoMemory };

    fn from(_: AllocFailed<T>) -> Self {
        Halt::NoMemory
    }
}

impl From<NoMemory> for Halt {
    ghost from_gives = { λ _ e. e ≡ halts.NoMemory };

    fn from(_: NoMemory) -> Self {
        Halt::NoMemory
    }
}

impl From<FillEnd> for Halt {
    ghost from_gives = { λ end e. e ≡ halt_of_fill end };

    fn from(end: FillEnd) -> Self {
        match end {
            FillEnd::Flaw(flaw) => Halt::Fault(flaw),
            FillEnd::NoMemory => Halt::NoMemory,
        }
    }
}

impl From<NotesEnd> for Halt {
    ghost from_gives = { λ end e. e ≡ halt_of_notes end };

    fn from(end: NotesEnd) -> Self {
        match end {
            NotesEnd::Fault(fault) => Halt::Fault(Flaw { fault, label: None }),
            NotesEnd::NoMemory => Halt::NoMemory,
        }
    }
}

/// That a rule fails at a place, without a state.
pub(crate) fn refused(alloc: Global, place: u32, rule: RuleName) -> Halt
    ensures { IsRefusal place rule result }
{
    Halt::Refused {
        place,
        rule,
        state: String::new(alloc),
    }
}

impl Halt {
    /// Whether no way leads to the place at which a rule fails.
    pub fn is_unreached(&self) -> bool {
        matches!(
            self,
            Halt::Refused {
                rule: RuleName::State,
                ..
            }
        )
    }

    /// What comes of the text.
    pub fn told(self) -> Result<Completion, NoMemory>
        ensures { result ≡ halt_completion self }
    {
        match self {
            Halt::Fault(flaw) => Ok(Completion::Fault(flaw)),
            Halt::Refused { place, rule, state } => Ok(Completion::Refused { place, rule, state }),
            Halt::Large => Ok(Completion::Large),
            Halt::NoMemory => Err(NoMemory),
        }
    }
}

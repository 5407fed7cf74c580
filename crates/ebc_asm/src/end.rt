//! Why a source gives no object, and why a line isn't taken.

ghost use Rattle.std.specs.Prelude.{◌≡◌};
ghost use Rattle.ebc_asm.specs.declared.end.AsmEnd.TheVariants as ends;
ghost use Rattle.ebc_asm.specs.declared.end.LineEnd.TheVariants as line_ends;
ghost use Rattle.ebc_asm.specs.Held.{at_line};

use asm_text::AsmFault;
use ebc_base::NoMemory;
use std::alloc::{AllocError, AllocFailed};

/// Why a source gives no object.
#[derive(Clone, Copy, PartialEq, Eq, Debug)]
pub enum AsmEnd {
    /// The first line that fails, by its number from 1, and the lowest of its faults.
    Fault { kind: AsmFault, line: u64 },
    /// There was no memory for the answer. A source with 2^32 - 1 names or more may be answered so too: a table of names holds
    /// no more.
    NoMemory,
}

impl From<AllocError> for AsmEnd {
    ghost from_gives = { λ _ e. e ≡ ends.NoMemory };

    fn from(_: AllocError) -> Self {
        AsmEnd::NoMemory
    }
}

impl From<NoMemory> for AsmEnd {
    ghost from_gives = { λ _ e. e ≡ ends.NoMemory };

    fn from(_: NoMemory) -> Self {
        AsmEnd::NoMemory
    }
}

// Why a line isn't taken.
#[derive(Clone, Copy)]
pub(crate) enum LineEnd {
    /// The lowest of its faults.
    Fault(AsmFault),
    /// There was no memory.
    NoMemory,
}

impl From<AllocError> for LineEnd {
    ghost from_gives = { λ _ e. e ≡ line_ends.NoMemory };

    fn from(_: AllocError) -> Self {
        LineEnd::NoMemory
    }
}

impl<T: Drop> From<AllocFailed<T>> for LineEnd {
    ghost from_gives = { λ _ e. e ≡ line_ends.NoMemory };

    fn from(_: AllocFailed<T>) -> Self {
        LineEnd::NoMemory
    }
}

impl From<NoMemory> for LineEnd {
    ghost from_gives = { λ _ e. e ≡ line_ends.NoMemory };

    fn from(_: NoMemory) -> Self {
        LineEnd::NoMemory
    }
}

impl From<AsmFault> for LineEnd {
    ghost from_gives = { λ fault e. e ≡ line_ends.Fault fault };

    fn from(fault: AsmFault) -> Self {
        LineEnd::Fault(fault)
    }
}

impl LineEnd {
    // Why a source gives no object of which the line of this number isn't taken.
    pub fn at(self, line: u64) -> AsmEnd
        ensures { result ≡ at_line line self }
    {
        match self {
            LineEnd::Fault(kind) => AsmEnd::Fault { kind, line },
            LineEnd::NoMemory => AsmEnd::NoMemory,
        }
    }
}

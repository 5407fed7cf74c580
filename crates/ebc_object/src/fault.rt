//! Why a file isn't read as an object.

ghost use Rattle.std.specs.Prelude.{◌≡◌};
ghost use Rattle.ebc_object.specs.declared.fault.ObjectEnd.TheVariants.{NoMemory};

use std::alloc::{AllocError, AllocFailed};

/// What is wrong with a file that is no object, by the first field that fails.
#[derive(Clone, Copy, PartialEq, Eq, Debug)]
pub enum ObjectFault {
    /// The file ends before the field does.
    Short,
    /// It doesn't begin with `EBCO` and version 1.
    Mark,
    /// A length or a count is past 1 MiB, or bytes are left over behind the last fixup.
    Count,
    /// A name hasn't the form of one, or a section, a kind, a flag, an offset or the number of a symbol is none.
    Range,
    /// A name stands there twice, or a fixup doesn't begin behind the one before.
    Order,
}

/// Why the reader of a file gives no object.
#[derive(Clone, Copy, PartialEq, Eq, Debug)]
pub enum ObjectEnd {
    /// The file is no object: the first fault, and the offset in the file of the field that has it.
    Fault { kind: ObjectFault, offset: u64 },
    /// There was no memory for the answer.
    NoMemory,
}

impl ObjectEnd {
    // A fault at an offset.
    pub(crate) fn at(kind: ObjectFault, offset: usize) -> ObjectEnd
        ensures { result ≡ ObjectEnd.Fault kind offset }
    {
        ObjectEnd::Fault {
            kind,
            offset: offset as u64,
        }
    }
}

impl From<AllocError> for ObjectEnd {
    ghost from_gives = { λ _ e. e ≡ NoMemory };

    fn from(_: AllocError) -> Self {
        ObjectEnd::NoMemory
    }
}

impl<T: Drop> From<AllocFailed<T>> for ObjectEnd {
    ghost from_gives = { λ _ e. e ≡ NoMemory };

    fn from(_: AllocFailed<T>) -> Self {
        ObjectEnd::NoMemory
    }
}

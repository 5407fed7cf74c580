//! What is answered, and why a reading ends.
ghost use Rattle.std.specs.Prelude.{◌≡◌};
ghost use Rattle.cli_base.specs.declared.reply.End.TheVariants.{NoMemory};

use crate::outcome::Outcome;
use ebc_base::{Name, NoMemory, Sequence};
use std::alloc::{AllocError, AllocFailed};

/// What an answer prints or writes.
#[derive(Drop)]
pub enum Output {
    /// A text that is printed.
    Text(Sequence<u8>),
    /// A file that is written, its name and its bytes.
    File { name: Name, bytes: Sequence<u8> },
}

/// An answer, and what is printed or written for it.
#[derive(Drop)]
pub struct Reply {
    pub outcome: Outcome,
    pub output: Output,
}

/// Why the work ends before its answer.
#[derive(Drop)]
pub enum End {
    /// A file is missing, too large or not of its form, or the words are no command: this is the answer.
    Stop(Reply),
    /// A read failed.
    ReadFault,
    /// Memory ran out.
    NoMemory,
}

impl From<AllocError> for End {
    ghost from_gives = { λ _ e. e ≡ NoMemory };

    fn from(_: AllocError) -> Self {
        End::NoMemory
    }
}

impl<T: Drop> From<AllocFailed<T>> for End {
    ghost from_gives = { λ _ e. e ≡ NoMemory };

    fn from(_: AllocFailed<T>) -> Self {
        End::NoMemory
    }
}

impl From<NoMemory> for End {
    ghost from_gives = { λ _ e. e ≡ NoMemory };

    fn from(_: NoMemory) -> Self {
        End::NoMemory
    }
}

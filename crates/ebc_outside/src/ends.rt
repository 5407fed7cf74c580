//! Why a read, a write or a put is not done.
ghost use Rattle.std.specs.Prelude.{◌≡◌};
ghost use Rattle.ebc_outside.specs.declared.ends.ReadEnd.TheVariants as read_ends;
ghost use Rattle.ebc_outside.specs.declared.ends.WriteEnd.TheVariants as write_ends;
ghost use Rattle.ebc_outside.specs.declared.ends.SinkEnd.TheVariants as sink_ends;

use std::alloc::{AllocError, AllocFailed};
use thiserror::Error;

/// Why a read gives no bytes.
#[derive(Clone, Copy, Debug, PartialEq, Eq, Error)]
pub enum ReadEnd {
    /// The folder has no file of that name.
    #[error("no such file")]
    Missing,
    /// The read failed, and the count of failed reads rose.
    #[error("the read failed")]
    Fault,
    /// Memory was refused. The name does not count as asked.
    #[error("out of memory")]
    NoMemory,
}

/// Why a write is not done.
#[derive(Clone, Copy, Debug, PartialEq, Eq, Error)]
pub enum WriteEnd {
    /// The write failed, and the count of failed writes rose. What the file of that name holds is
    /// unknown.
    #[error("the write failed")]
    Fault,
    /// Memory was refused. All files are as before.
    #[error("out of memory")]
    NoMemory,
}

/// Why a put is not done.
#[derive(Clone, Copy, Debug, PartialEq, Eq, Error)]
pub enum SinkEnd {
    /// The put failed, and the count of failed puts rose. A first part of the bytes may be out.
    #[error("the output failed")]
    Fault,
    /// Memory was refused. Nothing was put.
    #[error("out of memory")]
    NoMemory,
}

impl From<AllocError> for ReadEnd {
    ghost from_gives = { λ _ end. end ≡ read_ends.NoMemory };

    fn from(_: AllocError) -> Self {
        ReadEnd::NoMemory
    }
}

impl<T: Drop> From<AllocFailed<T>> for ReadEnd {
    ghost from_gives = { λ _ end. end ≡ read_ends.NoMemory };

    fn from(_: AllocFailed<T>) -> Self {
        ReadEnd::NoMemory
    }
}

impl From<AllocError> for WriteEnd {
    ghost from_gives = { λ _ end. end ≡ write_ends.NoMemory };

    fn from(_: AllocError) -> Self {
        WriteEnd::NoMemory
    }
}

impl From<AllocError> for SinkEnd {
    ghost from_gives = { λ _ end. end ≡ sink_ends.NoMemory };

    fn from(_: AllocError) -> Self {
        SinkEnd::NoMemory
    }
}

impl<T: Drop> From<AllocFailed<T>> for SinkEnd {
    ghost from_gives = { λ _ end. end ≡ sink_ends.NoMemory };

    fn from(_: AllocFailed<T>) -> Self {
        SinkEnd::NoMemory
    }
}

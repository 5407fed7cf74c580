//! Why a file isn't read as an image.

ghost use Rattle.std.specs.Prelude.{◌≡◌};
ghost use Rattle.pe_image.specs.declared.fault.ImageEnd.TheVariants.{NoMemory};

use std::alloc::{AllocError, AllocFailed};

/// What is wrong with a file that is no image, by the first condition that doesn't hold.
#[derive(Clone, Copy, PartialEq, Eq, Debug)]
pub enum ImageFault {
    /// The file ends before a header does, or the optional header before its last field.
    Short,
    /// It doesn't begin with the mark `MZ`.
    Mz,
    /// There is no mark `PE` where its stub says.
    Pe,
    /// It is for another machine than EBC.
    Machine,
    /// Its optional header isn't that of a PE32+ image.
    Magic,
    /// There is no section, a section's raw data end past the file, a section ends past the image, or that is too large.
    Section,
    /// A section begins before the end of the one before.
    Overlap,
    /// A section doesn't begin at a multiple of the alignment.
    Align,
    /// The relocations lie outside the sections, or a block or an entry of them isn't well formed.
    Reloc,
    /// The entry point is odd, or in no section.
    Entry,
}

/// Why the reader of a file gives no image.
#[derive(Clone, Copy, PartialEq, Eq, Debug)]
pub enum ImageEnd {
    /// The file is no image: the first fault, and the offset in the file at which it is told.
    Fault { kind: ImageFault, offset: u64 },
    /// There was no memory for the answer.
    NoMemory,
}

impl ImageEnd {
    // A fault at an offset.
    pub(crate) fn at(kind: ImageFault, offset: usize) -> ImageEnd
        ensures { result ≡ ImageEnd.Fault kind offset }
    {
        ImageEnd::Fault {
            kind,
            offset: offset as u64,
        }
    }
}

impl From<AllocError> for ImageEnd {
    ghost from_gives = { λ _ e. e ≡ NoMemory };

    fn from(_: AllocError) -> Self {
        ImageEnd::NoMemory
    }
}

impl<T: Drop> From<AllocFailed<T>> for ImageEnd {
    ghost from_gives = { λ _ e. e ≡ NoMemory };

    fn from(_: AllocFailed<T>) -> Self {
        ImageEnd::NoMemory
    }
}

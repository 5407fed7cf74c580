//! Why a file isn't read as an option ROM, and why no EBC image is taken out of one.

ghost use Rattle.std.specs.Prelude.{◌≡◌, ◌<◌, ◌^◌};
ghost use Rattle.option_rom.specs.declared.fault.RomEnd.TheVariants.{NoMemory};

use std::alloc::{AllocError, AllocFailed};

/// What is wrong with a file that is no option ROM, by the first condition that doesn't hold of an image.
#[derive(Clone, Copy)]
pub enum RomFault {
    /// The file ends before the image's header does, or before its PCI data structure.
    Short,
    /// The header doesn't begin with the mark 0xAA55.
    Mark,
    /// The PCI data structure doesn't begin with the mark `PCIR`.
    Pcir,
    /// The image has no block, or ends past the file.
    Length,
    /// The code type is EFI, and the header has another EFI signature, or the EFI image begins past the image's end.
    Efi,
}

/// Why the reader of a file gives no images.
#[derive(Clone, Copy)]
pub enum RomEnd {
    /// The file is no option ROM: the first fault, and the offset in the file at which it is told.
    Fault { kind: RomFault, offset: u32 },
    /// There was no memory for the answer.
    NoMemory,
}

/// Why an image of an option ROM gives no EBC image.
#[derive(Clone, Copy)]
pub enum TakeFault {
    /// No image has the number.
    Number,
    /// The image isn't one of EBC: its code type isn't EFI, or its machine isn't EBC.
    NotEbc,
    /// The EBC image in it is compressed.
    Compressed,
}

impl RomEnd {
    // A fault at an offset.
    pub(crate) fn at(kind: RomFault, offset: usize) -> RomEnd
        requires { offset < 2 ^ 32 }
        ensures { result ≡ RomEnd.Fault kind offset }
    {
        RomEnd::Fault {
            kind,
            offset: offset as u32,
        }
    }
}

impl From<AllocError> for RomEnd {
    ghost from_gives = { λ _ e. e ≡ NoMemory };

    fn from(_: AllocError) -> Self {
        RomEnd::NoMemory
    }
}

impl<T: Drop> From<AllocFailed<T>> for RomEnd {
    ghost from_gives = { λ _ e. e ≡ NoMemory };

    fn from(_: AllocFailed<T>) -> Self {
        RomEnd::NoMemory
    }
}

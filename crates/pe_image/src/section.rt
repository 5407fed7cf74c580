//! The header of a section (PE/COFF specification, "Section Table (Section Headers)").

ghost use Rattle.std.specs.Prelude.{◌≡◌, ◌+◌, ◌<◌, ◌^◌};
ghost use Rattle.pe_image.specs.Headers.{end_of, extent, has};

use crate::fault::{ImageEnd, ImageFault};

/// The fields of a section's header, and its own offset in the file.
#[derive(Clone, Copy, PartialEq, Eq)]
pub(crate) struct SectionHeader {
    pub at: usize,
    pub virtual_size: u32,
    pub place: u32,
    pub raw_size: u32,
    pub raw_at: u32,
    pub flags: u32,
}

impl SectionHeader {
    // How many bytes of memory the section takes.
    pub fn extent(&self) -> u32
        ensures { result ≡ extent self.now }
    {
        if self.virtual_size == 0 {
            self.raw_size
        } else {
            self.virtual_size
        }
    }

    // Where these bytes end.
    pub fn end(&self) -> u64
        ensures value { result ≡ end_of self.now }
        ensures bound { result < 2 ^ 33 }
    {
        u64::from(self.place) + u64::from(self.extent())
    }

    // Whether it has the `count` bytes from a place on.
    pub fn has(&self, place: u64, count: u64) -> bool
        requires { place + count < 2 ^ 64 }
        ensures { result ≡ has place count self.now }
    {
        u64::from(self.place) <= place && place + count <= self.end()
    }

    // A fault of the section.
    pub fn fault(&self, kind: ImageFault) -> ImageEnd
        ensures { result ≡ ImageEnd.Fault kind self.now.at }
    {
        ImageEnd::at(kind, self.at)
    }
}

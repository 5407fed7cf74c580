//! What an image file says.

use ebc_base::Sequence;

/// Bytes.
pub type Bytes = Sequence<u8>;

/// Sections, in the order of their places.
pub type Sections = Sequence<Section>;

/// Places, in their order.
pub type Places = Sequence<u32>;

/// A section of an image (PE/COFF specification, "Section Table (Section Headers)").
#[derive(PartialEq, Drop)]
pub struct Section {
    /// Its name, filled up with zeros.
    pub name: [u8; 8],
    /// Where it begins, as an offset from the image's base (VirtualAddress).
    pub place: u32,
    /// How many bytes of memory it takes: VirtualSize, or SizeOfRawData where that is 0.
    pub size: u32,
    /// Its Characteristics.
    pub flags: u32,
    /// Its first bytes, at most as many as its size; those up to its size are zeros.
    pub bytes: Bytes,
}

/// An image (PE/COFF specification, "Optional Header (Image Only)"). Places are offsets from its base.
#[derive(PartialEq, Drop)]
pub struct Image {
    /// The address for which it was linked (ImageBase).
    pub base: u64,
    /// Where it is entered: an even place (AddressOfEntryPoint).
    pub entry: u32,
    /// How many bytes of memory it takes, at most 4 MiB (SizeOfImage).
    pub size: u32,
    /// What runs it: 10 an application, 11 a boot service driver, 12 a runtime driver (Subsystem).
    pub subsystem: u16,
    /// Its sections, without the one of the relocations.
    pub sections: Sections,
    /// The places of eight bytes to which the distance from the base is added where it is loaded elsewhere, ascending.
    pub relocs: Places,
}

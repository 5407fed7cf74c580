//! Images in the linker's layout, as it hands them to the writer.

ghost use Rattle.std.specs.Prelude.{◌≡◌, IfOk};
ghost use Rattle.pe_image.specs.Linked.{IsLinked};

use ebc_base::Sequence;
use pe_image::{Bytes, Image, Section};
use std::alloc::{AllocError, Global};

// The driver's code.
pub(crate) const CODE: [u8; 74] = [
    0xB9, 0x07, 0xFA, 0x0F, 0x00, 0x00, 0x00, 0x05, 0x72, 0x84, 0x41, 0x10, 0x60, 0x00, 0x01, 0x90,
    0x20, 0x05, 0x35, 0x05, 0x03, 0x2C, 0x60, 0x00, 0x01, 0x10, 0x25, 0x75, 0x6E, 0x05, 0xFF, 0xFF,
    0xC2, 0x0E, 0x32, 0x85, 0x1F, 0xD6, 0xB9, 0x05, 0xD4, 0x0F, 0x00, 0x00, 0x35, 0x0D, 0x72, 0x84,
    0x43, 0x10, 0x83, 0x2C, 0x01, 0x00, 0x00, 0x10, 0x60, 0x00, 0x02, 0x10, 0x04, 0x00, 0x60, 0x00,
    0x01, 0x10, 0x04, 0x00, 0x77, 0x37, 0x00, 0x00, 0x04, 0x00,
];

// The driver's data.
pub(crate) const DATA: [u8; 8] = [0x40, 0xF0, 0xFF, 0xFF, 0, 0, 0, 0];

// MOVIqq R4, 0x5000 and RET.
pub(crate) const MOVE: [u8; 12] = [0xF7, 0x34, 0x00, 0x50, 0, 0, 0, 0, 0, 0, 0x04, 0x00];

// A list of these bytes.
pub(crate) fn bytes(alloc: Global, items: &[u8]) -> Result<Bytes, AllocError>
    ensures { IfOk result (λ bytes. bytes ≡ items.now) }
{
    Ok(Sequence::new(Vec::from_slice(alloc, items)?))
}

/// A driver's image: its code and its data.
///
/// # Errors
///
/// No memory.
pub fn driver(alloc: Global) -> Result<Image, AllocError>
    ensures { IfOk result IsLinked }
{
    let text = Section {
        name: *b".text\0\0\0",
        place: 0x1000,
        size: 74,
        flags: 0x6000_0020,
        bytes: bytes(alloc, &CODE)?,
    };
    let data = Section {
        name: *b".data\0\0\0",
        place: 0x2000,
        size: 8,
        flags: 0xC000_0040,
        bytes: bytes(alloc, &DATA)?,
    };
    Ok(Image {
        base: 0x1_0000,
        entry: 0x1000,
        size: 0x3000,
        subsystem: 11,
        sections: Sequence::new(vec![in alloc; text, data]?),
        relocs: Sequence::new(vec![in alloc]?),
    })
}

/// An image with one relocation, of the number in MOVIqq R4, 0x5000.
///
/// # Errors
///
/// No memory.
pub fn relocated(alloc: Global) -> Result<Image, AllocError>
    ensures { IfOk result IsLinked }
{
    let text = Section {
        name: *b".text\0\0\0",
        place: 0x1000,
        size: 12,
        flags: 0x6000_0020,
        bytes: bytes(alloc, &MOVE)?,
    };
    Ok(Image {
        base: 0x1_0000,
        entry: 0x1000,
        size: 0x3000,
        subsystem: 11,
        sections: Sequence::new(vec![in alloc; text]?),
        relocs: Sequence::new(vec![in alloc; 0x1002]?),
    })
}

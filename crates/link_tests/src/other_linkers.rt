//! Files of the shapes that other linkers make.

use crate::image_files::{file_of, put};
use crate::images::bytes;
use ebc_base::Sequence;
use pe_image::{Bytes, Image, Section, read_image};
use std::alloc::{AllocError, Global};
use std::test::Fail;

// Headers behind a longer stub, with a check sum, fourteen directories and an alignment of 32. The imports' directory names
// nothing that is there, and the debug directory a part of a section.
const HEADERS: [(usize, &[u8]); 15] = [
    (0, b"MZ\x90\0"),
    (60, &[0x80, 0, 0, 0]),
    (64, b"This program cannot be run in DOS mode."),
    (128, b"PE\0\0"),
    (132, &[0xBC, 0x0E]),
    (148, &[0xE0, 0]),
    (150, &[0x2E, 0x21]),
    (152, &[0x0B, 0x02]),
    (176, &[0x00, 0x00, 0x00, 0x80, 0x01, 0, 0, 0]),
    (184, &[0x20, 0, 0, 0]),
    (188, &[0x20, 0, 0, 0]),
    (216, &[0xEF, 0xBE, 0xAD, 0xDE]),
    (220, &[12, 0]),
    (260, &[14, 0, 0, 0]),
    (272, &[0xFF; 8]),
];

// Five sections from place 0x400 on: raw data past the extent, the relocations, raw data short of the extent, no VirtualSize,
// and no raw data.
const SECTIONS: [(usize, &[u8]); 18] = [
    (134, &[5, 0]),
    (168, &[0x04, 0x04, 0, 0]),
    (208, &[0x00, 0x06, 0, 0]),
    (304, &[0x40, 0x04, 0, 0, 16, 0, 0, 0]),
    (312, &[0xC0, 0x04, 0, 0, 28, 0, 0, 0]),
    (376, b".text\0\0\0\x30\0\0\0\0\x04\0\0\x40\0\0\0\0\x04\0\0"),
    (412, &[0x20, 0, 0, 0x60]),
    (
        416,
        b".reloc\0\0\x10\0\0\0\x40\x04\0\0\x20\0\0\0\x40\x04\0\0",
    ),
    (452, &[0x40, 0, 0, 0x42]),
    (
        456,
        b".data\0\0\0\x60\0\0\0\x60\x04\0\0\x20\0\0\0\x60\x04\0\0",
    ),
    (492, &[0x40, 0, 0, 0xC0]),
    (496, b".rdata\0\0\0\0\0\0\xC0\x04\0\0\x20\0\0\0\x80\x04\0\0"),
    (532, &[0x40, 0, 0, 0x40]),
    (536, b".bss\0\0\0\0\0\x01\0\0\xE0\x04\0\0\0\0\0\0\0\0\0\0"),
    (0x400, &[0x11; 0x40]),
    (
        0x440,
        &[
            0, 0, 0, 0, 16, 0, 0, 0, 0x08, 0xA4, 0x60, 0xA4, 0xD8, 0xA4, 0, 0,
        ],
    ),
    (0x460, &[0x22; 0x20]),
    (0x480, &[0x33; 0x20]),
];

fn headers(alloc: Global, length: usize) -> Result<Vec<u8>, AllocError> {
    file_of(alloc, length, &HEADERS)
}

fn section(name: [u8; 8], place: u32, size: u32, flags: u32, bytes: Bytes) -> Section {
    Section {
        name,
        place,
        size,
        flags,
        bytes,
    }
}

// The image that these headers and sections stand for.
fn wanted(alloc: Global) -> Result<Image, AllocError> {
    let text = bytes(alloc, &[0x11; 0x30])?;
    let data = bytes(alloc, &[0x22; 0x20])?;
    let constants = bytes(alloc, &[0x33; 0x20])?;
    let none = bytes(alloc, &[])?;
    Ok(Image {
        base: 0x1_8000_0000,
        entry: 0x404,
        size: 0x600,
        subsystem: 12,
        sections: Sequence::new(vec![in alloc;
            section(*b".text\0\0\0", 0x400, 0x30, 0x6000_0020, text),
            section(*b".data\0\0\0", 0x460, 0x60, 0xC000_0040, data),
            section(*b".rdata\0\0", 0x4C0, 0x20, 0x4000_0040, constants),
            section(*b".bss\0\0\0\0", 0x4E0, 0x100, 0, none),
        ]?),
        relocs: Sequence::new(vec![in alloc; 0x408, 0x460, 0x4D8]?),
    })
}

#[test]
fn reads_an_image_of_another_linker(rt: HostRuntime) -> Result<(), Fail> {
    let mut file = headers(rt.alloc(), 0x4A0)?;
    for (at, bytes) in SECTIONS {
        put(&mut file, at, bytes);
    }
    assert!(rt; read_image(rt.alloc(), &file) == Ok(wanted(rt.alloc())?));
    Ok(())
}

#[test]
fn reads_ninety_six_sections(rt: HostRuntime) -> Result<(), Fail> {
    let mut file = headers(rt.alloc(), 0x1800 + 2 * 96)?;
    put(&mut file, 134, &[96, 0]);
    put(&mut file, 168, &[0x00, 0x20, 0, 0]);
    put(&mut file, 208, &[0x00, 0x2C, 0, 0]);
    for number in 0u8..96 {
        let header = 376 + 40 * usize::from(number);
        let place = 0x2000 + 0x20 * u32::from(number);
        let raw_at = 0x1800 + 2 * u32::from(number);
        put(&mut file, header + 8, &[2]);
        put(&mut file, header + 12, &place.to_le_bytes());
        put(&mut file, header + 16, &[2]);
        put(&mut file, header + 20, &raw_at.to_le_bytes());
        put(&mut file, raw_at as usize, &[number, 0xC3]);
    }
    let image = read_image(rt.alloc(), &file)?;
    assert!(rt; image.sections.len() == 96);
    let last = section([0; 8], 0x2BE0, 2, 0, bytes(rt.alloc(), &[95, 0xC3])?);
    assert!(rt; image.sections.as_slice().last() == Some(&last));
    Ok(())
}

//! Image files, by the offsets of their parts. All other bytes are zeros.

use crate::images::{CODE, DATA, MOVE};
use pe_image::{ImageEnd, ImageFault};
use std::alloc::{AllocError, Global};

// A driver's image: its headers, code and data.
const DRIVER: [(usize, &[u8]); 23] = [
    (0, b"MZ"),
    (60, &[64, 0, 0, 0]),
    (64, b"PE\0\0"),
    (68, &[0xBC, 0x0E]),
    (70, &[2, 0]),
    (84, &[240, 0]),
    (86, &[0x22, 0]),
    (88, &[0x0B, 0x02]),
    (104, &[0x00, 0x10, 0, 0]),
    (112, &[0x00, 0x00, 0x01, 0, 0, 0, 0, 0]),
    (120, &[0x00, 0x10, 0, 0]),
    (124, &[0x00, 0x02, 0, 0]),
    (144, &[0x00, 0x30, 0, 0]),
    (148, &[0x00, 0x02, 0, 0]),
    (156, &[11, 0]),
    (196, &[16, 0, 0, 0]),
    (328, b".text\0\0\0\x4A\0\0\0\0\x10\0\0\0\x02\0\0\0\x02\0\0"),
    (364, &[0x20, 0x00, 0x00, 0x60]),
    (368, b".data\0\0\0\x08\0\0\0\0\x20\0\0\0\x02\0\0\0\x04\0\0"),
    (404, &[0x40, 0x00, 0x00, 0xC0]),
    (512, &CODE),
    (1024, &DATA),
    (1536, &[]),
];

// An image with one relocation, of the number in MOVIqq R4, 0x5000.
const RELOCATED: [(usize, &[u8]); 25] = [
    (0, b"MZ"),
    (60, &[64, 0, 0, 0]),
    (64, b"PE\0\0"),
    (68, &[0xBC, 0x0E]),
    (70, &[2, 0]),
    (84, &[240, 0]),
    (86, &[0x22, 0]),
    (88, &[0x0B, 0x02]),
    (104, &[0x00, 0x10, 0, 0]),
    (112, &[0x00, 0x00, 0x01, 0, 0, 0, 0, 0]),
    (120, &[0x00, 0x10, 0, 0]),
    (124, &[0x00, 0x02, 0, 0]),
    (144, &[0x00, 0x30, 0, 0]),
    (148, &[0x00, 0x02, 0, 0]),
    (156, &[11, 0]),
    (196, &[16, 0, 0, 0]),
    (240, &[0x00, 0x20, 0, 0, 12, 0, 0, 0]),
    (328, b".text\0\0\0\x0C\0\0\0\0\x10\0\0\0\x02\0\0\0\x02\0\0"),
    (364, &[0x20, 0x00, 0x00, 0x60]),
    (368, b".reloc\0\0\x0C\0\0\0\0\x20\0\0\0\x02\0\0\0\x04\0\0"),
    (404, &[0x40, 0x00, 0x00, 0x42]),
    (512, &MOVE),
    (1024, &[0x00, 0x10, 0, 0, 12, 0, 0, 0]),
    (1032, &[0x02, 0xA0, 0, 0]),
    (1536, &[]),
];

/// Writes over the bytes from an offset on.
pub fn put(file: &mut Vec<u8>, at: usize, bytes: &[u8]) {
    for (cell, byte) in file.iter_mut().skip(at).zip(bytes) {
        *cell = *byte;
    }
}

/// A file of so many bytes with these parts.
pub fn file_of(
    alloc: Global,
    length: usize,
    parts: &[(usize, &[u8])],
) -> Result<Vec<u8>, AllocError> {
    let mut file = vec![in alloc; 0; length]?;
    for (at, bytes) in parts {
        put(&mut file, *at, bytes);
    }
    Ok(file)
}

/// The file of the driver's image.
pub fn driver_file(alloc: Global) -> Result<Vec<u8>, AllocError> {
    file_of(alloc, 1536, &DRIVER)
}

/// The file of the image with one relocation.
pub fn relocated_file(alloc: Global) -> Result<Vec<u8>, AllocError> {
    file_of(alloc, 1536, &RELOCATED)
}

/// A file with other bytes from an offset on.
pub fn patched(alloc: Global, file: &[u8], at: usize, bytes: &[u8]) -> Result<Vec<u8>, AllocError> {
    let mut changed = Vec::from_slice(alloc, file)?;
    put(&mut changed, at, bytes);
    Ok(changed)
}

/// A fault at an offset.
pub fn fault(kind: ImageFault, offset: u64) -> Option<ImageEnd> {
    Some(ImageEnd::Fault { kind, offset })
}

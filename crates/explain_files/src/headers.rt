//! Where the fields of the headers of an image stand (PE/COFF specification, "File Headers" and "Section Table").

use crate::bytes::{u16_at, u32_at};

/// Where the signature is sought, with the headers after it.
pub(crate) fn signature(file: &[u8]) -> u32 {
    u32_at(file, 60)
}

/// The number in four bytes of the optional header, so many bytes after its beginning.
pub(crate) fn optional(file: &[u8], offset: u8) -> u32 {
    u32_at(file, signature(file) as usize + 24 + usize::from(offset))
}

/// How many sections there are.
pub(crate) fn section_count(file: &[u8]) -> u16 {
    u16_at(file, signature(file) as usize + 6)
}

/// Where the header of a section is, by its number from 0.
pub(crate) fn section_header(file: &[u8], number: u16) -> usize {
    let at = signature(file) as usize;
    at + 24 + usize::from(u16_at(file, at + 20)) + 40 * usize::from(number)
}

//! Numbers at an offset of a file that may be cut off, how they are told, and what a file seems to be.

use explain_base::{Line, is_text};

// The byte at an offset; 0 past the end.
fn byte_at(file: &[u8], at: usize) -> u8 {
    match file.get(at) {
        Some(byte) => *byte,
        None => 0,
    }
}

/// The number in two bytes; those past the end count as zeros.
pub(crate) fn u16_at(file: &[u8], at: usize) -> u16 {
    let next = at.saturating_add(1);
    u16::from_le_bytes([byte_at(file, at), byte_at(file, next)])
}

/// The number in four bytes; those past the end count as zeros.
pub(crate) fn u32_at(file: &[u8], at: usize) -> u32 {
    u32::from(u16_at(file, at)) + 0x1_0000 * u32::from(u16_at(file, at.saturating_add(2)))
}

/// Writes a number of two bytes in four hexadecimal digits, after `0x`.
pub(crate) fn write_u16(number: u16, line: &mut Line) {
    let [low, high] = number.to_le_bytes();
    line.text("0x").byte(high).byte(low);
}

/// Writes a number of four bytes in eight hexadecimal digits, after `0x`.
pub(crate) fn write_u32(number: u32, line: &mut Line) {
    let [first, second, third, last] = number.to_le_bytes();
    line.text("0x")
        .byte(last)
        .byte(third)
        .byte(second)
        .byte(first);
}

/// What a file seems to be by its first bytes, after a semicolon; empty if nothing is known of it, or if it is empty.
pub(crate) fn guess(file: &[u8]) -> &'static str {
    if file.starts_with(b"MZ") {
        return "; it begins as an image";
    }
    if file.starts_with(b"EBCO") {
        return "; it begins as an object, and link makes an image of objects";
    }
    if file.starts_with(b"\x55\xaa") {
        return "; it begins as an option ROM, and rom take takes an image out of one";
    }
    if file.starts_with(b"\x7fELF") {
        return "; it begins as an ELF program";
    }
    if is_text(file) { "; it is a text" } else { "" }
}

//! What is said of sections of an image.

use crate::bytes::u32_at;
use crate::headers::{optional, section_count};
use explain_base::Line;

// Writes the name in the header of a section, up to its first byte that isn't printable.
fn write_name(file: &[u8], header: usize, line: &mut Line) {
    line.text("section ");
    for byte in file.iter().skip(header).take(8) {
        if *byte <= b' ' || *byte >= 127 {
            break;
        }
        line.letter(char::from(*byte));
    }
}

// Where a section begins, as a place.
fn place_of(file: &[u8], header: usize) -> u32 {
    u32_at(file, header.saturating_add(12))
}

// The place where a section ends.
fn end_of(file: &[u8], header: usize) -> u64 {
    let virtual_size = u32_at(file, header.saturating_add(8));
    let extent = if virtual_size == 0 {
        u32_at(file, header.saturating_add(16))
    } else {
        virtual_size
    };
    u64::from(place_of(file, header)) + u64::from(extent)
}

// Where the raw data of a section end in the file.
fn raw_end_of(file: &[u8], header: usize) -> u64 {
    u64::from(u32_at(file, header.saturating_add(16)))
        + u64::from(u32_at(file, header.saturating_add(20)))
}

/// Writes of a section that doesn't fit the file or the image, or of an image without one.
pub(crate) fn write_fit(file: &[u8], header: usize, line: &mut Line) {
    if section_count(file) == 0 {
        line.text("no section; wanted: at least one");
        return;
    }
    let (raw_end, size) = (raw_end_of(file, header), file.len() as u64);
    let (end, whole) = (end_of(file, header), optional(file, 56));
    if raw_end > size {
        line.text("the raw bytes of ");
        write_name(file, header, line);
        line.text(" end at ")
            .hexadecimal(raw_end)
            .text(", and the file ends at ")
            .hexadecimal(size)
            .text(": it is cut off");
    } else if end > u64::from(whole) {
        write_name(file, header, line);
        line.text(" ends at place ")
            .hexadecimal(end)
            .text(", and SizeOfImage is ")
            .at(whole)
            .text("; wanted: at least that place");
    } else {
        line.text("SizeOfImage is ")
            .at(whole)
            .text("; wanted: 0x400000 at most");
    }
}

/// Writes of a section that begins before the one before it ends.
pub(crate) fn write_overlap(file: &[u8], header: usize, line: &mut Line) {
    write_name(file, header, line);
    line.text(" begins at place ")
        .at(place_of(file, header))
        .text(", and the section before it ends at ")
        .hexadecimal(end_of(file, header.saturating_sub(40)))
        .text("; wanted: that place or a later one");
}

/// Writes of a section that doesn't keep to the alignment.
pub(crate) fn write_align(file: &[u8], header: usize, line: &mut Line) {
    let unit = optional(file, 32);
    if unit == 0 {
        line.text(
            "SectionAlignment is 0; wanted: a number of which the place of each section is a multiple",
        );
        return;
    }
    write_name(file, header, line);
    line.text(" begins at place ")
        .at(place_of(file, header))
        .text(", and SectionAlignment is ")
        .at(unit)
        .text("; wanted: a multiple of it");
}

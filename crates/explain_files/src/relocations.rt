//! What is said of the base relocations of an image.

use crate::bytes::{u16_at, u32_at, write_u16};
use crate::headers::{optional, section_count, section_header, signature};
use explain_base::Line;

// Where the base relocations stand in the file: in the raw data of the first section that has them all.
fn first_block(file: &[u8]) -> Option<usize> {
    let place = u64::from(optional(file, 152));
    let end = place + u64::from(optional(file, 156));
    for number in 0..section_count(file) {
        let header = section_header(file, number);
        let start = u64::from(u32_at(file, header.saturating_add(12)));
        let size = u64::from(u32_at(file, header.saturating_add(16)));
        if start <= place && end <= start + size {
            return Some(
                u32_at(file, header.saturating_add(20)) as usize + (place - start) as usize,
            );
        }
    }
    None
}

// Whether a block of base relocations is sought at an offset, and not an entry of one.
fn is_block(file: &[u8], offset: usize) -> bool {
    let Some(mut block) = first_block(file) else {
        return false;
    };
    for _ in 0..file.len() {
        if block >= offset {
            break;
        }
        block = block.saturating_add(u32_at(file, block.saturating_add(4)) as usize);
    }
    block == offset
}

// Writes of an entry.
fn write_entry(file: &[u8], offset: usize, line: &mut Line) {
    let entry = u16_at(file, offset);
    let kind = entry / 4096;
    line.text("an entry of the base relocations is ");
    write_u16(entry, line);
    if kind != 0 && kind != 10 {
        line.text(", of type ")
            .number(u64::from(kind))
            .text("; wanted: type 0 or 10");
    } else {
        line.text("; wanted: eight bytes inside one section, after those of the entry before");
    }
}

/// Writes of base relocations that have a fault at an offset.
pub(crate) fn write_relocation(file: &[u8], offset: usize, line: &mut Line) {
    if offset == signature(file) as usize + 176 {
        line.text("the base relocations take ")
            .at(optional(file, 156))
            .text(" bytes from place ")
            .at(optional(file, 152))
            .text(" on; wanted: raw data of one section there");
        return;
    }
    if !is_block(file, offset) {
        write_entry(file, offset, line);
        return;
    }
    line.text("a block of base relocations of ")
        .at(u32_at(file, offset.saturating_add(4)))
        .text(" bytes; wanted: an even number from 8 on, up to the end of the directory at most");
}

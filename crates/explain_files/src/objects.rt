//! What is said of a file that is no object.

use crate::bytes::{guess, u32_at};
use ebc_object::ObjectFault;
use explain_base::{Line, Said};
use std::alloc::Global;

// Writes of a file that doesn't begin as an object of this version.
fn write_mark(file: &[u8], offset: usize, line: &mut Line) {
    if offset == 0 {
        line.text("the first four bytes aren't EBCO, with which an object begins")
            .text(guess(file))
            .text("; asm makes an object of a source");
        return;
    }
    line.text("the version is ")
        .number(u64::from(u32_at(file, offset)))
        .text("; wanted: 1");
}

// Writes of a length or a count that is too large, or of bytes that nothing counts.
fn write_count(file: &[u8], offset: usize, line: &mut Line) {
    if offset < 24 {
        line.text("a length or count is ")
            .number(u64::from(u32_at(file, offset)))
            .text("; wanted: 1048576 at most");
        return;
    }
    line.text("bytes after the last fixup, with which an object ends: ")
        .count(file.len().saturating_sub(offset))
        .text("; wanted: none");
}

fn write_fault(file: &[u8], kind: ObjectFault, offset: usize, line: &mut Line) {
    match kind {
        ObjectFault::Short => {
            line.text("a field ends past the file, which has ")
                .count(file.len())
                .text(" bytes: it is cut off, or a length or count before is another");
        }
        ObjectFault::Mark => write_mark(file, offset, line),
        ObjectFault::Count => write_count(file, offset, line),
        ObjectFault::Range => {
            line.text(
                "a field of a symbol or fixup is out of its range; wanted: an object as asm writes it",
            );
        }
        ObjectFault::Order => {
            line.text(
                "a name stands there again, or a fixup before the end of another; wanted: an object as asm writes it",
            );
        }
    }
}

/// What is said of the file of an object's name, which is no object, by the fault and the offset that `read_object` tells of it.
pub fn object_said(alloc: Global, name: &str, file: &[u8], kind: ObjectFault, offset: u64) -> Said {
    let mut what = Line::new(alloc);
    write_fault(file, kind, offset as usize, &mut what);
    let mut at = Line::of(alloc, ":");
    at.hexadecimal(offset);
    let mut said = Said::at_place(at, what, "docs/OBJECTS.md, \"Reading\"");
    said.file.text(name);
    said
}

//! What is said of a file that is no image.

use crate::bytes::{guess, u16_at, u32_at, write_u16, write_u32};
use crate::headers::signature;
use crate::relocations::write_relocation;
use crate::sections::{write_align, write_fit, write_overlap};
use explain_base::{Line, Said};
use pe_image::ImageFault;
use std::alloc::Global;

// Writes of a file that ends before a header does.
fn write_short(file: &[u8], offset: usize, line: &mut Line) {
    let size = file.len();
    if size < 64 {
        line.text("the file has ")
            .count(size)
            .text(" bytes; wanted: an image, which has at least 64")
            .text(guess(file));
        return;
    }
    if offset == 60 {
        line.text("the headers begin at ")
            .at(signature(file))
            .text(" and end past the file, which has ")
            .count(size)
            .text(" bytes: it is cut off, or is no image");
        return;
    }
    let optional_size = u16_at(file, offset);
    if optional_size < 112 {
        line.text("SizeOfOptionalHeader is ")
            .number(u64::from(optional_size))
            .text("; wanted: 112 at least, as of a PE32+ image");
        return;
    }
    line.text("the section table ends past the file, which has ")
        .count(size)
        .text(" bytes: it is cut off");
}

// Writes of a file that doesn't begin as an image.
fn write_mark(file: &[u8], line: &mut Line) {
    let [first, second] = u16_at(file, 0).to_le_bytes();
    line.text("the first bytes are ")
        .byte(first)
        .text(" ")
        .byte(second);
    line.text("; wanted: 4d 5a, MZ, with which an image begins")
        .text(guess(file));
}

// The name of another machine, behind a comma; empty if it isn't known.
fn machine_name(machine: u16) -> &'static str {
    match machine {
        0x014c => ", x86",
        0x01c2 => ", ARM",
        0x0200 => ", Itanium",
        0x5064 => ", RISC-V",
        0x8664 => ", x64",
        0xaa64 => ", AArch64",
        _ => "",
    }
}

// Writes of an image for another machine.
fn write_machine(machine: u16, line: &mut Line) {
    line.text("Machine is ");
    write_u16(machine, line);
    line.text(machine_name(machine))
        .text("; wanted: 0x0ebc, EBC");
}

// Writes of a signature that isn't as it should be.
fn write_signature(number: u32, line: &mut Line) {
    line.text("the signature is ");
    write_u32(number, line);
    line.text("; wanted: 0x00004550, PE and two zeros");
}

// Writes of a magic number that isn't as it should be.
fn write_magic(magic: u16, line: &mut Line) {
    line.text("Magic is ");
    write_u16(magic, line);
    line.text("; wanted: 0x020b, PE32+");
}

// Writes of an entry that isn't as it should be.
fn write_entry(entry: u32, line: &mut Line) {
    line.text("the entry is ")
        .at(entry)
        .text("; wanted: an even place inside a section");
}

fn write_fault(file: &[u8], kind: ImageFault, offset: usize, line: &mut Line) {
    match kind {
        ImageFault::Short => write_short(file, offset, line),
        ImageFault::Mz => write_mark(file, line),
        ImageFault::Machine => write_machine(u16_at(file, offset), line),
        ImageFault::Pe => write_signature(u32_at(file, offset), line),
        ImageFault::Magic => write_magic(u16_at(file, offset), line),
        ImageFault::Entry => write_entry(u32_at(file, offset), line),
        ImageFault::Section => write_fit(file, offset, line),
        ImageFault::Overlap => write_overlap(file, offset, line),
        ImageFault::Align => write_align(file, offset, line),
        ImageFault::Reloc => write_relocation(file, offset, line),
    }
}

/// What is said of a file that is no image, by the fault and the offset that `read_image` tells of it.
pub fn image_said(alloc: Global, file: &[u8], kind: ImageFault, offset: u64) -> Said {
    let mut what = Line::new(alloc);
    write_fault(file, kind, offset as usize, &mut what);
    let mut at = Line::of(alloc, ":");
    at.hexadecimal(offset);
    Said::at_place(
        at,
        what,
        "docs/IMAGES.md, \"Faults, and what to do about them\"",
    )
}

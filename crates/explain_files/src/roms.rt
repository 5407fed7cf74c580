//! What is said of a file that is no option ROM, and of an image that isn't taken out of one, or is no driver for one.

use crate::bytes::{guess, u16_at, u32_at, write_u16, write_u32};
use crate::headers::optional;
use explain_base::{Line, Said};
use option_rom::{RomFault, TakeFault};
use std::alloc::Global;

// Writes of an image of which the header or the PCI data structure isn't in the file.
fn write_short(file: &[u8], offset: usize, line: &mut Line) {
    let size = file.len();
    if offset == 0 && size < 26 {
        line.text("the file has ")
            .count(size)
            .text(" bytes; wanted: an option ROM, whose header has 26");
        return;
    }
    line.text("a header or PCI data structure ends past the file, which has ")
        .count(size)
        .text(" bytes: it is cut off, or the image before is the last");
}

// Writes of an image that doesn't begin as one.
fn write_mark(file: &[u8], offset: usize, line: &mut Line) {
    line.text("the first two bytes of an image are ");
    write_u16(u16_at(file, offset), line);
    line.text("; wanted: 0xaa55").text(if offset == 0 {
        guess(file)
    } else {
        "; the image before has another length, or is the last"
    });
}

// Where the image begins whose length is at an offset: each image before it has its length in its PCI data structure.
fn start_of(file: &[u8], offset: usize) -> usize {
    let mut at = 0usize;
    for _ in 0..file.len() {
        let pcir = at.saturating_add(usize::from(u16_at(file, at.saturating_add(24))));
        let length = pcir.saturating_add(16);
        if length == offset || file.len() <= at {
            return at;
        }
        at = at.saturating_add(512 * usize::from(u16_at(file, length)));
    }
    at
}

// Writes of an image whose length is 0 or leads past the file.
fn write_length(file: &[u8], offset: usize, line: &mut Line) {
    let blocks = u64::from(u16_at(file, offset));
    if blocks == 0 {
        line.text("ImageLength is 0; wanted: how many blocks of 512 bytes the image has");
        return;
    }
    let start = start_of(file, offset) as u64;
    line.text("the image at ")
        .hexadecimal(start)
        .text(" has ")
        .number(blocks)
        .text(" blocks of 512 bytes, up to ")
        .hexadecimal(start.saturating_add(blocks * 512));
    line.text(", and the file ends at ")
        .hexadecimal(file.len() as u64)
        .text(": it is cut off");
}

// Writes of an EFI image with another signature, or one that begins past its end.
fn write_efi(file: &[u8], offset: usize, line: &mut Line) {
    let signature = u32_at(file, offset);
    if signature != 0x0ef1 {
        line.text("EfiSignature is ");
        write_u32(signature, line);
        line.text("; wanted: 0x00000ef1, since the code type is EFI");
        return;
    }
    let start = u16_at(file, offset.saturating_add(18));
    line.text("EfiImageHeaderOffset is ")
        .hexadecimal(u64::from(start))
        .text(", past the end of the image; wanted: a place in it");
}

fn write_fault(file: &[u8], kind: RomFault, offset: usize, line: &mut Line) {
    match kind {
        RomFault::Short => write_short(file, offset, line),
        RomFault::Mark => write_mark(file, offset, line),
        RomFault::Pcir => {
            write_u32(u32_at(file, offset), line);
            line.text(" stands where PcirOffset leads; wanted: 0x52494350, PCIR");
        }
        RomFault::Length => write_length(file, offset, line),
        RomFault::Efi => write_efi(file, offset, line),
    }
}

/// What is said of a file that is no option ROM, by the fault and the offset that `read_rom` tells of it.
pub fn rom_said(alloc: Global, file: &[u8], kind: RomFault, offset: u32) -> Said {
    let mut what = Line::new(alloc);
    write_fault(file, kind, offset as usize, &mut what);
    let mut at = Line::of(alloc, ":");
    at.at(offset);
    Said::at_place(
        at,
        what,
        "docs/ROMS.md, \"Faults, and what to do about them\"",
    )
}

/// What is said of the image with a number, which isn't taken out of an option ROM with so many images, by the fault that `take`
/// tells of it.
pub fn taking_said(alloc: Global, count: usize, number: u32, kind: TakeFault) -> Said {
    let mut what = Line::of(alloc, "image ");
    what.number(u64::from(number));
    match kind {
        TakeFault::Number => what
            .text(" is asked for, and the ROM has ")
            .count(count)
            .text(", counted from 0"),
        TakeFault::NotEbc => what.text(
            " isn't one of EBC; rom list prints the code type and the machine of each",
        ),
        TakeFault::Compressed => what.text(
            " is compressed; wanted: one that another tool has decompressed",
        ),
    };
    Said::with_page(what, "docs/ROMS.md, \"What is taken\"")
}

// What firmware does with an image of this subsystem in an option ROM, if it doesn't start it (UEFI specification, "PCI Option ROMs").
fn passed_over(subsystem: u32) -> Option<&'static str> {
    match subsystem {
        10 => Some("an application, which firmware passes over in an option ROM"),
        12 => Some("a runtime driver, of which EDK2 runs none in byte code"),
        _ => None,
    }
}

// Whether an image has a certificate table (PE/COFF specification, "Optional Header Data Directories").
fn is_signed(image: &[u8]) -> bool {
    optional(image, 108) > 4 && optional(image, 148) != 0
}

// What is said of an image whose signature covers no whole blocks.
fn unfilled_said(alloc: Global, image: &[u8]) -> Said {
    let size = image.len();
    let mut what = Line::of(alloc, "the image is signed, and its ");
    what.count(size).text(" bytes behind the 56 of the header fill no whole blocks of 512: ");
    what.text(
        "firmware hashes the zeros behind it, too, and refuses the signature; scripts/sign.sh pads an image before it signs it",
    );
    Said::with_page(what, "docs/ROMS.md, \"Secure Boot and signatures\"")
}

/// What is said of an image of which an option ROM is made, where firmware doesn't start it from there as it stands; none of another.
pub fn wrapped_said(alloc: Global, image: &[u8]) -> Option<Said> {
    let subsystem = optional(image, 68) % 0x1_0000;
    if let Some(why) = passed_over(subsystem) {
        let mut what = Line::of(alloc, "Subsystem is ");
        what.number(u64::from(subsystem))
            .text(", ")
            .text(why)
            .text("; wanted: 11, a boot service driver");
        return Some(Said::with_page(what, "docs/ROMS.md, \"What a firmware asks of a ROM\""));
    }
    let filled = image.len().saturating_add(56) % 512 == 0;
    if is_signed(image) && !filled {
        return Some(unfilled_said(alloc, image));
    }
    None
}

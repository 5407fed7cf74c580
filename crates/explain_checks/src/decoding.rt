//! What is said of the bytes of an instruction: the rules `decode` and `relocation`.

use crate::ranges::reloc_in;
use crate::refused::Stopped;
use ebc_decode::{DecodeFault, decode};
use ebc_insn::Insn;
use explain_base::{Line, Said};
use note_types::NoMemory;
use pe_image::{Image, byte_at, named_place};
use rules_base::takes_address;
use std::alloc::Global;

// An instruction has at most so many bytes.
const LONGEST: u32 = 18;

// The bytes of an image from a place on, as many as an instruction may have, up to an end.
fn code_from(alloc: Global, image: &Image, place: u32, end: u32) -> Result<Vec<u8>, NoMemory> {
    let mut code = Vec::new(alloc);
    for at in place..end.min(place.saturating_add(LONGEST)) {
        code.push(byte_at(image, u64::from(at)))?;
    }
    Ok(code)
}

/// The instruction at a place before an end, and its length.
pub(crate) fn insn_at(
    alloc: Global,
    image: &Image,
    place: u32,
    end: u32,
) -> Result<Option<(Insn, u32)>, NoMemory> {
    let code = code_from(alloc, image, place, end)?;
    let Ok((insn, length)) = decode(code.as_slice(), 0) else {
        return Ok(None);
    };
    match u32::try_from(length) {
        Ok(length) => Ok(Some((insn, length))),
        Err(_) => Ok(None),
    }
}

/// What is said where no instruction decodes within the function.
pub(crate) fn said_of_decode(stopped: &Stopped) -> Result<Said, NoMemory> {
    let (alloc, f) = (stopped.refused.alloc, stopped.f);
    let code = code_from(alloc, stopped.refused.image, stopped.at.place, f.end)?;
    let mut what = Line::of(alloc, "the bytes");
    for byte in code.as_slice().iter().take(4) {
        what.text(" ").byte(*byte);
    }
    match decode(code.as_slice(), 0) {
        Err(DecodeFault::Short) => what
            .text(" begin an instruction that ends past ")
            .text(f.name.as_str())
            .text(", which ends at ")
            .at(f.end),
        Err(DecodeFault::Opcode) => what.text(" begin with no opcode"),
        Err(DecodeFault::Reserved) => what.text(" have a reserved bit that isn't as it has to be"),
        Err(DecodeFault::IndexTag) => what.text(" have a 16-bit index with tag 7"),
        Err(DecodeFault::DirectIndex) => what.text(" have an index beside a direct operand 1"),
        Ok(_) => what.text(" are no instruction"),
    };
    Ok(Said::with_key(
        what,
        "function",
        stopped.at.func as usize,
        "end",
        "the function's end",
    ))
}

// ---- relocations

// Whether an instruction is an absolute jump, or call of byte code, by an immediate of 64 bits, or moves an address to a register.
fn has_address(i: &Insn) -> bool {
    match i {
        Insn::Jump { far, relative, .. } => *far && !*relative,
        Insn::Call {
            far,
            native,
            relative,
            ..
        } => *far && !*native && !*relative,
        Insn::MoveImm {
            size,
            bits,
            left,
            ..
        } => takes_address(*size, *bits, left.indirect),
        _ => false,
    }
}

// What is wrong with the relocated eight bytes at a place, at the end of an instruction that has an address.
fn fault_of_address(alloc: Global, image: &Image, insn: &Insn, at: u32) -> Line {
    let named = named_place(image, at);
    let mut what = Line::of(alloc, "the relocated address at ");
    what.at(at);
    if u64::from(image.size) <= named {
        what.text(" names ")
            .hexadecimal(named)
            .text(", no place of the image, which ends at ")
            .at(image.size);
    } else if let Insn::MoveImm { .. } = insn {
        what.text(" names no static object's start and no thunk cell of the notes");
    } else {
        what.text(" is refused");
    }
    what
}

/// What is said where the relocation of an instruction isn't as it has to be.
pub(crate) fn said_of_relocation(stopped: &Stopped) -> Option<Said> {
    let (alloc, image) = (stopped.refused.alloc, stopped.refused.image);
    let (insn, next) = stopped.at.insn?;
    let Some(at) = reloc_in(image, u64::from(stopped.at.place), u64::from(next)) else {
        return Some(Said::text(
            alloc,
            "an absolute JMP64 or CALL64 goes to a name, by a relocated immediate; this one has no relocation",
        ));
    };
    let ends_with_it = u64::from(at) + 8 == u64::from(next);
    if ends_with_it && has_address(&insn) {
        return Some(Said::only(fault_of_address(alloc, image, &insn, at)));
    }
    let mut what = Line::of(alloc, "a relocation stands at ");
    what.at(at).text(
        "; only the immediate of MOVIqq to a register, of JMP64a and of CALL64a has one",
    );
    Some(Said::only(what))
}

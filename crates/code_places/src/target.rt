//! The places that instructions name by their distance.
ghost use Rattle.std.specs.Prelude.{◌≡◌, ◌+◌, ◌<◌, ◌^◌, pos, ◌+ℤ◌, option_map};
ghost use Rattle.ebc_disasm.specs.CodeItems.{IsItem};
ghost use Rattle.code_places.specs.Places.{beside_zero, distance_in, line_distance, line_target, place_inside};

use asm_text::Listed;
use ebc_disasm::Item;
use ebc_insn::{Extra, Insn, Operand};
use pe_image::Image;

// A distance that stands in an instruction, 64 bits of it, or fewer beside R0.
fn beside_zero(far: bool, op: &Operand, imm: i64) -> Option<i64>
    ensures { result ≡ beside_zero far op.now imm }
{
    if far || (op.reg == 0 && !op.indirect) {
        Some(imm)
    } else {
        None
    }
}

// How far past the next instruction the place is that an instruction names.
fn distance_in(i: &Insn) -> Option<i64>
    ensures { result ≡ distance_in i.now }
{
    match i {
        Insn::Jump8 { words, .. } => Some(i64::from(*words) * 2),
        Insn::Jump {
            far,
            relative: true,
            op,
            extra: Extra::Imm(imm),
            ..
        }
        | Insn::Call {
            far,
            relative: true,
            op,
            extra: Extra::Imm(imm),
            ..
        } => beside_zero(*far, op, *imm),
        Insn::MoveRelative { imm, .. } => Some(*imm),
        _ => None,
    }
}

// The same of a line.
fn line_distance(line: &Listed) -> Option<i64>
    ensures { result ≡ line_distance line.now }
{
    match line {
        Listed::Instruction { insn, .. } => distance_in(insn),
        _ => None,
    }
}

// The place so far past another, where an image of this size has it.
fn place_inside(size: u32, next: u32, distance: i64) -> Option<u32>
    ensures { result ≡ place_inside size (pos next +ℤ distance) }
{
    let place = i64::from(next).checked_add(distance)?;
    if place >= 0 && place < i64::from(size) {
        Some(place as u32)
    } else {
        None
    }
}

/// The place of the image that the line of an item names by a distance, if it names one.
pub(crate) fn line_target(image: &Image, item: &Item) -> Option<u32>
    requires { IsItem item.now }
    ensures { result ≡ line_target image.now item.now }
{
    let next = item.place + item.count as u32;
    let distance = line_distance(&item.line)?;
    place_inside(image.size, next, distance)
}

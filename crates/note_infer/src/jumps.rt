//! The places that jumps name.

ghost use Rattle.std.specs.Prelude.{◌≡◌, ◌+ℤ◌, pos};
ghost use Rattle.pe_image.specs.Images.{IsImage};
ghost use Rattle.rules_image.specs.Images.{reloc_at};
ghost use Rattle.note_infer.specs.Leaders.{jump_names, names_place, relocated_place};

use ebc_insn::{Extra, Insn, Operand};
use pe_image::{Image, named_place};

// The place so many bytes past the next instruction.
fn onward(next: u32, distance: i64) -> i128
    ensures { result ≡ pos next +ℤ distance }
{
    i128::from(next) + i128::from(distance)
}

// The place that a relocated immediate names.
fn relocated_place(reloc: Option<u64>) -> Option<i128>
    ensures { result ≡ relocated_place reloc }
{
    match reloc {
        Some(place) => Some(i128::from(place)),
        None => None,
    }
}

/// The place that a JMP of these parts names, or a CALL of byte code: by an immediate of 64 bits, relative or relocated, or a
/// relative one beside R0. `next` is the place of the next instruction, and `reloc` the one that its relocated immediate names.
pub fn jump_names(
    next: u32,
    reloc: Option<u64>,
    far: bool,
    relative: bool,
    op: &Operand,
    extra: &Extra,
) -> Option<i128>
    ensures { result ≡ jump_names next reloc far relative op.now extra.now }
{
    match (far, relative, extra) {
        (true, true, Extra::Imm(imm)) => Some(onward(next, *imm)),
        (true, false, Extra::Imm(_)) => relocated_place(reloc),
        (false, true, Extra::Imm(imm)) => if op.reg == 0 && !op.indirect {
            Some(onward(next, *imm))
        } else {
            None
        },
        _ => None,
    }
}

/// The place that an instruction before `next` names as the target of a jump, where it does. `reloc` is the place that its
/// relocated immediate names, where it has one.
pub fn names_place(next: u32, reloc: Option<u64>, i: &Insn) -> Option<i128>
    ensures { result ≡ names_place next reloc i.now }
{
    match i {
        Insn::Jump8 { words, .. } => Some(i128::from(next) + i128::from(*words) * 2),
        Insn::Jump {
            far,
            relative,
            op,
            extra,
            ..
        } => jump_names(next, reloc, *far, *relative, op, extra),
        _ => None,
    }
}

/// The place that the relocated immediate of an instruction that ends before `next` names, where it has one.
#[tactic(auto, unfolding(rules_image::specs::Images::reloc_at))]
pub fn reloc_at(image: &Image, next: u32) -> Option<u64>
    requires { IsImage image.now }
    ensures { result ≡ reloc_at image.now next }
{
    let place = next.saturating_sub(8);
    match image.relocs.as_slice().binary_search(&place) {
        Ok(_) => Some(named_place(image, place)),
        Err(_) => None,
    }
}

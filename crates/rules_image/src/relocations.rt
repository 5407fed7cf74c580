//! The rules of an instruction that look at the image: whether its relocation is allowed, and whether control can leave the
//! function past it.

ghost use Rattle.std.specs.Prelude.{◌≡◌, ◌+◌, ◌<◌, ◌≤◌, ◌↔◌, ◌^◌, ◌||◌, ℕ, IfNone, IfOk, IfSome, IsTrue, OnErr, Some, length, slice_get};
ghost use Rattle.std.specs.Prelude.{true};
ghost use Rattle.pe_image.specs.Images.{IsImage};
ghost use Rattle.rules_image.specs.Images.{EndHolds, RelocationHolds, falls, is_absolute, is_address_move, reloc_at, NamesAt};
ghost use Rattle.rules_image.specs.Marks.{RelocsFrom};

use ebc_insn::{Cond, Insn};
use note_types::{FnNote, Notes};
use pe_image::{Image, named_place};
use rules_base::{takes_address, thing_at};

// An absolute jump, or call of byte code, by an immediate of 64 bits.
fn is_absolute(i: &Insn) -> bool
    ensures { result ≡ is_absolute i.now }
{
    match i {
        Insn::Jump { far, relative, .. } => *far && !*relative,
        Insn::Call {
            far,
            native,
            relative,
            ..
        } => *far && !*native && !*relative,
        _ => false,
    }
}

// The move of an address to a register.
fn is_address_move(i: &Insn) -> bool
    ensures { result ≡ is_address_move i.now }
{
    match i {
        Insn::MoveImm {
            size,
            bits,
            left,
            ..
        } => takes_address(*size, *bits, left.indirect),
        _ => false,
    }
}

// Whether control may go on at the next instruction.
fn falls(i: &Insn) -> bool
    ensures { result ≡ falls i.now }
{
    !matches!(
        i,
        Insn::Ret
            | Insn::Jump {
                cond: Cond::Always,
                ..
            }
            | Insn::Jump8 {
                cond: Cond::Always,
                ..
            }
    )
}

/// Whether no fall leaves the function.
pub fn ends_within(f: &FnNote, i: &Insn, next: u32) -> bool
    ensures { IsTrue result ↔ EndHolds f.now i.now next }
{
    !falls(i) || next < f.end
}

// The first relocation from this number on, where it has a byte before a place.
fn touched(image: &Image, first: usize, next: u32) -> Option<u32>
    ensures some { IfSome result (λ r. (slice_get image.now.relocs first ≡ Some r) × (r < next)) }
    ensures none { IfNone result ((r : ℕ) → slice_get image.now.relocs first ≡ Some r → next ≤ r) }
    ensures room { IfSome result (λ _. first + 1 < 2 ^ 64) }
{
    match image.relocs.as_slice().get(first) {
        Some(r) if *r < next => Some(*r),
        _ => None,
    }
}

// The place that the relocated eight bytes at a place name, where it is in the image, and, of the move of an address, a
// static object or a thunk cell starts there.
fn named_by(image: &Image, notes: &Notes, i: &Insn, place: u32) -> Option<u32>
    requires { length notes.now.thunk < 2 ^ 32 }
    ensures some { IfSome result (λ p. NamesAt image.now notes.now i.now place p) }
    ensures none { IfNone result ((p : ℕ) → NamesAt image.now notes.now i.now place p → ⊥) }
{
    let named = named_place(image, place);
    if u64::from(image.size) <= named {
        return None;
    }
    let named = named as u32;
    if is_address_move(i) && thing_at(notes, i128::from(named)).is_none() {
        return None;
    }
    Some(named)
}

// Whether eight relocated bytes may be the immediate of an instruction that ends before `next`.
fn may_be_relocated(i: &Insn, place: u32, next: u32) -> bool
    ensures { IsTrue result ↔ ((place + 8 ≡ next) × ((is_absolute i.now || is_address_move i.now) ≡ true)) }
{
    u64::from(place) + 8 == u64::from(next) && (is_absolute(i) || is_address_move(i))
}

/// The number of the first relocation that doesn't end before the next instruction, where one that touches this instruction
/// ends with it.
pub fn past(image: &Image, at: u32, next: u32, first: usize) -> usize
    requires image { IsImage image.now }
    requires first { RelocsFrom image.now at first }
    requires later { at < next }
    requires ends { (r : ℕ) → slice_get image.now.relocs first ≡ Some r → r < next → r + 8 ≡ next }
    ensures { RelocsFrom image.now next result }
{
    match touched(image, first, next) {
        Some(_) => first + 1,
        None => first,
    }
}

/// The place that the relocated immediate of an instruction names, where it has one. `first` is the number of the first
/// relocation that doesn't end before the instruction.
///
/// # Errors
///
/// The rule `relocation` fails.
pub fn relocation(
    image: &Image,
    notes: &Notes,
    i: &Insn,
    at: u32,
    next: u32,
    first: usize,
) -> Result<Option<u32>, ()>
    requires image { IsImage image.now }
    requires first { RelocsFrom image.now at first }
    requires later { at < next }
    requires thunks { length notes.now.thunk < 2 ^ 32 }
    ensures holds { IfOk result (λ reloc. (reloc ≡ reloc_at image.now next) × RelocationHolds image.now notes.now at i.now next reloc) }
    ensures fails { OnErr result (RelocationHolds image.now notes.now at i.now next (reloc_at image.now next) → ⊥) }
{
    match touched(image, first, next) {
        None => if is_absolute(i) { Err(()) } else { Ok(None) },
        Some(place) => {
            if !may_be_relocated(i, place, next) {
                return Err(());
            }
            match named_by(image, notes, i, place) {
                Some(named) => Ok(Some(named)),
                None => Err(()),
            }
        }
    }
}

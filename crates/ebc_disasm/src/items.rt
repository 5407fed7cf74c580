//! What is listed at a place, by the first of four cases that applies.

ghost use Rattle.std.specs.Prelude.{◌≡◌, ℕ, ◌+◌, ◌<◌, ◌≤◌, ◌^◌, length, IfSome, Some, true};
ghost use Rattle.ebc_insn.specs.Spelling.{WellFormed};
ghost use Rattle.pe_image.specs.Images.{IsImage};
ghost use Rattle.asm_text.specs.Writing.{ListedFits};
ghost use Rattle.ebc_disasm.specs.Listings.{insn_at, item_at, place_at, takes_label, with_label, without_immediate, word_at};
ghost use Rattle.ebc_disasm.specs.Walks.{IsSpot, ItemFits, MayHave, is_at, is_before, label_in};

use crate::bytes::named;
use asm_text::Listed;
use ebc_decode::decode;
use ebc_insn::{Extra, Insn, Size};
use pe_image::Image;

// A place, and what comes next there.
#[derive(Clone, Copy)]
pub(crate) struct Spot {
    // The place.
    pub place: u32,
    // The first relocation of which a byte lies behind the place or there.
    pub reloc: Option<u32>,
    // The first label behind the place.
    pub label: Option<u32>,
}

// Whether a place is there and lies before an end.
fn is_before(end: u32, place: Option<u32>) -> bool
    ensures { result ≡ is_before end place }
{
    match place {
        Some(place) => place < end,
        None => false,
    }
}

// Whether a place is there and is this one.
pub(crate) fn is_at(place: u32, next: Option<u32>) -> bool
    ensures { result ≡ is_at place next }
{
    match next {
        Some(next) => place == next,
        None => false,
    }
}

// MOVIqq, and an absolute JMP64 or CALL64.
fn takes_label(i: &Insn) -> bool
    ensures { result ≡ takes_label i.now }
{
    match i {
        Insn::MoveImm {
            size: Size::Qword,
            bits,
            ..
        } => *bits == 64,
        Insn::Jump { far, relative, .. } | Insn::Call { far, relative, .. } => *far && !*relative,
        _ => false,
    }
}

// An instruction whose immediate a label stands for.
fn without_immediate(i: &Insn) -> Insn
    ensures { result ≡ without_immediate i.now }
{
    match *i {
        Insn::MoveImm {
            size,
            bits,
            left,
            lidx,
            ..
        } => Insn::MoveImm {
            size,
            bits,
            left,
            lidx,
            imm: 0,
        },
        Insn::Jump {
            cond,
            far,
            relative,
            op,
            ..
        } => Insn::Jump {
            cond,
            far,
            relative,
            op,
            extra: Extra::Imm(0),
        },
        Insn::Call {
            far,
            native,
            relative,
            op,
            ..
        } => Insn::Call {
            far,
            native,
            relative,
            op,
            extra: Extra::Imm(0),
        },
        other => other,
    }
}

// An instruction with the label, if any, in place of its immediate.
fn with_label(i: &Insn, label: Option<u32>) -> Listed
    requires spelled { WellFormed i.now }
    requires label { MayHave i.now (Some label) }
    ensures same { result ≡ with_label i.now label }
    ensures fits { ListedFits result }
{
    match label {
        None => Listed::Instruction {
            insn: *i,
            place: None,
        },
        Some(target) => Listed::Instruction {
            insn: without_immediate(i),
            place: Some(target),
        },
    }
}

// 1. `.dq` and a label, at a relocation whose target is in a section.
#[tactic(auto, unfolding(crate::specs::Listings::place_at), using(crate::proofs::Spots::reloc_at))]
fn place_at(image: &Image, spot: Spot, bytes: &[u8]) -> Option<(Listed, usize)>
    requires image { IsImage image.now }
    requires spot { IsSpot image.now spot }
    requires within { spot.place + length bytes.now < 2 ^ 23 }
    ensures same { result ≡ place_at image.now spot.place bytes.now }
    ensures fits { IfSome result (ItemFits (length bytes.now)) }
{
    if bytes.len() >= 8 && is_at(spot.place, spot.reloc) {
        match named(image, spot.place) {
            Some(target) => Some((Listed::Place(target), 8)),
            None => None,
        }
    } else {
        None
    }
}

// The label in place of an instruction's immediate, if any, where the relocations on it let it be listed.
fn label_in(image: &Image, i: &Insn, next: u32, reloc: Option<u32>) -> Option<Option<u32>>
    requires image { IsImage image.now }
    requires within { next < 2 ^ 23 }
    ensures same { result ≡ label_in image.now i.now next reloc }
    ensures may { MayHave i.now result }
{
    match reloc {
        Some(reloc) if reloc < next => {
            if takes_label(i) && reloc + 8 == next {
                match named(image, reloc) {
                    Some(target) => Some(Some(target)),
                    None => None,
                }
            } else {
                None
            }
        }
        _ => Some(None),
    }
}

// 2. The instruction that the bytes begin with.
#[tactic(auto, unfolding(crate::specs::Listings::insn_at), using(crate::proofs::Spots::insn_by))]
fn insn_at(image: &Image, spot: Spot, bytes: &[u8]) -> Option<(Listed, usize)>
    requires image { IsImage image.now }
    requires spot { IsSpot image.now spot }
    requires within { spot.place + length bytes.now < 2 ^ 23 }
    ensures same { result ≡ insn_at image.now spot.place bytes.now }
    ensures fits { IfSome result (ItemFits (length bytes.now)) }
{
    match decode(bytes, 0) {
        Ok((insn, count)) => {
            let next = spot.place + count as u32;
            if is_before(next, spot.label) {
                return None;
            }
            match label_in(image, &insn, next, spot.reloc) {
                Some(label) => Some((with_label(&insn, label), count)),
                None => None,
            }
        }
        Err(_) => None,
    }
}

// 3. The word that the bytes begin with.
#[tactic(auto, unfolding(crate::specs::Listings::word_at), using(crate::proofs::Spots::reloc_on))]
fn word_at(image: &Image, spot: Spot, bytes: &[u8]) -> Option<(Listed, usize)>
    requires image { IsImage image.now }
    requires spot { IsSpot image.now spot }
    requires within { spot.place + length bytes.now < 2 ^ 23 }
    ensures same { result ≡ word_at image.now spot.place bytes.now }
    ensures fits { IfSome result (ItemFits (length bytes.now)) }
{
    match bytes {
        [low, high, ..] => {
            let next = spot.place + 2;
            if !is_before(next, spot.label) && !is_before(next, spot.reloc) {
                let word = u16::from(*low) + 256 * u16::from(*high);
                Some((Listed::Word(word), 2))
            } else {
                None
            }
        }
        _ => None,
    }
}

/// What is listed at a place, and how many bytes it has.
#[tactic(auto, unfolding(crate::specs::Listings::item_at))]
pub(crate) fn item_at(image: &Image, code: bool, spot: Spot, bytes: &[u8]) -> (Listed, usize)
    requires image { IsImage image.now }
    requires spot { IsSpot image.now spot }
    requires within { spot.place + length bytes.now < 2 ^ 23 }
    requires some { 0 < length bytes.now }
    ensures same { result ≡ item_at image.now code spot.place bytes.now }
    ensures fits { ItemFits (length bytes.now) result }
{
    if let Some(item) = place_at(image, spot, bytes) {
        return item;
    }
    if code {
        if let Some(item) = insn_at(image, spot, bytes) {
            return item;
        }
        if let Some(item) = word_at(image, spot, bytes) {
            return item;
        }
    }
    (Listed::Byte(bytes[0]), 1)
}

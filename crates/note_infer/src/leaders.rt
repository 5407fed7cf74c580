//! The leaders: the places that the jumps of the functions name.

ghost use Rattle.std.specs.Prelude.{◌↔◌, ℕ, IfNone, IfOk, IfSome, OnOk};
ghost use Rattle.std.specs.List.{Contains};
ghost use Rattle.note_types.specs.Records.{IsNotes};
ghost use Rattle.pe_image.specs.Images.{IsImage};
ghost use Rattle.rules_image.specs.Images.{FunctionHolds};
ghost use Rattle.note_infer.specs.Leaders.{AreLeaders, IsLeader, IsLeaderOf};
ghost use Rattle.note_infer.specs.Finding.{Adds, HasCode, IsNamedIn};

use crate::jumps::{names_place, reloc_at};
use ebc_base::NoMemory;
use ebc_decode::decode;
use ebc_insn::Insn;
use note_types::{FnNote, Notes};
use pe_image::Image;
use rules_image::code_of;
use std::alloc::Global;

// The place that an instruction before `next` names, where it is one of the function's code.
fn named_in(image: &Image, f: &FnNote, next: u32, i: &Insn) -> Option<u32>
    requires { IsImage image.now }
    ensures some { IfSome result (IsNamedIn image.now f.now next i.now) }
    ensures none { IfNone result ((p : ℕ) → IsNamedIn image.now f.now next i.now p → ⊥) }
{
    let place = names_place(next, reloc_at(image, next), i)?;
    if i128::from(f.place) <= place && place < i128::from(f.end) {
        Some(place as u32)
    } else {
        None
    }
}

// Adds the leaders of a function to these places.
fn add_leaders(image: &Image, f: &FnNote, places: &mut Vec<u32>) -> Result<(), NoMemory>
    requires image { IsImage image.now }
    requires code { HasCode image.now f.now }
    ensures { OnOk result (Adds (IsLeaderOf image.now f.now) places.old.items places.new.items) }
{
    let code = code_of(image, f);
    let mut at = f.place;
    while at < f.end {
        let Ok((insn, len)) = decode(code, (at - f.place) as usize) else {
            return Ok(());
        };
        let next = at + len as u32;
        if let Some(place) = named_in(image, f, next, &insn) {
            places.push(place)?;
        }
        at = next;
    }
    Ok(())
}

// The places that the functions' jumps name, once for each jump.
fn all_named(alloc: Global, image: &Image, notes: &Notes) -> Result<Vec<u32>, NoMemory>
    requires image { IsImage image.now }
    requires notes { IsNotes notes.now }
    requires functions { (k : ℕ) → FunctionHolds image.now notes.now k }
    ensures { IfOk result (λ places. (p : ℕ) → Contains places.items p ↔ IsLeader image.now notes.now p) }
{
    let mut places = Vec::new(alloc);
    for f in notes.function.as_slice() {
        add_leaders(image, f, &mut places)?;
    }
    Ok(places)
}

/// The leaders of an image under notes, in ascending order.
///
/// # Errors
///
/// There is no memory for them.
pub fn find_leaders(alloc: Global, image: &Image, notes: &Notes) -> Result<Vec<u32>, NoMemory>
    requires image { IsImage image.now }
    requires notes { IsNotes notes.now }
    requires functions { (k : ℕ) → FunctionHolds image.now notes.now k }
    ensures { IfOk result (λ leaders. AreLeaders image.now notes.now leaders.items) }
{
    let mut leaders = all_named(alloc, image, notes)?;
    leaders.sort_unstable();
    leaders.dedup();
    Ok(leaders)
}

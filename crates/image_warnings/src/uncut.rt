//! Where an instruction leads, and behind which ones paths begin.

ghost use Rattle.std.specs.Prelude.{◌≡◌, ℕ, IfNone, IfSome, map};
ghost use Rattle.std.specs.List.Sorted.{IsStrictlyIncreasing};
ghost use Rattle.note_infer.specs.Finding.{IsNamedIn};
ghost use Rattle.rules_image.specs.Images.{falls};
ghost use Rattle.state_walk.specs.Standing.{IsWalkedFunction};
ghost use Rattle.image_warnings.specs.Uncut.{way_of};

use departures::{Above, calls_native, leaves, signature_at};
use ebc_insn::{Cond, Insn};
use note_infer::{names_place, reloc_at};
use note_types::Notes;
use state_walk::Walk;

/// Whether control may fall through to the next instruction.
pub(crate) fn falls(insn: &Insn) -> bool
    ensures { result ≡ falls insn.now }
{
    match insn {
        Insn::Ret
        | Insn::Jump {
            cond: Cond::Always,
            ..
        }
        | Insn::Jump8 {
            cond: Cond::Always,
            ..
        } => false,
        _ => true,
    }
}

/// Whether an instruction at a place is a native call that may.
pub(crate) fn begins(notes: &Notes, above: Above, place: u32, insn: &Insn) -> bool
    requires { IsStrictlyIncreasing (map (λ x. x.place) notes.now.site) }
    ensures { result ≡ (way_of notes.now above).begins place insn.now }
{
    calls_native(insn) && leaves(above, signature_at(notes, place))
}

/// The place of a walk's function that an instruction before `next` names as the target of a jump, where it does.
pub(crate) fn jump_in(walk: &Walk, next: u32, insn: &Insn) -> Option<u32>
    requires { IsWalkedFunction walk.now.image.now walk.now.notes.now walk.now.func walk.now.f.now }
    ensures some { IfSome result (IsNamedIn walk.now.image.now walk.now.f.now next insn.now) }
    ensures none { IfNone result ((p : ℕ) → IsNamedIn walk.now.image.now walk.now.f.now next insn.now p → ⊥) }
{
    let place = names_place(next, reloc_at(walk.image, next), insn)?;
    if i128::from(walk.f.place) <= place && place < i128::from(walk.f.end) {
        Some(place as u32)
    } else {
        None
    }
}

//! What starts at a place of the image, and what a relocated immediate is the address of.

ghost use Rattle.std.specs.Prelude.{◌≡◌, ◌<◌, ◌^◌, length, option_copied, IfSome};
ghost use Rattle.rules_base.specs.Things.{relocated, static_at, takes_address, thing_at, thunk_at};

use ebc_insn::Size;
use note_types::{Notes, RuleName, Static, Statics, Thunks, Ty};

// The static object that starts at a place.
fn static_at(statics: &Statics, place: i128) -> Option<&Static>
    ensures { option_copied result ≡ static_at statics.now place }
{
    match statics.first_at(place) {
        Some(number) => Some(&statics.as_slice()[number]),
        None => None,
    }
}

// The number of the thunk cell that starts at a place.
fn thunk_at(thunks: &Thunks, place: i128) -> Option<usize>
    ensures found { result ≡ thunk_at thunks.now place }
    ensures number { IfSome result (λ i. i < length thunks.now) }
{
    thunks.first_at(place)
}

/// What starts at a place: a static object or a thunk cell.
#[tactic(auto, unfolding(crate::specs::Things::thing_at))]
pub fn thing_at(notes: &Notes, place: i128) -> Option<Ty>
    requires { length notes.now.thunk < 2 ^ 32 }
    ensures { result ≡ thing_at notes.now place }
{
    if let Some(s) = static_at(&notes.statics, place) {
        return Some(Ty::Ptr {
            shape: s.shape,
            count: s.count,
            n: 0,
            c: 0,
            null: false,
        });
    }
    let thunk = thunk_at(&notes.thunk, place)?;
    Some(Ty::ThunkAt(thunk as u32))
}

/// The one move whose immediate may be relocated: MOVIqq to a register.
pub fn takes_address(size: Size, bits: u8, indirect: bool) -> bool
    ensures { result ≡ takes_address size bits indirect }
{
    match size {
        Size::Qword => bits == 64 && !indirect,
        _ => false,
    }
}

/// The address that a relocated immediate is.
pub fn relocated(notes: &Notes, takes: bool, place: u32) -> Result<Ty, RuleName>
    requires { length notes.now.thunk < 2 ^ 32 }
    ensures { result ≡ relocated notes.now takes place }
{
    if takes {
        thing_at(notes, i128::from(place)).ok_or(RuleName::Relocation)
    } else {
        Err(RuleName::Relocation)
    }
}

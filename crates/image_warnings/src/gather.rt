//! What the instructions of a typed image do that counts at other places.

ghost use Rattle.std.specs.Prelude.{◌≡◌, ◌+◌, IfOk, IfSome, OnOk, length};
ghost use Rattle.ebc_insn.specs.Spelling.{WellFormed};
ghost use Rattle.note_types.specs.Records.{IsNotes};
ghost use Rattle.pe_image.specs.Images.{IsImage};
ghost use Rattle.state_walk.specs.Standing.{IsWalkedFunction};
ghost use Rattle.width_checker.specs.Typed.{Typed};
ghost use Rattle.image_warnings.specs.ImageEffects.{AreEffects, EffectsBefore, with_effect};

use crate::effect::{Effect, add, effect_of};
use ebc_base::NoMemory;
use note_types::{FnNote, Notes};
use pe_image::Image;
use state_walk::{Before, Walk};
use std::alloc::Global;

// Appends the effect of what stands at a place.
fn add_of(walk: &Walk, b: &Before, out: &mut Vec<Effect>) -> Result<(), NoMemory>
    requires walk { IsWalkedFunction walk.now.image.now walk.now.notes.now walk.now.func walk.now.f.now }
    requires insn { IfSome b.now.insn (λ (i, next). WellFormed i) }
    ensures { OnOk result (out.new.items ≡ with_effect out.old.items walk.now.image.now walk.now.notes.now walk.now.f.now
        b.now.state b.now.insn) }
{
    let Some(state) = &b.state else {
        return Ok(());
    };
    let Some((insn, next)) = &b.insn else {
        return Ok(());
    };
    let effect = effect_of(walk.image, walk.notes, walk.f, state, insn, *next);
    add(&effect, out)
}

// Appends the effects of a function.
fn add_function(walk: &Walk, out: &mut Vec<Effect>) -> Result<(), NoMemory>
    requires walk { IsWalkedFunction walk.now.image.now walk.now.notes.now walk.now.func walk.now.f.now }
    requires typed { Typed walk.now.image.now walk.now.notes.now }
    requires before { EffectsBefore walk.now.image.now walk.now.notes.now walk.now.func out.old.items }
    ensures { OnOk result (EffectsBefore walk.now.image.now walk.now.notes.now (walk.now.func + 1) out.new.items) }
{
    let mut b = walk.start();
    'places: loop {
        add_of(walk, &b, out)?;
        match walk.next(&b) {
            Some(next) => b = next,
            None => return Ok(()),
        }
    }
}

// Appends the effects of these functions, all of the notes, in their order.
fn add_each(
    image: &Image,
    notes: &Notes,
    functions: &[FnNote],
    out: &mut Vec<Effect>,
) -> Result<(), NoMemory>
    requires image { IsImage image.now }
    requires notes { IsNotes notes.now }
    requires functions { functions.now ≡ notes.now.function }
    requires typed { Typed image.now notes.now }
    requires before { EffectsBefore image.now notes.now 0 out.old.items }
    ensures { OnOk result (EffectsBefore image.now notes.now (length functions.now) out.new.items) }
{
    for (func, f) in functions.iter().enumerate() {
        let walk = Walk {
            image,
            notes,
            func: func as u32,
            f,
        };
        add_function(&walk, out)?;
    }
    Ok(())
}

/// What the instructions of an image do that counts at other places, each once.
///
/// # Errors
///
/// There is no memory for it.
pub(crate) fn image_effects(
    alloc: Global,
    image: &Image,
    notes: &Notes,
) -> Result<Vec<Effect>, NoMemory>
    requires image { IsImage image.now }
    requires notes { IsNotes notes.now }
    requires typed { Typed image.now notes.now }
    ensures { IfOk result (λ effects. AreEffects image.now notes.now effects.items) }
{
    let mut out = Vec::new(alloc);
    add_each(image, notes, notes.function.as_slice(), &mut out)?;
    Ok(out)
}

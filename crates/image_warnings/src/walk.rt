//! The walk through the functions of a typed image.

ghost use Rattle.std.specs.Prelude.{◌≡◌, ◌+◌, ◌++◌, ◌≤◌, ◌<◌, ◌^◌, IfOk, IfSome, OnOk, Some, length, map, slice_get};
ghost use Rattle.std.specs.List.Sorted.{IsStrictlyIncreasing};
ghost use Rattle.ebc_insn.specs.Spelling.{WellFormed};
ghost use Rattle.note_types.specs.Records.{IsNotes};
ghost use Rattle.pe_image.specs.Images.{IsImage};
ghost use Rattle.state_walk.specs.Standing.{IsWalkedFunction};
ghost use Rattle.width_checker.specs.Typed.{Typed};
ghost use Rattle.departures.specs.Departures.{departs};
ghost use Rattle.image_warnings.specs.ImageEffects.{AreEffects};
ghost use Rattle.departures.specs.Texts.{unended_texts};
ghost use Rattle.image_warnings.specs.Walks.{WarnedBefore, warnings_of};
ghost use Rattle.image_warnings.specs.Warned.{AreWarnings, due, due_of, warnings_at};

use crate::around::{Beside, following_insn};
use crate::effect::Effect;
use crate::gather::image_effects;
use crate::spread::Marks;
use crate::warning::Warning;
use departures::{KINDS, Kind, Scene, unended_texts};
use ebc_base::{NoMemory, Sequence};
use note_types::{FnNote, Notes, Static};
use pe_image::Image;
use state_walk::{Before, Walk};
use std::alloc::Global;

// Appends the warning of a kind, if it is due.
fn append_due(scene: &Scene, kind: Kind, out: &mut Vec<Warning>) -> Result<(), NoMemory>
    requires insn { WellFormed scene.now.insn.now }
    requires sites { IsStrictlyIncreasing (map (λ x. x.place) scene.now.notes.now.site) }
    ensures { OnOk result (out.new.items ≡ out.old.items ++ due scene.now.place kind
        (departs kind scene.now.notes.now scene.now.f.now scene.now.place scene.now.state.now scene.now.around scene.now.insn.now)) }
{
    if scene.departs(kind) {
        let place = scene.place;
        out.push(Warning { place, kind })?;
    }
    Ok(())
}

// Appends those of the kinds that are due.
#[tactic(auto, unfolding(crate::specs::Warned::due_of))]
fn append_kinds(scene: &Scene, kinds: &[Kind], out: &mut Vec<Warning>) -> Result<(), NoMemory>
    requires insn { WellFormed scene.now.insn.now }
    requires sites { IsStrictlyIncreasing (map (λ x. x.place) scene.now.notes.now.site) }
    ensures { OnOk result (out.new.items ≡ out.old.items ++ due_of scene.now.place
        (λ kind. departs kind scene.now.notes.now scene.now.f.now scene.now.place scene.now.state.now scene.now.around scene.now.insn.now)
        kinds.now) }
{
    match kinds {
        [] => Ok(()),
        [kind, rest @ ..] => {
            append_due(scene, *kind, out)?;
            append_kinds(scene, rest, out)
        }
    }
}

// Appends the warnings of an instruction.
fn append_all(scene: &Scene, out: &mut Vec<Warning>) -> Result<(), NoMemory>
    requires insn { WellFormed scene.now.insn.now }
    requires sites { IsStrictlyIncreasing (map (λ x. x.place) scene.now.notes.now.site) }
    ensures { OnOk result (out.new.items ≡ out.old.items ++ warnings_at scene.now.place scene.now.notes.now scene.now.f.now
        scene.now.state.now scene.now.around scene.now.insn.now) }
{
    append_kinds(scene, &KINDS, out)
}

// Appends the warnings of what stands at a place.
fn append_of(
    walk: &Walk,
    b: &Before,
    beside: &Beside,
    out: &mut Vec<Warning>,
) -> Result<(), NoMemory>
    requires insn { IfSome b.now.insn (λ (i, next). WellFormed i) }
    requires sites { IsStrictlyIncreasing (map (λ x. x.place) walk.now.notes.now.site) }
    ensures { OnOk result (out.new.items ≡ out.old.items ++ warnings_of beside.now.effects.now beside.now.texts.now b.now.place
        walk.now.notes.now walk.now.f.now beside.now.uncut beside.now.behind b.now.state b.now.insn) }
{
    let Some(state) = &b.state else {
        return Ok(());
    };
    let Some((insn, _)) = &b.insn else {
        return Ok(());
    };
    let scene = Scene {
        notes: walk.notes,
        f: walk.f,
        place: b.place,
        state,
        around: beside.around(walk, b.place, state, insn),
        insn,
    };
    append_all(&scene, out)
}

// What the image has as a whole: the effects of its instructions, and its texts without a zero.
#[derive(Clone, Copy)]
struct Whole<'a> {
    effects: &'a [Effect],
    texts: &'a [Static],
}

// Appends the warnings of a function, where this is what the image has.
fn append_function(
    alloc: Global,
    walk: &Walk,
    whole: &Whole,
    out: &mut Vec<Warning>,
) -> Result<(), NoMemory>
    requires walk { IsWalkedFunction walk.now.image.now walk.now.notes.now walk.now.func walk.now.f.now }
    requires typed { Typed walk.now.image.now walk.now.notes.now }
    requires effects { AreEffects walk.now.image.now walk.now.notes.now whole.now.effects.now }
    requires texts { whole.now.texts.now ≡ unended_texts walk.now.image.now walk.now.notes.now }
    requires before { WarnedBefore walk.now.image.now walk.now.notes.now walk.now.func out.old.items }
    ensures { OnOk result (WarnedBefore walk.now.image.now walk.now.notes.now (walk.now.func + 1) out.new.items) }
{
    let marks = Marks::new(alloc, walk)?;
    let mut b = walk.start();
    'places: loop {
        let next = walk.next(&b);
        let beside = Beside {
            effects: whole.effects,
            texts: whole.texts,
            uncut: marks.at(walk, b.place),
            behind: following_insn(&next),
        };
        append_of(walk, &b, &beside, out)?;
        match next {
            Some(next) => b = next,
            None => return Ok(()),
        }
    }
}

// Appends the warnings of these functions, all of the notes, in their order.
fn append_each(
    alloc: Global,
    image: &Image,
    notes: &Notes,
    functions: &[FnNote],
    whole: &Whole,
    out: &mut Vec<Warning>,
) -> Result<(), NoMemory>
    requires image { IsImage image.now }
    requires notes { IsNotes notes.now }
    requires functions { functions.now ≡ notes.now.function }
    requires typed { Typed image.now notes.now }
    requires effects { AreEffects image.now notes.now whole.now.effects.now }
    requires texts { whole.now.texts.now ≡ unended_texts image.now notes.now }
    requires before { WarnedBefore image.now notes.now 0 out.old.items }
    ensures { OnOk result (WarnedBefore image.now notes.now (length functions.now) out.new.items) }
{
    for (func, f) in functions.iter().enumerate() {
        let walk = Walk {
            image,
            notes,
            func: func as u32,
            f,
        };
        append_function(alloc, &walk, whole, out)?;
    }
    Ok(())
}

/// The warnings of an image under notes, in their order: exactly where the interpreter departs from the machine.
///
/// # Errors
///
/// There is no memory for them.
pub fn warnings(alloc: Global, image: &Image, notes: &Notes) -> Result<Sequence<Warning>, NoMemory>
    requires image { IsImage image.now }
    requires notes { IsNotes notes.now }
    requires typed { Typed image.now notes.now }
    ensures { IfOk result (AreWarnings image.now notes.now) }
{
    let effects = image_effects(alloc, image, notes)?;
    let texts = unended_texts(alloc, image, notes)?;
    let whole = Whole {
        effects: effects.as_slice(),
        texts: texts.as_slice(),
    };
    let mut out = Vec::new(alloc);
    append_each(
        alloc,
        image,
        notes,
        notes.function.as_slice(),
        &whole,
        &mut out,
    )?;
    Ok(Sequence::new(out))
}

//! What an instruction does that counts at other places: a store into a field of an object, or a call of a function.

ghost use Rattle.std.specs.Prelude.{◌≡◌, OnOk};
ghost use Rattle.ebc_insn.specs.Spelling.{WellFormed};
ghost use Rattle.pe_image.specs.Images.{IsImage};
ghost use Rattle.image_warnings.specs.Effects.{call_of, effect_of, is_same, list_with, lists, store_of, stores_listed};

use departures::{ObjectField, is_same_field, stored_field};
use ebc_base::NoMemory;
use ebc_insn::Insn;
use note_infer::{jump_names, reloc_at};
use note_types::{FnNote, Notes, State};
use pe_image::Image;

/// What an instruction does that counts at other places.
#[derive(Clone, Copy)]
pub enum Effect {
    /// It stores into a field of an object.
    Store(ObjectField),
    /// It calls the function at a place.
    Call(i128),
}

fn store_of(field: Option<ObjectField>) -> Option<Effect>
    ensures { result ≡ store_of field }
{
    match field {
        Some(x) => Some(Effect::Store(x)),
        None => None,
    }
}

fn call_of(place: Option<i128>) -> Option<Effect>
    ensures { result ≡ call_of place }
{
    match place {
        Some(place) => Some(Effect::Call(place)),
        None => None,
    }
}

/// What an instruction before `next` does in a state, where it does something that counts.
pub(crate) fn effect_of(
    image: &Image,
    notes: &Notes,
    f: &FnNote,
    s: &State,
    insn: &Insn,
    next: u32,
) -> Option<Effect>
    requires image { IsImage image.now }
    requires insn { WellFormed insn.now }
    ensures { result ≡ effect_of image.now notes.now f.now s.now insn.now next }
{
    match insn {
        Insn::Call {
            far,
            native: false,
            relative,
            op,
            extra,
        } => call_of(jump_names(next, reloc_at(image, next), *far, *relative, op, extra)),
        _ => store_of(stored_field(notes, f, s, insn)),
    }
}

// ---- lists of effects

fn is_same(x: &Effect, y: &Effect) -> bool
    ensures { result ≡ is_same x.now y.now }
{
    match (x, y) {
        (Effect::Store(x), Effect::Store(y)) => is_same_field(x, y),
        (Effect::Call(x), Effect::Call(y)) => *x == *y,
        _ => false,
    }
}

/// Whether a list has an effect.
#[tactic(auto, unfolding(crate::specs::Effects::lists))]
pub(crate) fn lists(effects: &[Effect], x: &Effect) -> bool
    ensures { result ≡ lists effects.now x.now }
{
    effects.iter().any(|y| is_same(x, y))
}

/// Whether it has a store into a field, where there is one.
pub(crate) fn stores_listed(effects: &[Effect], field: &Option<ObjectField>) -> bool
    ensures { result ≡ stores_listed effects.now field.now }
{
    match field {
        Some(x) => lists(effects, &Effect::Store(*x)),
        None => false,
    }
}

/// Appends an effect, where there is one and the list lacks it.
pub(crate) fn add(effect: &Option<Effect>, out: &mut Vec<Effect>) -> Result<(), NoMemory>
    ensures { OnOk result (out.new.items ≡ list_with out.old.items effect.now) }
{
    if let Some(x) = effect {
        if !lists(out.as_slice(), x) {
            out.push(*x)?;
        }
    }
    Ok(())
}

//! Parameters, registers and items of the stack, as their texts have them.
ghost use Rattle.std.specs.Prelude.{◌≡◌, IfOk, Some, None};
ghost use Rattle.note_texts.specs.Grammar.{ReadsJust};
ghost use Rattle.note_texts.specs.SlotGrammar.{IsItemText, IsParamText, IsRegisterText};
ghost use Rattle.note_texts.specs.SlotTexts.{item_of, param_of, parameter_kind, register_number, register_of, slot_kind, slot_of};

use crate::from_text::FromText;
use crate::number::number_in;
use crate::split::split_at;
use crate::ty::TypeText;
use note_types::SlotKind;
use std::alloc::{AllocError, Global};

/// `n TYPE` or `q TYPE`, a parameter of a function.
#[derive(Drop)]
pub struct ParamText {
    pub kind: SlotKind,
    pub ty: TypeText,
}

/// `R1 TYPE` to `R7 TYPE`, what a register holds.
#[derive(Drop)]
pub struct RegisterText {
    /// The number of the register, 1 to 7.
    pub register: u8,
    pub ty: TypeText,
}

/// An item of the stack: `n TYPE`, `q TYPE` or `d TYPE`, a slot; or `locals`.
#[derive(Drop)]
pub enum ItemText {
    Slot { kind: SlotKind, ty: TypeText },
    Locals,
}

/// The kind of a parameter's slot.
#[tactic(auto, unfolding(crate::specs::SlotTexts::parameter_kind))]
pub(crate) fn parameter_kind(word: &str) -> Option<SlotKind>
    ensures { result ≡ parameter_kind word.now }
{
    match word {
        "n" => Some(SlotKind::N),
        "q" => Some(SlotKind::Q),
        _ => None,
    }
}

#[tactic(auto, unfolding(crate::specs::SlotTexts::slot_kind))]
fn slot_kind(word: &str) -> Option<SlotKind>
    ensures { result ≡ slot_kind word.now }
{
    match word {
        "d" => Some(SlotKind::D),
        _ => parameter_kind(word),
    }
}

#[tactic(auto, unfolding(crate::specs::SlotTexts::param_of))]
fn param_of(alloc: Global, text: &str) -> Result<Option<ParamText>, AllocError>
    ensures { IfOk result (λ param. param ≡ param_of text.now) }
{
    let Some((kind, ty)) = split_at(b' ', text) else {
        return Ok(None);
    };
    let Some(kind) = parameter_kind(kind) else {
        return Ok(None);
    };
    let Some(ty) = TypeText::from_text(alloc, ty)? else {
        return Ok(None);
    };
    Ok(Some(ParamText { kind, ty }))
}

impl FromText for ParamText {
    ghost reads_as = { param_of };

    fn from_text(alloc: Global, text: &str) -> Result<Option<Self>, AllocError>
        ensures value { IfOk result (λ param. param ≡ param_of text.now) }
        ensures grammar { IfOk result (λ param. ReadsJust param (IsParamText text.now)) }
    {
        param_of(alloc, text)
    }
}

#[tactic(auto, unfolding(crate::specs::SlotTexts::register_number))]
fn register_number(word: &[u8]) -> Option<u8>
    ensures { result ≡ register_number word.now }
{
    match word {
        [b'R', digits @ ..] => {
            let register = number_in(1, 7, digits)?;
            Some(register as u8)
        }
        _ => None,
    }
}

#[tactic(auto, unfolding(crate::specs::SlotTexts::register_of))]
fn register_of(alloc: Global, text: &str) -> Result<Option<RegisterText>, AllocError>
    ensures { IfOk result (λ register. register ≡ register_of text.now) }
{
    let Some((register, ty)) = split_at(b' ', text) else {
        return Ok(None);
    };
    let Some(register) = register_number(register.as_bytes()) else {
        return Ok(None);
    };
    let Some(ty) = TypeText::from_text(alloc, ty)? else {
        return Ok(None);
    };
    Ok(Some(RegisterText { register, ty }))
}

impl FromText for RegisterText {
    ghost reads_as = { register_of };

    fn from_text(alloc: Global, text: &str) -> Result<Option<Self>, AllocError>
        ensures value { IfOk result (λ register. register ≡ register_of text.now) }
        ensures grammar { IfOk result (λ register. ReadsJust register (IsRegisterText text.now)) }
    {
        register_of(alloc, text)
    }
}

#[tactic(auto, unfolding(crate::specs::SlotTexts::slot_of))]
fn slot_of(alloc: Global, text: &str) -> Result<Option<ItemText>, AllocError>
    ensures { IfOk result (λ item. item ≡ slot_of text.now) }
{
    let Some((kind, ty)) = split_at(b' ', text) else {
        return Ok(None);
    };
    let Some(kind) = slot_kind(kind) else {
        return Ok(None);
    };
    let Some(ty) = TypeText::from_text(alloc, ty)? else {
        return Ok(None);
    };
    Ok(Some(ItemText::Slot { kind, ty }))
}

#[tactic(auto, unfolding(crate::specs::SlotTexts::item_of))]
fn item_of(alloc: Global, text: &str) -> Result<Option<ItemText>, AllocError>
    ensures { IfOk result (λ item. item ≡ item_of text.now) }
{
    match text {
        "locals" => Ok(Some(ItemText::Locals)),
        _ => slot_of(alloc, text),
    }
}

impl FromText for ItemText {
    ghost reads_as = { item_of };

    fn from_text(alloc: Global, text: &str) -> Result<Option<Self>, AllocError>
        ensures value { IfOk result (λ item. item ≡ item_of text.now) }
        ensures grammar { IfOk result (λ item. ReadsJust item (IsItemText text.now)) }
    {
        item_of(alloc, text)
    }
}

//! What a native method takes and gives, as its texts have it.
ghost use Rattle.std.specs.Prelude.{◌≡◌, ◌^◌, ◌<◌, ◌==◌, IfOk, Some, None, option_map};
ghost use Rattle.note_texts.specs.Grammar.{ReadsJust};
ghost use Rattle.note_texts.specs.WantGrammar.{IsResultText, IsWantParamText, IsWantText};
ghost use Rattle.note_texts.specs.CellTexts.{cell_of};
ghost use Rattle.note_texts.specs.Ranges.{range_of, size_of};
ghost use Rattle.note_texts.specs.WantTexts.{is_result, marked_want, plain_want, result_of, want_of, want_param_of};
ghost use Rattle.note_texts.specs.declared.want.WantText.TheVariants.{Inout, Int, Out, Size};

use crate::cell::CellText;
use crate::from_text::FromText;
use crate::range::{range_of, size_of};
use crate::slot::parameter_kind;
use crate::split::{parts_at, split_at};
use crate::ty::TypeText;
use note_types::SlotKind;
use std::alloc::{AllocError, Global};

/// What an argument of a native method has to be, as its text has it.
#[derive(PartialEq, Drop)]
pub enum WantText {
    /// `any`
    Any,
    /// `int:LO..HI`
    Int { lo: u64, hi: u64 },
    /// `size:N,C`
    Size { n: u32, c: u32 },
    /// `ptr`
    Ptr,
    /// `handle`
    Handle,
    /// `status`
    Status,
    /// `entry`
    Entry,
    /// `out:CELL`
    Out(CellText),
    /// `inout:CELL`
    Inout(CellText),
}

/// `n WANT` or `q WANT`, a parameter of a native method.
#[derive(Drop)]
pub struct WantParamText {
    pub kind: SlotKind,
    pub want: WantText,
}

/// The result of a native method: `none`, or the text of a type, which is a status with no grants, a handle, a number
/// below 2^32 or a pointer to the start of an instance.
#[derive(Drop)]
pub struct ResultText {
    /// `None` for `none`.
    pub ty: Option<TypeText>,
}

#[tactic(auto, unfolding(crate::specs::WantTexts::plain_want))]
fn plain_want(word: &str) -> Option<WantText>
    ensures { result ≡ plain_want word.now }
{
    match word {
        "any" => Some(WantText::Any),
        "ptr" => Some(WantText::Ptr),
        "handle" => Some(WantText::Handle),
        "status" => Some(WantText::Status),
        "entry" => Some(WantText::Entry),
        _ => None,
    }
}

fn int_want(text: &str) -> Option<WantText>
    ensures { result ≡ option_map (λ range. Int range.0 range.1) (range_of text.now) }
{
    let (lo, hi) = range_of(text)?;
    Some(WantText::Int { lo, hi })
}

fn size_want(text: &str) -> Option<WantText>
    ensures { result ≡ option_map (λ size. Size size.0 size.1) (size_of text.now) }
{
    let (n, c) = size_of(text)?;
    Some(WantText::Size { n, c })
}

fn out_want(alloc: Global, text: &str) -> Result<Option<WantText>, AllocError>
    ensures { IfOk result (λ want. want ≡ option_map (λ cell. Out cell) (cell_of text.now)) }
{
    let Some(cell) = CellText::from_text(alloc, text)? else {
        return Ok(None);
    };
    Ok(Some(WantText::Out(cell)))
}

fn inout_want(alloc: Global, text: &str) -> Result<Option<WantText>, AllocError>
    ensures { IfOk result (λ want. want ≡ option_map (λ cell. Inout cell) (cell_of text.now)) }
{
    let Some(cell) = CellText::from_text(alloc, text)? else {
        return Ok(None);
    };
    Ok(Some(WantText::Inout(cell)))
}

#[tactic(auto, unfolding(crate::specs::WantTexts::marked_want))]
fn marked_want(alloc: Global, word: &str, rest: &str) -> Result<Option<WantText>, AllocError>
    ensures { IfOk result (λ want. want ≡ marked_want word.now rest.now) }
{
    match word {
        "int" => Ok(int_want(rest)),
        "size" => Ok(size_want(rest)),
        "out" => out_want(alloc, rest),
        "inout" => inout_want(alloc, rest),
        _ => Ok(None),
    }
}

#[tactic(auto, unfolding(crate::specs::WantTexts::want_of))]
fn want_of(alloc: Global, text: &str) -> Result<Option<WantText>, AllocError>
    ensures { IfOk result (λ want. want ≡ want_of text.now) }
{
    match parts_at(b':', text) {
        (word, None) => Ok(plain_want(word)),
        (word, Some(rest)) => marked_want(alloc, word, rest),
    }
}

impl FromText for WantText {
    ghost reads_as = { want_of };

    fn from_text(alloc: Global, text: &str) -> Result<Option<Self>, AllocError>
        ensures value { IfOk result (λ want. want ≡ want_of text.now) }
        ensures grammar { IfOk result (λ want. ReadsJust want (IsWantText text.now)) }
    {
        want_of(alloc, text)
    }
}

#[tactic(auto, unfolding(crate::specs::WantTexts::want_param_of))]
fn want_param_of(alloc: Global, text: &str) -> Result<Option<WantParamText>, AllocError>
    ensures { IfOk result (λ param. param ≡ want_param_of text.now) }
{
    let Some((kind, want)) = split_at(b' ', text) else {
        return Ok(None);
    };
    let Some(kind) = parameter_kind(kind) else {
        return Ok(None);
    };
    let Some(want) = WantText::from_text(alloc, want)? else {
        return Ok(None);
    };
    Ok(Some(WantParamText { kind, want }))
}

impl FromText for WantParamText {
    ghost reads_as = { want_param_of };

    fn from_text(alloc: Global, text: &str) -> Result<Option<Self>, AllocError>
        ensures value { IfOk result (λ param. param ≡ want_param_of text.now) }
        ensures grammar { IfOk result (λ param. ReadsJust param (IsWantParamText text.now)) }
    {
        want_param_of(alloc, text)
    }
}

/// Whether a native method may give a value of this type.
fn is_result(ty: &TypeText) -> bool
    ensures { result ≡ is_result ty.now }
{
    match ty {
        TypeText::Handle => true,
        TypeText::Status(grants) => grants.is_empty(),
        TypeText::Int { hi, .. } => *hi < 1 << 32,
        TypeText::Ptr { n, c, .. } => *n == 0 && *c == 0,
        _ => false,
    }
}

#[tactic(auto, unfolding(crate::specs::WantTexts::result_of))]
fn result_of(alloc: Global, text: &str) -> Result<Option<ResultText>, AllocError>
    ensures { IfOk result (λ given. given ≡ result_of text.now) }
{
    if text == "none" {
        return Ok(Some(ResultText { ty: None }));
    }
    let Some(ty) = TypeText::from_text(alloc, text)? else {
        return Ok(None);
    };
    if is_result(&ty) {
        Ok(Some(ResultText { ty: Some(ty) }))
    } else {
        Ok(None)
    }
}

impl FromText for ResultText {
    ghost reads_as = { result_of };

    fn from_text(alloc: Global, text: &str) -> Result<Option<Self>, AllocError>
        ensures value { IfOk result (λ given. given ≡ result_of text.now) }
        ensures grammar { IfOk result (λ given. ReadsJust given (IsResultText text.now)) }
    {
        result_of(alloc, text)
    }
}

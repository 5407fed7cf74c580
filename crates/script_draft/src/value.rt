//! The texts of values and arguments.
ghost use Rattle.std.specs.Prelude.{◌≡◌, ◌-◌, ◌^◌, IfOk, Some, None, option_map};
ghost use Rattle.note_texts.specs.Grammar.{ReadsJust};
ghost use Rattle.note_texts.specs.Numbers.{number_in, number_of};
ghost use Rattle.note_texts.specs.Ranges.{size_of};
ghost use Rattle.script_draft.specs.Grammar.{IsArgumentText, IsValueText};
ghost use Rattle.script_draft.specs.ValueTexts.{argument_of, instance_of, marked_value, plain_value, status_of, value_of};
ghost use Rattle.script_draft.specs.declared.value.ArgumentText.TheVariants.{Given, Lent};
ghost use Rattle.script_draft.specs.declared.value.ValueText.TheVariants.{Entry, Handle, Int, Method, Size};
ghost use Rattle.ebc_base.specs.Names.{name_of};

use note_texts::{FromText, number_in, number_of, parts_at, size_of, split_at};
use note_types::Name;
use std::alloc::{AllocError, Global};

/// The greatest code of a status.
const LAST_CODE: u64 = (1 << 31) - 1;

/// The greatest handle.
const LAST_HANDLE: u64 = 1023;

/// A value as its text has it.
#[derive(PartialEq, Drop)]
pub enum ValueText {
    /// `int N`
    Int(u64),
    /// `size N,C`, each up to 2^20
    Size { n: u32, c: u32 },
    /// `ptr OBJECT INSTANCE`
    Ptr { object: u64, instance: u64 },
    /// `null`
    Null,
    /// `status ok N`, below 2^31
    StatusOk(u32),
    /// `status error N`, below 2^31
    StatusError(u32),
    /// `handle K`, below 1,024
    Handle(u32),
    /// `entry F`
    Entry(Name),
    /// `method M`
    Method(Name),
    /// `any`
    Any,
}

/// An argument of a native call as its text has it.
#[derive(PartialEq, Drop)]
pub enum ArgumentText {
    /// `out`, an address that the method writes through
    Out,
    /// `lent VALUE`, the address of a cell that holds the value
    Lent(ValueText),
    /// a value
    Given(ValueText),
}

#[tactic(auto, unfolding(crate::specs::ValueTexts::plain_value))]
fn plain_value(word: &str) -> Option<ValueText>
    ensures { result ≡ plain_value word.now }
{
    match word {
        "null" => Some(ValueText::Null),
        "any" => Some(ValueText::Any),
        _ => None,
    }
}

fn int_value(text: &str) -> Option<ValueText>
    ensures { result ≡ option_map (λ n. Int n) (number_of text.now) }
{
    let number = number_of(text.as_bytes())?;
    Some(ValueText::Int(number))
}

fn size_value(text: &str) -> Option<ValueText>
    ensures { result ≡ option_map (λ size. Size size.0 size.1) (size_of text.now) }
{
    let (n, c) = size_of(text)?;
    Some(ValueText::Size { n, c })
}

#[tactic(auto, unfolding(crate::specs::ValueTexts::instance_of))]
fn instance_of(text: &str) -> Option<ValueText>
    ensures { result ≡ instance_of text.now }
{
    let (object, instance) = split_at(b' ', text)?;
    let object = number_of(object.as_bytes())?;
    let instance = number_of(instance.as_bytes())?;
    Some(ValueText::Ptr { object, instance })
}

#[tactic(auto, unfolding(crate::specs::ValueTexts::status_of))]
fn status_of(text: &str) -> Option<ValueText>
    ensures { result ≡ status_of text.now }
{
    let (kind, code) = split_at(b' ', text)?;
    let code = number_in(0, LAST_CODE, code.as_bytes())?;
    match kind {
        "ok" => Some(ValueText::StatusOk(code as u32)),
        "error" => Some(ValueText::StatusError(code as u32)),
        _ => None,
    }
}

fn handle_value(text: &str) -> Option<ValueText>
    ensures { result ≡ option_map (λ k. Handle k) (number_in 0 1023 text.now) }
{
    let number = number_in(0, LAST_HANDLE, text.as_bytes())?;
    Some(ValueText::Handle(number as u32))
}

fn entry_value(alloc: Global, text: &str) -> Result<Option<ValueText>, AllocError>
    ensures { IfOk result (λ value. value ≡ option_map (λ name. Entry name) (name_of text.now)) }
{
    let Some(name) = Name::from_text(alloc, text)? else {
        return Ok(None);
    };
    Ok(Some(ValueText::Entry(name)))
}

fn method_value(alloc: Global, text: &str) -> Result<Option<ValueText>, AllocError>
    ensures { IfOk result (λ value. value ≡ option_map (λ name. Method name) (name_of text.now)) }
{
    let Some(name) = Name::from_text(alloc, text)? else {
        return Ok(None);
    };
    Ok(Some(ValueText::Method(name)))
}

#[tactic(auto, unfolding(crate::specs::ValueTexts::marked_value))]
fn marked_value(alloc: Global, word: &str, rest: &str) -> Result<Option<ValueText>, AllocError>
    ensures { IfOk result (λ value. value ≡ marked_value word.now rest.now) }
{
    match word {
        "int" => Ok(int_value(rest)),
        "size" => Ok(size_value(rest)),
        "ptr" => Ok(instance_of(rest)),
        "status" => Ok(status_of(rest)),
        "handle" => Ok(handle_value(rest)),
        "entry" => entry_value(alloc, rest),
        "method" => method_value(alloc, rest),
        _ => Ok(None),
    }
}

#[tactic(auto, unfolding(crate::specs::ValueTexts::value_of))]
fn value_of(alloc: Global, text: &str) -> Result<Option<ValueText>, AllocError>
    ensures { IfOk result (λ value. value ≡ value_of text.now) }
{
    match parts_at(b' ', text) {
        (word, None) => Ok(plain_value(word)),
        (word, Some(rest)) => marked_value(alloc, word, rest),
    }
}

impl FromText for ValueText {
    ghost reads_as = { value_of };

    fn from_text(alloc: Global, text: &str) -> Result<Option<Self>, AllocError>
        ensures value { IfOk result (λ value. value ≡ value_of text.now) }
        ensures grammar { IfOk result (λ value. ReadsJust value (IsValueText text.now)) }
    {
        value_of(alloc, text)
    }
}

fn lent_argument(alloc: Global, text: &str) -> Result<Option<ArgumentText>, AllocError>
    ensures { IfOk result (λ argument. argument ≡ option_map (λ value. Lent value) (value_of text.now)) }
{
    let Some(value) = ValueText::from_text(alloc, text)? else {
        return Ok(None);
    };
    Ok(Some(ArgumentText::Lent(value)))
}

fn given_argument(alloc: Global, text: &str) -> Result<Option<ArgumentText>, AllocError>
    ensures { IfOk result (λ argument. argument ≡ option_map (λ value. Given value) (value_of text.now)) }
{
    let Some(value) = ValueText::from_text(alloc, text)? else {
        return Ok(None);
    };
    Ok(Some(ArgumentText::Given(value)))
}

#[tactic(auto, unfolding(crate::specs::ValueTexts::argument_of))]
fn argument_of(alloc: Global, text: &str) -> Result<Option<ArgumentText>, AllocError>
    ensures { IfOk result (λ argument. argument ≡ argument_of text.now) }
{
    match parts_at(b' ', text) {
        ("out", None) => Ok(Some(ArgumentText::Out)),
        ("lent", Some(value)) => lent_argument(alloc, value),
        _ => given_argument(alloc, text),
    }
}

impl FromText for ArgumentText {
    ghost reads_as = { argument_of };

    fn from_text(alloc: Global, text: &str) -> Result<Option<Self>, AllocError>
        ensures value { IfOk result (λ argument. argument ≡ argument_of text.now) }
        ensures grammar { IfOk result (λ argument. ReadsJust argument (IsArgumentText text.now)) }
    {
        argument_of(alloc, text)
    }
}

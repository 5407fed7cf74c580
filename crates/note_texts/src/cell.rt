//! Cells and fields, as their texts have them.
ghost use Rattle.std.specs.Prelude.{◌≡◌, IfOk, Some, None, option_map};
ghost use Rattle.note_texts.specs.CellTexts.{cell_of, counted_of, field_of, marked_cell, plain_cell};
ghost use Rattle.note_texts.specs.Grammar.{IsCellText, IsFieldText, ReadsJust};
ghost use Rattle.note_texts.specs.declared.cell.CellText.TheVariants.{Ptr, P64, Method};
ghost use Rattle.ebc_base.specs.Names.{name_of};

use crate::from_text::FromText;
use crate::number::short_number;
use crate::range::count_of;
use crate::split::{parts_at, split_at};
use note_types::Name;
use std::alloc::{AllocError, Global};

/// A cell as its text has it: a shape or a method by its name.
#[derive(PartialEq, Drop)]
pub enum CellText {
    /// `i8`
    I8,
    /// `i16`
    I16,
    /// `i32`
    I32,
    /// `i64`
    I64,
    /// `n`
    N,
    /// `stat`
    Stat,
    /// `handle`
    Handle,
    /// `entry`
    Entry,
    /// `ptr:S*K`, or `ptr?:S*K` where it may be null; `count` is K, at least 1.
    Ptr { shape: Name, count: u64, null: bool },
    /// `p64:S*K`, or `p64?:S*K` where it may be null; `count` is K, at least 1.
    P64 { shape: Name, count: u64, null: bool },
    /// `method:M`
    Method(Name),
}

/// `NAME N C CELL`, a field of a shape and the pair where it begins.
#[derive(Drop)]
pub struct FieldText {
    pub name: Name,
    /// Natural units.
    pub n: u32,
    /// Bytes.
    pub c: u32,
    pub cell: CellText,
}

/// `S*K`, or `S` where K is 1: a shape and a count.
#[tactic(auto, unfolding(crate::specs::CellTexts::counted_of))]
pub(crate) fn counted_of(alloc: Global, text: &str) -> Result<Option<(Name, u64)>, AllocError>
    ensures { IfOk result (λ target. target ≡ counted_of text.now) }
{
    let (shape, count) = parts_at(b'*', text);
    let Some(shape) = Name::from_text(alloc, shape)? else {
        return Ok(None);
    };
    let Some(count) = count_of(count) else {
        return Ok(None);
    };
    Ok(Some((shape, count)))
}

#[tactic(auto, unfolding(crate::specs::CellTexts::plain_cell))]
fn plain_cell(word: &str) -> Option<CellText>
    ensures { result ≡ plain_cell word.now }
{
    match word {
        "i8" => Some(CellText::I8),
        "i16" => Some(CellText::I16),
        "i32" => Some(CellText::I32),
        "i64" => Some(CellText::I64),
        "n" => Some(CellText::N),
        "stat" => Some(CellText::Stat),
        "handle" => Some(CellText::Handle),
        "entry" => Some(CellText::Entry),
        _ => None,
    }
}

fn ptr_cell(alloc: Global, null: bool, text: &str) -> Result<Option<CellText>, AllocError>
    ensures { IfOk result (λ cell. cell ≡ option_map (λ target. Ptr target.0 target.1 null) (counted_of text.now)) }
{
    let Some((shape, count)) = counted_of(alloc, text)? else {
        return Ok(None);
    };
    Ok(Some(CellText::Ptr { shape, count, null }))
}

fn p64_cell(alloc: Global, null: bool, text: &str) -> Result<Option<CellText>, AllocError>
    ensures { IfOk result (λ cell. cell ≡ option_map (λ target. P64 target.0 target.1 null) (counted_of text.now)) }
{
    let Some((shape, count)) = counted_of(alloc, text)? else {
        return Ok(None);
    };
    Ok(Some(CellText::P64 { shape, count, null }))
}

fn method_cell(alloc: Global, text: &str) -> Result<Option<CellText>, AllocError>
    ensures { IfOk result (λ cell. cell ≡ option_map (λ name. Method name) (name_of text.now)) }
{
    let Some(name) = Name::from_text(alloc, text)? else {
        return Ok(None);
    };
    Ok(Some(CellText::Method(name)))
}

#[tactic(auto, unfolding(crate::specs::CellTexts::marked_cell))]
fn marked_cell(alloc: Global, word: &str, rest: &str) -> Result<Option<CellText>, AllocError>
    ensures { IfOk result (λ cell. cell ≡ marked_cell word.now rest.now) }
{
    match word {
        "ptr" => ptr_cell(alloc, false, rest),
        "ptr?" => ptr_cell(alloc, true, rest),
        "p64" => p64_cell(alloc, false, rest),
        "p64?" => p64_cell(alloc, true, rest),
        "method" => method_cell(alloc, rest),
        _ => Ok(None),
    }
}

#[tactic(auto, unfolding(crate::specs::CellTexts::cell_of))]
fn cell_of(alloc: Global, text: &str) -> Result<Option<CellText>, AllocError>
    ensures { IfOk result (λ cell. cell ≡ cell_of text.now) }
{
    match parts_at(b':', text) {
        (word, None) => Ok(plain_cell(word)),
        (word, Some(rest)) => marked_cell(alloc, word, rest),
    }
}

impl FromText for CellText {
    ghost reads_as = { cell_of };

    fn from_text(alloc: Global, text: &str) -> Result<Option<Self>, AllocError>
        ensures value { IfOk result (λ cell. cell ≡ cell_of text.now) }
        ensures grammar { IfOk result (λ cell. ReadsJust cell (IsCellText text.now)) }
    {
        cell_of(alloc, text)
    }
}

#[tactic(auto, unfolding(crate::specs::CellTexts::field_of))]
fn field_of(alloc: Global, text: &str) -> Result<Option<FieldText>, AllocError>
    ensures { IfOk result (λ field. field ≡ field_of text.now) }
{
    let Some((name, rest)) = split_at(b' ', text) else {
        return Ok(None);
    };
    let Some((n, rest)) = split_at(b' ', rest) else {
        return Ok(None);
    };
    let Some((c, cell)) = split_at(b' ', rest) else {
        return Ok(None);
    };
    let Some(name) = Name::from_text(alloc, name)? else {
        return Ok(None);
    };
    let Some(n) = short_number(n.as_bytes()) else {
        return Ok(None);
    };
    let Some(c) = short_number(c.as_bytes()) else {
        return Ok(None);
    };
    let Some(cell) = CellText::from_text(alloc, cell)? else {
        return Ok(None);
    };
    Ok(Some(FieldText { name, n, c, cell }))
}

impl FromText for FieldText {
    ghost reads_as = { field_of };

    fn from_text(alloc: Global, text: &str) -> Result<Option<Self>, AllocError>
        ensures value { IfOk result (λ field. field ≡ field_of text.now) }
        ensures grammar { IfOk result (λ field. ReadsJust field (IsFieldText text.now)) }
    {
        field_of(alloc, text)
    }
}

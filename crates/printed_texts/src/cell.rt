//! The texts of cells.
ghost use Rattle.std.specs.Prelude.{◌≡◌, IfOk, string_bytes};
ghost use Rattle.note_texts.specs.Grammar.{mark_of};
ghost use Rattle.printed_texts.specs.PrintedTypes.{cell_text, counted_text};

use crate::names::{method_name, shape_name};
use note_types::{Cell, Notes};
use std::alloc::{AllocError, Global};

/// What stands between the word of a pointer and its shape.
pub(crate) fn mark_of(null: bool) -> &'static str
    ensures { result.now ≡ mark_of null }
{
    if null { "?:" } else { ":" }
}

/// `S*K`, or `S` where K is 1.
pub(crate) fn counted_text(alloc: Global, shape: &str, count: u64) -> Result<String, AllocError>
    ensures { IfOk result (λ text. string_bytes text ≡ counted_text shape.now count) }
{
    if count == 1 {
        String::from_str(alloc, shape)
    } else {
        format!(in alloc; "{shape}*{count}")
    }
}

/// The text of a cell, with its shape or method by its name.
#[tactic(auto, unfolding(crate::specs::PrintedTypes::cell_text))]
pub(crate) fn cell_text(alloc: Global, notes: &Notes, cell: Cell) -> Result<String, AllocError>
    ensures { IfOk result (λ text. string_bytes text ≡ cell_text notes.now cell) }
{
    match cell {
        Cell::I8 => String::from_str(alloc, "i8"),
        Cell::I16 => String::from_str(alloc, "i16"),
        Cell::I32 => String::from_str(alloc, "i32"),
        Cell::I64 => String::from_str(alloc, "i64"),
        Cell::N => String::from_str(alloc, "n"),
        Cell::Stat => String::from_str(alloc, "stat"),
        Cell::Handle => String::from_str(alloc, "handle"),
        Cell::Entry => String::from_str(alloc, "entry"),
        Cell::Ptr { shape, count, null } => {
            let target = counted_text(alloc, shape_name(notes, shape), count)?;
            let mark = mark_of(null);
            format!(in alloc; "ptr{mark}{target}")
        }
        Cell::P64 { shape, count, null } => {
            let target = counted_text(alloc, shape_name(notes, shape), count)?;
            let mark = mark_of(null);
            format!(in alloc; "p64{mark}{target}")
        }
        Cell::Method(method) => {
            let name = method_name(notes, method);
            format!(in alloc; "method:{name}")
        }
    }
}

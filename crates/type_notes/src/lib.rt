//! Reads notes, a TOML text that says what a program's places hold, as the record that the text stands for, or tells
//! its first fault with the key where it stands. docs/NOTES.md says how notes are written.
//!
//! Promises:
//!
//! - `read_notes`: `notes` says that it returns what `notes_of` says of the text, the record or the first fault with
//!   its path; `conditions`, that a record that it gives meets the conditions on notes (`IsNotes` of `note_types`):
//!   numbers in range, lists within their limits, every name of a thing there, known cells and types, states of
//!   functions at points, and the rest of docs/NOTES.md.
//! - `field_set`, within the crate: `value` says that it is the fold of the definition, and `fields` which bits it has
//!   (`IsFieldSet`): bit f exactly where f is below 64 and some name of the list is that of field f.
//! - Where memory runs out it says so, and its clauses say nothing more.
#![tactic(auto)]

ghost use Rattle.std.specs.Prelude.{IfOk};
ghost use Rattle.note_texts.specs.Outcome.{Gives};
ghost use Rattle.note_types.specs.Records.{IsNotes};
ghost use Rattle.type_notes.specs.Notes.{notes_of};

mod checks;
mod conditions;
mod notes;
mod owners;
mod points;
mod resolve;
mod type_kinds;

use crate::notes::notes_in;
use note_draft::read_draft;
use note_texts::document;
use note_types::Notes;
pub use note_types::NotesEnd;
use std::alloc::Global;

/// The notes that a text stands for.
///
/// # Errors
///
/// The first fault, with the path of the key where it stands, as docs/NOTES.md lists them: `TomlFault::NotToml`; then
/// `Missing`, `Kind` and `Range` key by key; then `Twice`; then `Name`; then `Range` for a condition that isn't met. Or
/// there was no memory.
#[tactic(auto, unfolding(crate::specs::Notes::notes_of))]
pub fn read_notes(alloc: Global, text: &[u8]) -> Result<Notes, NotesEnd>
    ensures notes { Gives result (notes_of text.now) }
    ensures conditions { IfOk result IsNotes }
{
    let table = document(alloc, text)?;
    let draft = read_draft(alloc, &table)?;
    notes_in(alloc, &draft)
}

//! A text filled with what was found, printed, and read as notes.

ghost use Rattle.std.specs.Prelude.{◌≡◌, ◌≤◌, IfErr, IfOk, Ok, map, string_bytes};
ghost use Rattle.note_completion.specs.Causes.{IsArrangedText, original_fault, without_label};
ghost use Rattle.note_completion.specs.Halts.{EndsPrinting, EndsRead, IsCaused, IsDrafted, IsToldAs, task_place};
ghost use Rattle.note_filling.specs.Originals.{original_path};
ghost use Rattle.note_texts.specs.Keys.{document};
ghost use Rattle.note_types.specs.Records.{IsNotes};
ghost use Rattle.toml.specs.Data.{members_depth};
ghost use Rattle.toml.specs.View.{table_view, view};
ghost use Rattle.type_notes.specs.Notes.{notes_of};

use crate::halt::Halt;
use crate::task::Task;
use ebc_base::Name;
use note_filling::{Filled, Flaw, Found, More, fill, original_path};
use note_texts::document;
use note_types::{Notes, NotesEnd, TomlFault};
use std::alloc::{AllocError, Global};
use toml::Table;
use type_notes::read_notes;

/// A text filled up to notes, and the notes.
#[derive(Drop)]
pub struct Draft {
    pub filled: Filled,
    pub notes: Notes,
}

/// The text of a table.
pub(crate) fn printed(alloc: Global, table: &Table) -> Result<String, Halt>
    requires shallow { members_depth (table_view table.now) ≤ 80 }
    ensures shown { IfOk result (λ text. document (string_bytes text) ≡ Ok (table_view table.now)) }
    ensures cause { IfErr result (EndsPrinting (table_view table.now)) }
{
    match toml::table_to_string(alloc, table) {
        Ok(text) => Ok(text),
        Err(toml::ser::Error::OutOfMemory) => Err(Halt::NoMemory),
        Err(toml::ser::Error::DateInvalid) => Err(Halt::Fault(Flaw {
            fault: TomlFault::NotToml,
            label: None,
        })),
    }
}

// The path that a key had before the lists were put in order.
fn original(alloc: Global, filled: &Filled, path: Name) -> Result<Name, AllocError>
    ensures { IfOk result (λ original.
        original ≡ original_path filled.now.functions.items filled.now.points.items filled.now.sites.items path) }
{
    original_path(
        alloc,
        filled.functions.as_slice(),
        filled.points.as_slice(),
        filled.sites.as_slice(),
        path,
    )
}

// The same fault, by the path that its key has in the text.
fn original_fault(alloc: Global, filled: &Filled, fault: TomlFault) -> Result<TomlFault, AllocError>
    ensures { IfOk result (λ original.
        original ≡ original_fault filled.now.functions.items filled.now.points.items filled.now.sites.items fault) }
{
    Ok(match fault {
        TomlFault::NotToml => TomlFault::NotToml,
        TomlFault::Missing(path) => TomlFault::Missing(original(alloc, filled, path)?),
        TomlFault::Kind(path) => TomlFault::Kind(original(alloc, filled, path)?),
        TomlFault::Name(path) => TomlFault::Name(original(alloc, filled, path)?),
        TomlFault::Range(path) => TomlFault::Range(original(alloc, filled, path)?),
        TomlFault::Twice(path) => TomlFault::Twice(original(alloc, filled, path)?),
    })
}

// That notes have a fault, told of the text that they were filled from.
fn faulty(alloc: Global, filled: &Filled, fault: TomlFault) -> Halt
    ensures { IsToldAs (without_label
        (original_fault filled.now.functions.items filled.now.points.items filled.now.sites.items fault)) result }
{
    match original_fault(alloc, filled, fault) {
        Ok(fault) => Halt::Fault(Flaw { fault, label: None }),
        Err(_) => Halt::NoMemory,
    }
}

/// The notes that a printed text stands for, which was filled.
pub(crate) fn read_printed(alloc: Global, filled: &Filled, text: &str) -> Result<Notes, Halt>
    ensures notes { IfOk result (λ notes. notes_of text.now ≡ Ok notes) }
    ensures conditions { IfOk result IsNotes }
    ensures cause { IfErr result (EndsRead filled.now text.now) }
{
    match read_notes(alloc, text.as_bytes()) {
        Ok(notes) => Ok(notes),
        Err(NotesEnd::NoMemory) => Err(Halt::NoMemory),
        Err(NotesEnd::Fault(fault)) => Err(faulty(alloc, filled, fault)),
    }
}

impl<'a> Task<'a> {
    /// The text filled with what was found, and with more points and sites.
    pub fn fill(self, alloc: Global, found: Found, more: More) -> Result<Filled, Halt>
        ensures arranged { IfOk result (λ filled. IsArrangedText (task_place self.entry) self.entry.text.now
            (map view more.points.items) (map view more.sites.items) filled.functions.items filled.points.items filled.sites.items
            (table_view filled.table)) }
        ensures shallow { IfOk result (λ filled. members_depth (table_view filled.table) ≤ 80) }
        ensures cause { IfErr result (IsCaused self.entry) }
    {
        let table = document(alloc, self.text)?;
        let entry = &self.linked.plan.entry;
        match fill(alloc, self.context(), entry, found, more, table) {
            Ok(filled) => Ok(filled),
            Err(end) => Err(Halt::from(end)),
        }
    }

    /// The same, and the notes that it stands for.
    pub fn draft(self, alloc: Global, found: Found, more: More) -> Result<Draft, Halt>
        ensures conditions { IfOk result (λ draft. IsNotes draft.notes) }
        ensures drafted { IfOk result (IsDrafted self.entry) }
        ensures cause { IfErr result (IsCaused self.entry) }
    {
        let filled = self.fill(alloc, found, more)?;
        let text = printed(alloc, &filled.table)?;
        match read_printed(alloc, &filled, text.as_str()) {
            Ok(notes) => Ok(Draft { filled, notes }),
            Err(halt) => Err(halt),
        }
    }
}

//! The notes that a draft stands for, or its first fault, by the second to the fourth pass.
ghost use Rattle.std.specs.Prelude.{◌≡◌, ◌<◌, ◌^◌, length};
ghost use Rattle.note_texts.specs.Outcome.{Gives};
ghost use Rattle.type_notes.specs.Notes.{known_names, notes_in};

use crate::checks::meet_conditions;
use crate::resolve::resolve_notes;
use note_draft::{NameTables, NotesDraft, all_known, number_names};
use note_types::{Notes, NotesEnd};
use std::alloc::Global;

// The names that a draft gives, where it uses no others.
#[tactic(auto, unfolding(crate::specs::Notes::known_names))]
fn known_names(alloc: Global, draft: &NotesDraft) -> Result<NameTables, NotesEnd>
    requires shapes { length draft.now.shape < 2 ^ 32 }
    requires functions { length draft.now.function < 2 ^ 32 }
    requires signatures { length draft.now.signature < 2 ^ 32 }
    ensures { Gives result (known_names draft.now) }
{
    let names = number_names(alloc, draft)?;
    all_known(alloc, &names, draft)?;
    Ok(names)
}

/// The notes that a draft stands for.
///
/// # Errors
///
/// The first fault: a name, place or register twice, then a name that isn't there, then a condition that isn't met; no
/// memory.
#[tactic(auto, unfolding(crate::specs::Notes::notes_in))]
pub fn notes_in(alloc: Global, draft: &NotesDraft) -> Result<Notes, NotesEnd>
    requires shapes { length draft.now.shape < 2 ^ 32 }
    requires functions { length draft.now.function < 2 ^ 32 }
    requires signatures { length draft.now.signature < 2 ^ 32 }
    ensures { Gives result (notes_in draft.now) }
{
    let names = known_names(alloc, draft)?;
    let owners = meet_conditions(alloc, &names, draft)?;
    Ok(resolve_notes(alloc, names, draft, owners.as_slice())?)
}

//! The forms, the repeats and the names of a filled text.
ghost use Rattle.std.specs.Prelude.{IfErr};
ghost use Rattle.toml.specs.View.{table_view};
ghost use Rattle.note_texts.specs.Outcome.{Gives};
ghost use Rattle.note_filling.specs.Causes.{HasCause, HasFormFault, forms_of};
ghost use Rattle.note_filling.specs.Rows.{text_labels};
ghost use Rattle.note_filling.specs.Views.{GoesOnOrRefuses, context_labels, context_names, context_place};

use crate::assembling::assembled;
use crate::context::{Context, Found};
use crate::end::FillEnd;
use crate::filling::filled_lists;
use ebc_base::Name;
use note_draft::{all_known, number_names, read_draft};
use note_types::NotesEnd;
use std::alloc::Global;
use toml::Table;

// Whether the forms, the repeats and the names of a text are those of notes.
#[tactic(auto, unfolding(crate::specs::Causes::forms_of))]
fn check_draft(alloc: Global, table: &Table) -> Result<(), NotesEnd>
    ensures { Gives result (forms_of (table_view table.now)) }
{
    let draft = read_draft(alloc, table)?;
    let known = number_names(alloc, &draft)?;
    all_known(alloc, &known, &draft)
}

/// Whether a text, filled and in its own order, has the forms and the names of notes.
///
/// # Errors
///
/// The first fault of a label: list by list (static, thunk, function, point, site), table by table; else of the forms, then of the repeats
/// and then of the names of notes; no memory.
pub fn check_forms(
    alloc: Global,
    context: Context,
    entry: &Name,
    table: Table,
) -> Result<(), FillEnd>
    ensures labels { GoesOnOrRefuses result (text_labels (context_names context.entry) (context_labels context.entry) (table_view table)) }
    ensures cause { IfErr result (HasCause (text_labels (context_names context.entry) (context_labels context.entry) (table_view table))
        (HasFormFault (context_place context.entry) (table_view table))) }
{
    let found = Found {
        levels: &[],
        needs: &[],
    };
    let lists = filled_lists(alloc, context, found, &table)?;
    let table = assembled(alloc, entry, lists, table)?;
    check_draft(alloc, &table)?;
    Ok(())
}

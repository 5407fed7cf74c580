//! The tables of the lists, each with the places of its labels, and with what its own keys and the labels say of what it leaves out.
ghost use Rattle.std.specs.Prelude.{◌≡◌, ◌<◌, ◌^◌, ◌∷◌, [], codes, IfOk, IfSome, OnOk};
ghost use Rattle.note_draft.specs.Findings.{path_of};
ghost use Rattle.note_draft.specs.declared.finding.Key.TheVariants as keys;
ghost use Rattle.toml.specs.View.{table_view};
ghost use Rattle.note_filling.specs.Ends.{Checks, Gives};
ghost use Rattle.note_filling.specs.Kept.{IsRowKept, left_out};
ghost use Rattle.note_filling.specs.Members.{StaysOut, text_at_key};
ghost use Rattle.note_filling.specs.Places.{labelled_place};
ghost use Rattle.note_filling.specs.Rows.{is_code, label_fault, place_keys, row_labels};
ghost use Rattle.note_filling.specs.Views.{IsReplaced, context_labels, context_names, context_place};

use crate::context::Context;
use crate::end::FillEnd;
use crate::functions::fill_function;
use crate::label::{Placed, labelled_place};
use crate::members::{put_placed, text_at};
use crate::statics::fill_static;
use crate::table::Rows;
use note_draft::{Finding, Key, TableList};
use std::alloc::Global;
use toml::Table;

/// Puts the place of the label that stands at a key of a table: the place, where a label stands there.
pub(crate) fn replace_label(
    alloc: Global,
    context: Context,
    code: bool,
    finding: Finding,
    key: &str,
    row: &mut Table,
) -> Result<Option<Placed>, FillEnd>
    ensures gives { Gives result (labelled_place code (context_names context.entry) (context_labels context.entry) (path_of finding)
        (text_at_key key.now (table_view row.old))) }
    ensures replaced { OnOk result (IsReplaced (context_place context.entry) key.now (table_view row.old) (table_view row.new)) }
    ensures left { OnOk result (StaysOut key.now (table_view row.old) (table_view row.new)) }
    ensures small { IfOk result (λ found. IfSome found (λ p. p.place < 2 ^ 33)) }
{
    let placed = labelled_place(alloc, context, code, finding, text_at(row, key))?;
    put_placed(alloc, row, key, placed)?;
    Ok(placed)
}

// Whether the labels of a list's tables are those of the code.
fn is_code(list: TableList) -> bool
    ensures { result ≡ is_code list }
{
    matches!(
        list,
        TableList::Function | TableList::Point | TableList::Site
    )
}

// A thunk cell, a point or a site: its place.
fn fill_place(
    alloc: Global,
    context: Context,
    list: TableList,
    item: usize,
    row: &mut Table,
) -> Result<(), FillEnd>
    ensures labels { Checks result (label_fault (context_names context.entry) (context_labels context.entry) list keys.Place item
        (text_at_key (codes "place") (table_view row.old))) }
    ensures kept { OnOk result (IsRowKept (context_place context.entry) (codes "place" ∷ []) []
        (table_view row.old) (table_view row.new)) }
{
    let key = Key::Place;
    let finding = Finding { list, item, key };
    replace_label(alloc, context, is_code(list), finding, "place", row)?;
    Ok(())
}

/// Fills a table of a list, by its number.
#[tactic(auto, using(crate::proofs::RowLaws::kept_none), unfolding(crate::specs::Rows::row_labels))]
pub(crate) fn fill_row(
    alloc: Global,
    rows: Rows,
    list: TableList,
    item: usize,
    row: &mut Table,
) -> Result<(), FillEnd>
    ensures labels { Checks result (row_labels (context_names rows.entry.context) (context_labels rows.entry.context) list item
        (table_view row.old)) }
    ensures kept { OnOk result (IsRowKept (context_place rows.entry.context) (place_keys list) (left_out list)
        (table_view row.old) (table_view row.new)) }
{
    match list {
        TableList::Static => fill_static(alloc, rows, item, row),
        TableList::Function => fill_function(alloc, rows, item, row),
        TableList::Thunk | TableList::Point | TableList::Site => {
            fill_place(alloc, rows.context, list, item, row)
        }
        TableList::Shape | TableList::Signature => Ok(()),
    }
}

//! Functions.
ghost use Rattle.std.specs.Prelude.{◌≡◌, codes, option_map, OnOk};
ghost use Rattle.note_draft.specs.declared.finding.Key.TheVariants as keys;
ghost use Rattle.note_draft.specs.declared.finding.TableList.TheVariants as lists;
ghost use Rattle.toml.specs.View.{table_view};
ghost use Rattle.note_filling.specs.Ends.{Checks};
ghost use Rattle.note_filling.specs.Kept.{IsRowKept, left_out};
ghost use Rattle.note_filling.specs.Members.{IsExtended, StaysOut, text_at_key};
ghost use Rattle.note_filling.specs.Rows.{label_fault, place_keys, place_naming_text, row_labels};
ghost use Rattle.note_filling.specs.Views.{IsLeftEnd, IsReplaced, context_labels, context_names, context_place, context_spans, with_found};

use crate::context::Context;
use crate::end::FillEnd;
use crate::label::{labelled_place, placed_by};
use crate::members::{number, number_at, pair, put_missing, put_placed, text_at, truth, value_at};
use crate::rows::replace_label;
use crate::table::Rows;
use ebc_base::NoMemory;
use label_places::Places;
use note_draft::{Finding, Key, TableList};
use note_types::Pair;
use std::alloc::{AllocError, Global};
use toml::{Table, Value};

// The text that names a function's place: that at `place`, or, where this is left out, its name.
fn place_naming_text(row: &Table) -> Option<&str>
    ensures { option_map (λ s. s.now) result ≡ place_naming_text (table_view row.now) }
{
    match value_at(row, "place") {
        Some(value) => value.as_str(),
        None => text_at(row, "name"),
    }
}

// The place of the label that a text names, where there is one.
fn named_place(context: Context, text: &str) -> Option<u64> {
    match placed_by(context, false, text) {
        Ok(placed) => Some(placed.place),
        Err(_) => None,
    }
}

// The place of a function, where it has one.
fn function_place(context: Context, item: &Value) -> Option<u64> {
    let row = item.as_table()?;
    match place_naming_text(row) {
        Some(text) => named_place(context, text),
        None => number_at(row, "place"),
    }
}

/// The places of the functions that have one.
pub(crate) fn function_places(
    alloc: Global,
    context: Context,
    functions: &[Value],
) -> Result<Places, AllocError> {
    let mut places = Vec::new(alloc);
    for function in functions {
        if let Some(place) = function_place(context, function) {
            places.push(place)?;
        }
    }
    Places::new(places)
}

// Whether a thunk cell enters the function of a table.
fn is_entered(rows: Rows, row: &Table) -> bool {
    match text_at(row, "name") {
        Some(name) => rows.known.entered.contains(name),
        None => false,
    }
}

// Puts a function's place: that of the label that stands there, or of that of its name.
fn put_place(
    alloc: Global,
    context: Context,
    item: usize,
    row: &mut Table,
) -> Result<Option<u64>, FillEnd>
    ensures labels { Checks result (label_fault (context_names context.entry) (context_labels context.entry) lists.Function keys.Place item
        (place_naming_text (table_view row.old))) }
    ensures replaced { OnOk result (IsReplaced (context_place context.entry) (codes "place") (table_view row.old) (table_view row.new)) }
{
    let finding = Finding {
        list: TableList::Function,
        item,
        key: Key::Place,
    };
    let placed = labelled_place(alloc, context, true, finding, place_naming_text(row))?;
    put_placed(alloc, row, "place", placed)?;
    Ok(number_at(row, "place"))
}

// Puts a function's end where a label stands there.
fn put_end(alloc: Global, context: Context, item: usize, row: &mut Table) -> Result<(), FillEnd>
    ensures labels { Checks result (label_fault (context_names context.entry) (context_labels context.entry) lists.Function keys.End item
        (text_at_key (codes "end") (table_view row.old))) }
    ensures replaced { OnOk result (IsReplaced (context_place context.entry) (codes "end") (table_view row.old) (table_view row.new)) }
    ensures left { OnOk result (StaysOut (codes "end") (table_view row.old) (table_view row.new)) }
{
    let finding = Finding {
        list: TableList::Function,
        item,
        key: Key::End,
    };
    replace_label(alloc, context, true, finding, "end", row)?;
    Ok(())
}

// Where a function's code ends that leaves it out: where the next function begins, or else where its object's code ends.
fn left_end(rows: Rows, place: Option<u64>) -> Option<u64>
    ensures { IsLeftEnd (context_spans rows.entry.context) rows.entry.known.now.places place result }
{
    let place = place?;
    let bound = rows.context.labels.code_end(place)?;
    Some(rows.known.places.next_above(place, bound))
}

// Puts the end of a function that leaves it out, where its object's code has its place.
fn put_left_end(
    alloc: Global,
    rows: Rows,
    place: Option<u64>,
    row: &mut Table,
) -> Result<(), NoMemory>
    ensures { OnOk result (IsExtended (left_out lists.Function) (table_view row.old) (table_view row.new)) }
{
    match left_end(rows, place) {
        Some(end) => put_missing(alloc, row, "end", number(end)),
        None => Ok(()),
    }
}

// Puts what the code says of a function: its level and its need.
fn put_found(alloc: Global, rows: Rows, item: usize, row: &mut Table) -> Result<(), NoMemory>
    ensures { OnOk result (table_view row.new ≡ with_found rows.entry.found item (table_view row.old)) }
{
    let level = match rows.found.levels.get(item) {
        Some(level) => *level,
        None => 0,
    };
    let need = match rows.found.needs.get(item) {
        Some(need) => *need,
        None => Pair { n: 0, c: 0 },
    };
    put_missing(alloc, row, "level", number(level))?;
    put_missing(alloc, row, "need", pair(alloc, need)?)
}

// Puts what a function's own table and the text say: its result, and whether it is entered.
fn put_interface(alloc: Global, rows: Rows, row: &mut Table) -> Result<(), NoMemory>
    ensures { OnOk result (IsExtended (left_out lists.Function) (table_view row.old) (table_view row.new)) }
{
    put_missing(alloc, row, "result", Value::string(alloc, "any")?)?;
    if is_entered(rows, row) {
        put_missing(alloc, row, "enter", truth(true))?;
    }
    Ok(())
}

// What a function leaves out, once its place and its end are put that labels name.
fn fill_left(
    alloc: Global,
    rows: Rows,
    item: usize,
    place: Option<u64>,
    row: &mut Table,
) -> Result<(), NoMemory>
    ensures { OnOk result (IsExtended (left_out lists.Function) (table_view row.old) (table_view row.new)) }
{
    put_left_end(alloc, rows, place, row)?;
    put_found(alloc, rows, item, row)?;
    put_interface(alloc, rows, row)?;
    Ok(())
}

/// A function: its place and its end, and what it leaves out.
#[tactic(auto, unfolding(crate::specs::Rows::row_labels))]
pub(crate) fn fill_function(
    alloc: Global,
    rows: Rows,
    item: usize,
    row: &mut Table,
) -> Result<(), FillEnd>
    ensures labels { Checks result (row_labels (context_names rows.entry.context) (context_labels rows.entry.context) lists.Function item
        (table_view row.old)) }
    ensures kept { OnOk result (IsRowKept (context_place rows.entry.context) (place_keys lists.Function) (left_out lists.Function)
        (table_view row.old) (table_view row.new)) }
{
    let place = put_place(alloc, rows.context, item, row)?;
    put_end(alloc, rows.context, item, row)?;
    fill_left(alloc, rows, item, place, row)?;
    Ok(())
}

//! Static objects.
ghost use Rattle.std.specs.Prelude.{◌≡◌, ◌∷◌, [], codes, OnOk};
ghost use Rattle.note_draft.specs.declared.finding.Key.TheVariants as keys;
ghost use Rattle.note_draft.specs.declared.finding.TableList.TheVariants as lists;
ghost use Rattle.toml.specs.View.{table_view};
ghost use Rattle.note_filling.specs.Ends.{Checks};
ghost use Rattle.note_filling.specs.Kept.{IsRowKept, left_out};
ghost use Rattle.note_filling.specs.Members.{text_at_key};
ghost use Rattle.note_filling.specs.Rows.{label_fault};
ghost use Rattle.note_filling.specs.Views.{IsCount, context_labels, context_names, context_place, context_spans, instances, known_size};

use crate::end::FillEnd;
use crate::label::Placed;
use crate::members::{number, put_missing, text_at};
use crate::rows::replace_label;
use crate::table::Rows;
use note_draft::{Finding, Key, TableList};
use std::alloc::Global;
use toml::Table;

// How many instances of so many bytes lie between a place and an end; 1 where there is no end, or no byte in an instance.
fn instances(place: u64, end: Option<u64>, size: Option<u64>) -> u64
    ensures { result ≡ instances place end size }
{
    match (end, size) {
        (Some(end), Some(size)) if size > 0 => end.saturating_sub(place) / size,
        _ => 1,
    }
}

// How many bytes an instance of a static object's shape takes.
fn size_of(rows: Rows, row: &Table) -> Option<u64>
    ensures { result ≡ known_size rows.entry.known.now (text_at_key (codes "shape") (table_view row.now)) }
{
    let name = text_at(row, "shape")?;
    rows.known.sizes.get(name).copied()
}

// How many instances lie between a label's place and where what begins there ends.
fn count_of(rows: Rows, row: &Table, placed: Placed) -> u64
    ensures { IsCount (context_spans rows.entry.context) (context_labels rows.entry.context) placed
        (known_size rows.entry.known.now (text_at_key (codes "shape") (table_view row.now))) result }
{
    let end = rows
        .context
        .labels
        .end_behind(placed.position, placed.place);
    instances(placed.place, end, size_of(rows, row))
}

/// A static object: its place, and as many instances as lie there.
pub(crate) fn fill_static(
    alloc: Global,
    rows: Rows,
    item: usize,
    row: &mut Table,
) -> Result<(), FillEnd>
    ensures labels { Checks result (label_fault (context_names rows.entry.context) (context_labels rows.entry.context) lists.Static
        keys.Place item (text_at_key (codes "place") (table_view row.old))) }
    ensures kept { OnOk result (IsRowKept (context_place rows.entry.context) (codes "place" ∷ []) (left_out lists.Static)
        (table_view row.old) (table_view row.new)) }
{
    let finding = Finding {
        list: TableList::Static,
        item,
        key: Key::Place,
    };
    let Some(placed) = replace_label(alloc, rows.context, false, finding, "place", row)? else {
        return Ok(());
    };
    let count = number(count_of(rows, row, placed));
    put_missing(alloc, row, "count", count)?;
    Ok(())
}

//! The lists of a text, filled and put in order.
ghost use Rattle.std.specs.Prelude.{◌≡◌, ◌≤◌, IfErr, IfOk, map};
ghost use Rattle.toml.specs.Data.{get_member, members_depth};
ghost use Rattle.toml.specs.View.{items_view, table_view, view};
ghost use Rattle.note_filling.specs.Causes.{HasCause, IsTooDeep};
ghost use Rattle.note_filling.specs.Ends.{Checks};
ghost use Rattle.note_filling.specs.Originals.{AreOrders};
ghost use Rattle.note_filling.specs.Kept.{AreKept, IsItemKept, IsTextKept};
ghost use Rattle.note_filling.specs.Rows.{item_labels, items_labels, list_labels, text_labels};
ghost use Rattle.note_filling.specs.Views.{AreFilledLists, GoesOnOrRefuses, IsFilledList, context_labels, context_names, context_place};

use crate::assembling::{arranged, assembled};
use crate::context::{Context, Found, More};
use crate::depth::members_fit;
use crate::end::{FillEnd, Flaw};
use crate::known::known_in;
use crate::members::{has_key, items_at, value_at};
use crate::rows::fill_row;
use crate::table::{Lists, Rows};
use ebc_base::{Name, NoMemory};
use note_draft::TableList;
use note_types::TomlFault;
use std::alloc::Global;
use toml::{Table, Value};

// How deep values may nest in a text that is printed.
const DEEPEST: u8 = 80;

// An item of a list, filled.
fn filled_value(
    alloc: Global,
    rows: Rows,
    list: TableList,
    item: usize,
    value: Value,
) -> Result<Value, FillEnd>
    ensures labels { Checks result (item_labels (context_names rows.entry.context) (context_labels rows.entry.context) list item
        (view value)) }
    ensures kept { IfOk result (λ v. IsItemKept (context_place rows.entry.context) list (view value) (view v)) }
{
    match value {
        Value::Table(mut row) => match fill_row(alloc, rows, list, item, &mut row) {
            Ok(()) => Ok(Value::Table(row)),
            Err(end) => Err(end),
        },
        other => Ok(other),
    }
}

// A copy of an item of a list, filled.
fn filled_item(
    alloc: Global,
    rows: Rows,
    list: TableList,
    item: usize,
    value: &Value,
) -> Result<Value, FillEnd>
    ensures labels { Checks result (item_labels (context_names rows.entry.context) (context_labels rows.entry.context) list item
        (view value.now)) }
    ensures kept { IfOk result (λ v. IsItemKept (context_place rows.entry.context) list (view value.now) (view v)) }
{
    match value.clone() {
        Ok(copy) => filled_value(alloc, rows, list, item, copy),
        Err(_) => Err(FillEnd::NoMemory),
    }
}

// The items of a list, filled.
fn filled_items(
    alloc: Global,
    rows: Rows,
    list: TableList,
    items: &[Value],
) -> Result<Vec<Value>, FillEnd>
    ensures labels { Checks result (items_labels (context_names rows.entry.context) (context_labels rows.entry.context) list 0
        (items_view items.now)) }
    ensures kept { IfOk result (λ values. AreKept (context_place rows.entry.context) list (map view items.now) (map view values.items)) }
{
    let mut values = Vec::new(alloc);
    for k in 0..items.len() {
        values.push(filled_item(alloc, rows, list, k, &items[k])?)?;
    }
    Ok(values)
}

// The list at a key, filled; none where no list is there.
fn filled_list(
    alloc: Global,
    rows: Rows,
    list: TableList,
    table: &Table,
    key: &str,
) -> Result<Option<Vec<Value>>, FillEnd>
    ensures labels { Checks result (list_labels (context_names rows.entry.context) (context_labels rows.entry.context) list
        (get_member key.now (table_view table.now))) }
    ensures kept { IfOk result (IsFilledList (context_place rows.entry.context) list (get_member key.now (table_view table.now))) }
{
    let Some(value) = value_at(table, key) else {
        return Ok(None);
    };
    match value.as_array() {
        Some(items) => Ok(Some(filled_items(alloc, rows, list, items.as_slice())?)),
        None => Ok(None),
    }
}

// The lists in whose tables labels may stand, filled.
fn filled_with(alloc: Global, rows: Rows, table: &Table) -> Result<Lists, FillEnd>
    ensures labels { Checks result (text_labels (context_names rows.entry.context) (context_labels rows.entry.context)
        (table_view table.now)) }
    ensures kept { IfOk result (AreFilledLists (context_place rows.entry.context) (table_view table.now)) }
{
    let statics = filled_list(alloc, rows, TableList::Static, table, "static")?;
    let thunks = filled_list(alloc, rows, TableList::Thunk, table, "thunk")?;
    let functions = filled_list(alloc, rows, TableList::Function, table, "function")?;
    let points = filled_list(alloc, rows, TableList::Point, table, "point")?;
    let sites = filled_list(alloc, rows, TableList::Site, table, "site")?;
    Ok(Lists {
        statics,
        thunks,
        functions,
        points,
        sites,
    })
}

/// The lists of a text in whose tables labels may stand, filled.
///
/// # Errors
///
/// The first fault of a label: list by list (static, thunk, function, point, site), table by table; no memory.
pub(crate) fn filled_lists(
    alloc: Global,
    context: Context,
    found: Found,
    table: &Table,
) -> Result<Lists, FillEnd>
    ensures labels { Checks result (text_labels (context_names context.entry) (context_labels context.entry) (table_view table.now)) }
    ensures kept { IfOk result (AreFilledLists (context_place context.entry) (table_view table.now)) }
{
    let known = known_in(alloc, context, table)?;
    let rows = Rows {
        context,
        known: &known,
        found,
    };
    filled_with(alloc, rows, table)
}

/// Which of a function's keys are left out that are found in its code.
#[derive(Clone, Copy)]
pub struct Left {
    pub level: bool,
    pub need: bool,
}

/// A text whose labels are places, with its functions, points and sites in order.
#[derive(Drop)]
pub struct Filled {
    pub table: Table,
    /// The numbers that its functions, points and sites had.
    pub functions: Vec<usize>,
    pub points: Vec<usize>,
    pub sites: Vec<usize>,
    /// Which levels and needs are left out, by the functions in order.
    pub left: Vec<Left>,
}

// Which of a function's keys are left out.
fn left_in(item: Option<&Value>) -> Left {
    match item.and_then(Value::as_table) {
        Some(row) => Left {
            level: !has_key(row, "level"),
            need: !has_key(row, "need"),
        },
        None => Left {
            level: false,
            need: false,
        },
    }
}

// Which keys are left out of the functions, by these in an order.
fn left_by(alloc: Global, functions: &[Value], order: &[usize]) -> Result<Vec<Left>, NoMemory> {
    let mut left = Vec::new(alloc);
    for index in order {
        left.push(left_in(functions.get(*index)))?;
    }
    Ok(left)
}

/// A text with places for its labels and with what it leaves out, and its functions, points and sites in order.
///
/// # Errors
///
/// The first fault of a label: list by list (static, thunk, function, point, site), table by table. Else NotToml where the values of the
/// text nest deeper than notes that are read; no memory.
pub fn fill(
    alloc: Global,
    context: Context,
    entry: &Name,
    found: Found,
    more: More,
    table: Table,
) -> Result<Filled, FillEnd>
    ensures labels { GoesOnOrRefuses result (text_labels (context_names context.entry) (context_labels context.entry) (table_view table)) }
    ensures kept { IfOk result (λ filled. IsTextKept (context_place context.entry) (map view more.points.items) (map view more.sites.items)
        (table_view table) (table_view filled.table)) }
    ensures shallow { IfOk result (λ filled. members_depth (table_view filled.table) ≤ 80) }
    ensures orders { IfOk result (λ filled. AreOrders (context_place context.entry) (map view more.points.items) (map view more.sites.items)
        filled.functions.items filled.points.items filled.sites.items (table_view table) (table_view filled.table)) }
    ensures cause { IfErr result (HasCause (text_labels (context_names context.entry) (context_labels context.entry) (table_view table))
        (IsTooDeep (context_place context.entry) (map view more.points.items) (map view more.sites.items) (table_view table))) }
{
    let lists = filled_lists(alloc, context, found, &table)?;
    let (arranged_lists, orders) = arranged(alloc, lists, more)?;
    let left = left_by(
        alloc,
        items_at(&table, "function"),
        orders.functions.as_slice(),
    )?;
    let table = assembled(alloc, entry, arranged_lists, table)?;
    if !members_fit(&table, DEEPEST) {
        return Err(FillEnd::Flaw(Flaw {
            fault: TomlFault::NotToml,
            label: None,
        }));
    }
    Ok(Filled {
        table,
        functions: orders.functions,
        points: orders.points,
        sites: orders.sites,
        left,
    })
}

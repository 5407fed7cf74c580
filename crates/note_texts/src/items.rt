//! The items of the lists of a TOML text, one after the other.
ghost use Rattle.std.specs.Prelude.{◌≡◌, ◌++◌, IfOk, length, string_bytes};
ghost use Rattle.std.specs.List.{list_any};
ghost use Rattle.toml.specs.View.{view, table_view, items_view};
ghost use Rattle.note_texts.specs.Outcome.{Gives, GivesBy};
ghost use Rattle.note_texts.specs.Keys.{item_path, row_prefix};
ghost use Rattle.note_texts.specs.Lists.{is_text, has_text, table_of, row_of, rows_of, texts_of};

use crate::from_table::FromTable;
use crate::from_text::FromText;
use crate::row::Row;
use crate::value::text_of;
use note_types::{Name, NotesEnd, TomlFault};
use std::alloc::{AllocError, Global};
use toml::{Table, Value};

/// The path of an item of the list at a path, as `function[2]`.
pub fn item_path(alloc: Global, path: &str, index: usize) -> Result<String, AllocError>
    ensures { IfOk result (λ s. string_bytes s ≡ item_path path.now index) }
{
    format!(in alloc; "{path}[{index}]")
}

/// The path before the keys of a table that is an item of the list at a path, as `function[2].`.
pub fn row_prefix(alloc: Global, path: &str, index: usize) -> Result<String, AllocError>
    ensures { IfOk result (λ s. string_bytes s ≡ row_prefix path.now index) }
{
    format!(in alloc; "{path}[{index}].")
}

/// The table that an item of the list at a path is.
///
/// # Errors
///
/// `TomlFault::Kind` with the item's path where it is no table; no memory.
pub fn table_of_item<'a>(
    alloc: Global,
    path: &str,
    index: usize,
    value: &'a Value,
) -> Result<&'a Table, NotesEnd>
    ensures { GivesBy (λ t. table_view t.now) result (table_of path.now index (view value.now)) }
{
    match value.as_table() {
        Some(table) => Ok(table),
        None => Err(NotesEnd::Fault(TomlFault::Kind(Name::new(item_path(alloc, path, index)?)))),
    }
}

fn row_of<T: FromTable>(
    alloc: Global,
    path: &str,
    index: usize,
    value: &Value,
) -> Result<T, NotesEnd>
    ensures { Gives result (row_of T.reads_as path.now index (view value.now)) }
{
    let table = table_of_item(alloc, path, index, value)?;
    let prefix = row_prefix(alloc, path, index)?;
    T::from_table(
        alloc,
        Row {
            prefix: prefix.as_str(),
            table,
        },
    )
}

/// What each item of the list at a key stands for, a text of the form of `T`.
///
/// # Errors
///
/// Of the first item that is no such text, with the list's path: `TomlFault::Kind` where it is no text,
/// `TomlFault::Range` where it is a text of another form; no memory.
pub fn texts_of<T: FromText>(
    alloc: Global,
    row: Row,
    key: &str,
    values: &[Value],
) -> Result<Vec<T>, NotesEnd>
    ensures texts { GivesBy (λ v. v.items) result (texts_of T.reads_as (row.entry.prefix.now ++ key.now) (items_view values.now)) }
    ensures all { IfOk result (λ v. length v.items ≡ length values.now) }
{
    let mut texts = Vec::new(alloc);
    for i in 0..values.len() {
        texts.push(text_of::<T>(alloc, row, key, &values[i])?)?;
    }
    Ok(texts)
}

/// What each item stands for, a table of the form of `T`.
///
/// # Errors
///
/// Of the first item that is no such table: `TomlFault::Kind` with the item's path where it is no table, and otherwise
/// the first fault in the table; no memory.
pub fn rows_of<T: FromTable>(
    alloc: Global,
    path: &str,
    values: &[Value],
) -> Result<Vec<T>, NotesEnd>
    ensures rows { GivesBy (λ v. v.items) result (rows_of T.reads_as path.now (items_view values.now)) }
    ensures all { IfOk result (λ v. length v.items ≡ length values.now) }
{
    let mut rows = Vec::new(alloc);
    for i in 0..values.len() {
        rows.push(row_of::<T>(alloc, path, i, &values[i])?)?;
    }
    Ok(rows)
}

fn is_text(value: &Value, text: &str) -> bool
    ensures { result ≡ is_text text.now (view value.now) }
{
    match value.as_str() {
        Some(found) => found == text,
        None => false,
    }
}

/// Whether some item is this very text.
pub fn has_text(values: &[Value], text: &str) -> bool
    ensures { result ≡ list_any (λ v. is_text text.now (view v)) values.now }
{
    values.iter().any(|value| is_text(value, text))
}

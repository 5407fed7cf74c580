//! What the value at a key of a TOML text says.
ghost use Rattle.std.specs.Prelude.{◌≡◌, ◌++◌, ◌≤◌, IfOk, option_map};
ghost use Rattle.toml.specs.Data.{get_member};
ghost use Rattle.toml.specs.View.{view, table_view};
ghost use Rattle.note_texts.specs.Outcome.{Gives};
ghost use Rattle.note_texts.specs.Keys.{natural_in, whole_number, text_of};

use crate::from_text::FromText;
use crate::row::Row;
use note_types::{NotesEnd, TomlFault};
use std::alloc::Global;
use toml::{Table, Value};

/// The value at a key.
pub fn value_at<'a>(table: &'a Table, key: &str) -> Option<&'a Value>
    ensures { option_map (λ v. view v.now) result ≡ get_member key.now (table_view table.now) }
{
    table.get(key)
}

fn natural_in(
    alloc: Global,
    row: Row,
    key: &str,
    low: u64,
    high: u64,
    number: i64,
) -> Result<u64, NotesEnd>
    ensures number { Gives result (natural_in (row.entry.prefix.now ++ key.now) low high number) }
    ensures within { IfOk result (λ n. (low ≤ n) × (n ≤ high)) }
{
    match u64::try_from(number) {
        Ok(n) if low <= n && n <= high => Ok(n),
        _ => Err(NotesEnd::Fault(TomlFault::Range(row.path(alloc, key)?))),
    }
}

/// The value at a key as a whole number from `low` to `high`.
///
/// # Errors
///
/// `TomlFault::Kind` where it is no whole number, `TomlFault::Range` where it is another one; no memory.
pub fn whole_number(
    alloc: Global,
    row: Row,
    key: &str,
    low: u64,
    high: u64,
    value: &Value,
) -> Result<u64, NotesEnd>
    ensures number { Gives result (whole_number (row.entry.prefix.now ++ key.now) low high (view value.now)) }
    ensures within { IfOk result (λ n. (low ≤ n) × (n ≤ high)) }
{
    match value.as_integer() {
        Some(number) => natural_in(alloc, row, key, low, high, number),
        None => Err(NotesEnd::Fault(TomlFault::Kind(row.path(alloc, key)?))),
    }
}

/// What the value at a key stands for, a text of the form of `T`.
///
/// # Errors
///
/// `TomlFault::Kind` where it is no text, `TomlFault::Range` where it is a text of another form; no memory.
pub fn text_of<T: FromText>(
    alloc: Global,
    row: Row,
    key: &str,
    value: &Value,
) -> Result<T, NotesEnd>
    ensures { Gives result (text_of T.reads_as (row.entry.prefix.now ++ key.now) (view value.now)) }
{
    let Some(text) = value.as_str() else {
        return Err(NotesEnd::Fault(TomlFault::Kind(row.path(alloc, key)?)));
    };
    match T::from_text(alloc, text)? {
        Some(stands_for) => Ok(stands_for),
        None => Err(NotesEnd::Fault(TomlFault::Range(row.path(alloc, key)?))),
    }
}

//! Names and places that repeat, and places that don't ascend.
ghost use Rattle.std.specs.Prelude.{◌≡◌, ◌<◌, ◌^◌, length, map, IfOk, None, Some, bytes_eq, nat_eq};
ghost use Rattle.std.specs.List.{list_any};
ghost use Rattle.note_draft.specs.Repeats.{Numbers, first_descent, first_repeat, has_repeat};

use crate::keyed::{Distinct, Named, Placed};
use ebc_base::NameTable;
use indexmap::IndexSet;
use std::alloc::{AllocError, Global};

/// The names of tables, numbered, or the first that repeats.
#[derive(Drop)]
pub enum Numbering {
    /// The names in the order of the tables: each name's number is its table's.
    Table(NameTable),
    /// The least number of a table whose name one before it has.
    Repeat(usize),
}

/// Numbers the names of fewer than 2^32 tables, or finds the first that repeats.
///
/// # Errors
///
/// There was no memory.
pub fn name_table<T: Named>(alloc: Global, items: &[T]) -> Result<Numbering, AllocError>
    requires { length items.now < 2 ^ 32 }
    ensures { IfOk result (Numbers (map T.name items.now)) }
{
    let mut names = NameTable::new(alloc);
    for (number, item) in items.iter().enumerate() {
        if !names.add(alloc, item.name())? {
            return Ok(Numbering::Repeat(number));
        }
    }
    Ok(Numbering::Table(names))
}

/// The least number of a table whose place one before it has.
///
/// # Errors
///
/// There was no memory.
pub fn repeated_place<T: Placed>(alloc: Global, items: &[T]) -> Result<Option<usize>, AllocError>
    ensures { IfOk result (λ r. r ≡ first_repeat nat_eq (map T.place items.now)) }
{
    let mut places = IndexSet::new(alloc);
    for (number, item) in items.iter().enumerate() {
        if !places.insert(item.place())? {
            return Ok(Some(number));
        }
    }
    Ok(None)
}

/// The least number, at least 1, of a table whose place is at most that of the table before it.
pub fn first_descent<T: Placed>(items: &[T]) -> Option<usize>
    ensures { result ≡ first_descent (map T.place items.now) }
{
    for number in 1..items.len() {
        if items[number].place() <= items[number - 1].place() {
            return Some(number);
        }
    }
    None
}

/// Whether two of the items are the same in what may not repeat. It compares each item with all before it.
pub fn has_repeat<T: Distinct>(items: &[T]) -> bool
    ensures { result ≡ has_repeat T.same items.now }
{
    for (number, item) in items.iter().enumerate() {
        if has_same(&items[..number], item) {
            return true;
        }
    }
    false
}

// Whether one of the items is the same.
fn has_same<T: Distinct>(items: &[T], item: &T) -> bool
    ensures { result ≡ list_any (T.same item.now) items.now }
{
    items.iter().any(|other| item.is_same(other))
}

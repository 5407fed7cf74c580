//! What stands at the keys of tables, and putting something there.
ghost use Rattle.std.specs.Prelude.{◌≡◌, ◌<◌, ◌^◌, option_map, OnOk, IfOk, IfSome, pos};
ghost use Rattle.toml.specs.Data.{boolean, get_member, integer};
ghost use Rattle.toml.specs.View.{view, table_view};
ghost use Rattle.note_filling.specs.Views.{put_place};
ghost use Rattle.note_filling.specs.Members.{number_at_key, number_value, pair_value, put_member, put_missing_member, text_at_key};

use crate::label::Placed;
use ebc_base::NoMemory;
use note_types::Pair;
use std::alloc::{AllocError, Global};
use toml::{Table, Value};

/// The value at a key.
pub(crate) fn value_at<'a>(table: &'a Table, key: &str) -> Option<&'a Value>
    ensures { option_map (λ v. view v.now) result ≡ get_member key.now (table_view table.now) }
{
    table.get(key)
}

/// The text at a key, where one is there.
pub fn text_at<'a>(table: &'a Table, key: &str) -> Option<&'a str>
    ensures { option_map (λ s. s.now) result ≡ text_at_key key.now (table_view table.now) }
{
    match value_at(table, key) {
        Some(value) => value.as_str(),
        None => None,
    }
}

/// The number at a key, where one is there that is no less than 0.
pub(crate) fn number_at(table: &Table, key: &str) -> Option<u64>
    ensures { result ≡ number_at_key key.now (table_view table.now) }
{
    let number = value_at(table, key)?.as_integer()?;
    match u64::try_from(number) {
        Ok(number) => Some(number),
        Err(_) => None,
    }
}

/// The items of the list at a key; none where no list is there.
pub fn items_at<'a>(table: &'a Table, key: &str) -> &'a [Value] {
    match value_at(table, key) {
        Some(value) => match value.as_array() {
            Some(items) => items.as_slice(),
            None => &[],
        },
        None => &[],
    }
}

/// Whether a list with an item stands at a key.
pub fn has_items(table: &Table, key: &str) -> bool {
    !items_at(table, key).is_empty()
}

/// Whether something stands at a key.
pub(crate) fn has_key(table: &Table, key: &str) -> bool {
    value_at(table, key).is_some()
}

/// Puts a value at a key.
pub(crate) fn put(alloc: Global, table: &mut Table, key: &str, value: Value) -> Result<(), NoMemory>
    ensures { OnOk result (table_view table.new ≡ put_member key.now (view value) (table_view table.old)) }
{
    let key = String::from_str(alloc, key)?;
    drop(table.insert(key, value)?);
    Ok(())
}

/// Puts a value at a key where none is there.
pub(crate) fn put_missing(
    alloc: Global,
    table: &mut Table,
    key: &str,
    value: Value,
) -> Result<(), NoMemory>
    ensures { OnOk result (table_view table.new ≡ put_missing_member key.now (view value) (table_view table.old)) }
{
    match value_at(table, key) {
        Some(_) => Ok(()),
        None => {
            put(alloc, table, key, value)?;
            Ok(())
        }
    }
}

/// Puts a place at a key, if there is one.
pub(crate) fn put_placed(
    alloc: Global,
    table: &mut Table,
    key: &str,
    placed: Option<Placed>,
) -> Result<(), NoMemory>
    requires { IfSome placed (λ p. p.place < 2 ^ 33) }
    ensures { OnOk result (table_view table.new ≡ put_place key.now placed (table_view table.old)) }
{
    match placed {
        Some(placed) => put(alloc, table, key, number(placed.place)),
        None => Ok(()),
    }
}

/// A number as a value; the greatest one for those past it.
pub(crate) fn number(number: u64) -> Value
    ensures value { view result ≡ number_value number }
    ensures small { number < 2 ^ 63 → view result ≡ integer (pos number) }
{
    match i64::try_from(number) {
        Ok(number) => Value::Integer(number),
        Err(_) => Value::Integer(i64::MAX),
    }
}

/// A truth value as a value.
pub(crate) fn truth(holds: bool) -> Value
    ensures { view result ≡ boolean holds }
{
    Value::Boolean(holds)
}

/// A pair as a value.
pub(crate) fn pair(alloc: Global, pair: Pair) -> Result<Value, AllocError>
    ensures { IfOk result (λ v. view v ≡ pair_value pair) }
{
    let mut items = Vec::new(alloc);
    items.push(number(pair.n))?;
    items.push(number(pair.c))?;
    Ok(Value::Array(items))
}

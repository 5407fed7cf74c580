//! How deep values nest.
ghost use Rattle.std.specs.Prelude.{◌≤◌, ◌↔◌, IsTrue};
ghost use Rattle.toml.specs.Data.{depth, items_depth, members_depth};
ghost use Rattle.toml.specs.View.{array_view, table_view, view};

use toml::{Table, Value};

// Whether arrays and tables nest no deeper in a value than a limit.
#[cycle(depth)]
fn value_fits(value: &Value, limit: u8) -> bool
    ensures { IsTrue result ↔ depth (view value.now) ≤ limit }
{
    match value {
        Value::Array(items) => limit > 0 && items_fit(items, limit - 1),
        Value::Table(members) => limit > 0 && members_fit(members, limit - 1),
        _ => true,
    }
}

#[cycle(depth)]
fn items_fit(items: &Vec<Value>, limit: u8) -> bool
    ensures { IsTrue result ↔ items_depth (array_view items.now) ≤ limit }
{
    for item in items {
        if !value_fits(item, limit) {
            return false;
        }
    }
    true
}

/// Whether arrays and tables nest no deeper in the values of a table than a limit.
#[cycle(depth)]
pub(crate) fn members_fit(members: &Table, limit: u8) -> bool
    ensures { IsTrue result ↔ members_depth (table_view members.now) ≤ limit }
{
    for (key, member) in members.iter() {
        if !value_fits(member, limit) {
            return false;
        }
    }
    true
}

//! A text made of its filled lists.
ghost use Rattle.std.specs.Prelude.{◌≡◌, ◌++◌, IfOk, OnOk, map};
ghost use Rattle.toml.specs.View.{table_view, view};
ghost use Rattle.note_filling.specs.Originals.{IsOrder};
ghost use Rattle.note_filling.specs.Views.{AreArranged, AreOrdered, IsArranged, IsAssembled, items_if_any, put_items};

use crate::context::More;
use crate::members::{number, put, put_missing};
use crate::order::by_place;
use crate::table::{Lists, Orders};
use ebc_base::{Name, NoMemory};
use std::alloc::Global;
use toml::{Table, Value};

// The items of a list and more of them, by place, and the number that each had; none where there is no list and no more.
fn arranged_list(
    alloc: Global,
    items: Option<Vec<Value>>,
    more: Vec<Value>,
) -> Result<(Option<Vec<Value>>, Vec<usize>), NoMemory>
    ensures arranged { IfOk result (λ parts. IsArranged items (map view more.items) parts.0) }
    ensures order { IfOk result (λ parts. IsOrder (items_if_any items ++ map view more.items) parts.1.items (items_if_any parts.0)) }
{
    let mut all = match items {
        Some(items) => items,
        None if more.is_empty() => return Ok((None, Vec::new(alloc))),
        None => Vec::new(alloc),
    };
    let mut more = more;
    all.append(&mut more)?;
    let (values, order) = by_place(alloc, all)?;
    Ok((Some(values), order))
}

/// The lists with functions, points and sites by place, and with more points and sites.
pub(crate) fn arranged(alloc: Global, lists: Lists, more: More) -> Result<(Lists, Orders), NoMemory>
    ensures arranged { IfOk result (λ parts. AreArranged lists (map view more.points.items) (map view more.sites.items) parts.0) }
    ensures order { IfOk result (λ parts. AreOrdered lists (map view more.points.items) (map view more.sites.items) parts.1 parts.0) }
{
    let Lists {
        statics,
        thunks,
        functions: old_functions,
        points: old_points,
        sites: old_sites,
    } = lists;
    let (functions, function_order) = arranged_list(alloc, old_functions, Vec::new(alloc))?;
    let (points, point_order) = arranged_list(alloc, old_points, more.points)?;
    let (sites, site_order) = arranged_list(alloc, old_sites, more.sites)?;
    let lists = Lists {
        statics,
        thunks,
        functions,
        points,
        sites,
    };
    let orders = Orders {
        functions: function_order,
        points: point_order,
        sites: site_order,
    };
    Ok((lists, orders))
}

// Puts a list at a key, if there is one.
fn put_list(
    alloc: Global,
    table: &mut Table,
    key: &str,
    items: Option<Vec<Value>>,
) -> Result<(), NoMemory>
    ensures { OnOk result (table_view table.new ≡ put_items key.now items (table_view table.old)) }
{
    match items {
        Some(items) => put(alloc, table, key, Value::Array(items)),
        None => Ok(()),
    }
}

/// A text with these lists, and with a version and an entry.
pub(crate) fn assembled(
    alloc: Global,
    entry: &Name,
    lists: Lists,
    mut table: Table,
) -> Result<Table, NoMemory>
    ensures { IfOk result (λ made. IsAssembled entry.now lists (table_view table) (table_view made)) }
{
    put_missing(alloc, &mut table, "version", number(1))?;
    let entry = Value::string(alloc, entry.as_str())?;
    put_missing(alloc, &mut table, "entry", entry)?;
    put_list(alloc, &mut table, "static", lists.statics)?;
    put_list(alloc, &mut table, "thunk", lists.thunks)?;
    put_list(alloc, &mut table, "function", lists.functions)?;
    put_list(alloc, &mut table, "point", lists.points)?;
    put_list(alloc, &mut table, "site", lists.sites)?;
    Ok(table)
}

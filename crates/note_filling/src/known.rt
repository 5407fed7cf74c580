//! What a text says of the functions and shapes that its tables name.

use crate::context::Context;
use crate::functions::function_places;
use crate::members::{items_at, text_at};
use ebc_base::NoMemory;
use label_places::Places;
use std::alloc::Global;
use std::collections::{BTreeMap, BTreeSet};
use toml::{Table, Value};

/// What a text says of the functions and shapes that its tables name.
#[derive(Drop)]
pub(crate) struct Known {
    /// The places of the functions that have one.
    pub places: Places,
    /// The names of the functions that thunk cells enter.
    pub entered: BTreeSet<String>,
    /// How many bytes an instance of a shape takes at width 8, by the shape's name.
    pub sizes: BTreeMap<String, u64>,
}

// The name of the function that a thunk cell enters.
fn entered_by(thunk: &Value) -> Option<&str> {
    text_at(thunk.as_table()?, "function")
}

// The names of the functions that thunk cells enter.
fn entered_names(alloc: Global, thunks: &[Value]) -> Result<BTreeSet<String>, NoMemory> {
    let mut names = BTreeSet::new(alloc);
    for thunk in thunks {
        if let Some(name) = entered_by(thunk) {
            names.insert(String::from_str(alloc, name)?)?;
        }
    }
    Ok(names)
}

// How many bytes a size takes at width 8.
fn size_bytes(size: &[Value]) -> Option<u64> {
    let [n, c] = size else {
        return None;
    };
    let n = u32::try_from(n.as_integer()?).ok()?;
    let c = u32::try_from(c.as_integer()?).ok()?;
    Some(u64::from(n) * 8 + u64::from(c))
}

// The name of a shape, and how many bytes an instance takes at width 8.
fn size_of(shape: &Value) -> Option<(&str, u64)> {
    let row = shape.as_table()?;
    let name = text_at(row, "name")?;
    let bytes = size_bytes(items_at(row, "size"))?;
    Some((name, bytes))
}

// How many bytes an instance of a shape takes at width 8, by the shape's name.
fn instance_sizes(alloc: Global, shapes: &[Value]) -> Result<BTreeMap<String, u64>, NoMemory> {
    let mut sizes = BTreeMap::new(alloc);
    for shape in shapes {
        if let Some((name, bytes)) = size_of(shape) {
            sizes.insert(String::from_str(alloc, name)?, bytes)?;
        }
    }
    Ok(sizes)
}

/// What a text says of its functions and shapes.
///
/// # Errors
///
/// There was no memory.
pub(crate) fn known_in(alloc: Global, context: Context, table: &Table) -> Result<Known, NoMemory> {
    let places = function_places(alloc, context, items_at(table, "function"))?;
    let entered = entered_names(alloc, items_at(table, "thunk"))?;
    let sizes = instance_sizes(alloc, items_at(table, "shape"))?;
    Ok(Known {
        places,
        entered,
        sizes,
    })
}

//! A text with places for its labels, in its own order.

use crate::text::LabelledText;
use ebc_base::NoMemory;
use note_filling::{Context, FillEnd, Filled, Found, More, fill, items_at};
use note_texts::document;
use note_types::NotesEnd;
use std::alloc::Global;
use toml::{Table, Value};

// Where each item of a list stands that came to stand in an order.
fn places_by(alloc: Global, order: &[usize]) -> Result<Vec<usize>, NoMemory> {
    let mut places = vec![in alloc; 0usize; order.len()]?;
    for (number, index) in order.iter().enumerate() {
        if let Some(place) = places.get_mut(*index) {
            *place = number;
        }
    }
    Ok(places)
}

// The items of the list at a key, put back from an order.
fn put_back(alloc: Global, table: &mut Table, key: &str, order: &[usize]) -> Result<(), NoMemory> {
    let mut back = Vec::new(alloc);
    let places = places_by(alloc, order)?;
    let items = items_at(table, key);
    for place in places.iter() {
        if let Some(item) = items.get(*place) {
            back.push(item.clone()?)?;
        }
    }
    if !back.is_empty() {
        let key = String::from_str(alloc, key)?;
        drop(table.insert(key, Value::Array(back))?);
    }
    Ok(())
}

// A filled text, its lists put back to where they stood, printed; none if a date in it is none.
fn printed(alloc: Global, filled: Filled) -> Result<Option<String>, NoMemory> {
    let Filled {
        mut table,
        functions,
        points,
        sites,
        left: _,
    } = filled;
    put_back(alloc, &mut table, "function", functions.as_slice())?;
    put_back(alloc, &mut table, "point", points.as_slice())?;
    put_back(alloc, &mut table, "site", sites.as_slice())?;
    match toml::table_to_string(alloc, &table) {
        Ok(text) => Ok(Some(text)),
        Err(toml::ser::Error::OutOfMemory) => Err(NoMemory),
        Err(toml::ser::Error::DateInvalid) => Ok(None),
    }
}

// The table of a text, filled.
fn filled_table(t: &LabelledText, table: Table) -> Result<Option<Filled>, NoMemory> {
    let context = Context {
        labels: t.labels,
        names: t.plan.objects.as_slice(),
    };
    let found = Found {
        levels: &[],
        needs: &[],
    };
    let more = More {
        points: Vec::new(t.alloc),
        sites: Vec::new(t.alloc),
    };
    match fill(t.alloc, context, &t.plan.entry, found, more, table) {
        Ok(filled) => Ok(Some(filled)),
        Err(FillEnd::NoMemory) => Err(NoMemory),
        Err(FillEnd::Flaw(_)) => Ok(None),
    }
}

// The place of a table of a list, by its number.
fn place_in(items: &[Value], number: usize) -> Option<i64> {
    items.get(number)?.get("place")?.as_integer()
}

// The number of the first table before that of a path that has its place.
fn first_there(table: &Table, path: &str) -> Option<usize> {
    let (list, rest) = path.split_once('[')?;
    let (digits, _) = rest.split_once(']')?;
    let number = digits.parse::<usize>().ok()?;
    let items = items_at(table, list);
    let place = place_in(items, number)?;
    for other in 0..number {
        if place_in(items, other) == Some(place) {
            return Some(other);
        }
    }
    None
}

/// The number of the first table of the list of a path that has the same place in the text with places for its labels.
pub(crate) fn first_with_place(t: &LabelledText, path: &str) -> Result<Option<usize>, NoMemory> {
    let Some(filled) = filled_text(t)? else {
        return Ok(None);
    };
    match toml::table_from_slice(t.alloc, filled.as_bytes()) {
        Ok(table) => Ok(first_there(&table, path)),
        Err(_) => Err(NoMemory),
    }
}

/// The text with places for its labels and with what it leaves out, in its own order; none if it isn't filled. Levels and needs are 0.
pub(crate) fn filled_text(t: &LabelledText) -> Result<Option<String>, NoMemory> {
    let table = match document(t.alloc, t.bytes) {
        Ok(table) => table,
        Err(NotesEnd::NoMemory) => return Err(NoMemory),
        Err(NotesEnd::Fault(_)) => return Ok(None),
    };
    match filled_table(t, table)? {
        Some(filled) => printed(t.alloc, filled),
        None => Ok(None),
    }
}

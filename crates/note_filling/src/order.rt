//! Lists in the order of their places, and where each item stood.
ghost use Rattle.std.specs.Prelude.{◌≡◌, map, All, IfOk, IsPermutation};
ghost use Rattle.toml.specs.View.{view};
ghost use Rattle.note_filling.specs.Originals.{IsOrder, original_path, renumbered};
ghost use Rattle.note_filling.specs.Views.{IsRanked, StoodAmong, item_place, item_rank};
ghost use Rattle.std.specs.List.Sorted.{IsNonDecreasingBy};

use crate::members::number_at;
use ebc_base::{Name, NoMemory};
use note_texts::{number_in, parts_at};
use std::alloc::{AllocError, Global};
use toml::Value;

// An item, where it stood, and its place.
#[derive(Drop)]
struct Ranked {
    place: u64,
    index: usize,
    value: Value,
}

// The place of an item, where it has one.
fn place_of(item: &Value) -> Option<u64>
    ensures { result ≡ item_place (view item.now) }
{
    match item.as_table() {
        Some(row) => number_at(row, "place"),
        None => None,
    }
}

// The items with their places, those that have none behind all others.
fn with_places(alloc: Global, items: Vec<Value>) -> Result<Vec<Ranked>, NoMemory>
    ensures values { IfOk result (λ all. map (λ r. view r.value) all.items ≡ map view items.items) }
    ensures stood { IfOk result (λ all. All (StoodAmong (map view items.items)) all.items) }
    ensures ranked { IfOk result (λ all. All IsRanked all.items) }
{
    let mut all = Vec::new(alloc);
    for value in items {
        let place = place_of(&value).unwrap_or(u64::MAX);
        let index = all.len();
        all.push(Ranked {
            place,
            index,
            value,
        })?;
    }
    Ok(all)
}

// The items, and where each stood.
fn without_places(alloc: Global, all: Vec<Ranked>) -> Result<(Vec<Value>, Vec<usize>), NoMemory>
    ensures values { IfOk result (λ parts. map view parts.0.items ≡ map (λ r. view r.value) all.items) }
    ensures order { IfOk result (λ parts. parts.1.items ≡ map (λ r. r.index) all.items) }
{
    let mut values = Vec::new(alloc);
    let mut order = Vec::new(alloc);
    for item in all {
        let Ranked {
            place: _,
            index,
            value,
        } = item;
        order.push(index)?;
        values.push(value)?;
    }
    Ok((values, order))
}

/// The items in the order of their places, and for each the number that it had.
pub(crate) fn by_place(
    alloc: Global,
    items: Vec<Value>,
) -> Result<(Vec<Value>, Vec<usize>), NoMemory>
    ensures ascend { IfOk result (λ parts. IsNonDecreasingBy item_rank (map view parts.0.items)) }
    ensures moved { IfOk result (λ parts. IsPermutation (map view items.items) (map view parts.0.items)) }
    ensures order { IfOk result (λ parts. IsOrder (map view items.items) parts.1.items (map view parts.0.items)) }
{
    let mut all = with_places(alloc, items)?;
    all.sort_by_key(|item: &Ranked| item.place)?;
    let parts = without_places(alloc, all)?;
    Ok(parts)
}

// The path of an item of a list by the number that it had.
#[tactic(auto, unfolding(crate::specs::Originals::renumbered))]
fn renumbered(
    alloc: Global,
    list: &str,
    order: &[usize],
    path: &str,
) -> Result<Option<Name>, AllocError>
    ensures { IfOk result (λ original. original ≡ renumbered list.now order.now path.now) }
{
    let (head, rest) = parts_at(b'[', path);
    if head != list {
        return Ok(None);
    }
    let Some(rest) = rest else {
        return Ok(None);
    };
    let (digits, rest) = parts_at(b']', rest);
    let Some(number) = number_in(0, 0xffff_ffff, digits.as_bytes()) else {
        return Ok(None);
    };
    let Some(index) = order.get(number as usize) else {
        return Ok(None);
    };
    let rest = rest.unwrap_or("");
    Ok(Some(Name::new(format!(in alloc; "{list}[{index}]{rest}")?)))
}

/// The path that a key had before the lists were put in order.
///
/// # Errors
///
/// There was no memory.
#[tactic(auto, unfolding(crate::specs::Originals::original_path))]
pub fn original_path(
    alloc: Global,
    functions: &[usize],
    points: &[usize],
    sites: &[usize],
    path: Name,
) -> Result<Name, AllocError>
    ensures { IfOk result (λ original. original ≡ original_path functions.now points.now sites.now path) }
{
    if let Some(other) = renumbered(alloc, "function", functions, path.as_str())? {
        return Ok(other);
    }
    if let Some(other) = renumbered(alloc, "point", points, path.as_str())? {
        return Ok(other);
    }
    if let Some(other) = renumbered(alloc, "site", sites, path.as_str())? {
        return Ok(other);
    }
    Ok(path)
}

//! Labels by their names and by their places.

ghost use Rattle.std.specs.Prelude.{IfOk};
ghost use Rattle.std.specs.List.Sorted.{IsNonDecreasingBy};
ghost use Rattle.label_places.specs.Indexes.{AreByName, AreByPlace};
ghost use Rattle.label_places.specs.declared.label.Position.{Position};

use crate::label::{Label, Position};
use ebc_base::NoMemory;
use std::alloc::Global;
use std::collections::BTreeMap;

/// Where labels stand, by their names.
pub(crate) fn by_name(
    alloc: Global,
    labels: &[Label],
) -> Result<BTreeMap<String, Vec<Position>>, NoMemory>
    ensures { IfOk result (λ index. AreByName index labels.now) }
{
    let mut index: BTreeMap<String, Vec<Position>> = BTreeMap::new(alloc);
    for label in labels {
        let name = String::from_str(alloc, label.name.as_str())?;
        index.entry(name)?.or_default().push(label.position)?;
    }
    Ok(index)
}

// Where labels stand, in their order.
fn positions_of(alloc: Global, labels: &[Label]) -> Result<Vec<Position>, NoMemory>
    ensures { IfOk result (λ places. AreByPlace places.items labels.now) }
{
    let mut places = Vec::new(alloc);
    for label in labels {
        places.push(label.position)?;
    }
    Ok(places)
}

/// Where labels stand, in the order of their places.
pub(crate) fn by_place(alloc: Global, labels: &[Label]) -> Result<Vec<Position>, NoMemory>
    ensures placed { IfOk result (λ places. AreByPlace places.items labels.now) }
    ensures ascend { IfOk result (λ places. IsNonDecreasingBy (λ (p : Position). p.place) places.items) }
{
    let mut places = positions_of(alloc, labels)?;
    places.sort_by_key(|p: &Position| p.place)?;
    Ok(places)
}

//! Labels, and where they stand.

ghost use Rattle.std.specs.List.Sorted.{IsNonDecreasingBy};
ghost use Rattle.label_places.specs.Indexes.{AreByName, AreByPlace};
ghost use Rattle.label_places.specs.declared.label.Position.{Position};

use ebc_base::{Name, Sequence};
use std::collections::BTreeMap;

/// Where a label stands.
#[derive(Clone, Copy)]
pub struct Position {
    /// The number of its object, in the order of the plan.
    pub object: usize,
    /// 1 for the code, 2 for the data.
    pub section: u8,
    /// Its place in the linked image, an offset from the image's base in bytes.
    pub place: u32,
}

/// A label of a source: a symbol that its object defines.
#[derive(Drop)]
pub struct Label {
    pub name: Name,
    pub position: Position,
}

/// Where the code of an object begins and ends, and where its data end, as offsets from the image's base.
#[derive(Clone, Copy)]
pub struct ObjectSpan {
    pub code: u32,
    pub code_end: u32,
    pub contents_end: u32,
}

/// All labels, in the order of the objects and of each object's symbols, and where the objects stand.
#[derive(Drop)]
pub struct Labels {
    pub labels: Sequence<Label>,
    pub spans: Sequence<ObjectSpan>,
    /// Where the labels stand, by their names.
    pub(crate) by_name: BTreeMap<String, Vec<Position>>,
    /// Where they stand, in the order of their places.
    pub(crate) by_place: Vec<Position>,
    ghost named: { AreByName by_name labels },
    ghost placed: { AreByPlace by_place.items labels },
    ghost ascend: { IsNonDecreasingBy (λ (p : Position). p.place) by_place.items },
}

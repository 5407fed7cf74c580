//! The labels of objects, with their places.

ghost use Rattle.std.specs.Prelude.{◌≡◌, ◌+◌, ◌<◌, ◌≤◌, ◌^◌, ◌++◌, ◌∷◌, [], All, IfOk, OnOk, length, map};
ghost use Rattle.ebc_object.specs.Objects.{IsObject};
ghost use Rattle.ebc_link.specs.Layout.{homes_of, laid_objects, laid_with};
ghost use Rattle.ebc_link.specs.Walks.{HasSmallOffset, IsLow};
ghost use Rattle.label_places.specs.Labels.{label_in, labels_from, labels_in, labels_of, span_of, spans_of};

use crate::index::{by_name, by_place};
use crate::label::{Label, Labels, ObjectSpan, Position};
use ebc_base::{NoMemory, Sequence};
use ebc_link::{Home, homes_of};
use ebc_object::{Object, Symbol};
use std::alloc::{AllocError, Global};

// Where an object's sections stand.
fn span_of(object: &Object, home: Home) -> ObjectSpan
    requires object { IsObject object.now }
    requires low { IsLow home }
    ensures { result ≡ span_of (record { object = object.now; home = home }) }
{
    ObjectSpan {
        code: home.code,
        code_end: home.code + object.code.len() as u32,
        contents_end: home.contents + object.contents.len() as u32,
    }
}

// Where the objects stand that have these homes.
fn spans_of(
    alloc: Global,
    objects: &[Object],
    homes: &[Home],
) -> Result<Vec<ObjectSpan>, AllocError>
    requires objects { All IsObject objects.now }
    requires homes { length homes.now ≡ length objects.now }
    requires low { All IsLow homes.now }
    ensures { IfOk result (λ spans. spans.items ≡ map span_of (laid_with objects.now homes.now)) }
{
    let mut spans = Vec::new(alloc);
    for (number, object) in objects.iter().enumerate() {
        spans.push(span_of(object, homes[number]))?;
    }
    Ok(spans)
}

// Appends the label that a symbol is, if it is one.
fn append_label(
    alloc: Global,
    number: usize,
    home: Home,
    symbol: &Symbol,
    labels: &mut Vec<Label>,
) -> Result<(), NoMemory>
    requires low { IsLow home }
    requires offset { HasSmallOffset symbol.now }
    ensures { OnOk result (labels.new.items ≡ labels.old.items ++ labels_in number home (symbol.now ∷ [])) }
{
    if symbol.kind == 0 {
        return Ok(());
    }
    let position = Position {
        object: number,
        section: symbol.kind,
        place: home.start(symbol.kind) + symbol.offset,
    };
    let name = symbol.name.copy(alloc)?;
    labels.push(Label { name, position })?;
    Ok(())
}

// Appends the labels of an object.
fn append_labels(
    alloc: Global,
    number: usize,
    home: Home,
    symbols: &[Symbol],
    labels: &mut Vec<Label>,
) -> Result<(), NoMemory>
    requires low { IsLow home }
    requires offsets { All HasSmallOffset symbols.now }
    ensures { OnOk result (labels.new.items ≡ labels.old.items ++ labels_in number home symbols.now) }
{
    for symbol in symbols {
        append_label(alloc, number, home, symbol, labels)?;
    }
    Ok(())
}

// The labels of the objects that have these homes.
fn collected(alloc: Global, objects: &[Object], homes: &[Home]) -> Result<Vec<Label>, NoMemory>
    requires objects { All IsObject objects.now }
    requires homes { length homes.now ≡ length objects.now }
    requires low { All IsLow homes.now }
    ensures { IfOk result (λ labels. labels.items ≡ labels_from 0 (laid_with objects.now homes.now)) }
{
    let mut labels = Vec::new(alloc);
    for (number, object) in objects.iter().enumerate() {
        let symbols = object.symbols.as_slice();
        append_labels(alloc, number, homes[number], symbols, &mut labels)?;
    }
    Ok(labels)
}

/// The labels of objects, of which there are so many as a plan may name.
///
/// # Errors
///
/// There was no memory.
#[tactic(auto, unfolding(crate::specs::Labels::labels_of, crate::specs::Labels::spans_of, ebc_link::specs::Layout::laid_objects))]
pub fn labels_of(alloc: Global, objects: &[Object]) -> Result<Labels, NoMemory>
    requires objects { All IsObject objects.now }
    requires few { length objects.now ≤ 256 }
    ensures labels { IfOk result (λ found. found.labels ≡ labels_of objects.now) }
    ensures spans { IfOk result (λ found. found.spans ≡ spans_of objects.now) }
{
    let homes = homes_of(alloc, objects)?;
    let labels = collected(alloc, objects, homes.as_slice())?;
    let spans = spans_of(alloc, objects, homes.as_slice())?;
    let by_name = by_name(alloc, labels.as_slice())?;
    let by_place = by_place(alloc, labels.as_slice())?;
    Ok(Labels {
        labels: Sequence::new(labels),
        spans: Sequence::new(spans),
        by_name,
        by_place,
    })
}

//! The labels by their places.
ghost use Rattle.std.specs.Prelude.{◌≡◌, ◌++◌, IfOk, OnOk, option_map, string_bytes};
ghost use Rattle.std.specs.List.{flat_map};
ghost use Rattle.label_notes.specs.Maps.{AreInOrder, IsMap, label_line, name_in, noted_label_text};

use crate::shared::shared_names;
use ebc_base::{Name, NameTable, NoMemory};
use label_places::Label;
use printed_texts::Place;
use std::alloc::{AllocError, Global};

// A name of a label, behind that of its object.
fn name_in(alloc: Global, object: Option<&Name>, name: &str) -> Result<String, AllocError>
    ensures { IfOk result (λ text. string_bytes text ≡ name_in (option_map (λ o. o.now) object.entry) name.now) }
{
    match object {
        Some(object) => {
            let object = object.as_str();
            format!(in alloc; "{object}:{name}")
        }
        None => String::from_str(alloc, name),
    }
}

/// A label as notes name it, of objects whose files have these names: by its object too, where its name is one of `shared`.
#[tactic(auto, unfolding(crate::specs::Maps::noted_label_text))]
pub(crate) fn noted_label_text(
    alloc: Global,
    objects: &[Name],
    shared: &NameTable,
    label: &Label,
) -> Result<String, AllocError>
    ensures { IfOk result (λ text. string_bytes text ≡ noted_label_text objects.now shared.now label.now) }
{
    if shared.has(&label.name) {
        name_in(
            alloc,
            objects.get(label.position.object),
            label.name.as_str(),
        )
    } else {
        String::from_str(alloc, label.name.as_str())
    }
}

// Appends the line of a label.
#[tactic(auto, unfolding(crate::specs::Maps::label_line))]
fn append_line(
    alloc: Global,
    objects: &[Name],
    shared: &NameTable,
    label: &Label,
    out: &mut Vec<u8>,
) -> Result<(), AllocError>
    ensures { OnOk result (out.new.items ≡ out.old.items ++ label_line objects.now shared.now label.now) }
{
    let place = Place(label.position.place);
    let name = noted_label_text(alloc, objects, shared, label)?;
    let line = format!(in alloc; "{place} {name}\n")?;
    out.extend_from_slice(line.as_bytes())?;
    Ok(())
}

// Appends the lines of labels.
fn append_lines(
    alloc: Global,
    objects: &[Name],
    shared: &NameTable,
    labels: &[Label],
    out: &mut Vec<u8>,
) -> Result<(), AllocError>
    ensures { OnOk result (out.new.items ≡ out.old.items ++ flat_map (label_line objects.now shared.now) labels.now) }
{
    for label in labels {
        append_line(alloc, objects, shared, label, out)?;
    }
    Ok(())
}

// The labels once more.
fn copies(alloc: Global, labels: &[Label]) -> Result<Vec<Label>, NoMemory>
    ensures { IfOk result (λ copies. copies.items ≡ labels.now) }
{
    let mut copies = Vec::new(alloc);
    for label in labels {
        let name = label.name.copy(alloc)?;
        let position = label.position;
        copies.push(Label { name, position })?;
    }
    Ok(copies)
}

// The labels in the order of their places, those at one place as they stand.
fn in_order(alloc: Global, labels: &[Label]) -> Result<Vec<Label>, NoMemory>
    ensures { IfOk result (λ order. AreInOrder labels.now order.items) }
{
    let mut order = copies(alloc, labels)?;
    order.sort_by_key(|label: &Label| label.position.place)?;
    Ok(order)
}

/// A line for each label of objects whose files have these names: its place and its name, in the order of places.
///
/// # Errors
///
/// There is no memory.
pub(crate) fn map_text(
    alloc: Global,
    objects: &[Name],
    labels: &[Label],
) -> Result<Vec<u8>, NoMemory>
    ensures { IfOk result (λ text. IsMap objects.now labels.now text.items) }
{
    let shared = shared_names(alloc, labels)?;
    let order = in_order(alloc, labels)?;
    let mut text = Vec::new(alloc);
    append_lines(alloc, objects, &shared, order.as_slice(), &mut text)?;
    Ok(text)
}

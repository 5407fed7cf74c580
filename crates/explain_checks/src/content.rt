//! What is said of the bytes and relocations of a static object.

ghost use Rattle.pe_image.specs.Images.{IsImage};

use crate::ranges::{Range, nonzero_in, reloc_in, size_at_8};
use crate::refused::Refused;
use explain_base::Line;
use note_types::{Cell, Notes, Shape, Static};
use pe_image::{Image, byte_at, named_place};
use rules_image::first_reloc;
use std::alloc::Global;

/// Whether a shape has a size or a field that depends on the width.
pub(crate) fn depends(s: &Shape) -> bool {
    if s.n != 0 {
        return true;
    }
    for x in s.fields.as_slice() {
        match x.cell {
            Cell::I8 | Cell::I16 | Cell::I32 | Cell::I64 | Cell::P64 { .. } if x.n == 0 => {}
            _ => return true,
        }
    }
    false
}

/// What is wrong with the content of an object that depends on the width: a cell that an image can't hold, or a byte that isn't blank.
pub(crate) fn content_of_blank(
    alloc: Global,
    image: &Image,
    s: &Shape,
    range: &Range,
) -> Option<Line> {
    let mut what = Line::of(alloc, s.name.as_str());
    for x in s.fields.as_slice() {
        match x.cell {
            Cell::Method(_) => what.text(" has the method cell ").text(x.name.as_str()),
            Cell::Ptr { null: false, .. } | Cell::P64 { null: false, .. } => what
                .text(" depends on the width, and its field ")
                .text(x.name.as_str())
                .text(" may not be null"),
            _ => continue,
        };
        what.text(", which an image can't hold");
        return Some(what);
    }
    what.text(" depends on the width, and ");
    if let Some(r) = reloc_in(image, range.from, range.to) {
        what.text("a relocation stands at ").at(r).text(
            ", where none is wanted; .dq NAME fills a cell p64 or p64? alone",
        );
        return Some(what);
    }
    let place = nonzero_in(image, range.from, range.to)?;
    what.text("the byte at ")
        .hexadecimal(place)
        .text(" is ")
        .byte(byte_at(image, place))
        .text(", where 0 is wanted");
    Some(what)
}

// Whether a static object of a shape with at least so many instances starts at a place.
fn is_linked(notes: &Notes, place: u64, shape: u32, count: u64) -> bool {
    for x in notes.statics.as_slice() {
        if u64::from(x.place) == place && x.shape == shape && count <= x.count {
            return true;
        }
    }
    false
}

// A pointer's cell of 64 bits at a place.
fn pointer_line(alloc: Global, field: &str, place: u64) -> Line {
    let mut line = Line::of(alloc, "the p64 cell ");
    line.text(field).text(" at ").hexadecimal(place);
    line
}

// What is wrong with a pointer's cell of 64 bits at a place that is relocated, where something is.
fn fault_of_address(refused: &Refused, field: &str, wanted: (u32, u64), at: u32) -> Option<Line> {
    let (shape, count) = wanted;
    let (image, notes) = (refused.image, refused.notes);
    let named = named_place(image, at);
    if is_linked(notes, named, shape, count) {
        return None;
    }
    let mut what = pointer_line(refused.alloc, field, u64::from(at));
    what.text(" is the address of ")
        .hexadecimal(named)
        .text(", where no static object of ")
        .number(count);
    let name = match notes.shape.as_slice().get(shape as usize) {
        Some(s) => s.name.as_str(),
        None => "",
    };
    what.text(" ").text(name).text(" starts");
    Some(what)
}

// What is wrong with a pointer of 64 bits at a place, where something is.
fn fault_of_pointer(refused: &Refused, field: &str, cell: Cell, place: u64) -> Option<Line>
    requires { IsImage refused.now.image.now }
{
    let Cell::P64 { shape, count, null } = cell else {
        return None;
    };
    let (image, at) = (refused.image, u32::try_from(place).ok()?);
    if let Some(r) = image.relocs.as_slice().get(first_reloc(image, at)) {
        if *r == at {
            return fault_of_address(refused, field, (shape, count), at);
        }
    }
    let mut what = pointer_line(refused.alloc, field, place);
    if nonzero_in(image, place, place.saturating_add(8)).is_some() {
        what.text(" isn't 0 and has no relocation; an address in data is made by .dq NAME");
        return Some(what);
    }
    if null {
        return None;
    }
    what.text(" is 0, and may not be null; the relocated address of a static object is wanted");
    Some(what)
}

/// What is wrong with the content of an object whose layout is the same at both widths.
pub(crate) fn content_of_filled(refused: &Refused, x: &Static, s: &Shape, range: &Range) -> Line
    requires { IsImage refused.now.image.now }
{
    for instance in 0..x.count {
        let from = range
            .from
            .saturating_add(size_at_8(s).saturating_mul(instance));
        for field in s.fields.as_slice() {
            let place = from.saturating_add(u64::from(field.c));
            let (name, cell) = (field.name.as_str(), field.cell);
            if let Some(what) = fault_of_pointer(refused, name, cell, place) {
                return what;
            }
        }
    }
    let mut what = Line::of(
        refused.alloc,
        "a relocation stands in the static object of ",
    );
    what.text(s.name.as_str())
        .text(" that begins at no p64 cell of it");
    what
}

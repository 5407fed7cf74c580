//! The content of a static object: what the rule `static` asks of its bytes and relocations.

ghost use Rattle.std.specs.Prelude.{◌≡◌, ◌+◌, ◌*◌, ◌<◌, ◌≤◌, ◌↔◌, ◌^◌, IsTrue, Some, slice_get};
ghost use Rattle.std.specs.List.{Contains, list_any};
ghost use Rattle.note_types.specs.Records.{IsNotes};
ghost use Rattle.note_types.specs.Shapes.{IsShape, size_at, start_at};
ghost use Rattle.note_types.specs.declared.cell.Cell.TheVariants.{P64};
ghost use Rattle.pe_image.specs.Images.{IsImage};
ghost use Rattle.rules_image.specs.Images.{CellHolds, HasContent, IsBlank, IsFilled, IsLinked, IsUnrelocated, IsZero, MayBeZero};
ghost use Rattle.rules_image.specs.Images.{RelocatesPointers, depends, extent, has_natural, is_natural};
ghost use Rattle.rules_image.specs.Contents.{AreNear, CellsHold, HasPointer, InstancesHold, MayAllBeZero, is_pointer_at, is_static_of};
ghost use Rattle.rules_image.specs.Contents.{is_wide_pointer};

use crate::marks::first_reloc;
use crate::ranges::{is_relocated, is_unrelocated, is_zero};
use note_types::{Cell, Field, Notes, Shape, Static};
use pe_image::{Image, named_place};

// Natural units and bytes, as a number of bytes where an address has 8.
fn at_8(n: u32, c: u32) -> u64
    ensures value { result ≡ n * 8 + c }
    ensures bound { result < 2 ^ 36 }
{
    u64::from(n) * 8 + u64::from(c)
}

// The bytes of an instance.
fn size_at_8(s: &Shape) -> u64
    ensures value { result ≡ size_at 8 s.now }
    ensures bound { result < 2 ^ 36 }
{
    at_8(s.n, s.c)
}

// The byte of an instance at which a field begins.
fn start_at_8(y: &Field) -> u64
    ensures value { result ≡ start_at 8 y.now }
    ensures bound { result < 2 ^ 36 }
{
    at_8(y.n, y.c)
}

// A cell as wide as an address.
fn is_natural(cell: Cell) -> bool
    ensures { result ≡ is_natural cell }
{
    match cell {
        Cell::N | Cell::Stat | Cell::Handle | Cell::Entry | Cell::Ptr { .. } | Cell::Method(_) =>
            true,
        _ => false,
    }
}

// A field with a part that depends on the width.
fn has_natural(y: &Field) -> bool
    ensures { result ≡ has_natural y.now }
{
    y.n != 0 || is_natural(y.cell)
}

// Fields of which one does.
fn have_natural(fields: &[Field]) -> bool
    ensures { result ≡ list_any has_natural fields.now }
{
    fields.iter().any(|y| has_natural(y))
}

// A shape of a size or with a field that depends on the width.
fn depends(s: &Shape) -> bool
    ensures { result ≡ depends s.now }
{
    s.n != 0 || have_natural(s.fields.as_slice())
}

// ---- objects that depend on the width

// Whether a cell may be zero.
fn may_be_zero(cell: Cell) -> bool
    ensures { IsTrue result ↔ MayBeZero cell }
{
    match cell {
        Cell::Method(_) => false,
        Cell::Ptr { null, .. } | Cell::P64 { null, .. } => null,
        _ => true,
    }
}

// Whether the cells of these fields may be zero.
fn may_all_be_zero(fields: &[Field]) -> bool
    ensures { IsTrue result ↔ MayAllBeZero fields.now }
{
    for y in fields {
        if !may_be_zero(y.cell) {
            return false;
        }
    }
    true
}

// Whether the bytes from `from` up to `to` are zero and none is relocated.
fn is_clear(image: &Image, from: u32, to: u32) -> bool
    requires { IsImage image.now }
    ensures { IsTrue result ↔ (IsUnrelocated image.now from to × IsZero image.now from to) }
{
    is_unrelocated(image, from, to) && is_zero(image, from, to)
}

// Whether an object up to `end` has the content of one whose layout depends on the width.
fn is_blank(image: &Image, x: &Static, s: &Shape, end: u32) -> bool
    requires image { IsImage image.now }
    requires end { end ≡ x.now.place + extent x.now s.now }
    ensures { IsTrue result ↔ IsBlank image.now x.now s.now }
{
    is_clear(image, x.place, end) && may_all_be_zero(s.fields.as_slice())
}

// ---- objects that don't

// Whether one of these static objects, of a shape and with at least so many instances, starts at a place.
fn has_static(statics: &[Static], place: u64, shape: u32, count: u64) -> bool
    ensures { result ≡ list_any (is_static_of place shape count) statics.now }
{
    statics.iter().any(|x| u64::from(x.place) == place && x.shape == shape && count <= x.count)
}

// Whether eight bytes hold the relocated address of a static object of a shape with at least so many instances.
fn is_linked(image: &Image, notes: &Notes, place: u32, shape: u32, count: u64) -> bool
    requires { IsImage image.now }
    ensures { IsTrue result ↔ IsLinked image.now notes.now place shape count }
{
    is_relocated(image, place)
        && has_static(
            notes.statics.as_slice(),
            named_place(image, place),
            shape,
            count,
        )
}

// Whether a pointer of 64 bits at a place is linked, or null where it may be.
fn pointer_holds(
    image: &Image,
    notes: &Notes,
    place: u32,
    shape: u32,
    count: u64,
    null: bool,
) -> bool
    requires image { IsImage image.now }
    requires room { place ≤ 2 ^ 22 }
    ensures { IsTrue result ↔ CellHolds image.now notes.now place (P64 shape count null) }
{
    if null {
        is_clear(image, place, place + 8) || is_linked(image, notes, place, shape, count)
    } else {
        is_linked(image, notes, place, shape, count)
    }
}

// Whether a cell at a place holds what it may.
fn cell_holds(image: &Image, notes: &Notes, place: u32, cell: Cell) -> bool
    requires image { IsImage image.now }
    requires room { place ≤ 2 ^ 22 }
    ensures { IsTrue result ↔ CellHolds image.now notes.now place cell }
{
    match cell {
        Cell::I8 => is_unrelocated(image, place, place + 1),
        Cell::I16 => is_unrelocated(image, place, place + 2),
        Cell::I32 => is_unrelocated(image, place, place + 4),
        Cell::I64 => is_unrelocated(image, place, place + 8),
        Cell::P64 { shape, count, null } => pointer_holds(image, notes, place, shape, count, null),
        _ => false,
    }
}

// Whether the cell of a field, in an instance at a place, holds what it may.
fn field_holds(image: &Image, notes: &Notes, place: u32, y: &Field) -> bool
    requires image { IsImage image.now }
    requires room { place + start_at 8 y.now ≤ 2 ^ 22 }
    ensures { IsTrue result ↔ CellHolds image.now notes.now (place + start_at 8 y.now) y.now.cell }
{
    cell_holds(image, notes, place + start_at_8(y) as u32, y.cell)
}

// Whether the cells of these fields, in an instance at a place, hold what they may.
fn cells_hold(image: &Image, notes: &Notes, place: u32, fields: &[Field]) -> bool
    requires image { IsImage image.now }
    requires room { AreNear fields.now place }
    ensures { IsTrue result ↔ CellsHold image.now notes.now fields.now place }
{
    for y in fields {
        if !field_holds(image, notes, place, y) {
            return false;
        }
    }
    true
}

// The place of instance j of an object.
fn instance_place(x: &Static, s: &Shape, j: u64) -> u32
    requires within { j < x.now.count }
    requires inside { x.now.place + extent x.now s.now ≤ 2 ^ 22 }
    ensures value { result ≡ x.now.place + j * size_at 8 s.now }
    ensures inside { result + size_at 8 s.now ≤ 2 ^ 22 }
{
    x.place + (j * size_at_8(s)) as u32
}

// Whether the cells of instance j of an object hold what they may.
fn instance_holds(image: &Image, notes: &Notes, x: &Static, s: &Shape, j: u64) -> bool
    requires image { IsImage image.now }
    requires fits { IsShape s.now }
    requires within { j < x.now.count }
    requires inside { x.now.place + extent x.now s.now ≤ 2 ^ 22 }
    ensures { IsTrue result ↔ CellsHold image.now notes.now s.now.fields (x.now.place + j * size_at 8 s.now) }
{
    cells_hold(image, notes, instance_place(x, s, j), s.fields.as_slice())
}

// Whether the cells of all instances of an object hold what they may.
fn instances_hold(image: &Image, notes: &Notes, x: &Static, s: &Shape) -> bool
    requires image { IsImage image.now }
    requires fits { IsShape s.now }
    requires inside { x.now.place + extent x.now s.now ≤ 2 ^ 22 }
    ensures { IsTrue result ↔ InstancesHold image.now notes.now x.now s.now }
{
    for j in 0..x.count {
        if !instance_holds(image, notes, x, s, j) {
            return false;
        }
    }
    true
}

// A pointer of 64 bits.
fn is_wide_pointer(cell: Cell) -> bool
    ensures { result ≡ is_wide_pointer cell }
{
    match cell {
        Cell::P64 { .. } => true,
        _ => false,
    }
}

// Whether one of these fields is a pointer of 64 bits that begins at this byte of an instance.
fn has_pointer_at(fields: &[Field], start: u64) -> bool
    ensures { result ≡ list_any (is_pointer_at start) fields.now }
{
    fields
        .iter()
        .any(|y| is_wide_pointer(y.cell) && start_at_8(y) == start)
}

// Whether a pointer of 64 bits of an object begins at a place.
fn is_pointer_place(x: &Static, s: &Shape, place: u32) -> bool
    requires fits { IsShape s.now }
    ensures { IsTrue result ↔ HasPointer x.now s.now place }
{
    if place < x.place {
        return false;
    }
    let at = u64::from(place - x.place);
    let size = size_at_8(s);
    at / size < x.count && has_pointer_at(s.fields.as_slice(), at % size)
}

// Whether each relocation that touches an object up to `end` begins at a pointer of 64 bits of it.
fn relocates_pointers(image: &Image, x: &Static, s: &Shape, end: u32) -> bool
    requires image { IsImage image.now }
    requires fits { IsShape s.now }
    requires end { end ≡ x.now.place + extent x.now s.now }
    ensures { IsTrue result ↔ RelocatesPointers image.now x.now s.now }
{
    let relocs = image.relocs.as_slice();
    for number in first_reloc(image, x.place)..relocs.len() {
        if end <= relocs[number] {
            return true;
        }
        if !is_pointer_place(x, s, relocs[number]) {
            return false;
        }
    }
    true
}

// Whether an object up to `end` has the content of one whose layout doesn't depend on the width.
fn is_filled(image: &Image, notes: &Notes, x: &Static, s: &Shape, end: u32) -> bool
    requires image { IsImage image.now }
    requires fits { IsShape s.now }
    requires end { end ≡ x.now.place + extent x.now s.now }
    requires inside { end ≤ 2 ^ 22 }
    ensures { IsTrue result ↔ IsFilled image.now notes.now x.now s.now }
{
    instances_hold(image, notes, x, s) && relocates_pointers(image, x, s, end)
}

// The place past an object.
fn end_of(x: &Static, s: &Shape) -> u32
    requires { x.now.place + extent x.now s.now ≤ 2 ^ 22 }
    ensures { result ≡ x.now.place + extent x.now s.now }
{
    x.place + (x.count * size_at_8(s)) as u32
}

/// Whether a static object of a shape has the content that the rule `static` asks for.
pub(crate) fn has_content(image: &Image, notes: &Notes, x: &Static, s: &Shape) -> bool
    requires image { IsImage image.now }
    requires notes { IsNotes notes.now }
    requires there { Contains notes.now.statics x.now }
    requires shape { slice_get notes.now.shape x.now.shape ≡ Some s.now }
    requires fits { IsShape s.now }
    requires inside { x.now.place + extent x.now s.now ≤ image.now.size }
    ensures { IsTrue result ↔ HasContent image.now notes.now x.now s.now }
{
    let end = end_of(x, s);
    if depends(s) {
        is_blank(image, x, s, end)
    } else {
        is_filled(image, notes, x, s, end)
    }
}

//! The rules of shapes and functions, and the code of a function.

ghost use Rattle.std.specs.Prelude.{◌≡◌, ◌+◌, ◌<◌, ◌≤◌, ◌↔◌, ℕ, IfErr, IfNone, IfSome, IsTrue, OnOk, Some, length, slice_get};
ghost use Rattle.note_types.specs.Records.{IsNotes};
ghost use Rattle.rules_image.specs.Images.{FunctionHolds, IsFunction, IsInside, ShapeHolds, IsFirstFailing};
ghost use Rattle.pe_image.specs.Images.{IsImage};
ghost use Rattle.pe_image.specs.declared.image.Section.{Section};
ghost use Rattle.rules_image.specs.Tables.{FitsAt, HasHome, IsHome, IsPast, IsCodeOf, HaveFewFields};

use note_types::{FnNote, Notes, Shape, shape_ok};
use pe_image::{Image, Section};

// The number of the first shape that isn't well formed.
fn first_unfit(shapes: &[Shape]) -> Option<usize>
    requires { HaveFewFields shapes.now }
    ensures some { IfSome result (λ k. (k < length shapes.now) × IsFirstFailing (FitsAt shapes.now) k) }
    ensures none { IfNone result ((k : ℕ) → FitsAt shapes.now k) }
{
    for (number, shape) in shapes.iter().enumerate() {
        match shape_ok(shape) {
            Ok(()) => {}
            Err(_) => return Some(number),
        }
    }
    None
}

/// Whether the rule `shape` holds of all shapes.
///
/// # Errors
///
/// The first shape of which it doesn't, by its number.
pub fn check_shapes(notes: &Notes) -> Result<(), u32>
    requires { IsNotes notes.now }
    ensures holds { OnOk result ((k : ℕ) → ShapeHolds notes.now k) }
    ensures fails { IfErr result (IsFirstFailing (ShapeHolds notes.now)) }
{
    match first_unfit(notes.shape.as_slice()) {
        Some(number) => Err(number as u32),
        None => Ok(()),
    }
}

// Whether the bytes of a section have all places from `from` up to `to`.
fn is_inside(s: &Section, from: u32, to: u32) -> bool
    ensures { IsTrue result ↔ IsInside s.now from to }
{
    s.place <= from && to.saturating_sub(s.place) as usize <= s.bytes.len()
}

// The number of the section whose bytes have all places from `from` up to `to`.
fn home(sections: &[Section], from: u32, to: u32) -> Option<usize>
    ensures some { IfSome result (λ k. IsHome sections.now from to k) }
    ensures none { IfNone result ((k : ℕ) (s : Section) → slice_get sections.now k ≡ Some s → IsInside s from to → ⊥) }
{
    for (number, s) in sections.iter().enumerate() {
        if is_inside(s, from, to) {
            return Some(number);
        }
    }
    None
}

// Whether the function before ends before a function's place or at it.
fn is_past(functions: &[FnNote], number: usize, place: u32) -> bool
    ensures { IsTrue result ↔ IsPast functions.now number place }
{
    if number == 0 {
        return true;
    }
    match functions.get(number - 1) {
        Some(before) => before.end <= place,
        None => true,
    }
}

// Whether a function lies inside the bytes of one section.
fn has_home(image: &Image, f: &FnNote) -> bool
    ensures { IsTrue result ↔ HasHome image.now f.now }
{
    home(image.sections.as_slice(), f.place, f.end).is_some()
}

// Whether the rule `function` holds of a function.
fn function_holds(image: &Image, notes: &Notes, number: usize, f: &FnNote) -> bool
    ensures { IsTrue result ↔ IsFunction image.now notes.now number f.now }
{
    if f.end <= f.place || f.place % 2 != 0 || f.end % 2 != 0 {
        return false;
    }
    if !has_home(image, f) || !is_past(notes.function.as_slice(), number, f.place) {
        return false;
    }
    number != notes.entry as usize || image.entry == f.place
}

// The number of the first of these functions, all of the notes, of which the rule doesn't hold.
fn first_misplaced(image: &Image, notes: &Notes, functions: &[FnNote]) -> Option<usize>
    requires { functions.now ≡ notes.now.function }
    ensures some { IfSome result (λ k. (k < length functions.now) × IsFirstFailing (FunctionHolds image.now notes.now) k) }
    ensures none { IfNone result ((k : ℕ) → FunctionHolds image.now notes.now k) }
{
    for (number, f) in functions.iter().enumerate() {
        if !function_holds(image, notes, number, f) {
            return Some(number);
        }
    }
    None
}

/// Whether the rule `function` holds of all functions.
///
/// # Errors
///
/// The first function of which it doesn't, by its number.
pub fn check_functions(image: &Image, notes: &Notes) -> Result<(), usize>
    ensures holds { OnOk result ((k : ℕ) → FunctionHolds image.now notes.now k) }
    ensures fails { IfErr result (λ k. (k < length notes.now.function) × IsFirstFailing (FunctionHolds image.now notes.now) k) }
{
    match first_misplaced(image, notes, notes.function.as_slice()) {
        Some(number) => Err(number),
        None => Ok(()),
    }
}

/// The code of a function of which the rule holds.
pub fn code_of<'a>(image: &'a Image, f: &FnNote) -> &'a [u8]
    requires image { IsImage image.now }
    requires range { f.now.place < f.now.end }
    requires inside { HasHome image.now f.now }
    ensures { IsCodeOf image.now f.now result.now }
{
    match home(image.sections.as_slice(), f.place, f.end) {
        Some(number) => {
            let s = &image.sections.as_slice()[number];
            let from = (f.place - s.place) as usize;
            let to = (f.end - s.place) as usize;
            &s.bytes.as_slice()[from..to]
        }
        None => unreachable!(),
    }
}

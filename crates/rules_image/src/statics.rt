//! The rule of static objects.

ghost use Rattle.std.specs.Prelude.{◌≡◌, ◌+◌, ◌<◌, ◌≤◌, ◌↔◌, ◌^◌, ℕ, IfErr, IfNone, IfSome, IsTrue, OnOk, Some, length, slice_get};
ghost use Rattle.note_types.specs.Records.{IsNotes};
ghost use Rattle.pe_image.specs.Images.{IsImage};
ghost use Rattle.rules_image.specs.Images.{IsStatic, ShapeHolds, StaticHolds, IsFirstFailing};
ghost use Rattle.rules_image.specs.Checks.{AreAllApart, IsStaticApart, StaticFits};

use crate::apart::{
    extent_inside, is_apart_from_functions, is_apart_from_statics, is_apart_from_thunks,
};
use crate::content::has_content;
use note_types::{Notes, Shape, Static};
use pe_image::Image;

// Whether a static object, of so many bytes, shares none with a function, a later static object or a thunk cell. `apart` may say
// only what is so: that no two things of the notes share a byte.
fn is_static_apart(notes: &Notes, apart: bool, number: usize, x: &Static, size: u64) -> bool
    requires there { slice_get notes.now.statics number ≡ Some x.now }
    requires size { size ≤ 2 ^ 40 }
    requires apart { IsTrue apart → IsStaticApart notes.now number x.now.place size }
    ensures { IsTrue result ↔ IsStaticApart notes.now number x.now.place size }
{
    if apart {
        return true;
    }
    is_apart_from_functions(notes.function.as_slice(), x.place, size)
        && is_apart_from_statics(notes, notes.statics.as_slice(), number + 1, x.place, size)
        && is_apart_from_thunks(notes.thunk.as_slice(), 0, x.place, size)
}

// Whether the rule holds of a static object of a shape.
fn shaped_holds(
    image: &Image,
    notes: &Notes,
    apart: bool,
    number: usize,
    x: &Static,
    s: &Shape,
) -> bool
    requires image { IsImage image.now }
    requires notes { IsNotes notes.now }
    requires shapes { (k : ℕ) → ShapeHolds notes.now k }
    requires there { slice_get notes.now.statics number ≡ Some x.now }
    requires shape { slice_get notes.now.shape x.now.shape ≡ Some s.now }
    requires apart { IsTrue apart → AreAllApart notes.now }
    ensures { IsTrue result ↔ IsStatic image.now notes.now number x.now s.now }
{
    let Some(size) = extent_inside(image, x, s) else {
        return false;
    };
    if !is_static_apart(notes, apart, number, x, size) {
        return false;
    }
    has_content(image, notes, x, s)
}

// Whether the rule holds of a static object.
fn static_holds(image: &Image, notes: &Notes, apart: bool, number: usize, x: &Static) -> bool
    requires image { IsImage image.now }
    requires notes { IsNotes notes.now }
    requires shapes { (k : ℕ) → ShapeHolds notes.now k }
    requires there { slice_get notes.now.statics number ≡ Some x.now }
    requires apart { IsTrue apart → AreAllApart notes.now }
    ensures { IsTrue result ↔ StaticFits image.now notes.now number x.now }
{
    match notes.shape.as_slice().get(x.shape as usize) {
        Some(s) => shaped_holds(image, notes, apart, number, x, s),
        None => true,
    }
}

// The number of the first of these static objects, all of the notes, of which the rule doesn't hold.
fn first_static(image: &Image, notes: &Notes, apart: bool, statics: &[Static]) -> Option<usize>
    requires image { IsImage image.now }
    requires notes { IsNotes notes.now }
    requires shapes { (k : ℕ) → ShapeHolds notes.now k }
    requires statics { statics.now ≡ notes.now.statics }
    requires apart { IsTrue apart → AreAllApart notes.now }
    ensures some { IfSome result (λ k. (k < length statics.now) × IsFirstFailing (StaticHolds image.now notes.now) k) }
    ensures none { IfNone result ((k : ℕ) → StaticHolds image.now notes.now k) }
{
    for (number, x) in statics.iter().enumerate() {
        if !static_holds(image, notes, apart, number, x) {
            return Some(number);
        }
    }
    None
}

/// Whether the rule `static` holds of all static objects, where the rule of shapes holds. `apart` may say only what is so:
/// that no two things of the notes share a byte.
///
/// # Errors
///
/// The first static object of which it doesn't, by its number.
pub fn check_statics(image: &Image, notes: &Notes, apart: bool) -> Result<(), usize>
    requires image { IsImage image.now }
    requires notes { IsNotes notes.now }
    requires shapes { (k : ℕ) → ShapeHolds notes.now k }
    requires apart { IsTrue apart → AreAllApart notes.now }
    ensures holds { OnOk result ((k : ℕ) → StaticHolds image.now notes.now k) }
    ensures fails { IfErr result (λ k. (k < length notes.now.statics) × IsFirstFailing (StaticHolds image.now notes.now) k) }
{
    match first_static(image, notes, apart, notes.statics.as_slice()) {
        Some(number) => Err(number),
        None => Ok(()),
    }
}

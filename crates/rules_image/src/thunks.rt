//! The rule of thunk cells.

ghost use Rattle.std.specs.Prelude.{◌≡◌, ◌+◌, ◌%◌, ◌<◌, ◌≤◌, ◌↔◌, ◌^◌, ℕ, IfErr, IfNone, IfSome, IsTrue, OnOk, Some, length, slice_get};
ghost use Rattle.ebc_width.specs.Bytes.{little_endian};
ghost use Rattle.note_types.specs.Records.{IsNotes};
ghost use Rattle.pe_image.specs.Images.{IsImage};
ghost use Rattle.rules_image.specs.Images.{IsThunk, ThunkHolds, IsFirstFailing};
ghost use Rattle.rules_image.specs.Checks.{AreAllApart, EntersFunction, EntersItsFunction, IsThunkApart};
ghost use Rattle.pe_image.specs.Mapped.{image_byte};

use crate::apart::{is_apart_from_functions, is_apart_from_thunks};
use crate::ranges::{is_unrelocated, is_zero};
use note_types::{FnNote, Notes, Thunk};
use pe_image::{Image, byte_at};

// The number in the four bytes from a place on.
fn half_at(image: &Image, place: u32) -> u32
    ensures { result ≡ little_endian (image_byte image.now) place 4 }
{
    let p = u64::from(place);
    u32::from_le_bytes([
        byte_at(image, p),
        byte_at(image, p + 1),
        byte_at(image, p + 2),
        byte_at(image, p + 3),
    ])
}

// Whether the first four bytes of a thunk cell are a function's place less the place past them.
fn leads_to(image: &Image, x: &Thunk, f: &FnNote) -> bool
    ensures { IsTrue result ↔ ((little_endian (image_byte image.now) x.now.place 4 + (x.now.place + 4)) % 2 ^ 32 ≡ f.now.place) }
{
    (u64::from(half_at(image, x.place)) + (u64::from(x.place) + 4)) % 0x1_0000_0000
        == u64::from(f.place)
}

// Whether a thunk cell that lies inside the image has the bytes of one that enters a function, which may be entered.
fn enters_function(image: &Image, x: &Thunk, f: &FnNote) -> bool
    requires image { IsImage image.now }
    requires inside { x.now.place + 8 ≤ image.now.size }
    ensures { IsTrue result ↔ EntersFunction image.now x.now f.now }
{
    if !f.enter {
        return false;
    }
    if !leads_to(image, x, f) {
        return false;
    }
    if !is_unrelocated(image, x.place, x.place + 8) {
        return false;
    }
    is_zero(image, x.place + 4, x.place + 8)
}

// Whether it has those of one that enters the function that the notes give.
fn enters_its_function(image: &Image, notes: &Notes, x: &Thunk) -> bool
    requires image { IsImage image.now }
    requires inside { x.now.place + 8 ≤ image.now.size }
    ensures { IsTrue result ↔ EntersItsFunction image.now notes.now x.now }
{
    match notes.function.as_slice().get(x.function as usize) {
        Some(f) => enters_function(image, x, f),
        None => false,
    }
}

// Whether a thunk cell shares no byte with a function or a later thunk cell. `apart` may say only what is so: that no two things
// of the notes share a byte.
fn is_thunk_apart(notes: &Notes, apart: bool, number: usize, x: &Thunk) -> bool
    requires there { slice_get notes.now.thunk number ≡ Some x.now }
    requires apart { IsTrue apart → IsThunkApart notes.now number x.now.place }
    ensures { IsTrue result ↔ IsThunkApart notes.now number x.now.place }
{
    if apart {
        return true;
    }
    is_apart_from_functions(notes.function.as_slice(), x.place, 8)
        && is_apart_from_thunks(notes.thunk.as_slice(), number + 1, x.place, 8)
}

// Whether the rule holds of a thunk cell.
fn thunk_holds(image: &Image, notes: &Notes, apart: bool, number: usize, x: &Thunk) -> bool
    requires image { IsImage image.now }
    requires there { slice_get notes.now.thunk number ≡ Some x.now }
    requires apart { IsTrue apart → AreAllApart notes.now }
    ensures { IsTrue result ↔ IsThunk image.now notes.now number x.now }
{
    if u64::from(x.place) + 8 > u64::from(image.size) {
        return false;
    }
    if !is_thunk_apart(notes, apart, number, x) {
        return false;
    }
    enters_its_function(image, notes, x)
}

// The number of the first of these thunk cells, all of the notes, of which the rule doesn't hold.
fn first_thunk(image: &Image, notes: &Notes, apart: bool, thunks: &[Thunk]) -> Option<usize>
    requires image { IsImage image.now }
    requires thunks { thunks.now ≡ notes.now.thunk }
    requires apart { IsTrue apart → AreAllApart notes.now }
    ensures some { IfSome result (λ k. (k < length thunks.now) × IsFirstFailing (ThunkHolds image.now notes.now) k) }
    ensures none { IfNone result ((k : ℕ) → ThunkHolds image.now notes.now k) }
{
    for (number, x) in thunks.iter().enumerate() {
        if !thunk_holds(image, notes, apart, number, x) {
            return Some(number);
        }
    }
    None
}

/// Whether the rule `static` holds of all thunk cells. `apart` may say only what is so: that no two things of the notes
/// share a byte.
///
/// # Errors
///
/// The first thunk cell of which it doesn't, by its number.
pub fn check_thunks(image: &Image, notes: &Notes, apart: bool) -> Result<(), usize>
    requires image { IsImage image.now }
    requires apart { IsTrue apart → AreAllApart notes.now }
    ensures holds { OnOk result ((k : ℕ) → ThunkHolds image.now notes.now k) }
    ensures fails { IfErr result (λ k. (k < length notes.now.thunk) × IsFirstFailing (ThunkHolds image.now notes.now) k) }
{
    match first_thunk(image, notes, apart, notes.thunk.as_slice()) {
        Some(number) => Err(number),
        None => Ok(()),
    }
}

//! Ranges of places that share no byte: one thing against others, and all of them sorted.

ghost use Rattle.std.specs.Prelude.{◌≡◌, ◌+◌, ◌-◌, ◌*◌, ◌<◌, ◌≤◌, ◌↔◌, ◌^◌, ℕ, IfNone, IfSome, IsTrue, Some, length, min, slice_get};
ghost use Rattle.note_types.specs.declared.notes.FnNote.{FnNote};
ghost use Rattle.note_types.specs.declared.notes.Static.{Static};
ghost use Rattle.note_types.specs.declared.notes.Thunk.{Thunk};
ghost use Rattle.note_types.specs.declared.shape.Shape.{Shape};
ghost use Rattle.pe_image.specs.Images.{IsImage};
ghost use Rattle.rules_image.specs.Images.{AreApart, extent};
ghost use Rattle.rules_image.specs.Checks.{AreAllApart, AreInTurn, AreNumbered, IsRangeOf, things, IsApartFromFunctions, IsApartFromStatic};
ghost use Rattle.rules_image.specs.Checks.{IsApartFromStatics, IsApartFromThunks};

use note_types::{FnNote, Notes, Shape, Static, Thunk};
use pe_image::Image;

// More bytes than there are places.
const BEYOND: u64 = 1 << 40;

// Whether two ranges share no byte, each by its place and how many bytes it has.
fn are_apart(a: u32, n: u64, b: u32, m: u64) -> bool
    requires first { n ≤ 2 ^ 40 }
    requires second { m ≤ 2 ^ 40 }
    ensures { IsTrue result ↔ AreApart a n b m }
{
    u64::from(a) + n <= u64::from(b) || u64::from(b) + m <= u64::from(a)
}

// Natural units and bytes, as a number of bytes where an address has 8 bytes.
fn size_of_pair(n: u32, c: u32) -> u64
    ensures { result ≡ n * 8 + c }
{
    u64::from(n) * 8 + u64::from(c)
}

// How many bytes a static object of a shape has where an address has 8 bytes, or 2^40, if that is less.
fn extent_of(x: &Static, s: &Shape) -> u64
    ensures { result ≡ min (extent x.now s.now) (2 ^ 40) }
{
    x.count.saturating_mul(size_of_pair(s.n, s.c)).min(BEYOND)
}

/// How many bytes a static object of a shape has where an address has 8 bytes, if it lies inside the image.
pub(crate) fn extent_inside(image: &Image, x: &Static, s: &Shape) -> Option<u64>
    requires { IsImage image.now }
    ensures some { IfSome result (λ n. (n ≡ extent x.now s.now) × (x.now.place + n ≤ image.now.size)) }
    ensures none { IfNone result (image.now.size < x.now.place + extent x.now s.now) }
{
    let size = extent_of(x, s);
    if u64::from(x.place) + size <= u64::from(image.size) {
        Some(size)
    } else {
        None
    }
}

// Whether a range shares no byte with a function.
fn is_apart_from_function(place: u32, size: u64, f: &FnNote) -> bool
    requires { size ≤ 2 ^ 40 }
    ensures { IsTrue result ↔ AreApart place size f.now.place (f.now.end - f.now.place) }
{
    are_apart(
        place,
        size,
        f.place,
        u64::from(f.end.saturating_sub(f.place)),
    )
}

/// Whether a range shares no byte with one of these functions.
pub(crate) fn is_apart_from_functions(functions: &[FnNote], place: u32, size: u64) -> bool
    requires { size ≤ 2 ^ 40 }
    ensures { IsTrue result ↔ IsApartFromFunctions functions.now place size }
{
    for (number, f) in functions.iter().enumerate() {
        if !is_apart_from_function(place, size, f) {
            return false;
        }
    }
    true
}

// Whether a range shares no byte with a static object of a shape.
fn is_apart_from_shaped(place: u32, size: u64, y: &Static, t: &Shape) -> bool
    requires { size ≤ 2 ^ 40 }
    ensures { IsTrue result ↔ AreApart place size y.now.place (extent y.now t.now) }
{
    are_apart(place, size, y.place, extent_of(y, t))
}

// Whether a range shares no byte with a static object.
fn is_apart_from_static(notes: &Notes, place: u32, size: u64, y: &Static) -> bool
    requires { size ≤ 2 ^ 40 }
    ensures { IsTrue result ↔ IsApartFromStatic notes.now place size y.now }
{
    match notes.shape.as_slice().get(y.shape as usize) {
        Some(t) => is_apart_from_shaped(place, size, y, t),
        None => true,
    }
}

/// Whether a range shares no byte with one of these static objects from this number on.
pub(crate) fn is_apart_from_statics(
    notes: &Notes,
    statics: &[Static],
    from: usize,
    place: u32,
    size: u64,
) -> bool
    requires { size ≤ 2 ^ 40 }
    ensures { IsTrue result ↔ IsApartFromStatics notes.now statics.now from place size }
{
    for later in from..statics.len() {
        if !is_apart_from_static(notes, place, size, &statics[later]) {
            return false;
        }
    }
    true
}

/// Whether a range shares no byte with one of these thunk cells from this number on.
pub(crate) fn is_apart_from_thunks(thunks: &[Thunk], from: usize, place: u32, size: u64) -> bool
    requires { size ≤ 2 ^ 40 }
    ensures { IsTrue result ↔ IsApartFromThunks thunks.now from place size }
{
    for later in from..thunks.len() {
        if !are_apart(place, size, thunks[later].place, 8) {
            return false;
        }
    }
    true
}

// The place of a static object and how many bytes it has, or 2^40, if that is less.
fn static_range(notes: &Notes, x: &Static) -> (u32, u64)
    ensures place { result.0 ≡ x.now.place }
    ensures size { (s : Shape) → slice_get notes.now.shape x.now.shape ≡ Some s → result.1 ≡ min (extent x.now s) (2 ^ 40) }
    ensures bound { result.1 ≤ 2 ^ 40 }
{
    match notes.shape.as_slice().get(x.shape as usize) {
        Some(s) => (x.place, extent_of(x, s)),
        None => (x.place, 0),
    }
}

// The place of a thing of the notes and how many bytes it has, or 2^40, if that is less.
fn range_of(notes: &Notes, number: usize) -> (u32, u64)
    ensures range { IsRangeOf notes.now number result.0 result.1 }
    ensures bound { result.1 ≤ 2 ^ 40 }
{
    let statics = notes.statics.as_slice();
    if number < statics.len() {
        return static_range(notes, &statics[number]);
    }
    let past = number - statics.len();
    let thunks = notes.thunk.as_slice();
    if past < thunks.len() {
        return (thunks[past].place, 8);
    }
    match notes.function.as_slice().get(past - thunks.len()) {
        Some(f) => (f.place, u64::from(f.end.saturating_sub(f.place))),
        None => (0, 0),
    }
}

// Numbers these places from 0 on.
fn number_all(order: &mut [u32])
    requires { length order.old < 2 ^ 32 }
    ensures { AreNumbered order.new }
{
    for (number, place) in order.iter_mut().enumerate() {
        *place = number as u32;
    }
}

// Whether each thing of these ends before the next one begins.
fn are_in_turn(notes: &Notes, order: &[u32]) -> bool
    ensures { IsTrue result → AreInTurn notes.now order.now }
{
    let mut reach = 0u64;
    for number in order {
        let (place, size) = range_of(notes, *number as usize);
        if u64::from(place) < reach {
            return false;
        }
        reach = u64::from(place) + size;
    }
    true
}

/// Sorts all things of the notes by their places. True says that no two of them share a byte. False comes where two do, or where
/// there are more things than places, which no clause says.
pub fn all_apart(notes: &Notes, order: &mut [u32]) -> bool
    requires { length order.old ≡ things notes.now }
    ensures { IsTrue result → AreAllApart notes.now }
{
    if order.len() >= u32::MAX as usize {
        return false;
    }
    number_all(order);
    order.sort_unstable_by_key(|number| range_of(notes, *number as usize).0);
    are_in_turn(notes, order)
}

//! Texts of 16-bit units, and the zero at their end.

ghost use Rattle.std.specs.Prelude.{◌≡◌, ◌+◌, ◌^◌, ◌<◌, IfOk, if◌then◌else◌, map, nat_le};
ghost use Rattle.std.specs.List.Sorted.{IsStrictlyIncreasing};
ghost use Rattle.departures.specs.Texts.{has_no_zero, hands_text, is_text, is_text_item, is_text_shape, is_unended, is_unit, is_zero_unit};
ghost use Rattle.departures.specs.Texts.{may_name, may_name_any, unended_texts};

use crate::call::argument_count;
use ebc_base::NoMemory;
use note_types::{Cell, Item, Notes, Shape, State, Static, Ty};
use pe_image::{Image, byte_at};
use std::alloc::Global;

// Whether a shape is one unit of 16 bits.
fn is_text_shape(s: &Shape) -> bool
    ensures { result ≡ is_text_shape s.now }
{
    match s.fields.as_slice() {
        [x] => s.n == 0 && s.c == 2 && is_unit(x.cell),
        _ => false,
    }
}

fn is_unit(cell: Cell) -> bool
    ensures { result ≡ is_unit cell }
{
    matches!(cell, Cell::I16)
}

// Whether a static object is units of 16 bits.
fn is_text(notes: &Notes, x: &Static) -> bool
    ensures { result ≡ is_text notes.now x.now }
{
    match notes.shape.as_slice().get(x.shape as usize) {
        Some(s) => is_text_shape(s),
        None => false,
    }
}

fn is_zero_unit(image: &Image, place: u64) -> bool
    requires { place + 1 < 2 ^ 64 }
    ensures { result ≡ is_zero_unit image.now place }
{
    byte_at(image, place) == 0 && byte_at(image, place + 1) == 0
}

// Whether none of so many units from a place on is zero.
fn has_no_zero(image: &Image, place: u32, count: u32) -> bool
    ensures { result ≡ has_no_zero image.now place count }
{
    let mut at = u64::from(place);
    let mut left = count;
    'units: while 0 < left {
        if is_zero_unit(image, at) {
            return false;
        }
        at += 2;
        left -= 1;
    }
    true
}

// The lesser of a count and the number of bytes of the largest image.
fn capped(count: u64) -> u32
    ensures { result ≡ (if nat_le count 4194304 then count else 4194304) }
{
    if count <= 4_194_304 {
        count as u32
    } else {
        4_194_304
    }
}

// Whether a static object is a text without a zero.
fn is_unended(image: &Image, notes: &Notes, x: &Static) -> bool
    ensures { result ≡ is_unended image.now notes.now x.now }
{
    is_text(notes, x) && has_no_zero(image, x.place, capped(x.count))
}

/// The texts of an image that have no zero.
///
/// # Errors
///
/// There is no memory for them.
pub fn unended_texts(alloc: Global, image: &Image, notes: &Notes) -> Result<Vec<Static>, NoMemory>
    ensures { IfOk result (λ texts. texts.items ≡ unended_texts image.now notes.now) }
{
    let texts = notes
        .statics
        .as_slice()
        .iter()
        .filter(|x| is_unended(image, notes, x))
        .copied()
        .collect(alloc)?;
    Ok(texts)
}

// Whether a value may be an address in a text: where its type says that there are as many units as the text has.
fn may_name(t: &Ty, x: &Static) -> bool
    ensures { result ≡ may_name t.now x.now }
{
    match t {
        Ty::Ptr { shape, count, .. } => x.shape == *shape && x.count == *count,
        _ => false,
    }
}

// Whether it may be one in one of these.
fn may_name_any(texts: &[Static], t: &Ty) -> bool
    ensures { result ≡ may_name_any texts.now t.now }
{
    texts.iter().any(|x| may_name(t, x))
}

fn is_text_item(texts: &[Static], item: &Item) -> bool
    ensures { result ≡ is_text_item texts.now item.now }
{
    match item {
        Item::Slot { ty, .. } => may_name_any(texts, ty),
        Item::Locals => false,
    }
}

/// Whether an argument of the native call at a place may be an address in one of these texts.
pub fn hands_text(texts: &[Static], notes: &Notes, place: u32, s: &State) -> bool
    requires { IsStrictlyIncreasing (map (λ x. x.place) notes.now.site) }
    ensures { result ≡ hands_text texts.now notes.now place s.now }
{
    s.items
        .as_slice()
        .iter()
        .take(argument_count(notes, place))
        .any(|item| is_text_item(texts, item))
}

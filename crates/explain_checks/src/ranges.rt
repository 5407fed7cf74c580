//! The things of notes that lie in an image, as ranges of its bytes.

use crate::refused::Refused;
use explain_base::Line;
use note_types::{Notes, Shape};
use pe_image::{Image, byte_at};

/// A thing of notes: the places from `from` up to `to`, and its list and number there.
#[derive(Clone, Copy)]
pub(crate) struct Range {
    pub from: u64,
    pub to: u64,
    pub list: &'static str,
    pub number: usize,
}

/// The bytes of an instance of a shape where a pointer has 8 bytes.
pub(crate) fn size_at_8(s: &Shape) -> u64 {
    u64::from(s.n)
        .saturating_mul(8)
        .saturating_add(u64::from(s.c))
}

/// The range of a static object, by its number.
pub(crate) fn static_range(notes: &Notes, number: usize) -> Option<Range> {
    let x = notes.statics.as_slice().get(number)?;
    let s = notes.shape.as_slice().get(x.shape as usize)?;
    let from = u64::from(x.place);
    Some(Range {
        from,
        to: from.saturating_add(size_at_8(s).saturating_mul(x.count)),
        list: "static",
        number,
    })
}

/// The range of a thunk cell, by its number.
pub(crate) fn thunk_range(notes: &Notes, number: usize) -> Option<Range> {
    let x = notes.thunk.as_slice().get(number)?;
    let from = u64::from(x.place);
    Some(Range {
        from,
        to: from.saturating_add(8),
        list: "thunk",
        number,
    })
}

// The range of a thing, counted through the functions, the static objects and the thunk cells.
fn thing_range(notes: &Notes, number: usize) -> Option<Range> {
    let statics = notes.statics.len();
    if let Some(f) = notes.function.as_slice().get(number) {
        return Some(Range {
            from: u64::from(f.place),
            to: u64::from(f.end),
            list: "function",
            number,
        });
    }
    let number = number.saturating_sub(notes.function.len());
    if number < statics {
        return static_range(notes, number);
    }
    thunk_range(notes, number - statics)
}

// The first thing of the notes that shares a byte with a static object or a thunk cell, but for itself.
fn sharing(notes: &Notes, it: &Range) -> Option<Range> {
    let count = notes
        .function
        .len()
        .saturating_add(notes.statics.len())
        .saturating_add(notes.thunk.len());
    for number in 0..count {
        if let Some(other) = thing_range(notes, number) {
            let is_itself = other.number == it.number && other.list == it.list;
            if !is_itself && other.from < it.to && it.from < other.to {
                return Some(other);
            }
        }
    }
    None
}

/// What is wrong with where a static object or a thunk cell lies, behind its name.
pub(crate) fn misplaced(refused: &Refused, name: Line, it: &Range) -> Option<Line> {
    let size = refused.image.size;
    let mut what = name;
    what.text(" goes up to ").hexadecimal(it.to).text(", and ");
    if it.to > u64::from(size) {
        what.text("the image ends at ").at(size);
        return Some(what);
    }
    let other = sharing(refused.notes, it)?;
    what.text(other.list)
        .text("[")
        .count(other.number)
        .text("] from ")
        .hexadecimal(other.from);
    what.text(" up to ")
        .hexadecimal(other.to)
        .text("; they share bytes");
    what.text(match other.list {
        "function" => "; what isn't code stands in the source behind .data",
        _ => "",
    });
    Some(what)
}

/// The first relocation with a byte from `from` up to `to`.
pub(crate) fn reloc_in(image: &Image, from: u64, to: u64) -> Option<u32> {
    for r in image.relocs.as_slice() {
        if u64::from(*r) < to && from < u64::from(*r) + 8 {
            return Some(*r);
        }
    }
    None
}

/// The first place from `from` up to `to` whose byte isn't 0.
pub(crate) fn nonzero_in(image: &Image, from: u64, to: u64) -> Option<u64> {
    for place in from..to {
        if byte_at(image, place) != 0 {
            return Some(place);
        }
    }
    None
}

//! What is said of the rule `function`.

use crate::refused::Refused;
use explain_base::{Line, Said};
use note_types::FnNote;
use pe_image::Image;

// Whether a section has the bytes from `from` up to `to`.
fn is_inside(image: &Image, from: u32, to: u32) -> bool {
    for s in image.sections.as_slice() {
        if s.place <= from && to.saturating_sub(s.place) as usize <= s.bytes.len() {
            return true;
        }
    }
    false
}

// Writes what is wrong with the two ends of a function alone. It tells the key, where something is.
fn fault_of_ends(f: &FnNote, line: &mut Line) -> Option<&'static str> {
    if f.end <= f.place {
        line.text(" begins at ")
            .at(f.place)
            .text(" and ends at ")
            .at(f.end)
            .text(", which isn't past it");
        return Some("end");
    }
    if f.place % 2 != 0 {
        line.text(" begins at ").at(f.place).text(", which is odd");
        return Some("place");
    }
    if f.end % 2 != 0 {
        line.text(" ends at ").at(f.end).text(", which is odd");
        return Some("end");
    }
    None
}

// Writes what is wrong with where a function lies, which comes after one that ends at `before`, and tells the key.
fn fault_of_place(image: &Image, f: &FnNote, before: u32, line: &mut Line) -> &'static str {
    if !is_inside(image, f.place, f.end) {
        line.text(" goes from ")
            .at(f.place)
            .text(" up to ")
            .at(f.end)
            .text(", outside the bytes of each section:");
        for (number, s) in image.sections.as_slice().iter().enumerate() {
            let to = u64::from(s.place).saturating_add(s.bytes.len() as u64);
            line.text(if number == 0 { " " } else { ", " })
                .at(s.place)
                .text(" up to ")
                .hexadecimal(to);
        }
        return "end";
    }
    if f.place < before {
        line.text(" begins at ")
            .at(f.place)
            .text(", before the function before ends, at ")
            .at(before);
    } else {
        line.text(" is the entry function and begins at ")
            .at(f.place)
            .text(", and the image is entered at ")
            .at(image.entry);
    }
    "place"
}

/// What is said where a function isn't as the image has it.
pub(crate) fn said_of_function(refused: &Refused) -> Option<Said> {
    let mut before = 0u32;
    for (number, f) in refused.notes.function.as_slice().iter().enumerate() {
        if f.place == refused.place {
            let mut what = Line::of(refused.alloc, f.name.as_str());
            let key = match fault_of_ends(f, &mut what) {
                Some(key) => key,
                None => fault_of_place(refused.image, f, before, &mut what),
            };
            return Some(Said::with_key(what, "function", number, key, "the function"));
        }
        before = f.end;
    }
    None
}

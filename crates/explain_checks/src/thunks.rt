//! What is said of the rule `static`, of a thunk cell.

use crate::ranges::{misplaced, reloc_in, thunk_range};
use crate::refused::Refused;
use explain_base::{Line, Said};
use note_types::FnNote;
use pe_image::{Image, byte_at};
use std::alloc::Global;

// What is wrong with the bytes of a thunk cell at a place. The first four say how far from there the function lies.
fn fault_of_bytes(alloc: Global, image: &Image, f: &FnNote, place: u32) -> Line {
    let from = u64::from(place);
    let half = u32::from_le_bytes([
        byte_at(image, from),
        byte_at(image, from + 1),
        byte_at(image, from + 2),
        byte_at(image, from + 3),
    ]);
    let leads = half.wrapping_add(place).wrapping_add(4);
    let mut what = Line::new(alloc);
    if leads != f.place {
        let name = f.name.as_str();
        what.text("the thunk cell leads to ")
            .at(leads)
            .text(", and ")
            .text(name)
            .text(" begins at ")
            .at(f.place);
        what.text("; .thunk ")
            .text(name)
            .text(" in the data makes one that leads there");
    } else if let Some(r) = reloc_in(image, from, from + 8) {
        what.text("a relocation stands at ")
            .at(r)
            .text(", in the thunk cell, where none is wanted");
    } else {
        what.text("the last four bytes of the thunk cell aren't 0");
    }
    what
}

// What is said of a thunk cell, by its number, which enters function `func`.
fn said_of_cell(refused: &Refused, number: usize, func: u32) -> Option<Said> {
    let (alloc, notes) = (refused.alloc, refused.notes);
    let f = notes.function.as_slice().get(func as usize)?;
    let range = thunk_range(notes, number)?;
    let what = match misplaced(refused, Line::of(alloc, "the thunk cell"), &range) {
        Some(what) => what,
        None if f.enter => fault_of_bytes(alloc, refused.image, f, refused.place),
        None => {
            let mut what = Line::of(alloc, "the thunk cell enters ");
            what.text(f.name.as_str())
                .text(", which has no enter = true");
            let note = "the function that it enters";
            return Some(Said::with_key(what, "function", func as usize, "name", note));
        }
    };
    Some(Said::with_key(what, "thunk", number, "place", "the thunk cell"))
}

/// What is said where a thunk cell isn't as the image has it.
pub(crate) fn said_of_thunk(refused: &Refused) -> Option<Said> {
    for (number, x) in refused.notes.thunk.as_slice().iter().enumerate() {
        if x.place == refused.place {
            return said_of_cell(refused, number, x.function);
        }
    }
    None
}

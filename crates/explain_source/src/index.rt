//! What is said of an index that no spelling has.

use crate::form::index_bits;
use crate::part::{Found, Part};
use crate::statement::Statement;
use crate::trial::faulty_operand;
use asm_text::AsmFault;
use ebc_base::NoMemory;
use explain_base::Line;
use std::alloc::Global;

// The index of an operand: from its parenthesis or its `#` on.
fn index_in(operand: Part<'_>) -> Part<'_> {
    match operand.text.iter().position(|b| *b == b'(' || *b == b'#') {
        Some(at) => operand.split(at).1,
        None => operand,
    }
}

// The bits that both numbers of an index of so many bits share, and of what the bits of its units are a multiple.
fn room_of(bits: u8) -> (u8, u8) {
    match bits {
        16 => (12, 2),
        32 => (28, 4),
        _ => (60, 8),
    }
}

// What is said of an index of so many bits.
fn index_line(alloc: Global, found: &str, bits: u8) -> Line {
    if found.starts_with("(-0,-0)") {
        return Line::of(
            alloc,
            "minus zero has no parentheses; it is written by its raw number, as #0x8000 in 16 bits",
        );
    }
    if found.starts_with('#') {
        let mut what = Line::of(alloc, "`");
        what.word(found).text(
            "` has tag 7, which an index of 16 bits has no room for; wanted: a tag from 0 to 6, \
             which is in the bits 12 to 14",
        );
        return what;
    }
    let (room, step) = room_of(bits);
    let mut what = Line::of(alloc, "no index of ");
    what.number(u64::from(bits))
        .text(" bits has room for `")
        .word(found)
        .text("`; its two numbers share ")
        .number(u64::from(room));
    what.text(" bits, of which the natural units have 0, ")
        .number(u64::from(step))
        .text(", or another multiple of ")
        .number(u64::from(step));
    what
}

/// What is said of the index of a statement.
pub(crate) fn index_found(alloc: Global, statement: Statement) -> Result<Found, NoMemory> {
    let word = statement.word.shown();
    let operand = faulty_operand(alloc, word, statement.operands, AsmFault::Index)?;
    let index = index_in(operand.part);
    let bits = index_bits(word, operand.is_second);
    Ok(Found {
        at: index.at,
        what: index_line(alloc, index.shown(), bits),
    })
}

//! What is said of a number.

use crate::form::{number_bits, takes_name};
use crate::part::{Found, Part};
use crate::statement::Statement;
use crate::trial::{faulty_number, faulty_operand};
use asm_text::AsmFault;
use ebc_base::NoMemory;
use explain_base::Line;
use std::alloc::Global;

fn range_of(bits: u8) -> &'static str {
    match bits {
        8 => "-128 to 255",
        16 => "-32768 to 65535",
        32 => "-2147483648 to 4294967295",
        _ => "-9223372036854775808 to 18446744073709551615",
    }
}

// The number beside a register, or else the whole operand.
fn number_in(operand: Part<'_>) -> Part<'_> {
    match operand.text {
        [b'R', b'0'..=b'7', b' ', ..] => operand.split(3).1,
        _ => operand,
    }
}

// What is said of a number of a word.
fn number_line(alloc: Global, word: &str, number: Part) -> Line {
    let found = number.shown();
    let mut what = Line::new(alloc);
    if number.text.contains(&b'(') {
        what.text("the numbers of the index in `").word(found).text(
            "`; wanted: decimal digits without a 0 in front, \
             or 0x and hexadecimal digits, below 18446744073709551616",
        );
        return what;
    }
    what.text("`")
        .word(found)
        .text("` is no number of ")
        .text(word)
        .text("; wanted: ");
    what.text(range_of(number_bits(word))).text(
        ", in decimal digits without a 0 in front, or 0x and hexadecimal digits",
    );
    what.text(if takes_name(word) { "; or a name" } else { "" });
    what
}

// What is said of what stands for a count of zeros.
fn zeros_found(alloc: Global, count: Part) -> Found {
    let mut what = Line::of(alloc, "`");
    what.word(count.shown()).text(
        "` is no count of zeros; wanted: decimal digits without a sign and without a 0 in front, \
         or 0x and hexadecimal digits",
    );
    Found { at: count.at, what }
}

// The first number after a word that is none.
fn faulty<'a>(alloc: Global, word: &str, operands: Part<'a>) -> Result<Part<'a>, NoMemory> {
    if word.starts_with('.') {
        return faulty_number(alloc, word, operands);
    }
    let operand = faulty_operand(alloc, word, operands, AsmFault::Number)?;
    Ok(number_in(operand.part))
}

/// What is said of the number of a statement.
pub(crate) fn number_found(alloc: Global, statement: Statement) -> Result<Found, NoMemory> {
    let word = statement.word.shown();
    if word == ".zero" {
        return Ok(zeros_found(alloc, statement.operands));
    }
    let number = faulty(alloc, word, statement.operands)?;
    Ok(Found {
        at: number.at,
        what: number_line(alloc, word, number),
    })
}

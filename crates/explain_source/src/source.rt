//! What is said of a source.

use crate::index::index_found;
use crate::label::{label_found, twice_found};
use crate::number::number_found;
use crate::operand::operand_found;
use crate::part::Found;
use crate::statement::{odd_byte, odd_comment, statement_in};
use crate::word::word_found;
use asm_text::{AsmFault, next_line};
use ebc_base::NoMemory;
use explain_base::{Line, Said};
use std::alloc::Global;

// The line of a number, from 1.
fn line_of(text: &[u8], number: u64) -> Option<&[u8]> {
    let mut rest = text;
    for _ in 1..number {
        rest = next_line(rest)?.1;
    }
    Some(next_line(rest)?.0)
}

// What is said of a line by itself: all but that a label is there twice.
fn line_found(alloc: Global, line: &[u8], fault: AsmFault) -> Result<Found, NoMemory> {
    if let Some(odd) = odd_byte(alloc, line) {
        return Ok(odd);
    }
    if let Some(odd) = odd_comment(alloc, line) {
        return Ok(odd);
    }
    let statement = statement_in(line);
    let at = statement.word.at;
    match fault {
        AsmFault::Word => Ok(word_found(alloc, statement)),
        AsmFault::Operand => Ok(operand_found(alloc, statement)),
        AsmFault::Number => number_found(alloc, statement),
        AsmFault::Index => index_found(alloc, statement),
        AsmFault::Label | AsmFault::Twice => Ok(label_found(alloc, statement)),
        AsmFault::Far => Ok(Found::new(alloc, at, "the section passes 1048576 bytes here")),
        AsmFault::Section => {
            Ok(Found::new(alloc, at, "an instruction in data; .code goes on with code"))
        }
    }
}

fn found_in(
    alloc: Global,
    text: &[u8],
    fault: AsmFault,
    number: u64,
) -> Result<Option<Found>, NoMemory> {
    let Some(line) = line_of(text, number) else {
        return Ok(None);
    };
    if fault == AsmFault::Twice {
        return Ok(twice_found(alloc, text, line, number));
    }
    Ok(Some(line_found(alloc, line, fault)?))
}

/// What is said of a source that doesn't assemble: the line and the column, both from 1, what was found there and what
/// is wanted. `fault` and `line`, from 1, are those that `assemble` tells of the text. None, if the text has no such
/// line.
///
/// # Errors
///
/// Want of memory alone.
pub fn source_said(
    alloc: Global,
    text: &[u8],
    fault: AsmFault,
    line: u64,
) -> Result<Option<Said>, NoMemory> {
    let Some(found) = found_in(alloc, text, fault, line)? else {
        return Ok(None);
    };
    let mut at = Line::of(alloc, ":");
    at.number(line).text(":").count(found.at.saturating_add(1));
    Ok(Some(Said::at_place(at, found.what, "docs/ASSEMBLY.md, \"Faults\"")))
}

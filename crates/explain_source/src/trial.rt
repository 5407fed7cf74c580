//! Which operand has a fault, tried by reading a line with it alone.

use crate::part::Part;
use asm_text::{AsmFault, line_in};
use ebc_base::NoMemory;
use explain_base::Line;
use std::alloc::Global;

/// An operand with a fault, and whether it is the second one.
#[derive(Clone, Copy)]
pub(crate) struct Operand<'a> {
    pub part: Part<'a>,
    pub is_second: bool,
}

// Whether a word has this fault with an operand, after others that have none.
fn fails(
    alloc: Global,
    word: &str,
    others: &str,
    operand: Part,
    fault: AsmFault,
) -> Result<bool, NoMemory> {
    let mut line = Line::of(alloc, word);
    line.text(" ").text(others).text(operand.shown());
    let line = line.done()?;
    match line_in(line.as_bytes()) {
        Ok(_) => Ok(false),
        Err(found) => Ok(found == fault),
    }
}

/// The operand of a mnemonic that has this fault.
///
/// # Errors
///
/// Want of memory alone.
pub(crate) fn faulty_operand<'a>(
    alloc: Global,
    word: &str,
    operands: Part<'a>,
    fault: AsmFault,
) -> Result<Operand<'a>, NoMemory> {
    let (part, is_second) = match operands.cut() {
        None => (operands, false),
        Some((first, second)) => {
            if fails(alloc, word, "R1, ", second, fault)? {
                (second, true)
            } else {
                (first, false)
            }
        }
    };
    Ok(Operand { part, is_second })
}

/// The first of the numbers of a directive that is none.
///
/// # Errors
///
/// Want of memory alone.
pub(crate) fn faulty_number<'a>(
    alloc: Global,
    word: &str,
    operands: Part<'a>,
) -> Result<Part<'a>, NoMemory> {
    let mut rest = operands;
    for _ in 0..operands.text.len() {
        let Some((number, more)) = rest.cut() else {
            return Ok(rest);
        };
        if fails(alloc, word, "0, ", number, AsmFault::Number)? {
            return Ok(number);
        }
        rest = more;
    }
    Ok(rest)
}

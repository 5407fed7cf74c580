//! What is said of operands that aren't of the statement's form.

use crate::form::operands_of;
use crate::part::{Found, Part};
use crate::statement::Statement;
use explain_base::Line;
use std::alloc::Global;

// What is wrong around a comma that stands between these parts, the first byte of the second, and where.
fn odd_space(before: Part, rest: Part) -> Option<(usize, &'static str)> {
    match rest.text {
        [b',', b' ', b' ', ..] => Some((
            rest.at + 2,
            "a second space after the comma; operands are set apart by a comma and one space",
        )),
        [b',', b' ', ..] => match before.text {
            [front @ .., b' '] => Some((
                before.at + front.len(),
                "a space before the comma; operands are set apart by a comma and one space",
            )),
            _ => None,
        },
        [b',', ..] => Some((
            rest.at + 1,
            "no space after the comma; operands are set apart by a comma and one space",
        )),
        _ => None,
    }
}

// Where operands are set apart otherwise than by a comma and one space.
fn odd_comma(operands: Part) -> Option<(usize, &'static str)> {
    let mut is_in_index = false;
    for at in 0..operands.text.len() {
        let (before, rest) = operands.split(at);
        match rest.text.first() {
            Some(b'(') => is_in_index = true,
            Some(b')') => is_in_index = false,
            _ => {}
        }
        if !is_in_index && let Some(odd) = odd_space(before, rest) {
            return Some(odd);
        }
    }
    None
}

// Whether what stands after a parenthesis has one sign twice.
fn has_one_sign(index: &[u8]) -> bool {
    let sign = index.first();
    if sign != Some(&b'+') && sign != Some(&b'-') {
        return false;
    }
    match index.iter().position(|b| *b == b',') {
        Some(comma) => index.get(comma + 1) == sign,
        None => false,
    }
}

// An index whose signs differ, or that has none.
fn odd_index(operands: Part) -> Option<usize> {
    for at in 0..operands.text.len() {
        let rest = operands.split(at).1;
        if let [b'(', index @ ..] = rest.text
            && !has_one_sign(index)
        {
            return Some(rest.at);
        }
    }
    None
}

// Whether a text begins as a register does, and is none of R0 to R7.
fn is_odd_register(text: &[u8]) -> bool {
    match text {
        [b'R', b'8'..=b'9', ..] | [b'r', b'0'..=b'9', ..] => true,
        [b'R', b'0'..=b'7', b'0'..=b'9', ..] => true,
        _ => false,
    }
}

// A register that there is none.
fn odd_register(operands: Part) -> Option<usize> {
    for at in 0..operands.text.len() {
        let (before, rest) = operands.split(at);
        if matches!(before.text, [] | [.., b' ' | b'@']) && is_odd_register(rest.text) {
            return Some(rest.at);
        }
    }
    None
}

// What is wrong with operands of whatever word, and where.
fn odd_part(operands: Part) -> Option<(usize, &'static str)> {
    if let [b' ', ..] = operands.text {
        let what = "a second space; exactly one stands after a mnemonic or directive";
        return Some((operands.at, what));
    }
    if let Some(odd) = odd_comma(operands) {
        return Some(odd);
    }
    if let Some(at) = odd_index(operands) {
        let what = "an index has one sign twice, as (+1,+16) or (-1,-16), and no space";
        return Some((at, what));
    }
    let at = odd_register(operands)?;
    Some((at, "no such register; they are R0 to R7"))
}

// What is said of operands that the word doesn't have.
fn operands_line(alloc: Global, word: &str, operands: &str) -> Line {
    let mut what = Line::new(alloc);
    if operands.is_empty() {
        what.text("no operands after ").text(word);
    } else if operands.starts_with("R0 ") {
        what.text("`")
            .word(operands)
            .text("`: R0 has no number beside it here");
    } else {
        what.text("`")
            .word(operands)
            .text("` are no operands of ")
            .text(word);
    }
    what.text("; wanted: ").text(operands_of(word));
    what
}

/// What is said of the operands of a statement.
pub(crate) fn operand_found(alloc: Global, statement: Statement) -> Found {
    let operands = statement.operands;
    if let Some((at, what)) = odd_part(operands) {
        return Found::new(alloc, at, what);
    }
    Found {
        at: operands.at,
        what: operands_line(alloc, statement.word.shown(), operands.shown()),
    }
}

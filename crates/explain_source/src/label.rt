//! What is said of labels and names.

use crate::part::{Found, Part};
use crate::statement::Statement;
use asm_text::{label_of, next_line};
use ebc_base::is_name;
use explain_base::Line;
use std::alloc::Global;

// What is said of what stands before a colon and is no name.
fn label_line(alloc: Global, label: &str) -> Line {
    if label.is_empty() {
        return Line::of(
            alloc,
            "no label before the colon; a name is 1 to 63 letters, digits, _ and ., with no digit in front",
        );
    }
    let mut what = Line::of(alloc, "`");
    what.word(label).text(
        "` is no label; a name is 1 to 63 letters, digits, _ and ., with no digit in front, \
         and no space before its colon",
    );
    what
}

// What is said of the name after a directive.
fn name_line(alloc: Global, name: &str) -> Line {
    let mut what = Line::new(alloc);
    if is_name(name.as_bytes()) {
        what.text("no line has the label ").text(name);
    } else {
        what.text("`").word(name).text(
            "` is no name; a name is 1 to 63 letters, digits, _ and ., with no digit in front",
        );
    }
    what
}

/// What is said of a label that is no name, of what stands for a name and is none, and of a `.global` name that no line
/// has as its label.
pub(crate) fn label_found(alloc: Global, statement: Statement) -> Found {
    if let Some(label) = statement.label
        && !is_name(label.text)
    {
        return Found {
            at: label.at,
            what: label_line(alloc, label.shown()),
        };
    }
    Found {
        at: statement.operands.at,
        what: name_line(alloc, statement.operands.shown()),
    }
}

// The first of so many lines, from 1, that has a label.
fn first_with(text: &[u8], label: &str, lines: u64) -> Option<u64> {
    let mut rest = text;
    for number in 1..lines {
        let (line, more) = next_line(rest)?;
        if let Some(other) = label_of(line)
            && other == label
        {
            return Some(number);
        }
        rest = more;
    }
    None
}

/// What is said of a label that an earlier line has.
pub(crate) fn twice_found(alloc: Global, text: &[u8], line: &[u8], number: u64) -> Option<Found> {
    let label = label_of(line)?;
    let first = first_with(text, label, number)?;
    let mut what = Line::of(alloc, "the label ");
    what.text(label)
        .text(" again, which line ")
        .number(first)
        .text(" has");
    let at = Part::of_line(line).past_spaces().at;
    Some(Found { at, what })
}

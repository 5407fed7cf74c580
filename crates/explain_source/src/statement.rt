//! The parts of a line that a fault may be in.

use crate::part::{Found, Part};
use explain_base::Line;
use std::alloc::Global;

/// The statement of a line, by its parts.
#[derive(Clone, Copy)]
pub(crate) struct Statement<'a> {
    /// What stands before the first colon, if there is one.
    pub label: Option<Part<'a>>,
    /// The mnemonic or the directive.
    pub word: Part<'a>,
    /// What stands after the space that follows the word.
    pub operands: Part<'a>,
}

// A line without its comment.
fn without_comment(line: &[u8]) -> Part<'_> {
    let line = Part::of_line(line);
    match line.until(b';') {
        Some((text, _)) => text,
        None => line,
    }
}

/// The parts of a line.
pub(crate) fn statement_in(line: &[u8]) -> Statement<'_> {
    let text = without_comment(line);
    let (label, rest) = match text.until(b':') {
        Some((label, rest)) => (Some(label.past_spaces()), rest),
        None => (None, text),
    };
    let statement = rest.trimmed();
    let (word, operands) = match statement.until(b' ') {
        Some(parts) => parts,
        None => (statement, statement.split(statement.text.len()).1),
    };
    Statement {
        label,
        word,
        operands,
    }
}

// What is said where something is to begin a comment as in other languages, between these parts of a line.
fn comment_text(before: &[u8], rest: &[u8]) -> Option<&'static str> {
    let hash = "`#` begins no comment; a comment begins with `;`";
    match (before, rest) {
        ([] | [.., b' '], [b'/', b'/', ..]) => {
            Some("`//` begins no comment; a comment begins with `;`")
        }
        ([] | [.., b' '], [b'#'] | [b'#', b' ', ..]) => Some(hash),
        ([], [b'#', ..]) => Some(hash),
        ([.., b' ', b' '], [b'#', b'0'..=b'9', ..]) => None,
        ([.., b' ', b' '], [b'#', ..]) => Some(hash),
        _ => None,
    }
}

/// The first `#` or `//` that is to begin a comment. No line that is read has one.
pub(crate) fn odd_comment(alloc: Global, line: &[u8]) -> Option<Found> {
    let line = without_comment(line);
    for at in 0..line.text.len() {
        let (before, rest) = line.split(at);
        if let Some(what) = comment_text(before.text, rest.text) {
            return Some(Found::new(alloc, rest.at, what));
        }
    }
    None
}

/// The first byte that no line may have: past ASCII; or before the comment a tab or a carriage return.
pub(crate) fn odd_byte(alloc: Global, line: &[u8]) -> Option<Found> {
    if let Some(at) = line.iter().position(|b| *b >= 128) {
        let mut what = Line::of(alloc, "a byte past ASCII, 0x");
        what.byte(line[at])
            .text("; a source is ASCII, in comments too");
        return Some(Found { at, what });
    }
    let text = without_comment(line).text;
    let at = text.iter().position(|b| *b == b'\t' || *b == b'\r')?;
    let what = if text[at] == b'\t' {
        "a tab; only spaces may stand here"
    } else if at + 1 == text.len() {
        "a carriage return at the end of the line; a line ends with a line feed alone"
    } else {
        "a carriage return; a line ends with a line feed alone"
    };
    Some(Found::new(alloc, at, what))
}

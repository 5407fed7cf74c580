//! Where in a text a label stands in quotes.

use ebc_base::NoMemory;
use std::alloc::Global;
use toml_spans::key_span;

/// A line and a column, in bytes, each counted from 1.
#[derive(Clone, Copy)]
pub(crate) struct Mark {
    pub line: usize,
    pub column: usize,
}

// Where bytes stand first in a text, from an offset on.
fn offset_of(text: &[u8], sought: &[u8], from: usize) -> Option<usize> {
    for at in from..text.len() {
        if text[at..].starts_with(sought) {
            return Some(at);
        }
    }
    None
}

// Where the header of the table stands that a path leads to, where the text has one.
fn table_offset(alloc: Global, text: &[u8], path: &str) -> Result<Option<usize>, NoMemory> {
    let (table, _) = path.split_once('.').unwrap_or((path, ""));
    let Ok(toml) = std::str::from_utf8(text) else {
        return Ok(None);
    };
    if !table.ends_with(']') {
        return Ok(None);
    }
    let Some(span) = key_span(alloc, toml, table)? else {
        return Ok(None);
    };
    let offset = span.key;
    match text.get(offset..) {
        Some([b'[', b'[', ..]) => Ok(Some(offset)),
        _ => Ok(None),
    }
}

// The line and the column of an offset.
fn mark_at(text: &[u8], offset: usize) -> Mark {
    let mut line = 1usize;
    let mut column = 1usize;
    for byte in text.iter().take(offset) {
        if *byte == b'\n' {
            line = line.wrapping_add(1);
            column = 1;
        } else {
            column = column.wrapping_add(1);
        }
    }
    Mark { line, column }
}

/// Where a fault stands: where a label first stands in quotes, behind the header of the table that the path leads to where the text
/// has one; without a label, that header.
///
/// # Errors
///
/// There is no memory.
pub(crate) fn mark_of(
    alloc: Global,
    text: &[u8],
    path: &str,
    label: Option<&str>,
) -> Result<Option<Mark>, NoMemory> {
    let header = table_offset(alloc, text, path)?;
    let Some(label) = label else {
        return Ok(header.map(|offset| mark_at(text, offset)));
    };
    let quoted = format!(in alloc; "\"{label}\"")?;
    let from = header.unwrap_or(0);
    let offset = offset_of(text, quoted.as_bytes(), from);
    Ok(offset.map(|offset| mark_at(text, offset)))
}

//! The lines of the keys of notes that are concerned by a refusal.

use crate::answer::Answer;
use crate::refusals::Read;
use ebc_base::{Name, NoMemory};
use explain_base::{Line, Said};
use note_filling::{Filled, items_at, original_path};
use std::alloc::Global;
use toml::Value;
use toml_spans::{KeySpan, key_span, position_of};

// Begins a line of notes at an offset of their text: the file, the line and the column.
fn note_line(answer: &Answer, read: &Read, offset: usize) -> Line {
    let at = position_of(read.text, offset);
    let mut line = Line::of(answer.alloc, answer.notes_file());
    line.text(":")
        .number(at.line)
        .text(":")
        .number(at.column)
        .text(": note: ");
    line
}

// The line of a key of the notes, which stands in their text: its place, what is said of it, and its value.
fn key_line(answer: &Answer, read: &Read, span: &KeySpan, said: &Said) -> Line {
    let mut line = note_line(answer, read, span.key);
    line.text(said.note).text(", ").line(&said.key);
    let says = match read.text.get(span.from..span.to) {
        Some(part) => std::str::from_utf8(part).unwrap_or("").trim_end(),
        None => "",
    };
    if !says.is_empty() && !says.starts_with("[[") {
        line.text(" = ").value(says);
    }
    line
}

// The value at a path of a key in a filled text.
fn found_at<'f>(filled: &'f Filled, path: &str) -> Option<&'f Value> {
    let (list, rest) = path.split_once('[')?;
    let (digits, key) = rest.split_once("].")?;
    let number = digits.parse::<usize>().ok()?;
    items_at(&filled.table, list)
        .get(number)?
        .as_table()?
        .get(key)
}

// Writes a number, or a text in quotes.
fn write_item(value: &Value, line: &mut Line) {
    match value {
        Value::Integer(number) => {
            line.signed(i128::from(*number));
        }
        Value::String(text) => {
            line.text("\"").text(text.as_str()).text("\"");
        }
        _ => {}
    }
}

// Writes a number or a text, or a list of such.
fn write_value(value: &Value, line: &mut Line) {
    let Value::Array(items) = value else {
        write_item(value, line);
        return;
    };
    line.text("[");
    for (number, item) in items.iter().enumerate() {
        line.text(if number == 0 { "" } else { ", " });
        write_item(item, line);
    }
    line.text("]");
}

// Writes what was found for the key of a path that a text leaves out.
fn found_line(alloc: Global, filled: &Filled, path: &str) -> Line {
    let mut line = Line::new(alloc);
    if let Some(value) = found_at(filled, path) {
        line.text("; found: ");
        write_value(value, &mut line);
    }
    line
}

// Adds the line of the table whose key a text leaves out.
fn add_left_out(
    answer: &Answer,
    read: &Read,
    toml: &str,
    found: &Line,
    said: &mut Said,
) -> Result<(), NoMemory> {
    let Some((table, _)) = said.key.as_str().rsplit_once('.') else {
        return Ok(());
    };
    if let Some(span) = key_span(answer.alloc, toml, table)? {
        let mut line = note_line(answer, read, span.key);
        line.text(said.note).text(", ").line(&said.key);
        line.text(", is left out").line(found);
        said.add_note(line);
    }
    Ok(())
}

// Adds the line of the key that is concerned, if it stands in the text, and tells whether it does.
fn add_line(answer: &Answer, read: &Read, toml: &str, said: &mut Said) -> Result<bool, NoMemory> {
    match key_span(answer.alloc, toml, said.key.as_str())? {
        Some(span) => {
            let line = key_line(answer, read, &span, said);
            said.add_note(line);
            Ok(true)
        }
        None => Ok(false),
    }
}

// Adds the line of a key of complete notes, by the path that it has in the text with labels that they were filled from.
fn add_filled(
    answer: &Answer,
    read: &Read,
    filled: &Filled,
    toml: &str,
    said: &mut Said,
) -> Result<(), NoMemory> {
    let alloc = answer.alloc;
    let found = found_line(alloc, filled, said.key.as_str());
    let path = original_path(
        alloc,
        filled.functions.as_slice(),
        filled.points.as_slice(),
        filled.sites.as_slice(),
        Name::new(String::from_str(alloc, said.key.as_str())?),
    )?;
    said.key = Line::of(alloc, path.as_str());
    if !add_line(answer, read, toml, said)? {
        add_left_out(answer, read, toml, &found, said)?;
    }
    Ok(())
}

/// Adds the line of the key of the notes that is concerned.
pub(crate) fn add_key(answer: &Answer, read: &Read, said: &mut Said) -> Result<(), NoMemory> {
    let Ok(toml) = std::str::from_utf8(read.text) else {
        return Ok(());
    };
    match read.filled {
        Some(filled) => add_filled(answer, read, filled, toml, said),
        None => {
            add_line(answer, read, toml, said)?;
            Ok(())
        }
    }
}

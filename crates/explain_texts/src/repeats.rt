//! What is said of what stands there again.

use crate::faulty::{Faulty, Found, table_and_key, value_at, write_position};
use crate::forms::Form;
use explain_base::{Line, Said};
use toml::Value;

// What may stand only once in a text of a list: a file, the two words of a cell, or else the first word.
fn only_once(form: Form, text: &str) -> &str {
    let mut left = match form {
        Form::File => return text,
        Form::CellValue => 2usize,
        _ => 1,
    };
    for (at, byte) in text.as_bytes().iter().enumerate() {
        if *byte == b' ' {
            left = left.saturating_sub(1);
        }
        if left == 0 {
            return text.get(0..at).unwrap_or(text);
        }
    }
    text
}

// The first item that repeats one before it, and that one.
fn repeat(at: &Found) -> Option<(usize, usize)> {
    for number in 0..at.count() {
        let again = only_once(at.form.form, at.item(number)?);
        for other in 0..number {
            if only_once(at.form.form, at.item(other)?) == again {
                return Some((number, other));
            }
        }
    }
    None
}

// The number of the first table of a list that has a value at a key.
fn first_with(f: &Faulty, list: &str, key: &str, value: &Value) -> Option<usize> {
    let tables = value_at(f.table, list)?.as_array()?;
    for (number, table) in tables.iter().enumerate() {
        let is_same = match (table.get(key), value) {
            (Some(Value::Integer(x)), Value::Integer(y)) => x == y,
            (Some(Value::String(x)), Value::String(y)) => x.as_str() == y.as_str(),
            _ => false,
        };
        if is_same {
            return Some(number);
        }
    }
    None
}

// Writes the line of the table that has the value of a key first, if there is one.
fn write_earlier(f: &Faulty, at: &Found, note: &mut Line) {
    let (table, key) = table_and_key(at.path);
    let (list, _) = table.rsplit_once('[').unwrap_or(("", ""));
    let Some(number) = first_with(f, list, key, at.value) else {
        return;
    };
    let mut path = Line::of(f.alloc, list);
    path.text("[").count(number).text("].").text(key);
    if let Some(span) = f.span(path.as_str(), note) {
        note.text(f.file);
        write_position(f.text.as_bytes(), span.key, note);
        note.text(": note: ").line(&path);
    }
}

// What is said of an item that repeats another.
fn item_said(f: &Faulty, at: &Found, number: usize, other: usize) -> Said {
    let mut what = Line::new(f.alloc);
    what.word(only_once(at.form.form, at.item(number).unwrap_or("")));
    what.text(" again, in item ")
        .count(number)
        .text(" of ")
        .text(at.path);
    what.text("; item ").count(other).text(" has it");
    let offset = match at.span.items.get(number) {
        Some((from, _)) => *from,
        None => at.span.from,
    };
    f.said(offset, what)
}

/// What is said of what stands there again: an item of a list, or a value that an earlier table has.
pub(crate) fn twice_said(f: &Faulty, at: &Found) -> Said {
    if let Some((number, other)) = repeat(at) {
        return item_said(f, at, number, other);
    }
    let mut what = Line::new(f.alloc);
    at.write_item(f, 0, &mut what);
    what.text(", which an earlier table has");
    let mut note = Line::new(f.alloc);
    write_earlier(f, at, &mut note);
    let mut said = f.said(at.span.key, what);
    said.add_note(note);
    said
}

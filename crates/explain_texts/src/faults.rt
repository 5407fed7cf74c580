//! What is said of the first fault of a text in TOML.

use crate::faulty::{Faulty, TomlText, said_at, table_and_key, value_at};
use crate::fields::write_separator;
use crate::forms::{Form, KeyForm};
use crate::names::name_said;
use crate::ranges::range_said;
use crate::repeats::twice_said;
use crate::torn::first_fault;
use ebc_base::NoMemory;
use explain_base::{Line, Said};
use note_types::TomlFault;
use std::alloc::Global;
use toml::Value;

/// What is said of a text in TOML, by the name of its file and what it is, at its first fault.
///
/// # Errors
///
/// Want of memory alone.
pub fn toml_said(
    alloc: Global,
    file: &str,
    kind: TomlText,
    bytes: &[u8],
    fault: &TomlFault,
) -> Result<Said, NoMemory> {
    if let TomlFault::NotToml = fault {
        return Ok(torn_said(alloc, kind, bytes));
    }
    let Ok(table) = toml::table_from_slice(alloc, bytes) else {
        return Err(NoMemory);
    };
    let text = std::str::from_utf8(bytes).unwrap_or("");
    let f = Faulty {
        alloc,
        file,
        kind,
        text,
        table: &table,
    };
    let said = fault_said(&f, fault);
    if said.is_short() {
        return Err(NoMemory);
    }
    Ok(said)
}

// What is said beside the parser's words of a header that stands there again.
fn header_text(bytes: &[u8], at: usize, words: &str) -> &'static str {
    match bytes.get(at..) {
        Some([b'[', ..]) if words == "duplicate key" =>
            "; the tables of a list stand each under a header in double brackets, as [[static]], and one in single brackets stands once",
        _ => "",
    }
}

// What is said of a text that is no TOML.
fn torn_said(alloc: Global, kind: TomlText, bytes: &[u8]) -> Said {
    let mut what = Line::of(alloc, "this is no TOML");
    let mut at = 0;
    if let Some((offset, error)) = first_fault(alloc, bytes) {
        what.text(": ")
            .text(error.message())
            .text(header_text(bytes, offset, error.message()));
        at = offset;
    }
    said_at(bytes, at, what, kind.pages().0)
}

fn fault_said(f: &Faulty, fault: &TomlFault) -> Said {
    let mut what = Line::new(f.alloc);
    let (word, path) = match fault {
        TomlFault::NotToml => return f.plain_said(what, "nottoml", ""),
        TomlFault::Missing(path) => return missing_said(f, path.as_str()),
        TomlFault::Kind(path) => return kind_said(f, path.as_str()),
        TomlFault::Name(path) => ("name", path.as_str()),
        TomlFault::Range(path) => ("range", path.as_str()),
        TomlFault::Twice(path) => ("twice", path.as_str()),
    };
    let Some(at) = f.find(path, &mut what) else {
        return unfound_said(f, what, word, path);
    };
    match fault {
        TomlFault::Name(_) => name_said(f, &at),
        TomlFault::Twice(_) => twice_said(f, &at),
        _ => range_said(f, &at),
    }
}

// What is said of a key that isn't found: that it is lacking, if it is one that may stand there.
fn unfound_said(f: &Faulty, what: Line, word: &str, path: &str) -> Said {
    if f.kind.form_at(path).is_some() && value_at(f.table, path).is_none() {
        missing_said(f, path)
    } else {
        f.plain_said(what, word, path)
    }
}

// Writes the keys of the table at a path that don't belong there, with commas.
fn write_unknown(f: &Faulty, path: &str, line: &mut Line) {
    let found = match value_at(f.table, path) {
        _ if path.is_empty() => Some(f.table),
        Some(value) => value.as_table(),
        None => None,
    };
    let Some(table) = found else {
        return;
    };
    let mut count = 0usize;
    for (key, _) in table.iter() {
        let mut inner = Line::of(f.alloc, path);
        inner
            .text(if path.is_empty() { "" } else { "." })
            .text(key.as_str());
        if f.kind.form_at(inner.as_str()).is_none() {
            if write_separator(count, line.kept(!inner.is_short())) {
                line.word(key.as_str());
            }
            count = count.saturating_add(1);
        }
    }
}

// What is said of notes without the key that notes with labels lack; empty of another text or key.
fn completed_text(kind: TomlText, path: &str) -> &'static str {
    match kind {
        TomlText::Notes if path == "version" => {
            "if these are notes with labels: the program ebc_notes completes them"
        }
        _ => "",
    }
}

fn missing_said(f: &Faulty, path: &str) -> Said {
    let (table, key) = table_and_key(path);
    let owner = if table.is_empty() { "the text" } else { table };
    let mut what = Line::of(f.alloc, owner);
    what.text(" has no key ").text(key).text("; wanted: ");
    if let Some(form) = f.kind.form_at(path) {
        what.text(form.wanted);
    }
    let offset = match f.span(table, &mut what) {
        Some(span) => span.key,
        None => 0,
    };
    let (mut keys, mut more) = (Line::new(f.alloc), Line::new(f.alloc));
    write_unknown(f, table, &mut keys);
    more.list("keys that don't belong there: ", &keys, "");
    let mut said = f.said(offset, what);
    said.add(more);
    said.add(Line::of(f.alloc, completed_text(f.kind, path)));
    said
}

fn kind_word(value: &Value) -> &'static str {
    match value {
        Value::String(_) => "a text",
        Value::Integer(_) => "a number",
        Value::Float(_) => "a number with a fraction",
        Value::Boolean(_) => "true or false",
        Value::Datetime(_) => "a date",
        Value::Array(_) => "a list",
        Value::Table(_) => "a table",
    }
}

// The first item of a list of no tables that is of another kind than its items are to be.
fn odd_item(form: Form, value: &Value) -> Option<(usize, &Value)> {
    if let Form::Tables = form {
        return None;
    }
    for (number, item) in value.as_array()?.iter().enumerate() {
        match (item, form) {
            (Value::String(_), _) | (Value::Integer(_), Form::Pair { .. }) => {}
            _ => return Some((number, item)),
        }
    }
    None
}

// Writes of what kind the value at a path is, and what is wanted there.
fn write_kind(f: &Faulty, path: &str, form: KeyForm, line: &mut Line) {
    let value = value_at(f.table, path);
    let (is_table, found) = match value {
        Some(value) => (path.ends_with(']'), kind_word(value)),
        None => (false, "of another kind"),
    };
    let odd = match value {
        Some(value) if !is_table => odd_item(form.form, value),
        _ => None,
    };
    match odd {
        Some((number, item)) => {
            line.text("item ")
                .count(number)
                .text(" of ")
                .word(path)
                .text(" is ")
                .text(kind_word(item));
        }
        None => {
            line.word(path).text(" is ").text(found);
        }
    }
    line.text("; wanted: ")
        .text(if is_table { "a table" } else { form.wanted });
    if let (Form::Tables, Some(Value::Table(_))) = (form.form, value) {
        line.text(", each under [[").word(path).text("]]");
    }
}

fn kind_said(f: &Faulty, path: &str) -> Said {
    let mut what = Line::new(f.alloc);
    let Some(span) = f.span(path, &mut what) else {
        return f.plain_said(what, "kind", path);
    };
    let version = match f.table.get("version") {
        Some(version) => version.as_integer(),
        None => None,
    };
    match f.kind.form_at(path) {
        None => {
            what.word(path).text(" is no key of this table");
        }
        Some(_) if path == "notify" && version == Some(1) => {
            what.text(path)
                .text(" is no key with version 1; wanted: version 2");
        }
        Some(form) => write_kind(f, path, form, &mut what),
    }
    f.said(span.key, what)
}

//! What is said of the first fault of notes with labels.

use crate::behind::Behind;
use crate::filled::{filled_text, first_with_place};
use crate::labels::label_said;
use crate::text::LabelledText;
use ebc_base::NoMemory;
use explain_base::{Line, Said};
use explain_texts::{TomlText, toml_said};
use note_types::TomlFault;
use toml_spans::{key_span, position_of};

// The path of a fault's key; empty of a text that is no TOML.
fn path_of(fault: &TomlFault) -> &str {
    match fault {
        TomlFault::NotToml => "",
        TomlFault::Missing(path)
        | TomlFault::Kind(path)
        | TomlFault::Name(path)
        | TomlFault::Range(path)
        | TomlFault::Twice(path) => path.as_str(),
    }
}

// What is said of a text as of notes.
fn notes_said(t: &LabelledText, bytes: &[u8], fault: &TomlFault) -> Result<Said, NoMemory> {
    toml_said(t.alloc, t.file, TomlText::Notes, bytes, fault)
}

// Whether a path is that of a key at which a label may stand.
fn takes_label(path: &str) -> bool {
    match path.split_once('[') {
        Some(("function", rest)) => rest.ends_with("].place") || rest.ends_with("].end"),
        Some(("static" | "thunk" | "point" | "site", rest)) => rest.ends_with("].place"),
        _ => false,
    }
}

// What is said of a key that is missing, or of another kind than it is to be.
fn form_said(t: &LabelledText, path: &str, fault: &TomlFault) -> Result<Said, NoMemory> {
    let mut said = notes_said(t, t.bytes, fault)?;
    if takes_label(path) {
        said.what.text(", or a label");
    }
    Ok(said)
}

// What is said of a text that is no TOML, or whose values nest too deep.
fn not_toml_said(t: &LabelledText, fault: &TomlFault) -> Result<Said, NoMemory> {
    let said = notes_said(t, t.bytes, fault)?;
    if said.at.is_empty() {
        let what = Line::of(
            t.alloc,
            "values nest more than 80 deep, or a date is none; wanted: the tables of notes",
        );
        return Ok(Said::with_page(what, "docs/LABELS.md, \"What is answered\""));
    }
    Ok(said)
}

// What is said of a key that is left out, by what is found for it; none where its sentence is that of the filled text.
fn left_out(t: &LabelledText, path: &str) -> Option<Said> {
    let why = if path.ends_with(".count") {
        " is left out, and not one instance fits between the label and the next one, or the label is one of the code"
    } else if path.ends_with(".need") {
        " is left out, and what the code takes is too much: nine frames take more than 1048576 bytes where a pointer has 8"
    } else {
        return None;
    };
    let mut what = Line::of(t.alloc, path);
    what.text(why);
    Some(Said::with_page(what, "docs/LABELS.md, \"What may be left out\""))
}

// Writes `:LINE:COLUMN` of where the value at a path begins, if it is there.
fn write_place(t: &LabelledText, path: &str, line: &mut Line) -> Result<(), NoMemory> {
    let text = std::str::from_utf8(t.bytes).unwrap_or("");
    if let Some(span) = key_span(t.alloc, text, path)? {
        let at = position_of(t.bytes, span.from);
        line.text(":").number(at.line).text(":").number(at.column);
    }
    Ok(())
}

// What is said of a value that is past a limit, not of its form, or not as a condition over several keys wants it. Where the sentence of
// the text itself isn't that of the text with places for its labels, it is the other one.
fn range_said(t: &LabelledText, path: &str, fault: &TomlFault) -> Result<Said, NoMemory> {
    let own = notes_said(t, t.bytes, fault)?;
    let mut place = Line::new(t.alloc);
    write_place(t, path, &mut place)?;
    if place.is_empty() {
        if let Some(said) = left_out(t, path) {
            return Ok(said);
        }
    }
    let Some(filled) = filled_text(t)? else {
        return Ok(own);
    };
    let mut said = notes_said(t, filled.as_bytes(), fault)?;
    if said.what.as_str() == own.what.as_str() {
        return Ok(own);
    }
    said.at = place;
    Ok(said)
}

// What is said of a place that an earlier table of its list has, too, with the line of that table.
fn place_said(t: &LabelledText, path: &str) -> Result<Said, NoMemory> {
    let mut earlier = Line::new(t.alloc);
    if let (Some(number), Some((list, _))) = (first_with_place(t, path)?, path.split_once('[')) {
        earlier.text(list).text("[").count(number).text("]");
    }
    let mut what = Line::of(t.alloc, path);
    what.list(
        " is the place of ",
        &earlier,
        " is the place of another table of that list",
    )
    .text(", too");
    let mut said = Said::with_page(what, "docs/NOTES.md, \"The conditions\"");
    write_place(t, path, &mut said.at)?;
    let mut at = Line::new(t.alloc);
    write_place(t, earlier.as_str(), &mut at)?;
    if !at.is_empty() {
        let mut note = Line::of(t.alloc, t.file);
        note.line(&at).text(": note: ").line(&earlier);
        said.add_note(note);
    }
    Ok(said)
}

// What is said of a fault that is no label's.
fn fault_said(t: &LabelledText, fault: &TomlFault) -> Result<Said, NoMemory> {
    match fault {
        TomlFault::NotToml => not_toml_said(t, fault),
        TomlFault::Missing(path) | TomlFault::Kind(path) => form_said(t, path.as_str(), fault),
        TomlFault::Range(path) => range_said(t, path.as_str(), fault),
        TomlFault::Twice(path) if path.as_str().ends_with(".place") => place_said(t, path.as_str()),
        _ => notes_said(t, t.bytes, fault),
    }
}

/// What is said of the fault of notes with labels. `behind` is what the answer prints behind the fault's path.
///
/// # Errors
///
/// Want of memory alone.
pub fn labelled_said(t: &LabelledText, fault: &TomlFault, behind: &str) -> Result<Said, NoMemory> {
    let behind = Behind::of(behind);
    let mut said = match behind.label {
        Some(label) => label_said(t, fault, path_of(fault), label)?,
        None => fault_said(t, fault)?,
    };
    if said.at.is_empty() && !behind.mark.is_empty() {
        said.at.text(":").text(behind.mark);
    }
    Ok(said)
}

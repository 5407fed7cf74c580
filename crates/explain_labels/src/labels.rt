//! What is said of a fault of a label.

use crate::near::{add_files, add_known, add_namesakes};
use crate::text::LabelledText;
use ebc_base::NoMemory;
use explain_base::{Line, Said};
use label_places::{Reference, reference_of};
use note_types::TomlFault;
use toml_spans::key_span;

const PAGE: &str = "docs/LABELS.md, \"Faults of labels\"";

// Whether the plan names an object.
fn names_object(t: &LabelledText, sought: &str) -> bool {
    t.plan
        .objects
        .as_slice()
        .iter()
        .any(|name| name.as_str() == sought)
}

// Adds why no label is meant, and gives what is known of those that there are.
fn write_unknown(t: &LabelledText, reference: &Reference, what: &mut Line) -> Line {
    let mut more = Line::new(t.alloc);
    match reference.object {
        Some(object) if !names_object(t, object) => {
            what.text(", and the plan names no object ").word(object);
            more.text("it names: ");
            add_files(t.plan.objects.as_slice(), &mut more);
            return more;
        }
        Some(object) => what.text(", and ").text(object).text(" has no label "),
        None => what.text(", and no object has a label "),
    };
    what.text(reference.name);
    add_known(t.labels.labels.as_slice(), reference.name, &mut more);
    more
}

// Adds which labels have the name that is meant.
fn write_several(t: &LabelledText, reference: &Reference, what: &mut Line) -> Line {
    what.text(", which several objects have; wanted: OBJECT:LABEL");
    let mut more = Line::of(t.alloc, "they are: ");
    add_namesakes(
        t.labels.labels.as_slice(),
        t.plan.objects.as_slice(),
        reference.name,
        &mut more,
    );
    more
}

// Adds what is wrong with a label, and gives what is known of others.
fn write_wrong(t: &LabelledText, fault: &TomlFault, label: &str, what: &mut Line) -> Line {
    match (fault, reference_of(label)) {
        (TomlFault::Name(_), Some(reference)) => write_unknown(t, &reference, what),
        (TomlFault::Twice(_), Some(reference)) => write_several(t, &reference, what),
        (TomlFault::Kind(_), _) => {
            what.text(", a label of the data; wanted: one of the code");
            Line::new(t.alloc)
        }
        _ => {
            what.text("; wanted: LABEL or OBJECT:LABEL, and +N behind it with N from 0 to 4194303");
            Line::new(t.alloc)
        }
    }
}

// Adds the key at which a label stands: that of the path, or of a function that has no such key its name.
fn write_key(t: &LabelledText, path: &str, what: &mut Line) -> Result<(), NoMemory> {
    let text = std::str::from_utf8(t.bytes).unwrap_or("");
    let is_there = key_span(t.alloc, text, path)?.is_some();
    match path.strip_suffix(".place") {
        Some(table) if !is_there => what.text(table).text(".name"),
        _ => what.text(path),
    };
    Ok(())
}

/// What is said of a label that has a fault, at the path of its key.
pub(crate) fn label_said(
    t: &LabelledText,
    fault: &TomlFault,
    path: &str,
    label: &str,
) -> Result<Said, NoMemory> {
    let mut what = Line::new(t.alloc);
    if let TomlFault::Missing(_) = fault {
        what.text("calls lead from ").text(label).text(
            " back to it, so no level fits; wanted: code in which none do",
        );
        return Ok(Said::with_page(what, "docs/LABELS.md, \"What is answered\""));
    }
    write_key(t, path, &mut what)?;
    what.text(" is \"").word(label).text("\"");
    let more = write_wrong(t, fault, label, &mut what);
    let mut said = Said::with_page(what, PAGE);
    said.add(more);
    Ok(said)
}

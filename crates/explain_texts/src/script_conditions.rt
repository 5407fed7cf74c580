//! What is said of scripts by the conditions over several keys: docs/SCRIPTS.md, "What the reader refuses".

use crate::faulty::{Faulty, Found, Subject, table_and_key, table_number, value_at};
use crate::fields::{field_named, shape_at};
use crate::forms::read;
use crate::values::{
    Parameter, drafted_objects, value_of, write_cell, write_misfit, write_object, write_params,
    write_target,
};
use explain_base::Line;
use host_model::{TypedObject, fits};
use note_types::{Cell, FnNote, Notes, Shape, Value, content_type};
use script_draft::{CellValueText, ScriptDraft, ValueText, WriteText, read_draft};

// Writes how many values a list has, and what the owner of the parameters has; each value has one parameter.
fn write_count(at: &Found, owner: &str, name: &str, line: &mut Line) {
    let count = at.count();
    line.text(" has ").count(count).text(if count == 1 {
        " value, and "
    } else {
        " values, and "
    });
    line.text(owner).text(name).text(" has ");
}

// The value that an item of a list stands for. The line remembers want of memory.
fn value_in(notes: &Notes, text: &str, line: &mut Line) -> Option<Value> {
    match read::<ValueText>(text, line) {
        Some(value) => Some(value_of(notes, &value)),
        None => None,
    }
}

// The first argument of the entry function that doesn't fit its parameter.
fn arg_wrong(
    notes: &Notes,
    made: &[TypedObject],
    entry: &FnNote,
    at: &Found,
    line: &mut Line,
) -> Option<Subject> {
    for (item, param) in entry.params.as_slice().iter().enumerate() {
        match value_in(notes, at.item(item).unwrap_or(""), line) {
            Some(value) if !fits(made, &param.ty, &value) => {
                if write_target(notes, made, &value, line) {
                    line.text("; parameter ")
                        .count(item)
                        .text(" of ")
                        .text(entry.name.as_str())
                        .text(" is ");
                    param.write(notes, line);
                }
                return Some(Subject::Item(item));
            }
            _ => {}
        }
    }
    None
}

fn args_wrong(notes: &Notes, draft: &ScriptDraft, at: &Found, line: &mut Line) -> Option<Subject> {
    let entry = notes.function.as_slice().get(notes.entry as usize)?;
    if entry.params.len() != at.count() {
        write_count(at, "", entry.name.as_str(), line);
        write_params(notes, entry.params.as_slice(), line);
        return Some(Subject::Whole);
    }
    let made = drafted_objects(notes, draft, false, line);
    arg_wrong(notes, made.as_slice(), entry, at, line)
}

fn call_args_wrong(
    notes: &Notes,
    draft: &ScriptDraft,
    at: &Found,
    line: &mut Line,
) -> Option<Subject> {
    let call = draft.call.as_slice().get(table_number(at.path))?;
    for signature in notes.signature.as_slice() {
        if signature.name == call.signature {
            write_count(at, "signature ", signature.name.as_str(), line);
            write_params(notes, signature.params.as_slice(), line);
            return Some(Subject::Whole);
        }
    }
    None
}

// Whether a cell of an object of so many instances of a shape is wrong, and how.
fn cell_wrong(
    notes: &Notes,
    made: &[TypedObject],
    shape: &Shape,
    count: u64,
    cell: &CellValueText,
    line: &mut Line,
) -> bool {
    if count <= cell.instance {
        line.text(", and the table has ")
            .number(count)
            .text(" instances, from 0 on");
        return true;
    }
    let Some(field) = field_named(shape, &cell.field) else {
        return false;
    };
    let value = value_of(notes, &cell.value);
    if fits(made, &content_type(&field.cell), &value) {
        return false;
    }
    write_misfit(notes, made, &value, shape, field, line);
    true
}

// Whether a list has a text of the cell of an instance at a field.
fn is_given(at: &Found, instance: u64, field: &str) -> bool {
    for item in 0..at.count() {
        let (digits, rest) = at
            .item(item)
            .unwrap_or("")
            .split_once(' ')
            .unwrap_or(("", ""));
        let (name, _) = rest.split_once(' ').unwrap_or(("", ""));
        if name == field && digits.parse::<u64>().ok() == Some(instance) {
            return true;
        }
    }
    false
}

// Whether an instance lacks a cell that has to be given, and which.
fn instance_wrong(
    notes: &Notes,
    shape: &Shape,
    at: &Found,
    instance: u64,
    line: &mut Line,
) -> bool {
    for field in shape.fields.as_slice() {
        let (name, cell) = (field.name.as_str(), field.cell);
        let is_needed = match cell {
            Cell::Ptr { null, .. } | Cell::P64 { null, .. } => !null,
            Cell::Method(_) => true,
            _ => false,
        };
        if is_needed && !is_given(at, instance, name) {
            line.text(" has no value for field ").text(name);
            line.text(" of instance ")
                .number(instance)
                .text(", which is ");
            write_cell(notes, cell, line);
            return true;
        }
    }
    false
}

// How many instances the table has in which a key stands.
fn instances_at(f: &Faulty, path: &str) -> u64 {
    let (table, _) = table_and_key(path);
    let count = match value_at(f.table, table) {
        Some(value) => value.get("count"),
        None => None,
    };
    match count {
        Some(count) => u64::try_from(count.as_integer().unwrap_or(0)).unwrap_or(0),
        None => 0,
    }
}

// Whether a text of a list of cells is wrong, and how. The line remembers want of memory.
fn text_wrong(
    notes: &Notes,
    made: &[TypedObject],
    shape: &Shape,
    count: u64,
    text: &str,
    line: &mut Line,
) -> bool {
    match read::<CellValueText>(text, line) {
        Some(cell) => cell_wrong(notes, made, shape, count, &cell, line),
        None => false,
    }
}

// The first text of a list of cells that is wrong; the cell of some instance that has to be given, and isn't; or else a pointer
// names a later object.
fn cells_wrong(
    f: &Faulty,
    notes: &Notes,
    draft: &ScriptDraft,
    at: &Found,
    line: &mut Line,
) -> Option<Subject> {
    let number = shape_at(f, at.path).unwrap_or(usize::MAX);
    let shape = notes.shape.as_slice().get(number)?;
    let count = instances_at(f, at.path);
    let made = drafted_objects(notes, draft, true, line);
    for item in 0..at.count() {
        let text = at.item(item).unwrap_or("");
        if text_wrong(notes, made.as_slice(), shape, count, text, line) {
            return Some(Subject::Item(item));
        }
    }
    let instances = count.min((at.count() as u64).saturating_add(1));
    for instance in 0..instances {
        if instance_wrong(notes, shape, at, instance, line) {
            return Some(Subject::Whole);
        }
    }
    line.text(" has a pointer to a later object; wanted: objects up to this one");
    Some(Subject::Whole)
}

// Whether the object that a text of `write` names or its instance isn't there; it writes which.
fn is_absent(notes: &Notes, made: &[TypedObject], text: &str, line: &mut Line) -> bool {
    let Some(write) = read::<WriteText>(text, line) else {
        return false;
    };
    match made.get(write.object as usize) {
        Some(object) if write.instance < object.count => return false,
        _ => {}
    }
    if write_object(notes, made, write.object, line) {
        line.text(", and there is no instance ")
            .number(write.instance)
            .text(", counted from 0");
    }
    true
}

// The first text of `write` whose object or instance isn't there.
fn write_wrong(notes: &Notes, draft: &ScriptDraft, at: &Found, line: &mut Line) -> Option<Subject> {
    let made = drafted_objects(notes, draft, true, line);
    for item in 0..at.count() {
        if is_absent(notes, made.as_slice(), at.item(item).unwrap_or(""), line) {
            return Some(Subject::Item(item));
        }
    }
    None
}

// What is wrong at a key that has one condition alone; empty where it has none.
fn single_condition(key: &str) -> &'static str {
    match key {
        "object.shape" | "call.make.shape" =>
            "; wanted: a shape that is well formed, as the rule shape asks",
        "object.count" =>
            "; wanted: at most 4096 objects, of 8388608 bytes in all where a pointer has 8",
        "call.make" =>
            " passes a limit; wanted: at most 4096 objects, of 8388608 bytes in all where a pointer has 8",
        "call.signature" => "; wanted: at most 16384 calls",
        "call.enter" => " passes a limit; wanted: at most 16384 callbacks in all",
        "notify" => "; wanted: at most 16384 notifications, and none in a script of a pair",
        "notify.at" => "; wanted: more than that of the notification before",
        _ => "",
    }
}

// What is wrong at a path by the first condition that fails.
fn first_wrong(
    f: &Faulty,
    notes: &Notes,
    draft: &ScriptDraft,
    at: &Found,
    line: &mut Line,
) -> Option<Subject> {
    match at.form.key {
        "args" => return args_wrong(notes, draft, at, line),
        "call.args" => return call_args_wrong(notes, draft, at, line),
        "object.cells" | "call.make.cells" => return cells_wrong(f, notes, draft, at, line),
        "call.write" => return write_wrong(notes, draft, at, line),
        _ => {}
    }
    let condition = single_condition(at.form.key);
    line.text(condition);
    if condition.is_empty() {
        None
    } else if at.value.is_array() {
        Some(Subject::Whole)
    } else {
        Some(Subject::Item(0))
    }
}

/// What of a script isn't at a path as the conditions over several keys want it; it writes what is wrong with it.
pub(crate) fn script_condition(
    f: &Faulty,
    notes: &Notes,
    at: &Found,
    line: &mut Line,
) -> Option<Subject> {
    match read_draft(f.alloc, f.table) {
        Ok(draft) => first_wrong(f, notes, &draft, at, line),
        Err(_) => None,
    }
}

//! What is said of fields of a script that the shapes of its objects don't have.

use crate::faulty::{Faulty, Found, TomlText, table_and_key, value_at};
use crate::forms::{Form, Thing, read};
use crate::names::thing_number;
use crate::values::{drafted_objects, write_object};
use ebc_base::Name;
use explain_base::{Line, Said};
use host_model::TypedObject;
use note_types::{Field, Notes, Shape};
use script_draft::{CellValueText, WriteText, read_draft};
use std::alloc::Global;

/// Fields and objects that are listed.
const MOST_LISTED: usize = 64;

/// Writes what begins the item of that number of a list, `..` for the first that isn't listed; tells whether the item is.
pub(crate) fn write_separator(number: usize, line: &mut Line) -> bool {
    if number > 0 && number <= MOST_LISTED {
        line.text(", ");
    }
    if number == MOST_LISTED {
        line.text("..");
    }
    number < MOST_LISTED
}

/// The number of the shape of the table in which a key of a script stands.
pub(crate) fn shape_at(f: &Faulty, path: &str) -> Option<usize> {
    let (table, _) = table_and_key(path);
    let shape = value_at(f.table, table)?.get("shape")?.as_str()?;
    thing_number(f, Thing::Shape, shape)
}

/// The field of that name of a shape, if it is there.
pub(crate) fn field_named<'n>(shape: &'n Shape, name: &Name) -> Option<&'n Field> {
    for field in shape.fields.as_slice() {
        if field.name == *name {
            return Some(field);
        }
    }
    None
}

// Writes the fields that a shape has.
fn write_shape(shape: &Shape, line: &mut Line) {
    let fields = shape.fields.as_slice();
    line.text(shape.name.as_str()).text(if fields.is_empty() {
        " has no fields"
    } else {
        " has: "
    });
    for (number, field) in fields.iter().enumerate() {
        if write_separator(number, line) {
            line.text(field.name.as_str());
        }
    }
}

// Writes the objects that there are, each by its number and its shape.
fn write_objects(notes: &Notes, made: &[TypedObject], line: &mut Line) {
    line.text("objects: ");
    for (number, object) in made.iter().enumerate() {
        if write_separator(number, line) {
            line.count(number).text(" of ");
            if let Some(shape) = notes.shape.as_slice().get(object.shape as usize) {
                line.text(shape.name.as_str());
            }
        }
    }
}

/// An item that names a field that isn't there: what is wrong with it, and lines of what there is.
#[derive(Drop)]
pub(crate) struct Wrong {
    what: Line,
    fields: Line,
    objects: Line,
}

impl Wrong {
    /// Nothing is wrong so far.
    pub fn new(alloc: Global) -> Wrong {
        Wrong {
            what: Line::new(alloc),
            fields: Line::new(alloc),
            objects: Line::new(alloc),
        }
    }

    /// What is said of the key alone.
    pub fn plain_said(self, f: &Faulty, at: &Found) -> Said {
        f.plain_said(self.what, "name", at.path)
    }

    /// What is said of the item of that number.
    pub fn item_said(self, f: &Faulty, at: &Found, number: usize) -> Said {
        let mut what = Line::new(f.alloc);
        let offset = at.write_item(f, number, &mut what);
        what.line(&self.what);
        let mut said = f.said(offset, what);
        said.add(self.fields);
        said.add(self.objects);
        said
    }
}

/// Where the fields that the items of a list name are sought: nowhere, in the shape of its table, or in those of typed objects.
#[derive(Drop)]
pub(crate) enum Sought<'n> {
    Nowhere,
    Shape(&'n Shape),
    Objects(&'n Notes, Vec<TypedObject>),
}

// The objects of a script in which the fields of its `write` lists are sought. The line remembers want of memory.
fn written_objects<'n>(f: &Faulty, notes: &'n Notes, line: &mut Line) -> Sought<'n> {
    match read_draft(f.alloc, f.table) {
        Ok(draft) => Sought::Objects(notes, drafted_objects(notes, &draft, true, line)),
        Err(_) => {
            line.kept(false);
            Sought::Nowhere
        }
    }
}

// The shape of the table in which a key of a script stands, in which the fields of its cells are sought.
fn table_shape<'n>(f: &Faulty, notes: &'n Notes, path: &str) -> Sought<'n> {
    let number = shape_at(f, path).unwrap_or(usize::MAX);
    match notes.shape.as_slice().get(number) {
        Some(shape) => Sought::Shape(shape),
        None => Sought::Nowhere,
    }
}

/// Where the fields that the items of a list name are sought. What is wrong so far remembers want of memory.
pub(crate) fn sought_in<'a>(f: &Faulty<'a>, at: &Found, wrong: &mut Wrong) -> Sought<'a> {
    match (f.kind, at.form.form) {
        (TomlText::Script(notes), Form::CellValue) => table_shape(f, notes, at.path),
        (TomlText::Script(notes), Form::Write) => written_objects(f, notes, &mut wrong.what),
        _ => Sought::Nowhere,
    }
}

// Whether a text gives a cell of a field that a shape doesn't have, and what is wrong then.
fn lacks_cell(shape: &Shape, text: &str, wrong: &mut Wrong) -> bool {
    match read::<CellValueText>(text, &mut wrong.what) {
        Some(cell) if field_named(shape, &cell.field).is_none() => {
            wrong
                .what
                .text(", and the shape ")
                .text(shape.name.as_str());
            wrong.what.text(" has no field ").text(cell.field.as_str());
            write_shape(shape, &mut wrong.fields);
            true
        }
        _ => false,
    }
}

// The shape of the object that a text of `write` names, if it doesn't have the field.
fn shape_lacking<'n>(
    notes: &'n Notes,
    made: &[TypedObject],
    write: &WriteText,
) -> Option<&'n Shape> {
    let object = made.get(write.object as usize)?;
    let shape = notes.shape.as_slice().get(object.shape as usize)?;
    match field_named(shape, &write.field) {
        Some(_) => None,
        None => Some(shape),
    }
}

// Whether a text of `write` gives a cell of a field that the shape of its object doesn't have, and what is wrong then.
fn lacks_written(notes: &Notes, made: &[TypedObject], text: &str, wrong: &mut Wrong) -> bool {
    let Some(write) = read::<WriteText>(text, &mut wrong.what) else {
        return false;
    };
    let Some(shape) = shape_lacking(notes, made, &write) else {
        return false;
    };
    write_object(notes, made, write.object, &mut wrong.what);
    wrong
        .what
        .text(", which has no field ")
        .text(write.field.as_str());
    write_shape(shape, &mut wrong.fields);
    write_objects(notes, made, &mut wrong.objects);
    true
}

impl Sought<'_> {
    /// Whether a text names a field that isn't there, and what is wrong then.
    pub fn lacks_field(&self, text: &str, wrong: &mut Wrong) -> bool {
        match self {
            Sought::Nowhere => false,
            Sought::Shape(shape) => lacks_cell(*shape, text, wrong),
            Sought::Objects(notes, made) => lacks_written(*notes, made.as_slice(), text, wrong),
        }
    }
}

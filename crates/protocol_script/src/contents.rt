//! What the cells of a script's object hold at first.
ghost use Rattle.std.specs.Prelude.{◌≡◌, not, slice_get, true};
ghost use Rattle.std.specs.List.{list_all, list_any};
ghost use Rattle.std.specs.Option.{option_map_or};
ghost use Rattle.protocol_script.specs.Contents.{all_settled, are_by, are_contents, are_inside, cell_fits, is_by, is_filled, is_settled};
ghost use Rattle.host_model.specs.Scripts.{is_given, is_needed};

use crate::objects::fields_of;
use host_model::{TypedObject, fits};
use note_types::{Cell, CellValue, Field, Notes, ScriptObject, Value, content_type};

/// Whether the instance of each cell is one of the object's.
pub fn are_inside(object: &ScriptObject) -> bool
    ensures { result ≡ are_inside object.now }
{
    object
        .cells
        .as_slice()
        .iter()
        .all(|cell| cell.instance < object.count)
}

fn cell_fits(notes: &Notes, made: &[TypedObject], shape: u32, cell: &CellValue) -> bool
    ensures { result ≡ cell_fits notes.now made.now shape cell.now }
{
    match fields_of(notes, shape).get(cell.field as usize) {
        Some(field) => fits(made, &content_type(&field.cell), &cell.value),
        None => false,
    }
}

fn all_fit(notes: &Notes, made: &[TypedObject], object: &ScriptObject) -> bool
    ensures { result ≡ list_all (cell_fits notes.now made.now object.now.shape) object.now.cells }
{
    object
        .cells
        .as_slice()
        .iter()
        .all(|cell| cell_fits(notes, made, object.shape, cell))
}

fn is_needed(cell: &Cell) -> bool
    ensures { result ≡ is_needed cell.now }
{
    match *cell {
        Cell::Ptr { null, .. } | Cell::P64 { null, .. } => !null,
        Cell::Method(_) => true,
        _ => false,
    }
}

fn is_given(cells: &[CellValue], instance: u64, field: usize) -> bool
    ensures { result ≡ is_given cells.now instance field }
{
    cells.iter().any(|cell| cell.instance == instance && cell.field as usize == field)
}

fn is_optional(fields: &[Field], field: usize) -> bool
    ensures { result ≡ option_map_or (λ x. not (is_needed x.cell)) (slice_get fields.now field) true }
{
    match fields.get(field) {
        Some(field) => !is_needed(&field.cell),
        None => true,
    }
}

fn is_settled(fields: &[Field], cells: &[CellValue], instance: u64, field: usize) -> bool
    ensures { result ≡ is_settled fields.now cells.now instance field }
{
    is_optional(fields, field) || is_given(cells, instance, field)
}

#[tactic(auto, unfolding(crate::specs::Contents::all_settled))]
fn all_settled(fields: &[Field], cells: &[CellValue], instance: u64) -> bool
    ensures { result ≡ all_settled fields.now cells.now instance }
{
    for field in 0..fields.len() {
        if !is_settled(fields, cells, instance, field) {
            return false;
        }
    }
    true
}

fn has_needed(fields: &[Field]) -> bool
    ensures { result ≡ list_any (λ x. is_needed x.cell) fields.now }
{
    fields.iter().any(|field| is_needed(&field.cell))
}

#[tactic(auto, unfolding(crate::specs::Contents::is_filled))]
fn is_filled(fields: &[Field], count: u64, cells: &[CellValue]) -> bool
    ensures { result ≡ is_filled fields.now count cells.now }
{
    if !has_needed(fields) {
        return true;
    }
    for instance in 0..count {
        if !all_settled(fields, cells, instance) {
            return false;
        }
    }
    true
}

/// Whether the cells of an object fit, and those that have to be given are.
#[tactic(auto, unfolding(crate::specs::Contents::are_contents))]
pub fn are_contents(notes: &Notes, made: &[TypedObject], object: &ScriptObject) -> bool
    ensures { result ≡ are_contents notes.now made.now object.now }
{
    all_fit(notes, made, object)
        && is_filled(
            fields_of(notes, object.shape),
            object.count,
            object.cells.as_slice(),
        )
}

fn is_by(number: u64, value: &Value) -> bool
    ensures { result ≡ is_by number value.now }
{
    match *value {
        Value::Ptr { object, .. } => object <= number,
        _ => true,
    }
}

/// Whether each pointer in the cells of an object names an object of at most that number.
pub fn are_by(number: u64, object: &ScriptObject) -> bool
    ensures { result ≡ are_by number object.now }
{
    object
        .cells
        .as_slice()
        .iter()
        .all(|cell| is_by(number, &cell.value))
}

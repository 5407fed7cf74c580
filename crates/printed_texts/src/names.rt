//! The names of what types and states name.
ghost use Rattle.std.specs.Prelude.{◌≡◌, ◌++◌, ◌∷◌, [], IfOk, OnOk, if◌then◌else◌};
ghost use Rattle.rules_base.specs.Places.{has_field};
ghost use Rattle.printed_texts.specs.PrintedTypes.{field_name, field_names, method_name, shape_name};

use note_types::{Field, Name, Names, NoMemory, Notes};
use rules_base::has_field;
use std::alloc::Global;

/// The name of a shape; empty where there is no such shape.
pub(crate) fn shape_name(notes: &Notes, shape: u32) -> &str
    ensures { result.now ≡ shape_name notes.now shape }
{
    match notes.shape.as_slice().get(shape as usize) {
        Some(shape) => shape.name.as_str(),
        None => "",
    }
}

/// The name of a native method; empty where there is no such method.
pub(crate) fn method_name(notes: &Notes, method: u32) -> &str
    ensures { result.now ≡ method_name notes.now method }
{
    match notes.methods.as_slice().get(method as usize) {
        Some(name) => name.as_str(),
        None => "",
    }
}

/// The name of a field; empty where there is no such field.
pub(crate) fn field_name(fields: &[Field], field: u32) -> &str
    ensures { result.now ≡ field_name fields.now field }
{
    match fields.get(field as usize) {
        Some(field) => field.name.as_str(),
        None => "",
    }
}

// Adds the name of a field, where a set has it.
fn add_field(
    alloc: Global,
    fields: &[Field],
    set: u64,
    number: u32,
    names: &mut Vec<Name>,
) -> Result<(), NoMemory>
    ensures { OnOk result (names.new.items ≡ names.old.items
        ++ (if has_field set number then field_name fields.now number ∷ [] else [])) }
{
    if !has_field(set, number) {
        return Ok(());
    }
    let name = String::from_str(alloc, field_name(fields, number))?;
    names.push(Name::new(name))?;
    Ok(())
}

/// The names of the fields of a set, in the fields' order.
///
/// # Errors
///
/// Want of memory alone.
#[tactic(auto, using(crate::proofs::KeptNumbers::names_none, crate::proofs::KeptNumbers::names_more))]
pub(crate) fn field_names(alloc: Global, fields: &[Field], set: u64) -> Result<Names, NoMemory>
    ensures { IfOk result (λ names. names ≡ field_names fields.now set) }
{
    let mut names = Vec::new(alloc);
    for number in 0..64u32 {
        add_field(alloc, fields, set, number, &mut names)?;
    }
    Ok(Names::new(names))
}

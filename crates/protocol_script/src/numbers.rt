//! The numbers of things of the notes by their names.
ghost use Rattle.std.specs.Prelude.{◌≡◌, bytes_eq, map};
ghost use Rattle.std.specs.List.{position};
ghost use Rattle.protocol_script.specs.Numbers.{field_number, function_number, method_number, narrow, shape_number, signature_number};

use note_types::{Field, FnNote, Name, Notes, Shape, Signature};

fn narrow(number: usize) -> Option<u32>
    ensures { result ≡ narrow number }
{
    if number < 1 << 32 {
        Some(number as u32)
    } else {
        None
    }
}

fn shape_position(shapes: &[Shape], name: &Name) -> Option<usize>
    ensures { result ≡ position (λ s. bytes_eq s.name name.now) shapes.now }
{
    shapes.iter().position(|shape| shape.name == *name)
}

fn function_position(functions: &[FnNote], name: &Name) -> Option<usize>
    ensures { result ≡ position (λ f. bytes_eq f.name name.now) functions.now }
{
    functions.iter().position(|function| function.name == *name)
}

fn signature_position(signatures: &[Signature], name: &Name) -> Option<usize>
    ensures { result ≡ position (λ s. bytes_eq s.name name.now) signatures.now }
{
    signatures
        .iter()
        .position(|signature| signature.name == *name)
}

fn name_position(names: &[Name], name: &Name) -> Option<usize>
    ensures { result ≡ position (λ other. bytes_eq other name.now) names.now }
{
    names.iter().position(|other| *other == *name)
}

fn field_position(fields: &[Field], name: &Name) -> Option<usize>
    ensures { result ≡ position (λ x. bytes_eq x.name name.now) fields.now }
{
    fields.iter().position(|field| field.name == *name)
}

/// The number of the shape of that name, where it is there.
#[tactic(auto, unfolding(crate::specs::Numbers::shape_number))]
pub fn shape_number(notes: &Notes, name: &Name) -> Option<u32>
    ensures { result ≡ shape_number notes.now name.now }
{
    narrow(shape_position(notes.shape.as_slice(), name)?)
}

/// The number of the function of that name, where it is there.
#[tactic(auto, unfolding(crate::specs::Numbers::function_number))]
pub fn function_number(notes: &Notes, name: &Name) -> Option<u32>
    ensures { result ≡ function_number notes.now name.now }
{
    narrow(function_position(notes.function.as_slice(), name)?)
}

/// The number of the signature of that name, where it is there.
#[tactic(auto, unfolding(crate::specs::Numbers::signature_number))]
pub fn signature_number(notes: &Notes, name: &Name) -> Option<u32>
    ensures { result ≡ signature_number notes.now name.now }
{
    narrow(signature_position(notes.signature.as_slice(), name)?)
}

/// The number of the method of that name, where it is there.
#[tactic(auto, unfolding(crate::specs::Numbers::method_number))]
pub fn method_number(notes: &Notes, name: &Name) -> Option<u32>
    ensures { result ≡ method_number notes.now name.now }
{
    narrow(name_position(notes.methods.as_slice(), name)?)
}

/// The number of the field of that name, of these, where it is there.
#[tactic(auto, unfolding(crate::specs::Numbers::field_number))]
pub fn field_number(fields: &[Field], name: &Name) -> Option<u32>
    ensures { result ≡ field_number fields.now name.now }
{
    narrow(field_position(fields, name)?)
}

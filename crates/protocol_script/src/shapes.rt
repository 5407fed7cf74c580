//! Whether shapes are well formed.
ghost use Rattle.std.specs.Prelude.{◌≡◌};
ghost use Rattle.protocol_script.specs.ShapeTests.{is_shape};
ghost use Rattle.host_model.specs.Objects.{shape_of};

use note_types::{Notes, Shape, shape_ok};

/// Whether a shape is well formed.
pub fn is_shape(shape: &Shape) -> bool
    ensures { result ≡ is_shape shape.now }
{
    if shape.fields.len() >= 1 << 32 {
        return false;
    }
    match shape_ok(shape) {
        Ok(()) => true,
        Err(_) => false,
    }
}

/// Whether the shape of that number is there and well formed.
pub fn is_shape_at(notes: &Notes, shape: u32) -> bool
    ensures { result ≡ is_shape (shape_of notes.now shape) }
{
    match notes.shape.as_slice().get(shape as usize) {
        Some(shape) => is_shape(shape),
        None => false,
    }
}

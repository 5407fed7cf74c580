//! Values as a native call sees them.
use crate::value::Value;

/// A value that was read from an argument, or, where `lent`, from the cell at the address that is the argument.
#[derive(Clone, Copy, PartialEq, Eq)]
pub struct Seen {
    pub lent: bool,
    pub value: Value,
}

impl Default for Seen {
    ghost use Rattle.std.specs.Prelude.{◌≡◌, false};
    ghost use Rattle.note_types.specs.declared.seen.Seen.{Seen};
    ghost use Rattle.note_types.specs.declared.value.Value.TheVariants.{Any};

    ghost is_default = { λ s. s ≡ record { lent = false; value = Any } };

    fn default() -> Self {
        Seen {
            lent: false,
            value: Value::Any,
        }
    }
}

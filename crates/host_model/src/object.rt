//! Typed objects.

/// So many instances of a shape of the notes, one after the other.
#[derive(Clone, Copy, PartialEq, Eq)]
pub struct TypedObject {
    pub shape: u32,
    pub count: u64,
}

//! The directives.

/// A statement that is no instruction (docs/ASSEMBLY.md, "Statements").
#[derive(Clone, Copy)]
pub enum Directive {
    /// `.code`.
    Code,
    /// `.data`.
    Data,
    /// `.global`.
    Global,
    /// `.db`, `.dw`, `.dd` or `.dq`: numbers of 8, 16, 32 or 64 bits.
    Numbers(u8),
    /// `.thunk`.
    Thunk,
    /// `.zero`.
    Zeros,
}

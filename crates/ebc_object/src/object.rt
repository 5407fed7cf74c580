//! What an object file says.

use ebc_base::{Name, Sequence};

/// Bytes.
pub type Bytes = Sequence<u8>;

/// Symbols, each known by its number from 0 on.
pub type Symbols = Sequence<Symbol>;

/// Fixups, in the order of their places.
pub type Fixups = Sequence<Fixup>;

/// A place of an object that has a name, or a name that another object defines.
#[derive(PartialEq, Drop)]
pub struct Symbol {
    /// Its name, which no other symbol of the object has.
    pub name: Name,
    /// 0 where the object doesn't define it, 1 for a place of the code, 2 for a place of the data.
    pub kind: u8,
    /// 1 where other objects see it, 0 where they don't.
    pub global: u8,
    /// Its place in its section, at most the section's length; 0 where the object doesn't define it.
    pub offset: u32,
}

/// Bytes that the linker fills in, by the place of a symbol. Until then they are zeros.
#[derive(Clone, Copy, PartialEq)]
pub struct Fixup {
    /// 1 where the bytes are the code's, 2 where they are the data's.
    pub section: u8,
    /// What is filled in: 1 a distance in words, in one byte; 2, 3 and 4 a distance in two, four and eight bytes; 5 an address,
    /// in eight bytes.
    pub kind: u8,
    /// Where the bytes begin in the section.
    pub offset: u32,
    /// The number of the symbol.
    pub symbol: u32,
    /// The place in the section from which a distance counts.
    pub from: u32,
}

/// What an assembler makes of a source: code and data with symbols and fixups.
#[derive(PartialEq, Drop)]
pub struct Object {
    /// The bytes of the code.
    pub code: Bytes,
    /// The bytes of the data.
    pub contents: Bytes,
    /// The symbols.
    pub symbols: Symbols,
    /// The fixups, ascending by section and offset; no two share a byte.
    pub fixups: Fixups,
}

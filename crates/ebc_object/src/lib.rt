//! Objects, which an assembler makes and a linker joins: read, written and tried. docs/OBJECTS.md describes the file,
//! and each fault.
//!
//! Promises:
//!
//! - `read_object`: `reading` says that the answer is what the file stands for: the object, or the kind and the offset
//!   of the first field that fails, or want of memory. `format` says that the file is the file of the object that is
//!   read, byte for byte, and `sound` that this object meets the conditions.
//! - `write_object`: of an object that meets the conditions `format` says which file it gives, byte for byte, and
//!   `read_again` that this file stands for that object. It fails only by want of memory.
//! - `object_ok`: whether an object meets the conditions. It takes no memory.
//! - `Object`, `Symbol` and `Fixup` are seen as records of plain numbers and lists.
#![tactic(auto)]

mod conditions;
mod fault;
mod fields;
mod fixups;
mod head;
mod object;
mod reading;
mod sections;
mod symbols;
mod writing;

pub use conditions::object_ok;
pub use ebc_base::NoMemory;
pub use fault::{ObjectEnd, ObjectFault};
pub use object::{Bytes, Fixup, Fixups, Object, Symbol, Symbols};
pub use reading::read_object;
pub use writing::write_object;

//! The small types that the records of other crates are made of: lists, names, names by their numbers in a table, and
//! want of memory. Contracts see a list as the list of its values and a name as the list of its bytes, so that a record
//! of them is the record that a definition speaks of. The form of a name is that of a symbol of an object and of a
//! thing of the notes (docs/NOTES.md, "Texts"). It also has the laws of lists and truth values that the crates above
//! share.
//!
//! Promises:
//!
//! - `Sequence`: a list of values, seen as that list. `Sequence::new` and `into_vec` take and give a `Vec` with the
//!   same items; `as_slice` and `len` are the list and its length; `is_empty` is true exactly for the empty list; two
//!   are equal exactly where they have as many values and each equals its fellow.
//! - `Name`: a text, seen as its bytes. `Name::new`, `into_string` and `as_str` keep the bytes; `copy` gives, unless
//!   memory runs out, a name with the same bytes; two are equal exactly where their bytes are.
//! - `is_name`: whether a text is a name.
//! - `name_text`: `name` says that it gives a text exactly where the bytes are a name, and `text` that the text has
//!   these bytes.
//! - `NameTable`: names in the order in which they were added, each once, seen as their list. `NameTable::new` has
//!   none; `add` puts a new name behind the others and tells whether it was new (`new`, `ok`), and where memory runs
//!   out leaves the table as it was (`err`); `number` is the place of a name, and the number of names where it isn't
//!   there; `has` whether it is there; `len` how many there are; `into_names` hands them out in their order.
//! - `NoMemory`: want of memory, made from std's two errors of allocation. No clause says that memory was wanting where
//!   it is given.
#![tactic(auto)]

mod form;
mod memory;
mod name;
mod sequence;
mod table;

pub use form::{is_name, name_text};
pub use memory::NoMemory;
pub use name::Name;
pub use sequence::Sequence;
pub use table::NameTable;

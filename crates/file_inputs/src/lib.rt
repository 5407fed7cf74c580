//! What the files that a program's words name are read as: images, notes, sources, link plans with their objects, and
//! option ROMs, or the answer to the first fault (docs/COMMANDS.md, "The answer"). All programs that read such files
//! read them here.
//!
//! A type that a file is read as is an `Input`: its limit, its meaning, what is known of it, and the one call that
//! reads it.
//!
//! Promises:
//!
//! - `read_as`, `read_with_bytes`: what the file of a word is read as, and with its bytes, within its limit, or the
//!   answer to its first fault (`input`, `input_with_bytes`). Each promises `Reads` of the folder, and what is known of
//!   the value.
//! - `read_image_with_notes`: an image and its notes, read one after the other (`image_with_notes`).
//! - `notes_in`: the notes that bytes stand for, or the answer to their first fault (`notes_meaning`).
//! - `read_objects`: the objects of the names that a plan gives, each read whole before the next (`each_object`).
//! - `read_linked`: what the objects of a plan are linked to, read one after the other behind it (`linked_image`).
//! - `linked`: what objects are linked to by a plan, or the answer to the first fault (`link_meaning`). The word of the
//!   plan is a number that the caller gives.
//! - `text`: the answers to a file that stands for nothing, by its first fault. `toml_fault_number`, `toml_fault_text`,
//!   `key_path`: a fault of a TOML text by its number, its name and the path of its key.
#![tactic(auto)]

mod fault;
mod input;
mod linking;
pub mod text;

pub use fault::{key_path, toml_fault_number, toml_fault_text};
pub use input::{Input, notes_in, read_as, read_image_with_notes, read_with_bytes};
pub use linking::{linked, read_linked, read_objects};

//! The tables of notes with labels, filled up to those of notes (docs/LABELS.md): places in the place of labels, and
//! what the text and the labels say of what is left out. Levels and needs, and points and sites that the text doesn't
//! have, are handed in. What is read of the filled text is `note_draft`'s.
//!
//! Promises:
//!
//! - `fill`: the text that it gives says all that the maker's text says (`kept`, `IsTextKept`):
//!   - version and entry, if the text has them; else the version is 1;
//!   - static objects and thunk cells, one by one in their order;
//!   - functions, points and sites as a permutation, with just the points and sites that were handed in among them;
//!   - at every other key the same, so each shape and each signature.
//! - In a table of that text each key stands as it is. But at `place`, and at `end` of a function, a text is replaced
//!   by the place of the one label that it names (`place_by`). What the table has besides stands at keys that may be left
//!   out, with the one value that a left out key stands for, where there is one (`left_out`).
//! - `fill`, `check_forms`: a fault of a label is the first one (`text_labels`), list by list in the order static,
//!   thunk, function, point and site, table by table, `place` before `end`; and where they go on, no label has a fault
//!   (`labels`).
//! - `fill`: tables and arrays nest no deeper in its values than a reader of TOML goes (`shallow`), so that what is
//!   printed of it reads back. Deeper ones are the fault NotToml.
//! - `fill`: the numbers that functions, points and sites had in the text, with those handed in behind its own
//!   (`orders`, `AreOrders`). By them `original_path` gives the path that a key had there (`original_path`).
//! - A fault that is no label's has a cause (`cause`, `HasCause`). `check_forms` tells one that the text has where it
//!   is filled in its own order (`HasFormFault`). `fill` tells one where the filled text nests too deep (`IsTooDeep`).
//!
//! That counts, ends, levels and needs are those of docs/LABELS.md is no clause: what is printed is checked before.
#![tactic(auto)]

mod assembling;
mod checking;
mod context;
mod depth;
mod end;
mod filling;
mod functions;
mod known;
mod label;
mod members;
mod order;
mod rows;
mod statics;
mod table;

pub use checking::check_forms;
pub use context::{Context, Found, More};
pub use end::{FillEnd, Flaw};
pub use filling::{Filled, Left, fill};
pub use members::{has_items, items_at, text_at};
pub use order::original_path;

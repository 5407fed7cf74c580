//! Scripts as their text has them, with names for the things of the notes: the small texts of values, arguments and
//! cells, the draft that a TOML table stands for, and whether each cell stands in it once. docs/SCRIPTS.md says how
//! scripts are written.
//!
//! Promises:
//!
//! - `from_text` of `ValueText`, `ArgumentText`, `CellValueText`, `CallbackText`, `OutText` and `WriteText`: returns
//!   what the reading function says (`value`), the value, or `None` where the text is of another form. `grammar` says
//!   of values and arguments that a text is read as one just where it is spelled so: `IsValueText`, `IsArgumentText`.
//! - `read_draft`: returns what `draft_of` says of the table (`draft`), the draft or the first fault, key by key.
//!   `meets` says of a draft that its numbers, names and values are such as texts may have (`IsDraft`).
//! - `cells_once`: returns what `once` says of the draft, nothing, or `Twice` with the path of the `cells` of the first
//!   table that gives a cell twice. It looks cells up by a hash, so it takes time in proportion to the cells.
//! - Where memory runs out a call says so, and its clauses say nothing more.
#![tactic(auto)]

mod draft;
mod once;
mod parts;
mod pieces;
mod reading;
mod value;

pub use draft::{CallDraft, NotifyDraft, ObjectDraft, ScriptDraft};
pub use once::cells_once;
pub use parts::{CallbackText, CellValueText, OutText, WriteText};
pub use reading::read_draft;
pub use value::{ArgumentText, ValueText};

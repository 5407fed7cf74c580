//! Notes as their text has them, with names for the things of the notes: the draft that a TOML table stands for, its
//! names by their numbers, each once, and whether each name that it uses is there. docs/NOTES.md says how notes are
//! written.
//!
//! Promises:
//!
//! - `read_draft`: returns what `draft_of` says of the table (`draft`), the draft or the first fault, key by key, with
//!   as many points at most as `point_limit` of `note_types` has for the version; clauses say how many shapes,
//!   functions and signatures there are at most (`shapes`, `functions`, `signatures`).
//! - `number_names`: returns what `once` says of the draft, the names by their numbers, or `Twice` with the path of the
//!   first name, place or register that stands there again.
//! - `all_known`: returns what `known` says, nothing, or `Name` with the path of the first name that isn't there.
//! - `NameTables`: the names that notes give, each kind in a `NameTable` of `ebc_base`.
//! - `Finding`: the key of an item at which a condition fails; `at`, `sooner` and `path` are the definitions of these
//!   names (`path_of`). `refuse` returns nothing where nothing was found, and otherwise the fault of the `Refusal` with
//!   the path.
//! - `first_descent`: the least number, at least 1, of a table whose place is at most that of the table before it.
#![tactic(auto)]

mod draft;
mod finding;
mod keyed;
mod known;
mod once;
mod reading;
mod repeats;
mod stack;
mod tables;

pub use draft::{
    FunctionDraft, NotesDraft, PointDraft, ShapeDraft, SignatureDraft, SiteDraft, StaticDraft,
    ThunkDraft,
};
pub use finding::{Finding, Key, Refusal, TableList, refuse};
pub use keyed::{Named, Placed};
pub use known::all_known;
pub use once::number_names;
pub use reading::read_draft;
pub use repeats::first_descent;
pub use stack::StackText;
pub use tables::NameTables;

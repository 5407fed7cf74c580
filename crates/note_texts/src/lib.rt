//! What stands at the keys of TOML tables, and in the small texts of cells, types, parameters and native arguments at
//! these keys: for notes, and for every other file that is written in the same words. docs/NOTES.md has the texts in
//! words. The crate knows no notes: who reads a file builds its record by `Row`.
//!
//! Promises:
//!
//! - `document`: what it returns is `document` of the bytes, the table of a TOML document in UTF-8, or `NotToml`.
//! - `Row`: a table and the path before its keys. `number`, `text`, `optional_text`, `flag`, `pair`, `list`, `texts`,
//!   `texts_beside` and `tables` return what `number_at`, `text_at`, `optional_text_at`, `flag_at`, `pair_at`,
//!   `list_at`, `texts_at`, `texts_beside_at` and `tables_at` say, the value or the first fault with its path (`Gives`,
//!   `GivesBy`); clauses `within` say that numbers and lengths are within their limits. `only_keys` tells the first
//!   unknown key, in the order of bytes, by its `key_text`.
//! - `FromText`: `from_text` of `Name`, `CellText`, `FieldText`, `TypeText`, `ParamText`, `RegisterText`, `ItemText`,
//!   `WantText`, `WantParamText` and `ResultText` returns what the reading function says (`value`), and reads a value
//!   just where the grammar spells it (`grammar`, `ReadsJust`).
//! - `FromTable`: who implements it says what a table stands for; `Row` then reads lists of such tables.
//! - `number_of`, `number_in`, `short_number`, `size_of`, `split_at`, `parts_at`: the numbers and the cuts of small
//!   texts.
//! - Where memory runs out a call says so, and its clauses say nothing more.
#![tactic(auto)]

mod cell;
mod from_table;
mod from_text;
mod items;
mod key_text;
mod name;
mod number;
mod range;
mod row;
mod slot;
mod split;
mod toml_text;
mod ty;
mod value;
mod want;

pub use cell::{CellText, FieldText};
pub use from_table::FromTable;
pub use from_text::FromText;
pub use items::{item_path, row_prefix, table_of_item};
pub use number::{number_in, number_of, short_number};
pub use range::size_of;
pub use row::Row;
pub use slot::{ItemText, ParamText, RegisterText};
pub use split::{parts_at, split_at};
pub use toml_text::document;
pub use ty::TypeText;
pub use want::{ResultText, WantParamText, WantText};

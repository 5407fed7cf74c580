//! What a program's notes say of its data, as types: cells, shapes, the types of registers and stack slots, the states
//! between instructions, the records of a notes file, and the conditions on notes. It also has the state of a machine
//! in numbers, which the definitions of its steps and runs share. docs/NOTES.md has the notes in words, docs/MACHINE.md
//! the state.
//!
//! Promises:
//!
//! - `ty_below`, `fits_below`: `meaning` says that they tell exactly whether one type is below another (`Below`) and
//!   one state below another (`StateBelow`); `value`, that they give what the tests of `specs/BelowTests.antt` do.
//! - `divides`: `meaning` says that it tells whether one number divides another.
//! - `shape_ok`: `well_formed` says that it answers Ok exactly where a shape is well formed at both widths (`IsShape`),
//!   and `fault` that its error is the first fault (`IsShapeFault`).
//! - `cell_size`, `content_type`: each gives what the tables of `specs/Cells.antt` say.
//! - `enter`: makes a state, whatever it holds, the one at a function's entry, exactly `entry_state`.
//! - `entry_state`: `value` says that it gives the state at a function's entry, and `state` that it is a state of
//!   whatever function of these notes (`IsState`). What it needs, and what `shape_ok` needs, follows from the
//!   conditions on notes (`IsNotes`).
//! - `code_limit`, `point_limit`: the limits of notes of a version, and 0 for a version that isn't there.
//! - `Items`: a list of at most 65 items, the top first. `push`, `push_below`, `pop`, `put`, `clear`, `copy`, `len`,
//!   `is_empty` and `as_slice` say which list it is after each, and what they give.
//! - `State::copy` gives an equal state.
//! - `CompactState`: a state in as much memory as its items take. `new`, `state` and `put` say which state it is.
//! - `Args`: a list of at most 16 `Seen`, the values of a native call. `new`, `push`, `copy`, `len`, `is_empty` and
//!   `as_slice` say which list it is after each, and what they give.
//! - `PlacedList`: things that begin at places of the image, as static objects, thunk cells and functions do, in their
//!   order. `new`, `as_slice`, `len` and `is_empty` say which list it is; `first_at` gives the number of the first thing
//!   at a place, in a time that grows with the logarithm of their number.
//! - `NotesEnd` is made from `AllocError`, `AllocFailed` and `NoMemory` by `?`; `from_gives` says that each gives its
//!   variant NoMemory.
//! - `Notes` and the records in it, `Ty`, `Cell`, `SlotKind`, `Fact`, `Exception`, `RuleName`, `TomlFault`, `Value`,
//!   `Event`, `Reason`, `Spot`, `Ending` and the records of a `Script` are plain data. `Name`, `Sequence` and
//!   `NoMemory` are those of `ebc_base`.
#![tactic(auto)]

mod args;
mod below;
mod cell;
mod compact;
mod ending;
mod entry;
mod event;
mod exception;
mod fault;
mod items;
mod limits;
mod notes;
mod placed_list;
mod reason;
mod rule;
mod script;
mod seen;
mod shape;
mod spot;
mod state;
mod types;
mod value;

pub use args::Args;
pub use below::{divides, fits_below, ty_below};
pub use cell::{Cell, SlotKind, cell_size, content_type};
pub use compact::CompactState;
pub use ebc_base::{Name, NoMemory, Sequence};
pub use ending::Ending;
pub use entry::{enter, entry_state};
pub use event::Event;
pub use exception::Exception;
pub use fault::{NotesEnd, TomlFault};
pub use items::{Item, Items};
pub use limits::{code_limit, point_limit};
pub use notes::{
    FnNote, Functions, Names, Notes, Pair, Param, Params, Point, Points, Signature, Signatures,
    Site, Sites, Static, Statics, Thunk, Thunks, Want, WantParam, WantParams,
};
pub use placed_list::{Placed, PlacedList};
pub use reason::Reason;
pub use rule::RuleName;
pub use script::{
    Callback, Callbacks, CellValue, CellValues, Notifications, Notify, OutValue, OutValues, Script,
    ScriptCall, ScriptCalls, ScriptObject, ScriptObjects, SeenValues, Values, WriteValue,
    WriteValues,
};
pub use seen::Seen;
pub use shape::{Field, Fields, Shape, ShapeFault, Shapes, shape_ok};
pub use spot::Spot;
pub use state::{Fact, State};
pub use types::Ty;
pub use value::Value;

//! The neutral machine, which runs at both widths at once: its configurations, its host and its instructions; when the
//! state of a run at a width stands for a configuration of it; and the laws of these that the laws above share.
//! docs/SIMULATION.md says all of it in words, docs/HOST.md, "The neutral machine", what the host is there.
//!
//! Promises:
//!
//! - `things_are_named`: under a valid placement, at either width and whatever frames stand, each handle, method,
//!   function and typed object has its address, and typed objects lie apart within the width and above address 0
//!   (`Named`), where they are as `HasObjects` says: each has instances of a well-formed shape, and the static ones lie
//!   in the image and apart.
//! - `ranges_lie_as_memory`: under a valid placement all that the host places lies above address 0, within the width
//!   and apart, as the objects of a machine's memory do (`IsConcrete`), where the script was read, the image takes
//!   bytes and the entry function is there.
//! - `stack_is_within_limit`: the stack of notes that are as `IsNotes` says is within the limit of notes, at either
//!   width.
//! - `cells_take_what_fits`: the test by which the neutral machine stores to a cell (`fits_cell`) says exactly whether
//!   the value fits the cell's content type (`FitsPlain`), for values in their one form among objects that don't wrap
//!   at width 4.
//! - `turn_is_seen`: at a width, while the host has a frame, it sees something exactly where the step is its own
//!   (`at_width`); in the neutral machine only there (`neutral`).
//! - `written_value_fits`: a written value that fits a type has a neutral value that fits it, for every type that means
//!   the same in every frame.
//! - `written_number_shows`: the number of a written value that is within what a reader gives (`IsValue`) shows its
//!   neutral value, at either width, under a valid placement where `HasObjects` holds.
//! - `readings_are_alike`: a number that shows a neutral value which has a reading is read so, at either width, under a
//!   valid placement where `HasObjects` holds; and so is a function's result.
//! - `cells_apart`: two typed cells, of objects or of locals, share no byte at either width, for every valid placement.
//! - `thunk_made`: where all stands but the next thunk cell, and its thunk's address is stored there, the machine
//!   stands with one thunk more.
//!
//! Laws of runs are clauses of `step_sound` and `twin_run`. In proofs/ stand whole runs that the definitions compute.
#![tactic(auto)]

mod laws;

pub use laws::{
    cells_apart, cells_take_what_fits, ranges_lie_as_memory, readings_are_alike,
    stack_is_within_limit, things_are_named, thunk_made, turn_is_seen, written_number_shows,
    written_value_fits,
};

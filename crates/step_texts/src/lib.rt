//! What is printed of a step of a run: which it is, where the run stood, the instruction, and what changed; and of the state behind the
//! last one. docs/TRACE.md has the lines in words. Events have the lines of `printed_texts`, and instructions those of listings.
//!
//! Promises:
//!
//! - `append_step`: what is appended is `step_text` of the step and of the events that it added. The instruction has to have
//!   a spelling, as each that was decoded has.
//! - `append_pointed`: the line of what an argument of a native call points to, `pointed_line`.
//! - `append_holdings`, `append_open_call`, `append_back`, `append_open_function`: the lines of what the machine holds,
//!   `holdings_text`, of a native call that is under way, `call_line`, of a CALL of the image that hasn't returned, `back_line`,
//!   and of a function that hasn't, `function_line`.
//! - `append_row`, `append_more`: the line of bytes that have changed, `row_line`, and that of how many more there are,
//!   `more_line`.
//! - `Step`, `Change`, `Meaning`, `Thing`, `Stored`, `Cells`, `Holdings`, `OpenFunction`, `OpenCall`: plain data.
//!
//! The calls fail only by want of memory, and ask nothing of the notes.
#![tactic(auto)]

mod changes;
mod head;
mod meaning;
mod numbers;
mod pointed;
mod row;
mod state;
mod step;
mod text;

pub use meaning::{Meaning, Thing};
pub use pointed::{Cells, append_pointed};
pub use row::{append_more, append_row};
pub use state::{
    Holdings, OpenCall, OpenFunction, append_back, append_holdings, append_open_call,
    append_open_function,
};
pub use step::{Change, Step, Stored};
pub use text::append_step;

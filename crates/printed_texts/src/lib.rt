//! What is printed of runs, of points and states, and of samples. Things of the notes stand there by their names, and
//! values have the texts of notes and scripts (docs/NOTES.md; docs/SCRIPTS.md, "Texts"). So what is printed of a value
//! that scripts can write is read as that value (`printed_texts_are_read` of `protocol_script`).
//!
//! Promises, of runs:
//!
//! - `run_text`: its one clause says that the text is `run_text` of what the run shows: its events, its steps, where it
//!   stands and its ending.
//! - `twin_text`: the text is `twin_text` of the two such texts, the first at 4 bytes an address, and of the least
//!   number of steps after which the runs aren't the same, if there is one.
//! - `pair_text`: the text is `twin_text` of the texts of the runs of two images at 4 and at 8 bytes an address
//!   (docs/PAIRS.md), each `pair_run_text` of what the run shows, and of the least number of steps after which they
//!   aren't the same, if there is one.
//! - `differ_line`: the line of that number, or of none, is `differ_line`.
//! - `append_event`, `append_end`: what is appended is the line of the event, `event_line`, and the last line of a run,
//!   `end_line`.
//! - `refused_line`, `rule_text`: the line of a rule that fails at a place, and the rule's name, are those of the
//!   definitions.
//! - `Place` is displayed as `place_text`, a place in eight hexadecimal digits, and `ShownSpot` as `spot_text`, where a
//!   run stands.
//!
//! Of points and states, in which what notes may leave out is left out:
//!
//! - `points_text`: its one clause says that the text is `points_text` of the points, a table of TOML for each, one
//!   after the other.
//! - `state_text`: the text is `state_text` of the state at a place, four lines: `regs`, `stack`, `written` and `made`.
//! - `type_text`: the text is `type_text` of the type, where the locals have these fields.
//! - `function_at`: the function that a place belongs to is `function_at` of the notes.
//! - `printed_types_are_read`: what is printed of a type of a function is read (`type_of` of `note_texts`) as that
//!   type, under notes whose shapes and methods, and locals whose fields, have names that texts can have (`HaveNames`).
//!   The type is one within its bounds that names what is there (`IsKnown`).
//!
//! Of samples, in `sample`: that module has its promises.
//!
//! The calls fail only by want of memory, and ask nothing of the notes: a thing that they don't have has an empty name,
//! and in a run an `entry` or `method` of one no text.
#![tactic(auto)]

mod cell;
mod ending;
mod event;
mod function;
mod laws;
mod line;
mod link_plan;
mod lists;
mod names;
mod notes_text;
mod number;
mod pair;
mod point;
mod refusal;
mod run;
pub mod sample;
mod script_text;
mod source_text;
mod state;
mod ty;
mod value;

pub use event::append_event;
pub use function::function_at;
pub use laws::printed_types_are_read;
pub use number::{Place, ShownSpot};
pub use pair::{ShownPair, pair_text};
pub use point::points_text;
pub use refusal::{refused_line, rule_text};
pub use run::{ShownRun, append_end, differ_line, run_text, twin_text};
pub use state::state_text;
pub use ty::type_text;

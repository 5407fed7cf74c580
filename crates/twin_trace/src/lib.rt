//! The steps of the runs of an image at both widths, side by side: what docs/TRACE.md says that `both` prints.
//!
//! Promises:
//!
//! - `both`: the text has the lines of the steps of both runs, from the first to the last that is asked for, side by side
//!   (`step_beside`). Where the runs differ, the step that parts them is the last one, behind the line `differ K`, and the step before
//!   it is told too (`told_steps`). Then come the lines of the states of both after the last step that is told (`states_beside`), and
//!   the last lines of what both report up to that step. Where they part is what `twin_run::twin` finds (`IsBothText`). It fails only
//!   by want of memory.
#![tactic(auto)]

mod runs;
mod telling;

pub use telling::both;

//! Two texts side by side, one of either width: what is the same in both stands once (docs/TRACE.md, "Both widths").
//!
//! Promises:
//!
//! - `append_beside`: what is appended is `side_by_side` of the two texts. Each line of either stands there, in its order: once where
//!   the one beside it is the same, else with the mark of its width. It fails only by want of memory.
#![tactic(auto)]

mod beside;
mod line;

pub use beside::append_beside;

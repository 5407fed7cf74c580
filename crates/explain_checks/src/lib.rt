//! What is said of an image that is refused by a rule on the things of the notes, or on where control comes from and
//! goes to: `shape`, `function`, `static`, `decode`, `state`, `point`, `relocation`, `target`, `below`, `end`.
//! docs/RULES.md has the rules. No sentence has a clause.
#![tactic(auto)]

mod below;
mod clash;
mod content;
mod decoding;
mod functions;
mod points;
mod ranges;
mod refused;
mod shapes;
mod statics;
mod targets;
mod thunks;

pub use refused::{Refused, check_said};

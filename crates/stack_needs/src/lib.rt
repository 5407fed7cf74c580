//! How deep the calls of functions go, and how much stack they take: levels and needs for notes that leave them out.
//! docs/crates/stack_needs.md has the way.
//!
//! Promises:
//!
//! - `find_needs`: a level and a need for each function, in their order (`count`), or why there are none (`cause`). It
//!   goes over notes as they are read (`IsNotes`), whose functions keep their rule (`FunctionHolds`), and always
//!   returns. These are the causes (`HasStackCause`):
//!   - Uneven: two ways through a function's code come to the place with different amounts on the stack (`IsUnevenIn`).
//!   - Recursion: the function's calls lead back to it (`IsRecursive`).
//!
//! No clause says which level and which need.
#![tactic(auto)]

mod depth;
mod needs;
mod order;
mod outcome;
mod walk;

pub use needs::find_needs;
pub use outcome::{Found, Known, NotFound};

//! Walks through code from leader to leader, with what they meet left to their caller: what an instruction does, and
//! what becomes of a state that comes to a leader.
//!
//! Promises:
//!
//! - `Search::enter`, `Search::walk`: they go over an image and notes as they are read (`IsImage`, `IsNotes`), and
//!   always return. Only want of memory is an error.
//! - `Search::code`, `insn_at` of `Code`: the code of a function, and an instruction that stands there
//!   (`WellFormed`).
//!
//! `Source` is plain data. No clause says what comes to which leader: nobody has to believe what is found so.
#![tactic(auto)]

mod code;
mod search;
mod visitor;

pub use code::Code;
pub use search::Search;
pub use visitor::{Source, Visitor};

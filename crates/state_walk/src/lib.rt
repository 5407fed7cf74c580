//! What stands before an instruction of an image under notes: its function, the instruction itself, and the state
//! there, found by a walk from the function's start.
//!
//! Promises:
//!
//! `before`, of an image and notes that meet their readers' conditions, where it answers:
//!
//! - `insn`: the function is one of the notes and has the place. The instruction is the one that decodes there within
//!   the function, if one does. It stands where the answer says, if the rule `relocation` holds of it.
//! - `state`: the state is the one before the instruction there, by `StateAt` of `width_checker`.
//!
//! It answers nothing if a rule fails of a function, if no function has the place, or if the lengths of instructions
//! don't lead there. It also answers nothing if an instruction before it has no state, or breaks `relocation` or a rule
//! of its row.
//!
//! `given` is the same with a state that its caller knows, as `infer` does where it is stuck. Its clauses are `insn`
//! and that the state is the given one.
//!
//! `Before::leads` gives the states to which the instruction leads, by `row_of` of `width_checker` (`leads`), wherever
//! there are such (`whole`).
//!
//! `Walk::start` and `Walk::next` go through a function of which the rule `function` holds (`IsWalkedFunction`). `stands`: what
//! they give stands before an instruction of it (`StandsBefore`). `goes_on`: from an instruction that meets its rules
//! the walk goes to the next one, and ends only at the function's end.
//!
//! `Walk::insn_at` decodes at a place of the function, where the bytes are its own: what it gives decodes there
//! (`decodes`), and whatever does is given (`whole`).
//!
//! Since when nothing is known of a register has no clause. It is advice for a sentence.
#![tactic(auto)]

mod preceding;
mod walk;

pub use preceding::{Before, Since};
pub use walk::{Walk, before, given};

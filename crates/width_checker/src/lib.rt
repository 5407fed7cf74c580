//! The check of code for both pointer widths: whether every instruction meets its rules, and else the first that
//! doesn't.
//!
//! [`check`] is the check of an image under notes; docs/RULES.md has its rules. [`check_plain`] is the plain check, of
//! raw code that works on registers alone; docs/PLAIN.md has its rules.
//!
//! Promises:
//!
//! `Checker::run` and `check`, of an image and notes that meet their readers' conditions:
//!
//! - `verdict`, `neutral`: the verdict is Neutral exactly where the image is typed under the notes.
//! - `refused`: it is Refused at a place by a rule exactly where that is the first place at which a rule fails, in the
//!   order of docs/RULES.md, and the first rule that fails there.
//! - `room`: `run` keeps the length of `order`. It takes no memory, and may be called again.
//!
//! `Checker::reserve` gives `order` as many zeros as the notes have static objects, thunk cells and functions together
//! (`room`, `zeros`), which is what `run` asks. `check` is the two calls. Want of memory is the only error.
//!
//! `check_code`, of an image and notes that meet their readers' conditions, where the rules of shapes, functions,
//! static objects and thunk cells hold (`TablesHold`). It goes over the code once, with one state that is kept and one
//! for the jumps on a condition, both made once for all functions, and takes no memory:
//!
//! - `holds`: where it answers Ok, the image is typed under the notes.
//! - `fails`: else the refusal has the first place of a function at which a rule fails, and the first rule that fails
//!   there.
//!
//! Inside the crate, a `Walk` goes through a function, instruction by instruction, and `advance` makes the state that
//! is kept the one after an instruction, by `data_change` and `flow_step`, and tells where control goes on (`Path`), or
//! the rule that fails.
//!
//! `check_plain` and `Verdict` are those of `plain_check`, `RuleName` and `NoMemory` those of `note_types` and
//! `ebc_base`.
#![tactic(auto)]

mod checker;
mod refusal;
mod row;
mod walk;

pub use checker::{Checker, check};
pub use ebc_base::NoMemory;
pub use note_types::RuleName;
pub use plain_check::{Verdict, check_plain};
pub use refusal::Refusal;
pub use walk::check_code;

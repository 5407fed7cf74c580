//! The steps of a run at a width, told one by one: what docs/TRACE.md says that a trace prints.
//!
//! Promises:
//!
//! - `trace`: what is appended are the lines of each step from the first to the last that is asked for, as far as the run goes on
//!   (`text`). The lines of a step are those of `step_texts`, of what the step changed from the state before it to the state
//!   after it (`step_of`). The new number of a register has its meaning as an address, by where the objects of that state lie
//!   (`meaning_at`), and so has the address of a store. Below a native call stands what its arguments point to (`pointed_lines`).
//!   Last come the lines of the state after these steps (`state_lines`), with the CALLs that haven't returned (`open_calls`). What is
//!   reported is what `twin_run::run` reports up to that last step (`report`). It fails only by want of memory.
//! - `TracedRun`: a run on its way, with the CALLs that haven't returned (`IsAfter`). `start` begins it. `step` takes the next step, and
//!   `tell_step` appends its lines too (`lines_of`). `append_state` appends the lines of its state (`state_after`). `goes_on`: whether it
//!   does. They fail only by want of memory. `Program`: plain data.
//! - `steps_tell_stores`: an instruction of a run changes no byte but those that are told of its step (`StepsTellStores`).
#![tactic(auto)]

mod addresses;
mod before;
mod calls;
mod changed;
mod holding;
mod laws;
mod opened;
mod pointing;
mod stores;
mod telling;
mod traced;
mod walking;

pub use laws::steps_tell_stores;
pub use telling::{Program, trace};
pub use traced::TracedRun;

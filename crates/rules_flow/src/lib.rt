//! The typing rules of the instructions of control and of the stack: jumps, calls, returns, thunks, pushes and pops,
//! and the moves that make locals and drop items. docs/RULES.md has the rules in words, and "Where each rule stands"
//! names their files.
//!
//! Promises:
//!
//! - `after_flow`: the states after an instruction that has a spelling, or the first rule that fails, exactly as the
//!   definition of the same name gives them. It needs fewer than 2^32 thunks, and that functions, points and sites
//!   ascend by place (`Ascends`), as `IsNotes` has it. It takes no memory and copies the state once for each successor.
//! - `flow_step`: what such an instruction does, told by what changes; `goes` says that the states are those of
//!   `after_flow`, and `fits` that the change can be made. A checker that keeps one state makes the change in it.
//! - `Update::apply` makes the change of a step, and `narrow` the one of a jump on a condition. `Step::successors`
//!   gives the states that a step leads to.
//! - `places_ascend` tells whether functions, points and sites ascend by place. `number_at` finds what stands at a
//!   place by halving a list.
//! - `Successors` and `Step` are plain data.
#![tactic(auto)]

mod arguments;
mod calls;
mod flow;
mod frames;
mod jumps;
mod narrowing;
mod placed;
mod step;
mod successors;

pub use flow::{after_flow, flow_step};
pub use narrowing::narrow;
pub use placed::{number_at, places_ascend};
pub use rules_base::Here;
pub use step::{Step, Update};
pub use successors::Successors;

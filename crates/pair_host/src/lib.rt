//! Runs of two images on one host: image B provides functions, and image A's calls of bound methods enter them.
//! docs/PAIRS.md says what such a run is.
//!
//! Promises:
//!
//! - `read_binds`: that of `bind_texts`, handed on.
//! - `pair`: runs image B and then image A, each with its notes and its script, where A's calls of bound methods enter
//!   functions of B, at both widths, each run until it ends or for so many steps. It reports each (`at4`, `at8`, as
//!   `IsPairReport` has it), and the least number of steps, up to the same limit, after which the two aren't the same
//!   (`differ`, as `PairsDifferAt` has it). Of both images all was read, and each bind agrees (`agree`); the images
//!   need to keep no rule. Where both are typed there is no such number (`same_where_typed`), and neither run has
//!   raised anything but a division by zero (`raised_where_typed`). Of errors it gives want of memory alone. Both runs
//!   go in step while they are the same; then only the events that a step adds are compared. Once they part each goes
//!   on by itself.
//! - `start`: the runner of a pair at the state before the first step (`own_pair_run`), with room for so many events.
//!   It fails only where there is no memory; no other call takes any.
//! - `PairRunner::step`: from the runner of a pair in a state to that in the state after one step, which is exactly
//!   `pair_step_at` under the placements that this project takes. A step adds one event at most (`room`), so there is
//!   room for all events of a run where there was for as many as its steps. `PairRunner::ending`, `PairRunner::spot`,
//!   `PairRunner::trace` and `PairRunner::into_trace`: exactly what that state shows.
#![tactic(auto)]

mod comparing;
mod driver;
mod pair_runner;
mod pairs;
mod reports;
mod stage;
mod telling;

pub use bind_texts::read_binds;
pub use driver::Driver;
pub use pair_model::{Bind, Binds, PairEvent};
pub use pair_runner::{PairRunner, start};
pub use pairs::pair;
pub use reports::{PairReport, PairRun};

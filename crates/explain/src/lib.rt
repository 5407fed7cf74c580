//! What the programs say on standard error of an answer: what was found, what is wanted and where, and the page that
//! mends it (docs/COMMANDS.md, "Standard error"). The sentences come from `explain_answers` as data (`Said` of
//! `explain_base`). This crate makes the lines of them.
//!
//! Promises:
//!
//! - `explanation` is given the answer and the files that were kept, a folder in memory. It can touch no file of the
//!   system.
//!   - `shown`: no control character stands in the text but the line feeds at the ends of lines. U+0080 to U+009F are
//!     controls, too.
//!   - `done`: nothing is said of an answer that is done, unless a run ended otherwise than finished,
//!     or an option ROM was made.
//!   - `says`: of each other answer than one that is done something is said.
//!   - `agrees`: the first line begins with the file of the outcome, or with the program (`outcome_head`). Of a refusal the
//!     place and the rule follow. Of `check IMAGE NOTES` and `infer` the place is told by the function that has it in the
//!     notes that were kept. Of `check CODE` it is the offset, and of `ebc_notes` the place as a number. Of a file that
//!     isn't of its form, with the words of `link` or `ebc_notes`, the clause says nothing. Nor does it of a file that
//!     can't be written, of one that is too large, and of runs that differ.
//! - `Told`: its `invariant` is `IsShown`. `part` and `line` add what `shown` says of a text. `add_said` adds lines
//!   that begin with what it is given.
//! - `tell` hands the answer, with what the folder kept and the system said, to `explanation`, and prints the text. It
//!   has no clause.
//! - `Watched` is a `Sink` with each clause of that trait. No clause says which runs it calls amiss, nor which line it
//!   keeps.
#![tactic(auto)]

mod heads;
mod lines;
mod outcomes;
mod refused;
mod telling;
mod told;
mod watched;

pub use explain_answers::{Answer, Program};
pub use lines::add_said;
pub use outcomes::explanation;
pub use telling::{say_no_memory, tell};
pub use told::Told;
pub use watched::Watched;

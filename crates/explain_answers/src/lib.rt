//! The sentences that the programs say on standard error of an answer (docs/COMMANDS.md, "Standard error"). The crates
//! below give what is said as data (`Said` of `explain_base`). This one takes the fault of a file from the answer's
//! line, and goes any other failed step again over the kept files, a folder in memory. `explain` makes the lines.
//!
//! Promises:
//!
//! - `Answer`: a word by its number, whether the words name a plan, whether raw code is checked, and whether an option
//!   ROM is made.
//! - `Program`: its name.
//! - The sentences have no clause. The calls end, and fail by want of memory alone, unless reads of the folder were set
//!   to fail.
//!
//! | Sentence | Of |
//! |---|---|
//! | `words_said` | words that are no command |
//! | `unread_said`, `large_said`, `unwritten_said` | a file that can't be read, is too large or can't be written; a number past its limit |
//! | `bad_said`, `number_said` | a file that isn't of its form |
//! | `refused_image_said`, `refused_code_said`, `rule_said` | a refusal |
//! | `completed_said` | a refusal of notes with labels, by the draft of complete notes under which the rule fails, and their faults |
//! | `runs_said`, `differ_said` | runs that end otherwise than finished, and two that differ |
//! | `wrapping_said` | an image of which an option ROM was made, and that firmware doesn't start from there |
#![tactic(auto)]

mod answer;
mod driver;
mod files;
mod inputs;
mod keys;
mod labelled;
mod plans;
mod printed;
mod program;
mod refusals;
mod rules;
mod runs;
mod since;
mod sites;
mod words;

pub use answer::Answer;
pub use files::{large_said, unread_said, unwritten_said};
pub use inputs::{bad_said, number_said, wrapping_said};
pub use labelled::{Labelled, completed_said};
pub use program::Program;
pub use refusals::{refused_code_said, refused_image_said};
pub use rules::rule_said;
pub use runs::{differ_said, runs_said};
pub use words::words_said;

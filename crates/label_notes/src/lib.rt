//! Complete notes from notes with labels, and the labels of a plan's objects by their places.
//!
//! The one public call is [`notes`]. docs/LABELS.md has the words and the answers; the definitions that the contracts
//! cite stand in specs/.
//!
//! Promises:
//!
//! `notes`, where the folder tells its files:
//!
//! - `answer`: an answer and what is printed for it are those of a reply to what the words ask for (`request_of`,
//!   `IsReplyTo`). These are the replies:
//!   - To `PLAN` it prints the labels by their places (`IsMap`).
//!   - To `PLAN NOTES` it prints complete notes (`IsComplete`), or the first fault of a label, another fault, a refusal
//!     or `large` (`TellsNotes`). Each has its cause: a refusal a draft of the text under which the rule fails
//!     (`HasRefusal`), `large` a filled text that is too long or has too many leaders (`IsLarge`), and a fault that is
//!     no label's one of those that `HasFault` lists. A `large` of a file too long is the reading's (`request_of`).
//! - `asked`: the files asked for are the plan, its objects and the text, in this order, also where a put failed.
//!   `asked_part`: with every outcome a first part of them is asked for, and no other.
//! - `uncounted`: the count of failed reads stays as it was, unless the outcome is ReadFault.
//! - `unput`: where a plan's objects have no label, the map puts nothing. `untold`: and then the outcome is never
//!   WriteFault.
//! - `write_fault_leaves`: where the put fails, a first part of a reply's text may have been printed.
//!
//! And whatever the folder tells:
//!
//! - `contents`, `write_faults`: no file changes, and nothing is written.
//! - `bad_words`: the answer is BadWords exactly where the words aren't the names of a plan, or of a plan and a text.
//!   `missing`: where the files aren't told, Missing comes only with a count of failed reads that rose. `read_fault`,
//!   `write_fault`: ReadFault comes only with a count of failed reads that rose, WriteFault only with a count of failed
//!   puts that did.
//! - `read_fault_leaves`: where a read failed, the output is as it was. `no_memory_leaves`: where memory ran out,
//!   nothing was printed.
//!
//! No clause says which levels, needs, ends, counts, sites and points a draft has.
//!
//! No clause says what stands behind the path of a fault, nor below the line of a refusal: the label, the line and
//! column in the text, the label before the place, and the lines of the state.
#![tactic(auto)]

mod answer;
mod map;
mod mark;
mod near;
mod reading;
mod replying;
mod request;
mod shared;
mod text;

pub use answer::notes;
pub use cli_base::Outcome;

//! Notes with labels made complete, over objects that are linked. docs/LABELS.md has the words.
//!
//! Promises:
//!
//! - `complete`: where it gives notes, they have at most 1 MiB, the image is typed under them, and they say all that
//!   the text says (`IsComplete`).
//! - `complete`: where the text isn't TOML, or has a fault of a label, the first such fault is told, and nothing else
//!   (`label_faults`). It fails only where there is no memory.
//! - `complete`: each other answer has a cause under a draft, which is notes that say all that the text says (`IsNotesDraft`):
//!   - `refused`: a rule is refused at a place only where it fails there under a draft (`HasRefusal`).
//!   - `large`: notes are too large only where a filled text is printed longer than 1 MiB, or a draft has too many
//!     leaders (`IsLarge`).
//!   - `faulty`: a fault that is no label's is one of forms, repeats or names, of values that nest too deep, of the
//!     notes that are printed, or of calls that lead back (`HasFault`).
//! - `stop_of`: the draft that it gives is one of the text, and meets the conditions of notes (`drafted`, `conditions`). It
//!   goes the same steps as `complete`. No clause says that it is the draft at which `complete` ends.
//!
//! No clause says which levels, needs, sites and points are found. So drafts may have any, and no clause says which of
//! the rules that fail is told.
#![tactic(auto)]

mod completing;
mod completion;
mod depths;
mod filling;
mod halt;
mod missing;
mod stopping;
mod task;

pub use completing::complete;
pub use completion::{Completion, Linked};
pub use ebc_base::NoMemory;
pub use filling::Draft;
pub use note_filling::Flaw;
pub use stopping::{Stop, stop_of};

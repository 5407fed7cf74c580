//! What is said of a text in TOML with a fault: notes, a script, a plan, binds. And what is said of a run that ends
//! otherwise than finished, of `run`, `twin` and `pair`. Each sentence tells the key, what stands there and what is
//! wanted, with the line and the column.
//!
//! Promises:
//!
//! No sentence has a clause. The calls end, and fail by want of memory alone. What is said of a run may remember it instead
//! (`Said::is_short`).
//!
//! - `toml_said`: by the fault of the reader, under the name of the file. It is told what the text is, and the notes
//!   whose names it may use.
//! - `run_said`: of a run of `run`. `None` if it finished.
//! - `twin_said`, `pair_said`: of the two runs of `twin` and of `pair`, one sentence if they end alike.
//!
//! | Fault | Sentence |
//! |---|---|
//! | `NotToml` | what the parser says, where it stopped |
//! | `Missing` | the table, the key and its form; the keys of that table that don't belong there |
//! | any, at a key that is left out | the same |
//! | `Kind` | the value's kind and the form; or that this is no key |
//! | `Range` | the first item or the value that isn't of its form; else what the first condition wants that fails |
//! | `Name` | the name that isn't there, and the names that there are; of a field the fields of the shape, and of `write` the objects |
//! | `Twice` | the item or the key, and the earlier one |
//!
//! | End of a run | Sentence |
//! |---|---|
//! | `Running` | how many steps it took, and how many there may be |
//! | `Raised` | the exception, and in a run of one image its place |
//! | `ScriptEnd` | the table that the script lacks, with the words of the call |
//! | `Mismatch` | by its reason: what the driver does and what the script has |
//! | `Mismatch` of a reply, of a callback | which value doesn't fit; why it can't be entered |
//!
//! In a run of two images the script is that of the image with the last event. After a function returned that a bound
//! method entered, it is the consumer's, if the reply doesn't fit. The page is docs/PAIRS.md, and else docs/SCRIPTS.md.
//!
//! The tables of keys and forms (`KeyForm`) are those of docs/NOTES.md, docs/SCRIPTS.md, docs/LINKING.md and
//! docs/PAIRS.md.
#![tactic(auto)]

mod bind_conditions;
mod faults;
mod faulty;
mod fields;
mod forms;
mod names;
mod note_conditions;
mod pairs;
mod ranges;
mod repeats;
mod replies;
mod runs;
mod script_conditions;
mod torn;
mod values;

pub use faults::toml_said;
pub use faulty::{NotesFile, TomlText};
pub use pairs::{ScriptedPair, pair_said};
pub use runs::{Scripted, Width, run_said, twin_said};

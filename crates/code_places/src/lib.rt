//! The places of the code of an image: a line for each, with the place, its bytes, the line of the listing, and the
//! place that the line names by a distance (docs/COMMANDS.md, "The places of an image"). Images are read by `cli_base`,
//! and what is listed is that of `ebc_disasm`.
//!
//! Promises:
//!
//! `places`, where the folder tells its files:
//!
//! - `answer`: an answer and what is printed for it are those of the run that the words ask for (`answer_to_words`).
//! - `asked`: the file asked for is the one that they name, also where a put failed. `asked_part`: with every outcome
//!   no other file is asked for.
//! - `shows`: where the one word names a file within the limit that stands for an image (`ShowsImage`), the answer is
//!   Done, and what is printed is exactly `places_text` of the image.
//! - `unput`: where the answer has no text (`answer_text`), as that to an image without code, the output is as it was:
//!   no empty text is put, either. `untold`: and then the outcome is never WriteFault.
//! - `uncounted`: the count of failed reads stays as it was, unless the outcome is ReadFault.
//! - `write_fault_leaves`: where the put fails, a first part of the answer's text may have been printed.
//!
//! And whatever the folder tells:
//!
//! - `listed`: the lines of an image's places are those of the listing's sections with code that say bytes.
//! - `contents`, `write_faults`: no file changes, and nothing is written.
//! - `bad_words`: the answer is BadWords exactly where the words aren't the one name of a file. `missing`: where the
//!   files aren't told, Missing comes only with a count of failed reads that rose. `read_fault`, `write_fault`:
//!   ReadFault comes only with a count of failed reads that rose, WriteFault only with a count of failed puts that did.
//! - `read_fault_leaves`: where a read failed, the output is as it was. `no_memory_leaves`: where memory ran out,
//!   nothing was printed.
#![tactic(auto)]

mod answer;
mod line;
mod target;

pub use answer::places;
pub use cli_base::Outcome;

//! The answer to the words of `ebc_lint`: the warnings of an image under notes (docs/FIRMWARE.md, "Warnings").
//!
//! Promises:
//!
//! `lint`, where the folder tells its files:
//!
//! - `answer`: an answer and what is printed for it are those of a reply to the image and the notes that the words name
//!   (`request_of`, `TellsLint`). These are the replies:
//!   - Of an image that isn't typed it is the refusal, exactly as `check` of `width_checker` has it (`IsRefused`).
//!   - Of a typed image it is the lines of the warnings (`AreWarnings`), and whether there is one is told, too.
//! - `asked`: the files asked for are the image and the notes, in this order, also where a put failed. `asked_part`:
//!   with every outcome a first part of them is asked for, and no other.
//! - `uncounted`: the count of failed reads stays as it was, unless the outcome is ReadFault.
//! - `write_fault_leaves`: where the put fails, a first part of a reply's text may have been printed.
//!
//! And whatever the folder tells:
//!
//! - `warned`: a warning is told of what is done alone.
//! - `contents`, `write_faults`: no file changes, and nothing is written.
//! - `bad_words`: the answer is BadWords exactly where the words aren't the names of an image and of notes. `missing`:
//!   where the files aren't told, Missing comes only with a count of failed reads that rose. `read_fault`,
//!   `write_fault`: ReadFault comes only with a count of failed reads that rose, WriteFault only with a count of failed
//!   puts that did.
//! - `read_fault_leaves`: where a read failed, the output is as it was. `no_memory_leaves`: where memory ran out,
//!   nothing was printed.
//!
//! `Answer::code`: the exit status, exactly `lint_status`. `kind_name`: the name of a kind.
#![tactic(auto)]

mod answer;
mod text;

pub use answer::{Answer, lint};
pub use cli_base::Outcome;
pub use text::kind_name;

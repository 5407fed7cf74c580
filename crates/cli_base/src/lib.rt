//! What the programs of this repository share: how a call ends, the files that words name, the answers that are printed
//! or written, and the exit status. docs/COMMANDS.md has the lines and the statuses.
//!
//! Promises:
//!
//! - `file`: the file of a name, up to its limit, or the reply that it is missing or too large (`file` of the
//!   definitions); which name was asked for, and why a read fails.
//! - `image_in`: the image that bytes stand for, or the reply to their first fault (`image_meaning`).
//! - `finish`: what a reply prints or writes, and nothing else: the text is put at once, an empty one not at all; no
//!   other file changes; and why it ends otherwise.
//! - `Outcome::code` and `status`: the exit status of an outcome, exactly `exit_status`.
//! - `words_of`: the arguments behind the program's name, none where one of them isn't UTF-8, and want of memory where
//!   the system tells it (`words_in`). Which arguments the system has is told by no clause.
//! - `text`: the replies to a file that is missing, too large, bad or no image.
#![tactic(auto)]

mod fault;
mod finishing;
mod image;
mod outcome;
mod program;
mod reading;
mod reply;
pub mod text;

pub use finishing::finish;
pub use image::{IMAGE_LIMIT, image_in};
pub use outcome::Outcome;
pub use program::{status, words_of};
pub use reading::file;
pub use reply::{End, Output, Reply};

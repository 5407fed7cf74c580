//! Samples: programs of so many functions that are made by their number, each of which calls the next and adds its own
//! number. The texts of one (its source, its notes and its script), the plan by which it is linked, and the line that
//! is told of it. docs/COMMANDS.md, "Samples", has them in words. Assembled, linked, checked and run at both widths, a
//! sample goes the whole way through the program: that is the command `sample` of `ebc_cli`.
//!
//! Promises:
//!
//! - `source`: `text` says that the text is `source_text` of the number of functions; `short` that it has at most 1 MiB
//!   where these are at most 4,096, so that the object of it has a file.
//! - `notes`: the text is `notes_text` of the number of functions, at most 4,096.
//! - `script`: the text is `script_text`, the same for all.
//! - `plan`: `plan` says that it is `sample_plan`, the same for all; `conditions` that it meets the conditions on
//!   plans, `IsPlan`.
//! - `sample_line`: the line is `sample_line` of what is shown (`ShownSample`): how many functions and how many bytes
//!   of code the sample has, the number with which its run finished and its steps, the line of its check, and the last
//!   line of its run at both widths.
//!
//! That the texts of a sample are assembled, linked, read and neutral is no promise of this crate.

pub use crate::line::{ShownSample, sample_line};
pub use crate::link_plan::plan;
pub use crate::notes_text::notes;
pub use crate::script_text::script;
pub use crate::source_text::source;

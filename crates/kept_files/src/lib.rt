//! A folder over a folder. It answers as that one does, and keeps the files that it gave (docs/OUTSIDE.md, "The folders
//! and sinks that there are"). `ebc` is handed one, so that what is said of an answer on standard error is said of the
//! bytes that were read.
//!
//! Promises:
//!
//! - `Kept` is a `Folder` with each clause of that trait. Its contents, the names that were asked for and both counts
//!   of faults are those of the folder below. `kept`: a read leaves a file kept only if it gave it. Then exactly these
//!   bytes are kept under its name, and the room for others falls by their number. Else all that is kept stays.
//! - `asked` hands out the name that was asked for last, or nothing if there was no memory for it (`name`).
//! - `Kept::new` begins with no file and 32 MiB of room. `replay` hands out what is kept, as a folder in memory.
//! - A file is left out only for want of memory or of room. No clause says so, since want of memory has no cause.
#![tactic(auto)]

mod kept;

pub use kept::Kept;

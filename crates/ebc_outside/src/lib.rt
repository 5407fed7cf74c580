//! Files and output, as the tools see them.
//!
//! A `Folder` is read and written, and a `Sink` is put to. `MemFolder` and `MemSink` keep all in memory, and can be
//! told which of their calls are to fail. `HostFolder` and `HostSink` stand on the system, and no clause says what it
//! holds or takes.
//!
//! Promises:
//!
//! - `Folder::read`: where the contents are told, `answer` says that it gives the first bytes of the file, up to one
//!   past the limit, and that Missing comes only where there is no such file; where they aren't told, `missing` says
//!   that Missing comes only with a count of failed reads that rose. `fault`: a Fault comes only with a count that
//!   rose. `uncounted`: where the contents are told, no other answer changes that count, so a fault isn't told as want
//!   of memory. `contents`, `write_faults`: a read changes neither. `asked`: its name joins the names of the reads
//!   unless memory was refused.
//! - `Folder::write`: `written` says that the bytes then stand under the name and every other file is as before;
//!   `fault`, that a Fault comes only with a count of failed writes that rose; `others`, that it leaves every other
//!   file; `memory`, that want of memory leaves all files; `uncounted`, that no other answer changes the count where
//!   the contents are told; `read_faults` and `asked`, that a write changes neither.
//! - `Sink::put`: `written` says that all the bytes are appended; `fault`, that a Fault comes only with a count that
//!   rose; `part`, that a first part of the bytes may then stand at the end; `memory`, that want of memory appends
//!   nothing.
//! - `MemFolder`: `listed` and `unlisted` say for reads and for writes that a call whose number is on its list fails,
//!   and no other; `read_faults` and `write_faults` count exactly those. `insert`, `fail_reads` and `fail_writes`
//!   change what they name and nothing else.
//! - `MemSink`: the same for puts. `text` gives what was put.
//! - `HostFolder`, `HostSink`: `faults` counts each error, a name that isn't found among them, and no want of memory.
//!   What the system holds is told by no clause; over a writer whose contents are known, `whole`, `part` and `none` of
//!   `HostSink` say which bytes it took. That a failed write of `HostFolder` leaves a regular file as it was is shown
//!   by a test alone; `name_beside` has a clause that the new file stands in the same folder. `cause` hands out the
//!   last error of the system, for what is said to a reader. No clause says which it is.
#![tactic(auto)]

mod ends;
mod folder;
mod host_folder;
mod host_sink;
mod host_write;
mod mem_folder;
mod mem_sink;
mod sink;
mod whole;

pub use ends::{ReadEnd, SinkEnd, WriteEnd};
pub use folder::Folder;
pub use host_folder::HostFolder;
pub use host_sink::HostSink;
pub use mem_folder::MemFolder;
pub use mem_sink::MemSink;
pub use sink::Sink;

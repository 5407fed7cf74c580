//! The program of docs/TRACE.md: it answers as `run` does, or as `twin` does of both widths. Where the runs are done it prints the
//! steps that the words ask for, and the last lines. It says on standard error what there is to say, and ends with the exit status of
//! the outcome.
//!
//! Promises:
//!
//! - `answer`: want of memory for the words is told as such (`memory`).
//! - `lines_at`: the text of a run that is done has the lines of its steps from the first to the last (`trace_lines` of
//!   run_trace), and then the last line of what the run up to that one reports (`end_line` of printed_texts). The text of both runs is
//!   that of `both` of twin_trace.
//! - Which files are read, and what is printed where a run isn't done, is what `ebc` of ebc_cli promises of the words of
//!   `run` and `twin`. No clause says what is put to the system's output.
#![tactic(auto)]

mod answering;
mod request;
mod saying;
mod tracing;

ghost use Rattle.std.specs.Prelude.{◌≡◌, IsErr};

use crate::answering::answer_words;
use crate::saying::say_no_memory;
use cli_base::{Outcome, status, words_of};
use ebc_outside::HostSink;
use explain::Watched;
use std::alloc::AllocError;
use std::io;
use std::process::ExitCode;

// The answer to the words, where there was memory for them, over the system's files and output.
fn answer(rt: &HostRuntime, words: Result<Vec<String>, AllocError>) -> Outcome
    ensures memory { IsErr words → result ≡ Outcome.NoMemory }
{
    let Ok(words) = words else {
        say_no_memory(rt);
        return Outcome::NoMemory;
    };
    let mut out = Watched::new(HostSink::new(io::writer(rt)));
    answer_words(rt, words.as_slice(), &mut out)
}

fn main(rt: HostRuntime) -> ExitCode {
    status(answer(&rt, words_of(&rt)))
}

//! The answer to words over the system's files and output.

use crate::request::{Misuse, Request};
use crate::saying::{say_large, say_misuse, say_no_memory, say_unwritten};
use crate::tracing::traced;
use cli_base::Outcome;
use ebc_cli::ebc;
use ebc_outside::{Folder, HostFolder, HostSink, MemFolder, MemSink, Sink, SinkEnd};
use explain::{Answer, Program, Watched, explanation, tell};
use kept_files::Kept;
use std::alloc::Global;
use std::io;
use std::rt::Files;

const USAGE: &[u8] =
    b"usage: WIDTH IMAGE NOTES SCRIPT FIRST LAST | both IMAGE NOTES SCRIPT FIRST LAST\n";

// Puts a text, if it has one, and says how the answer of this outcome ends.
fn put<O: Sink>(alloc: Global, outcome: Outcome, text: &[u8], out: &mut O) -> Outcome {
    if text.is_empty() {
        return outcome;
    }
    match out.put(alloc, text) {
        Ok(()) => outcome,
        Err(SinkEnd::Fault) => Outcome::WriteFault,
        Err(SinkEnd::NoMemory) => Outcome::NoMemory,
    }
}

// The answer of `run` or `twin`, whose text is put into memory.
fn run<F: Folder>(
    alloc: Global,
    words: &Vec<String>,
    folder: &mut F,
    printed: &mut MemSink,
) -> Outcome {
    ebc(alloc, words, folder, printed)
}

// Says of a run that is done what `run` or `twin` says of its end.
fn say_end<R: io::Eprint + AllocGlobal>(
    rt: &R,
    words: &Vec<String>,
    outcome: Outcome,
    amiss: bool,
    folder: MemFolder,
) {
    let answer = Answer {
        alloc: rt.alloc(),
        program: Program::Ebc,
        words,
        outcome,
        amiss,
        asked: "",
        cause: "",
        fault_line: "",
    };
    // The printed line tells the end also where this text can't be made or printed.
    if let Ok(text) = explanation(&answer, folder) {
        let text = text.as_str();
        let _ = eprint!(rt; "{text}");
    }
}

// Prints the steps of a run that is done, or of two that differ, over the files that were kept, and says what there is to say of its end.
fn print_steps<R: io::Eprint + AllocGlobal, W: io::Write + Drop>(
    rt: &R,
    request: &Request,
    words: &Vec<String>,
    outcome: Outcome,
    folder: MemFolder,
    out: &mut Watched<HostSink<W>>,
) -> Outcome {
    let mut folder = folder;
    let Ok(text) = traced(rt.alloc(), request, &mut folder) else {
        return Outcome::NoMemory;
    };
    let outcome = put(rt.alloc(), outcome, text.as_slice(), out);
    if let Outcome::Done | Outcome::Differ { .. } = outcome {
        say_end(rt, words, outcome, out.amiss(), folder);
    }
    outcome
}

// Prints what `run` or `twin` answers where it isn't done, and says of a file what it says.
fn print_refusal<R: Files + io::Eprint + AllocGlobal, W: io::Write + Drop>(
    rt: &R,
    request: &Request,
    words: &Vec<String>,
    outcome: Outcome,
    text: &[u8],
    folder: Kept<HostFolder<R>>,
    out: &mut Watched<HostSink<W>>,
) -> Outcome {
    let outcome = put(rt.alloc(), outcome, text, out);
    match outcome {
        Outcome::NoMemory | Outcome::WriteFault => {}
        Outcome::TooLarge { word } if word == request.last_number() => say_large(rt, request),
        _ => tell(rt, Program::Ebc, words, outcome, folder, out),
    }
    outcome
}

// The answer to a request, where the words of `run` or `twin` for it could be made.
fn answer_run<R: Files + io::Eprint + AllocGlobal, W: io::Write + Drop>(
    rt: &R,
    request: &Request,
    words: &Vec<String>,
    out: &mut Watched<HostSink<W>>,
) -> Outcome {
    let mut folder = Kept::new(rt.alloc(), HostFolder::new(rt));
    let mut printed = MemSink::new(rt.alloc());
    match run(rt.alloc(), words, &mut folder, &mut printed) {
        outcome @ (Outcome::Done | Outcome::Differ { .. }) => {
            print_steps(rt, request, words, outcome, folder.replay(), out)
        }
        outcome => print_refusal(rt, request, words, outcome, printed.text(), folder, out),
    }
}

// The answer to a request. What there is to say of its files and of LAST is said.
fn answer_request<R: Files + io::Eprint + AllocGlobal, W: io::Write + Drop>(
    rt: &R,
    request: &Request,
    out: &mut Watched<HostSink<W>>,
) -> Outcome {
    let Ok(words) = request.run_words(rt.alloc()) else {
        return Outcome::NoMemory;
    };
    answer_run(rt, request, &words, out)
}

// The answer to words that aren't of their form, of which it is said what is wanted.
fn answer_misuse<R: io::Eprint + AllocGlobal, W: io::Write + Drop>(
    rt: &R,
    misuse: Misuse,
    out: &mut Watched<HostSink<W>>,
) -> Outcome {
    let outcome = put(rt.alloc(), Outcome::BadWords, USAGE, out);
    if let Outcome::BadWords = outcome {
        say_misuse(rt, misuse);
    }
    outcome
}

/// The answer to words, over the system's files and this output. What there is to say of it is said on standard error.
pub(crate) fn answer_words<R: Files + io::Eprint + AllocGlobal, W: io::Write + Drop>(
    rt: &R,
    words: &[String],
    out: &mut Watched<HostSink<W>>,
) -> Outcome {
    let outcome = match Request::of(words) {
        Ok(request) => answer_request(rt, &request, out),
        Err(misuse) => answer_misuse(rt, misuse, out),
    };
    match outcome {
        Outcome::WriteFault => say_unwritten(rt, out.sink().cause()),
        Outcome::NoMemory => say_no_memory(rt),
        _ => {}
    }
    outcome
}

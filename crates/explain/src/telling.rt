//! The edge to the system's standard error.

use crate::outcomes::explanation;
use crate::watched::Watched;
use cli_base::Outcome;
use ebc_outside::{HostFolder, HostSink};
use explain_answers::{Answer, Program};
use kept_files::Kept;
use std::alloc::{AllocError, Global};
use std::io;
use std::rt::Files;

// The system's words for an error; empty if there is no memory for them.
fn error_text(alloc: Global, error: &io::Error) -> String {
    match format!(in alloc; "{error}") {
        Ok(text) => text,
        Err(AllocError) => String::new(alloc),
    }
}

// The same of an error that may have come.
fn cause_text(alloc: Global, error: Option<&io::Error>) -> String {
    match error {
        Some(error) => error_text(alloc, error),
        None => String::new(alloc),
    }
}

// The system's words for the error that ended a read or a write, or else a put.
fn first_cause<R: Files, W: io::Write + Drop>(
    alloc: Global,
    folder: &HostFolder<R>,
    out: &HostSink<W>,
) -> String {
    match folder.cause() {
        Some(error) => error_text(alloc, error),
        None => cause_text(alloc, out.cause()),
    }
}

/// Says on standard error that memory ran out.
pub fn say_no_memory<R: io::Eprint>(rt: &R, program: Program) {
    let name = program.name();
    // The exit status tells it also where this line can't be printed.
    let _ = eprint!(rt; "{name}: error: memory ran out\n");
}

/// Says on standard error what there is to say of the outcome of a program's words, over the folder and the sink that it had.
pub fn tell<R: Files + io::Eprint + AllocGlobal, W: io::Write + Drop>(
    rt: &R,
    program: Program,
    words: &Vec<String>,
    outcome: Outcome,
    folder: Kept<HostFolder<R>>,
    out: &Watched<HostSink<W>>,
) {
    let alloc = rt.alloc();
    let cause = first_cause(alloc, folder.folder(), out.sink());
    let asked = match String::from_str(alloc, folder.asked()) {
        Ok(asked) => asked,
        Err(AllocError) => String::new(alloc),
    };
    let answer = Answer {
        alloc,
        program,
        words,
        outcome,
        amiss: out.amiss(),
        asked: asked.as_str(),
        cause: cause.as_str(),
        fault_line: out.fault_line(),
    };
    match explanation(&answer, folder.replay()) {
        // The exit status tells the outcome also where this text can't be printed.
        Ok(text) => {
            let text = text.as_str();
            let _ = eprint!(rt; "{text}");
        }
        Err(_) => {
            if let Outcome::NoMemory = outcome {
                say_no_memory(rt, program);
            }
        }
    }
}

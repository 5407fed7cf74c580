//! The program of `image_lint`: it gathers its words, calls `lint` over the system's files and standard output, says on
//! standard error what there is to say of the warnings or of the answer, and ends with the exit status of the answer.
//! docs/FIRMWARE.md, "Warnings", has its lines.
//!
//! Promises:
//!
//! - `answer`: want of memory for the words is told as such (`memory`).
//! - What is answered, printed and read is what `lint` of image_lint promises. What the system's files hold and what its
//!   output takes is told by no clause.
#![tactic(auto)]

mod saying;

ghost use Rattle.std.specs.Prelude.{◌≡◌, IsErr};

use crate::saying::warned;
use cli_base::words_of;
use ebc_base::NoMemory;
use ebc_outside::{HostFolder, HostSink};
use explain::{Program, Watched, say_no_memory, tell};
use image_lint::{Answer, Outcome, lint};
use kept_files::Kept;
use std::alloc::{AllocError, Global};
use std::io;
use std::process::ExitCode;
use std::rt::Files;

// Says what there is to say of warnings.
fn say_warnings<R: Files + io::Eprint + AllocGlobal>(
    rt: &R,
    words: &Vec<String>,
    folder: Kept<HostFolder<R>>,
) {
    // The exit status tells the warnings also where this text can't be made or printed.
    if let Ok(text) = warned(rt.alloc(), words.as_slice(), folder.replay()) {
        let text = text.as_str();
        let _ = eprint!(rt; "{text}");
    }
}

// The words of `check` for the same files.
fn check_words(alloc: Global, words: &[String]) -> Result<Vec<String>, NoMemory> {
    let mut all = Vec::new(alloc);
    all.push(String::from_str(alloc, "check")?)?;
    for word in words {
        all.push(String::from_str(alloc, word.as_str())?)?;
    }
    Ok(all)
}

// Says what there is to say of a refusal, as `ebc check` does.
fn say_refusal<R: Files + io::Eprint + AllocGlobal, W: io::Write + Drop>(
    rt: &R,
    words: &[String],
    outcome: Outcome,
    folder: Kept<HostFolder<R>>,
    out: &Watched<HostSink<W>>,
) {
    if let Ok(words) = check_words(rt.alloc(), words) {
        tell(rt, Program::Ebc, &words, outcome, folder, out);
    }
}

// The answer to the words, where there was memory for them, over the system's files and output. What there is to say of it is said.
fn answer(rt: &HostRuntime, words: Result<Vec<String>, AllocError>) -> Answer
    ensures memory { IsErr words → result.outcome ≡ Outcome.NoMemory }
{
    let Ok(words) = words else {
        say_no_memory(rt, Program::EbcLint);
        return Answer {
            outcome: Outcome::NoMemory,
            warned: false,
        };
    };
    let mut folder = Kept::new(rt.alloc(), HostFolder::new(rt));
    let mut out = Watched::new(HostSink::new(io::writer(rt)));
    let answer = lint(rt.alloc(), &words, &mut folder, &mut out);
    match answer.outcome {
        Outcome::Done if answer.warned => say_warnings(rt, &words, folder),
        Outcome::Refused { .. } => {
            say_refusal(rt, words.as_slice(), answer.outcome, folder, &out);
        }
        _ => tell(rt, Program::EbcLint, &words, answer.outcome, folder, &out),
    }
    answer
}

fn main(rt: HostRuntime) -> ExitCode {
    ExitCode::from(answer(&rt, words_of(&rt)).code())
}

//! The program of `code_places`: it gathers its words, calls `places` over the system's files and standard output, says
//! on standard error where the outside failed, and ends with the exit status of the outcome. docs/COMMANDS.md, "The
//! places of an image", has its lines.
//!
//! Promises:
//!
//! - `outcome`: want of memory for the words is told as such (`memory`).
//! - What is answered, printed and read is what `places` of code_places promises. What the system's files hold and what
//!   its output takes is told by no clause.
#![tactic(auto)]

ghost use Rattle.std.specs.Prelude.{◌≡◌, IsErr};

use cli_base::{status, words_of};
use code_places::{Outcome, places};
use ebc_outside::{HostFolder, HostSink};
use explain::{Program, Watched, say_no_memory, tell};
use kept_files::Kept;
use std::alloc::AllocError;
use std::io;
use std::process::ExitCode;

// The outcome of the words, where there was memory for them, over the system's files and output. What there is to say of it is said.
fn outcome(rt: &HostRuntime, words: Result<Vec<String>, AllocError>) -> Outcome
    ensures memory { IsErr words → result ≡ Outcome.NoMemory }
{
    let Ok(words) = words else {
        say_no_memory(rt, Program::EbcPlaces);
        return Outcome::NoMemory;
    };
    let mut folder = Kept::new(rt.alloc(), HostFolder::new(rt));
    let mut out = Watched::new(HostSink::new(io::writer(rt)));
    let outcome = places(rt.alloc(), &words, &mut folder, &mut out);
    tell(rt, Program::EbcPlaces, &words, outcome, folder, &out);
    outcome
}

fn main(rt: HostRuntime) -> ExitCode {
    status(outcome(&rt, words_of(&rt)))
}

//! The top call: the words, the files, and what is printed.
ghost use Rattle.std.specs.Prelude.{◌≡◌, ◌≢◌, ◌++◌, ◌↔◌, ◌⊎◌, ℕ, None, IfSome, IfNone, IfOk, IfErr, IsErrOf};
ghost use Rattle.ebc_outside.specs.Counts.{Rose};
ghost use Rattle.cli_base.specs.Outcomes.{IsAnswer, ReadsAll};
ghost use Rattle.cli_base.specs.Readings.{AsksPart, Follows, IfStop};
ghost use Rattle.cli_base.specs.Words.{word_bytes};
ghost use Rattle.label_notes.specs.Answers.{Answers, AnswersWords, AsksNoLabels, CanBeReplied, Decides, LeavesPart};
ghost use Rattle.label_notes.specs.Requests.{files_named, request_of, usage_reply};

use crate::reading::{files_named, read_map, read_notes};
use crate::request::Request;
use cli_base::text::printed;
use cli_base::{End, Outcome, Reply, finish};
use ebc_base::Name;
use ebc_outside::{Folder, Sink};
use std::alloc::{AllocError, Global};

/// Prints the complete notes that notes with labels stand for: words PLAN NOTES; or the labels by their places: word PLAN.
/// docs/LABELS.md has the answers.
pub fn notes<F: Folder, O: Sink>(
    alloc: Global,
    words: &Vec<String>,
    folder: &mut F,
    out: &mut O,
) -> Outcome
    // Where the folder tells its files, the outcome and the printed text are those of an answer to the words. The files asked for are
    // those that the words ask for, also where the output then fails, and a first part of them where a read failed or memory ran out.
    ensures answer { IfSome (F.contents folder.old) (λ files. IsAnswer result →
        Answers (request_of (word_bytes words.now) files) result (O.written out.old) (O.written out.new)) }
    ensures asked { IfSome (F.contents folder.old) (λ files.
        ReadsAll result → F.asked folder.new ≡ F.asked folder.old ++ (request_of (word_bytes words.now) files).asked) }
    ensures asked_part { IfSome (F.contents folder.old) (λ files.
        AsksPart (F.asked folder.old) (request_of (word_bytes words.now) files).asked (F.asked folder.new)) }

    // Where a plan's objects have no label, nothing is put for the map, and then no fault of the output is told.
    ensures unput { IfSome (F.contents folder.old) (λ files. AsksNoLabels (word_bytes words.now) files → out.new ≡ out.old) }
    ensures untold { IfSome (F.contents folder.old) (λ files. AsksNoLabels (word_bytes words.now) files → result ≢ Outcome.WriteFault) }

    // No file changes, and a text of which a part was printed is that of an answer.
    ensures contents { F.contents folder.new ≡ F.contents folder.old }
    ensures write_faults { F.write_faults folder.new ≡ F.write_faults folder.old }
    ensures write_fault_leaves { IfSome (F.contents folder.old) (λ files. result ≡ Outcome.WriteFault →
        LeavesPart (request_of (word_bytes words.now) files) (O.written out.old) (O.written out.new)) }

    // Why an answer comes, also where the folder doesn't tell its files.
    ensures bad_words { IsAnswer result → (result ≡ Outcome.BadWords ↔ files_named (word_bytes words.now) ≡ None) }
    ensures missing { IfNone (F.contents folder.old) ((word : ℕ) → result ≡ Outcome.Missing word →
        Rose (F.read_faults folder.old) (F.read_faults folder.new)) }
    ensures read_fault { result ≡ Outcome.ReadFault → Rose (F.read_faults folder.old) (F.read_faults folder.new) }
    ensures uncounted { IfSome (F.contents folder.old) (λ _. result ≢ Outcome.ReadFault →
        F.read_faults folder.new ≡ F.read_faults folder.old) }
    ensures write_fault { result ≡ Outcome.WriteFault → Rose (O.faults out.old) (O.faults out.new) }
    ensures read_fault_leaves { result ≡ Outcome.ReadFault → out.new ≡ out.old }
    ensures no_memory_leaves { result ≡ Outcome.NoMemory → O.written out.new ≡ O.written out.old }
{
    match decide(alloc, words, folder) {
        Ok(reply) => finish(alloc, &reply, folder, out),
        Err(outcome) => outcome,
    }
}

// The answer to words that name no files.
fn usage(alloc: Global) -> Result<Reply, AllocError>
    ensures { IfOk result (λ r. r ≡ usage_reply) }
{
    let text = b"usage: PLAN | PLAN NOTES\n".to_vec(alloc)?;
    Ok(printed(Outcome::BadWords, text))
}

// What the words ask for, or the answer at which the reading of their files stops.
#[tactic(auto, unfolding(crate::specs::Requests::request_of))]
fn read_request<F: Folder>(
    alloc: Global,
    words: &Vec<String>,
    folder: &mut F,
) -> Result<Request, End>
    ensures follows { IfSome (F.contents folder.old) (λ files.
        Follows (F.asked folder.old) (F.asked folder.new) result (request_of (word_bytes words.now) files)) }
    ensures valid { IfOk result CanBeReplied }
    ensures named { IfOk result (λ _. files_named (word_bytes words.now) ≢ None) }
    ensures stop { IfStop result (AnswersWords (word_bytes words.now) (F.contents folder.old)
        (F.read_faults folder.old) (F.read_faults folder.new)) }
    ensures fault { IsErrOf result End.ReadFault → Rose (F.read_faults folder.old) (F.read_faults folder.new) }
    ensures uncounted { IfSome (F.contents folder.old) (λ _. ¬ IsErrOf result End.ReadFault →
        F.read_faults folder.new ≡ F.read_faults folder.old) }
    ensures contents { F.contents folder.new ≡ F.contents folder.old }
    ensures write_faults { F.write_faults folder.new ≡ F.write_faults folder.old }
{
    match files_named(words) {
        None => Err(End::Stop(usage(alloc)?)),
        Some((plan, None)) => read_map(alloc, plan, folder),
        Some((plan, Some(text))) => {
            let name = Name::new(String::from_str(alloc, text)?);
            read_notes(alloc, plan, name, folder)
        }
    }
}

// The answer to words, or how the call ends without one.
fn decide<F: Folder>(alloc: Global, words: &Vec<String>, folder: &mut F) -> Result<Reply, Outcome>
    ensures decided { IfSome (F.contents folder.old) (λ files.
        Decides (F.asked folder.old) (F.asked folder.new) result (request_of (word_bytes words.now) files)) }
    ensures reply { IfOk result (AnswersWords (word_bytes words.now) (F.contents folder.old)
        (F.read_faults folder.old) (F.read_faults folder.new)) }
    ensures ends { IfErr result (λ end. (end ≡ Outcome.ReadFault) ⊎ (end ≡ Outcome.NoMemory)) }
    ensures fault { IsErrOf result Outcome.ReadFault → Rose (F.read_faults folder.old) (F.read_faults folder.new) }
    ensures uncounted { IfSome (F.contents folder.old) (λ _. ¬ IsErrOf result Outcome.ReadFault →
        F.read_faults folder.new ≡ F.read_faults folder.old) }
    ensures contents { F.contents folder.new ≡ F.contents folder.old }
    ensures write_faults { F.write_faults folder.new ≡ F.write_faults folder.old }
{
    let request = match read_request(alloc, words, folder) {
        Ok(request) => request,
        Err(End::Stop(reply)) => return Ok(reply),
        Err(End::ReadFault) => return Err(Outcome::ReadFault),
        Err(End::NoMemory) => return Err(Outcome::NoMemory),
    };
    match request.reply(alloc) {
        Ok(reply) => Ok(reply),
        Err(_) => Err(Outcome::NoMemory),
    }
}

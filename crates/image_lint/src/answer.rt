//! The top call: the words, the files, and what is printed.
ghost use Rattle.std.specs.Prelude.{◌≡◌, ◌≢◌, ◌++◌, ◌↔◌, ◌⊎◌, ℕ, true, None, IfSome, IfNone, IfOk, IfErr, IsErrOf, option_map};
ghost use Rattle.ebc_outside.specs.Counts.{Rose};
ghost use Rattle.cli_base.specs.Outcomes.{IsAnswer, IsWorkAnswer, ReadsAll};
ghost use Rattle.cli_base.specs.Outputs.{text_of, written_name};
ghost use Rattle.cli_base.specs.Readings.{AsksPart, Follows, IfStop};
ghost use Rattle.cli_base.specs.Words.{word_bytes};
ghost use Rattle.note_types.specs.Records.{IsNotes};
ghost use Rattle.pe_image.specs.Images.{IsImage};
ghost use Rattle.image_lint.specs.Answers.{Answers, AnswersWords, Decides, LeavesPart, TellsLint, lint_status, warned_with, warns};
ghost use Rattle.image_lint.specs.Requests.{files_named, request_of, usage_reply};
ghost use Rattle.width_checker.specs.Typed.{Typed};

use crate::text::warning_lines;
use cli_base::text::printed;
use cli_base::{End, Outcome, Output, Reply, finish};
use ebc_base::NoMemory;
use ebc_outside::{Folder, Sink};
use file_inputs::read_image_with_notes;
use image_warnings::warnings;
use note_types::Notes;
use pe_image::Image;
use printed_texts::refused_line;
use std::alloc::{AllocError, Global};
use width_checker::{Verdict, check};

/// How a call ends, and whether it printed a warning.
#[derive(Clone, Copy)]
pub struct Answer {
    pub outcome: Outcome,
    pub warned: bool,
}

impl Answer {
    /// The exit status: 1 with a warning, and else that of the outcome, from 0 to 9.
    pub fn code(&self) -> u8
        ensures { result ≡ lint_status self.now }
    {
        if self.warned { 1 } else { self.outcome.code() }
    }
}

/// Prints where EDK2's interpreter departs from the machine in the image of the first word, under the notes of the second, where `check`
/// says `neutral`, and else what `check` prints. docs/FIRMWARE.md, "Warnings", has the answers.
pub fn lint<F: Folder, O: Sink>(
    alloc: Global,
    words: &Vec<String>,
    folder: &mut F,
    out: &mut O,
) -> Answer
    // Where the folder tells its files, the outcome and the printed text are those of an answer to the words. The files asked for are
    // those that the words ask for, also where the output then fails, and a first part of them where a read failed or memory ran out.
    ensures answer { IfSome (F.contents folder.old) (λ files. IsAnswer result.outcome →
        Answers (request_of (word_bytes words.now) files) result (O.written out.old) (O.written out.new)) }
    ensures asked { IfSome (F.contents folder.old) (λ files.
        ReadsAll result.outcome → F.asked folder.new ≡ F.asked folder.old ++ (request_of (word_bytes words.now) files).asked) }
    ensures asked_part { IfSome (F.contents folder.old) (λ files.
        AsksPart (F.asked folder.old) (request_of (word_bytes words.now) files).asked (F.asked folder.new)) }
    ensures warned { result.warned ≡ true → result.outcome ≡ Outcome.Done }

    // No file changes, and a text of which a part was printed is that of an answer.
    ensures contents { F.contents folder.new ≡ F.contents folder.old }
    ensures write_faults { F.write_faults folder.new ≡ F.write_faults folder.old }
    ensures write_fault_leaves { IfSome (F.contents folder.old) (λ files. result.outcome ≡ Outcome.WriteFault →
        LeavesPart (request_of (word_bytes words.now) files) (O.written out.old) (O.written out.new)) }

    // Why an answer comes, also where the folder doesn't tell its files.
    ensures bad_words { IsAnswer result.outcome → (result.outcome ≡ Outcome.BadWords ↔ files_named (word_bytes words.now) ≡ None) }
    ensures missing { IfNone (F.contents folder.old) ((word : ℕ) → result.outcome ≡ Outcome.Missing word →
        Rose (F.read_faults folder.old) (F.read_faults folder.new)) }
    ensures read_fault { result.outcome ≡ Outcome.ReadFault → Rose (F.read_faults folder.old) (F.read_faults folder.new) }
    ensures uncounted { IfSome (F.contents folder.old) (λ _. result.outcome ≢ Outcome.ReadFault →
        F.read_faults folder.new ≡ F.read_faults folder.old) }
    ensures write_fault { result.outcome ≡ Outcome.WriteFault → Rose (O.faults out.old) (O.faults out.new) }
    ensures read_fault_leaves { result.outcome ≡ Outcome.ReadFault → out.new ≡ out.old }
    ensures no_memory_leaves { result.outcome ≡ Outcome.NoMemory → O.written out.new ≡ O.written out.old }
{
    match decide(alloc, words, folder) {
        Ok(reply) => {
            let warned = warns(&reply);
            let outcome = finish(alloc, &reply, folder, out);
            Answer {
                outcome,
                warned: warned_with(outcome, warned),
            }
        }
        Err(outcome) => Answer {
            outcome,
            warned: false,
        },
    }
}

// Whether a reply has a warning.
fn warns(reply: &Reply) -> bool
    ensures { result ≡ warns reply.now.outcome (text_of reply.now.output) }
{
    match (reply.outcome, &reply.output) {
        (Outcome::Done, Output::Text(text)) => !text.is_empty(),
        _ => false,
    }
}

// Whether a call that ends so printed a warning, where its reply has one.
fn warned_with(outcome: Outcome, warned: bool) -> bool
    ensures { result ≡ warned_with outcome warned }
{
    match outcome {
        Outcome::Done => warned,
        _ => false,
    }
}

// The files that the words name: an image and its notes.
fn files_named(words: &Vec<String>) -> Option<(&str, &str)>
    ensures { option_map (λ f. (f.0.now, f.1.now)) result ≡ files_named (word_bytes words.now) }
{
    match words.as_slice() {
        [image, notes] if image.len() > 0 && notes.len() > 0 => {
            Some((image.as_str(), notes.as_str()))
        }
        _ => None,
    }
}

// The answer to words that name no files.
fn usage(alloc: Global) -> Result<Reply, AllocError>
    ensures { IfOk result (λ r. r ≡ usage_reply) }
{
    let text = b"usage: IMAGE NOTES\n".to_vec(alloc)?;
    Ok(printed(Outcome::BadWords, text))
}

// What the words ask for, or the answer at which the reading of their files stops.
#[tactic(auto, unfolding(crate::specs::Requests::request_of))]
fn read_request<F: Folder>(
    alloc: Global,
    words: &Vec<String>,
    folder: &mut F,
) -> Result<(Image, Notes), End>
    ensures follows { IfSome (F.contents folder.old) (λ files.
        Follows (F.asked folder.old) (F.asked folder.new) result (request_of (word_bytes words.now) files)) }
    ensures image { IfOk result (λ read. IsImage read.0) }
    ensures notes { IfOk result (λ read. IsNotes read.1) }
    ensures named { IfOk result (λ _. files_named (word_bytes words.now) ≢ None) }
    ensures stop { IfStop result (AnswersWords (word_bytes words.now) (F.contents folder.old)
        (F.read_faults folder.old) (F.read_faults folder.new)) }
    ensures fault { IsErrOf result End.ReadFault → Rose (F.read_faults folder.old) (F.read_faults folder.new) }
    ensures uncounted { IfSome (F.contents folder.old) (λ _. ¬ IsErrOf result End.ReadFault →
        F.read_faults folder.new ≡ F.read_faults folder.old) }
    ensures contents { F.contents folder.new ≡ F.contents folder.old }
    ensures write_faults { F.write_faults folder.new ≡ F.write_faults folder.old }
{
    match files_named(words) {
        None => Err(End::Stop(usage(alloc)?)),
        Some((image, notes)) => read_image_with_notes(alloc, folder, 0, image, notes),
    }
}

// The warnings of a typed image, as they are printed.
fn warned_reply(alloc: Global, image: &Image, notes: &Notes) -> Result<Reply, NoMemory>
    requires image { IsImage image.now }
    requires notes { IsNotes notes.now }
    requires typed { Typed image.now notes.now }
    ensures reply { IfOk result (TellsLint image.now notes.now) }
    ensures answer { IfOk result (λ r. IsWorkAnswer r.outcome) }
    ensures output { IfOk result (λ r. written_name r.output ≡ None) }
{
    let warnings = warnings(alloc, image, notes)?;
    let text = warning_lines(alloc, warnings.as_slice())?;
    Ok(printed(Outcome::Done, text))
}

// The reply to an image and its notes.
fn lint_reply(alloc: Global, image: &Image, notes: &Notes) -> Result<Reply, NoMemory>
    requires image { IsImage image.now }
    requires notes { IsNotes notes.now }
    ensures reply { IfOk result (TellsLint image.now notes.now) }
    ensures answer { IfOk result (λ r. IsWorkAnswer r.outcome) }
    ensures output { IfOk result (λ r. written_name r.output ≡ None) }
{
    match check(alloc, image, notes)? {
        Verdict::Neutral => warned_reply(alloc, image, notes),
        Verdict::Refused { place, rule } => {
            let line = refused_line(alloc, place, rule)?;
            Ok(printed(Outcome::Refused { place, rule }, line))
        }
    }
}

// The answer to words, or how the call ends without one.
fn decide<F: Folder>(alloc: Global, words: &Vec<String>, folder: &mut F) -> Result<Reply, Outcome>
    ensures decided { IfSome (F.contents folder.old) (λ files.
        Decides (F.asked folder.old) (F.asked folder.new) result (request_of (word_bytes words.now) files)) }
    ensures reply { IfOk result (AnswersWords (word_bytes words.now) (F.contents folder.old)
        (F.read_faults folder.old) (F.read_faults folder.new)) }
    ensures ends { IfErr result (λ end. (end ≡ Outcome.ReadFault) ⊎ (end ≡ Outcome.NoMemory)) }
    ensures fault { IsErrOf result Outcome.ReadFault → Rose (F.read_faults folder.old) (F.read_faults folder.new) }
    ensures uncounted { IfSome (F.contents folder.old) (λ _. ¬ IsErrOf result Outcome.ReadFault →
        F.read_faults folder.new ≡ F.read_faults folder.old) }
    ensures contents { F.contents folder.new ≡ F.contents folder.old }
    ensures write_faults { F.write_faults folder.new ≡ F.write_faults folder.old }
{
    let (image, notes) = match read_request(alloc, words, folder) {
        Ok(read) => read,
        Err(End::Stop(reply)) => return Ok(reply),
        Err(End::ReadFault) => return Err(Outcome::ReadFault),
        Err(End::NoMemory) => return Err(Outcome::NoMemory),
    };
    match lint_reply(alloc, &image, &notes) {
        Ok(reply) => Ok(reply),
        Err(_) => Err(Outcome::NoMemory),
    }
}

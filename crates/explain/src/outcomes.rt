//! What is said of an answer.
ghost use Rattle.std.specs.Prelude.{◌≡◌, ◌≢◌, [], false, IfOk, string_bytes};
ghost use Rattle.cli_base.specs.Words.{word_bytes};
ghost use Rattle.explain_answers.specs.Words.{program_name, wraps};
ghost use Rattle.explain.specs.Heads.{BeginsWith, asked_or, bad_file, error_head, missing_file, outcome_head};
ghost use Rattle.explain.specs.Shown.{IsShown, shown_chars};

use crate::lines::{add_said, said_lines};
use crate::refused::refused_lines;
use crate::told::Told;
use cli_base::Outcome;
use ebc_base::NoMemory;
use ebc_outside::MemFolder;
use explain_answers::{
    Answer, bad_said, differ_said, large_said, number_said, runs_said, unread_said, unwritten_said,
    words_said, wrapping_said,
};
use explain_base::{Line, Said};

// The file of which something is said: the one that is given, and else the program.
fn file_or_program<'a>(answer: &Answer, said: &'a Said) -> &'a str {
    if said.file.is_empty() {
        answer.program.name()
    } else {
        said.file.as_str()
    }
}

// What stands behind the name of a file: where in it, and a label.
fn tail_of(answer: &Answer, said: &Said, label: &str) -> Result<String, NoMemory> {
    let mut tail = Line::new(answer.alloc);
    tail.line(&said.at).text(label);
    tail.done()
}

// What is said of a place of a file, or of a program.
fn place_lines(answer: &Answer, file: &str, said: &Said) -> Result<Told, NoMemory>
    ensures begins { IfOk result (λ told. BeginsWith (shown_chars file.now) told) }
    ensures says { IfOk result (λ told. told ≢ []) }
{
    let tail = tail_of(answer, said, ": error")?;
    Ok(said_lines(answer.alloc, file, tail.as_str(), said)?)
}

// What is said of a file or a program as a whole.
fn error_lines(answer: &Answer, name: &str, said: &Said) -> Result<Told, NoMemory>
    ensures begins { IfOk result (λ told. BeginsWith (shown_chars (error_head name.now)) told) }
    ensures says { IfOk result (λ told. told ≢ []) }
{
    let alloc = answer.alloc;
    let head = format!(in alloc; "{name}: error")?;
    Ok(said_lines(alloc, head.as_str(), "", said)?)
}

// What is said of the program.
fn program_lines(answer: &Answer, said: &Said) -> Result<Told, NoMemory>
    ensures begins { IfOk result (λ told. BeginsWith (shown_chars (error_head (program_name answer.now.program))) told) }
    ensures says { IfOk result (λ told. told ≢ []) }
{
    error_lines(answer, answer.program.name(), said)
}

// The file that was asked for last, and else another name.
fn asked_or<'a>(asked: &'a str, other: &'a str) -> &'a str
    ensures { result.now ≡ asked_or asked.now other.now }
{
    if asked.is_empty() { other } else { asked }
}

// The name of the file that isn't there.
fn missing_file<'a>(answer: &Answer<'a>, number: u8) -> &'a str
    ensures { result.now ≡ missing_file answer.now.program (word_bytes answer.now.words.now) answer.now.asked.now number }
{
    let word = answer.word(number as usize);
    if answer.names_objects() {
        asked_or(answer.asked, word)
    } else {
        word
    }
}

// What is said of a file that isn't there.
fn missing_lines(answer: &Answer, number: u8) -> Result<Told, NoMemory>
    ensures begins { IfOk result (λ told. BeginsWith (shown_chars (error_head
        (missing_file answer.now.program (word_bytes answer.now.words.now) answer.now.asked.now number))) told) }
    ensures says { IfOk result (λ told. told ≢ []) }
{
    error_lines(answer, missing_file(answer, number), &unread_said(answer))
}

// What is said of a file that can't be read.
fn unread_lines(answer: &Answer) -> Result<Told, NoMemory>
    ensures begins { IfOk result (λ told.
        BeginsWith (shown_chars (error_head (asked_or answer.now.asked.now (program_name answer.now.program)))) told) }
    ensures says { IfOk result (λ told. told ≢ []) }
{
    let name = asked_or(answer.asked, answer.program.name());
    error_lines(answer, name, &unread_said(answer))
}

// What is said of the file that a word names, or of an object.
fn bad_file_lines(answer: &Answer, number: u8, said: &Said) -> Result<Told, NoMemory>
    ensures begins { IfOk result (λ told. BeginsWith
        (shown_chars (bad_file answer.now.program (word_bytes answer.now.words.now) number)) told) }
    ensures says { IfOk result (λ told. told ≢ []) }
{
    let word = answer.word(number as usize);
    if answer.names_objects() {
        let file = if said.file.is_empty() {
            word
        } else {
            said.file.as_str()
        };
        return place_lines(answer, file, said);
    }
    place_lines(answer, word, said)
}

// What is said of a file that isn't of its form.
fn bad_lines(
    answer: &Answer,
    number: u8,
    fault: u8,
    folder: &mut MemFolder,
) -> Result<Told, NoMemory>
    ensures begins { IfOk result (λ told. BeginsWith
        (shown_chars (bad_file answer.now.program (word_bytes answer.now.words.now) number)) told) }
    ensures says { IfOk result (λ told. told ≢ []) }
{
    let said = match bad_said(answer, number as usize, folder)? {
        Some(said) => said,
        None => number_said(answer, number as usize, fault),
    };
    bad_file_lines(answer, number, &said)
}

// The notes on an answer that is done: on its runs, or on the image of an option ROM.
fn notes_said(answer: &Answer, folder: &mut MemFolder) -> Result<Vec<Said>, NoMemory> {
    if answer.wraps() {
        wrapping_said(answer, folder)
    } else {
        runs_said(answer, folder)
    }
}

// What is said of an answer that is done.
fn done_lines(answer: &Answer, folder: &mut MemFolder) -> Result<Told, NoMemory>
    ensures { answer.now.amiss ≡ false → wraps answer.now.program (word_bytes answer.now.words.now) ≡ false →
        IfOk result (λ told. told ≡ []) }
{
    let alloc = answer.alloc;
    let mut told = Told::new(alloc);
    if !answer.amiss && !answer.wraps() {
        return Ok(told);
    }
    for said in notes_said(answer, folder)?.iter() {
        let tail = tail_of(answer, said, ": note")?;
        add_said(
            alloc,
            file_or_program(answer, said),
            tail.as_str(),
            said,
            &mut told,
        )?;
    }
    Ok(told)
}

// What is said of two runs that differ.
fn differ_lines(answer: &Answer, step: u64, folder: &mut MemFolder) -> Result<Told, NoMemory>
    ensures { IfOk result (λ told. told ≢ []) }
{
    other_lines(answer, &differ_said(answer, step, folder)?)
}

// What is said of files that were too large, and of files and output that can't be written.
fn other_lines(answer: &Answer, said: &Said) -> Result<Told, NoMemory>
    ensures { IfOk result (λ told. told ≢ []) }
{
    place_lines(answer, file_or_program(answer, said), said)
}

fn no_memory_lines(answer: &Answer) -> Result<Told, NoMemory>
    ensures begins { IfOk result (λ told. BeginsWith (shown_chars (error_head (program_name answer.now.program))) told) }
    ensures says { IfOk result (λ told. told ≢ []) }
{
    program_lines(answer, &Said::text(answer.alloc, "memory ran out"))
}

// What is said of an answer.
fn lines_of(answer: &Answer, folder: &mut MemFolder) -> Result<Told, NoMemory>
    ensures done { answer.now.outcome ≡ Outcome.Done → answer.now.amiss ≡ false →
        wraps answer.now.program (word_bytes answer.now.words.now) ≡ false → IfOk result (λ told. told ≡ []) }
    ensures says { answer.now.outcome ≢ Outcome.Done → IfOk result (λ told. told ≢ []) }
    ensures agrees { IfOk result (λ told. BeginsWith
        (shown_chars (outcome_head answer.now.program (word_bytes answer.now.words.now) answer.now.asked.now
        folder.old.files answer.now.outcome))
        told) }
{
    match answer.outcome {
        Outcome::Done => done_lines(answer, folder),
        Outcome::BadWords => program_lines(answer, &words_said(answer)),
        Outcome::NoMemory => no_memory_lines(answer),
        Outcome::Missing { word } => missing_lines(answer, word),
        Outcome::BadInput { word, fault } => bad_lines(answer, word, fault, folder),
        Outcome::ReadFault => unread_lines(answer),
        Outcome::WriteFault => other_lines(answer, &unwritten_said(answer)),
        Outcome::TooLarge { word } => other_lines(answer, &large_said(answer, word as usize)),
        Outcome::Differ { step } => differ_lines(answer, step, folder),
        Outcome::Refused { place, rule } => refused_lines(answer, place, rule, folder),
    }
}

/// What is said on standard error of an answer: lines, each ended by a line feed and without other control characters; empty if nothing
/// is said. It is made of the files that were kept. No file of the system is touched.
///
/// # Errors
///
/// Want of memory alone, unless reads of the folder were set to fail.
pub fn explanation(answer: &Answer, folder: MemFolder) -> Result<String, NoMemory>
    ensures shown { IfOk result (λ text. IsShown (string_bytes text)) }

    // Nothing is said of an answer that is done, unless a run ended otherwise than finished, or an option ROM was made.
    ensures done { answer.now.outcome ≡ Outcome.Done → answer.now.amiss ≡ false →
        wraps answer.now.program (word_bytes answer.now.words.now) ≡ false → IfOk result (λ text. string_bytes text ≡ []) }

    // Of each other answer something is said.
    ensures says { answer.now.outcome ≢ Outcome.Done → IfOk result (λ text. string_bytes text ≢ []) }

    // The first line begins with the file of the outcome or with the program, and of a refusal with its place and its rule, too.
    ensures agrees { IfOk result (λ text. BeginsWith
        (shown_chars (outcome_head answer.now.program (word_bytes answer.now.words.now) answer.now.asked.now
        folder.files answer.now.outcome))
        (string_bytes text)) }
{
    let mut folder = folder;
    Ok(lines_of(answer, &mut folder)?.into_text())
}

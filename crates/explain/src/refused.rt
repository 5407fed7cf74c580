//! The lines that are said of a refusal.
ghost use Rattle.std.specs.Prelude.{◌≡◌, ◌≢◌, [], Some, IfOk, IfSome, option_map};
ghost use Rattle.cli_base.specs.Words.{word_bytes};
ghost use Rattle.note_types.specs.Records.{IsNotes};
ghost use Rattle.explain_answers.specs.Words.{word_or_empty};
ghost use Rattle.explain.specs.Heads.{BeginsWith, code_head, image_head, refused_head};
ghost use Rattle.explain.specs.Places.{noted_place_text, notes_named, number_text};
ghost use Rattle.explain.specs.Shown.{shown_chars};

use crate::heads::{code_head, image_head, number_text, place_text};
use crate::lines::said_lines;
use crate::told::Told;
use cli_base::End;
use ebc_base::{NoMemory, Sequence};
use ebc_outside::MemFolder;
use explain_answers::{
    Answer, Labelled, Program, completed_said, refused_code_said, refused_image_said, rule_said,
};
use explain_base::Said;
use file_inputs::read_with_bytes;
use note_types::{Notes, RuleName};

// The notes that the third word names, with their text; none if they weren't kept.
fn kept_notes(
    answer: &Answer,
    folder: &mut MemFolder,
) -> Result<Option<(Notes, Sequence<u8>)>, NoMemory>
    ensures notes { IfOk result (λ kept.
        option_map (λ read. read.0) kept ≡ notes_named folder.old.files (word_or_empty (word_bytes answer.now.words.now) 2)) }
    ensures conditions { IfOk result (λ kept. IfSome kept (λ read. IsNotes read.0)) }
{
    match read_with_bytes::<Notes, MemFolder>(answer.alloc, folder, 2, answer.word(2)) {
        Ok(read) => Ok(Some(read)),
        Err(End::Stop(_)) => Ok(None),
        Err(End::NoMemory) => Err(NoMemory),

        // No read of files that were kept fails otherwise.
        Err(End::ReadFault) => Err(NoMemory),
    }
}

// The lines of a refused image, by its place as it is told.
fn image_lines(
    answer: &Answer,
    file: &str,
    place: &str,
    rule: RuleName,
    said: &Said,
) -> Result<Told, NoMemory>
    ensures begins { IfOk result (λ told. BeginsWith (shown_chars (image_head file.now place.now rule)) told) }
    ensures says { IfOk result (λ told. told ≢ []) }
{
    let head = image_head(answer.alloc, file, place, rule)?;
    Ok(said_lines(answer.alloc, head.as_str(), "", said)?)
}

// The lines of a refused image of which nothing more is known.
fn bare_lines(answer: &Answer, file: &str, place: u32, rule: RuleName) -> Result<Told, NoMemory>
    ensures begins { IfOk result (λ told. BeginsWith (shown_chars (image_head file.now (number_text place) rule)) told) }
    ensures says { IfOk result (λ told. told ≢ []) }
{
    let said = rule_said(answer, rule);
    let number = number_text(answer.alloc, place)?;
    image_lines(answer, file, number.as_str(), rule, &said)
}

// The lines of a refused image whose notes are known, with their text.
fn noted_lines(
    answer: &Answer,
    notes: &Notes,
    text: &[u8],
    place: u32,
    rule: RuleName,
    folder: &mut MemFolder,
) -> Result<Told, NoMemory>
    requires { IsNotes notes.now }
    ensures begins { IfOk result (λ told. BeginsWith
        (shown_chars (image_head (word_or_empty (word_bytes answer.now.words.now) 1)
        (noted_place_text (Some notes.now) place) rule)) told) }
    ensures says { IfOk result (λ told. told ≢ []) }
{
    let said = refused_image_said(answer, notes, text, place, rule, folder)?;
    let name = place_text(answer.alloc, notes, place)?;
    image_lines(answer, answer.word(1), name.as_str(), rule, &said)
}

// The lines of an image that `check IMAGE NOTES` or `infer` refuses.
fn checked_lines(
    answer: &Answer,
    place: u32,
    rule: RuleName,
    folder: &mut MemFolder,
) -> Result<Told, NoMemory>
    ensures begins { IfOk result (λ told. BeginsWith
        (shown_chars (image_head (word_or_empty (word_bytes answer.now.words.now) 1)
        (noted_place_text (notes_named folder.old.files (word_or_empty (word_bytes answer.now.words.now) 2)) place) rule)) told) }
    ensures says { IfOk result (λ told. told ≢ []) }
{
    match kept_notes(answer, folder)? {
        Some((notes, text)) => { noted_lines(answer, &notes, text.as_slice(), place, rule, folder) }
        None => bare_lines(answer, answer.word(1), place, rule),
    }
}

// The lines of notes with labels that a rule refuses.
fn completed_lines(
    answer: &Answer,
    place: u32,
    rule: RuleName,
    folder: &mut MemFolder,
) -> Result<Told, NoMemory>
    ensures begins { IfOk result (λ told. BeginsWith
        (shown_chars (image_head (word_or_empty (word_bytes answer.now.words.now) 1) (number_text place) rule)) told) }
    ensures says { IfOk result (λ told. told ≢ []) }
{
    match completed_said(answer, Labelled::Refused { place, rule }, folder)? {
        Some(said) => {
            let number = number_text(answer.alloc, place)?;
            image_lines(answer, answer.word(1), number.as_str(), rule, &said)
        }
        None => bare_lines(answer, answer.word(1), place, rule),
    }
}

// The lines of raw code that `check CODE` refuses.
fn code_lines(
    answer: &Answer,
    place: u32,
    rule: RuleName,
    folder: &mut MemFolder,
) -> Result<Told, NoMemory>
    ensures begins { IfOk result (λ told. BeginsWith
        (shown_chars (code_head (word_or_empty (word_bytes answer.now.words.now) 1) place rule)) told) }
    ensures says { IfOk result (λ told. told ≢ []) }
{
    let said = refused_code_said(answer, place, rule, folder)?;
    let head = code_head(answer.alloc, answer.word(1), place, rule)?;
    Ok(said_lines(answer.alloc, head.as_str(), "", &said)?)
}

/// What is said of a refusal at a place by a rule.
pub(crate) fn refused_lines(
    answer: &Answer,
    place: u32,
    rule: RuleName,
    folder: &mut MemFolder,
) -> Result<Told, NoMemory>
    ensures begins { IfOk result (λ told. BeginsWith
        (shown_chars (refused_head answer.now.program (word_bytes answer.now.words.now) folder.old.files place rule)) told) }
    ensures says { IfOk result (λ told. told ≢ []) }
{
    match answer.program {
        Program::Ebc => {
            if answer.checks_code() {
                code_lines(answer, place, rule, folder)
            } else {
                checked_lines(answer, place, rule, folder)
            }
        }
        Program::EbcPlaces | Program::EbcLint => { bare_lines(answer, answer.word(0), place, rule) }
        Program::EbcNotes => completed_lines(answer, place, rule, folder),
    }
}

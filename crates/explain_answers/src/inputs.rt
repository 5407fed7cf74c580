//! What is said of files that aren't of their form.
ghost use Rattle.std.specs.Prelude.{◌≤◌, length};

use crate::answer::Answer;
use crate::labelled::{Labelled, completed_said};
use crate::plans::plan_said;
use crate::printed::PrintedFault;
use crate::program::{Program, Slot};
use ebc_base::NoMemory;
use ebc_outside::MemFolder;
use explain_base::{Line, Said};
use explain_files::{image_said, rom_said, taking_said, wrapped_said};
use explain_source::source_said;
use explain_texts::{NotesFile, TomlText, toml_said};
use note_types::{Notes, NotesEnd, Script, TomlFault};
use option_rom::{RomEnd, RomImage, read_rom, take};
use protocol_script::read_script;
use std::alloc::Global;
use toml_spans::{key_span, position_of};
use type_notes::read_notes;

// A file that isn't of its form: the number of its word, its bytes, and its fault as it was printed.
#[derive(Clone, Copy)]
struct BadFile<'a> {
    number: usize,
    bytes: &'a [u8],
    fault: PrintedFault<'a>,
}

// What a file that is to be a text begins as, after a semicolon; empty if it begins as no other file that there is.
fn beginning(bytes: &[u8]) -> &'static str {
    if bytes.starts_with(b"MZ") {
        "; the file begins as an image"
    } else if bytes.starts_with(b"EBCO") {
        "; the file begins as an object"
    } else if bytes.starts_with(b"\x55\xaa") {
        "; the file begins as an option ROM"
    } else if bytes.starts_with(b"\x7fELF") {
        "; the file begins as an ELF program"
    } else {
        ""
    }
}

// Adds what a file that is to be a text begins as.
fn with_beginning(bytes: &[u8], said: Said) -> Said {
    let mut said = said;
    said.what.text(beginning(bytes));
    said
}

fn bad_image(alloc: Global, file: &BadFile) -> Result<Option<Said>, NoMemory> {
    match file.fault.of_image() {
        Some((kind, offset)) => Ok(Some(image_said(alloc, file.bytes, kind, offset))),
        None => Ok(None),
    }
}

fn bad_source(alloc: Global, file: &BadFile) -> Result<Option<Said>, NoMemory> {
    let Some((kind, line)) = file.fault.of_source() else {
        return Ok(None);
    };
    match source_said(alloc, file.bytes, kind, line)? {
        Some(said) => Ok(Some(with_beginning(file.bytes, said))),
        None => Ok(None),
    }
}

// Adds how many bytes of a file stand behind the last image of its option ROM, if any do.
fn add_behind(images: &[RomImage], size: u64, said: &mut Said) {
    let Some(last) = images.last() else {
        return;
    };
    let number = images.len().saturating_sub(1);
    let end = u64::from(last.offset) + 512 * u64::from(last.blocks);
    let behind = size.saturating_sub(end);
    if behind == 0 {
        return;
    }
    let mut line = Line::of(said.what.alloc, "image ");
    line.count(number)
        .text(" is marked as the last, and the ")
        .number(behind)
        .text(" bytes behind it are passed over");
    said.add(line);
}

// Of an option ROM, and of the image that is to be taken out of it, whose number is a word.
fn bad_rom(alloc: Global, bytes: &[u8], number: &str) -> Result<Option<Said>, NoMemory> {
    if bytes.len() > 16_777_216 {
        return Ok(None);
    }
    let images = match read_rom(alloc, bytes) {
        Ok(images) => images,
        Err(RomEnd::Fault { kind, offset }) => {
            return Ok(Some(rom_said(alloc, bytes, kind, offset)));
        }
        Err(RomEnd::NoMemory) => return Err(NoMemory),
    };
    let Ok(wanted) = number.parse::<u32>() else {
        return Ok(None);
    };
    match take(images.as_slice(), wanted) {
        Ok(_) => Ok(None),
        Err(kind) => {
            let mut said = taking_said(alloc, images.as_slice().len(), wanted, kind);
            add_behind(images.as_slice(), bytes.len() as u64, &mut said);
            Ok(Some(said))
        }
    }
}

/// What is said of an image of which an option ROM was made, where firmware passes over it there or refuses it; nothing if the file
/// wasn't kept.
pub fn wrapping_said(answer: &Answer, folder: &mut MemFolder) -> Result<Vec<Said>, NoMemory> {
    let mut told = Vec::new(answer.alloc);
    let number = 4;
    if let Some(image) = answer.bytes_of(number, folder)? {
        if let Some(mut said) = wrapped_said(answer.alloc, image.as_slice()) {
            said.file.text(answer.word(number));
            told.push(said)?;
        }
    }
    Ok(told)
}

/// What is said of the fault of a text in TOML.
pub(crate) fn text_said(
    alloc: Global,
    file: &str,
    kind: TomlText,
    bytes: &[u8],
    fault: &TomlFault,
) -> Result<Said, NoMemory> {
    let said = toml_said(alloc, file, kind, bytes, fault)?;
    Ok(with_beginning(bytes, said))
}

// What is said of a text in TOML by its fault.
fn toml_text_said(
    answer: &Answer,
    file: &BadFile,
    kind: TomlText,
) -> Result<Option<Said>, NoMemory> {
    let alloc = answer.alloc;
    let Some(fault) = file.fault.of_toml(alloc)? else {
        return Ok(None);
    };
    let name = answer.word(file.number);
    Ok(Some(text_said(alloc, name, kind, file.bytes, &fault)?))
}

// The notes of a word.
fn notes_of(
    answer: &Answer,
    number: usize,
    folder: &mut MemFolder,
) -> Result<Option<Notes>, NoMemory> {
    let Some(bytes) = answer.bytes_of(number, folder)? else {
        return Ok(None);
    };
    match read_notes(answer.alloc, bytes.as_slice()) {
        Ok(notes) => Ok(Some(notes)),
        Err(NotesEnd::Fault(_)) => Ok(None),
        Err(NotesEnd::NoMemory) => Err(NoMemory),
    }
}

// Of a script without a fault that has notifications, which those of a pair may not have.
fn notified_said(alloc: Global, bytes: &[u8], script: &Script) -> Result<Option<Said>, NoMemory> {
    if script.notify.is_empty() {
        return Ok(None);
    }
    let text = std::str::from_utf8(bytes).unwrap_or("");
    let mut at = Line::new(alloc);
    if let Some(span) = key_span(alloc, text, "notify[0]")? {
        let place = position_of(bytes, span.key);
        at.text(":")
            .number(place.line)
            .text(":")
            .number(place.column);
    }
    let what = Line::of(
        alloc,
        "notify[0] is a notification, and the scripts of a pair have none; wanted: no table [[notify]]",
    );
    let page = "docs/PAIRS.md, \"A run that goes wrong\"";
    Ok(Some(Said::at_place(at, what, page)))
}

// The same of a text, which may have a fault of a script.
fn notified(alloc: Global, bytes: &[u8], notes: &Notes) -> Result<Option<Said>, NoMemory> {
    match read_script(alloc, bytes, notes) {
        Ok(script) => notified_said(alloc, bytes, &script),
        Err(NotesEnd::Fault(_)) => Ok(None),
        Err(NotesEnd::NoMemory) => Err(NoMemory),
    }
}

// Of a script, whose notes are the word before.
fn bad_script(
    answer: &Answer,
    file: &BadFile,
    folder: &mut MemFolder,
) -> Result<Option<Said>, NoMemory> {
    let Some(notes) = notes_of(answer, file.number.saturating_sub(1), folder)? else {
        return Ok(None);
    };
    if file.fault.is_range_of("notify") {
        let said = notified(answer.alloc, file.bytes, &notes)?;
        if said.is_some() {
            return Ok(said);
        }
    }
    toml_text_said(answer, file, TomlText::Script(&notes))
}

// Of binds under the notes of both images, which are the words 2 and 5 of `pair`.
fn bad_binds(
    answer: &Answer,
    file: &BadFile,
    a: &Notes,
    b: &Notes,
) -> Result<Option<Said>, NoMemory> {
    let consumer = NotesFile {
        file: answer.word(2),
        notes: a,
    };
    let provider = NotesFile {
        file: answer.word(5),
        notes: b,
    };
    toml_text_said(answer, file, TomlText::Binds(consumer, provider))
}

// Of binds, whose notes are read.
fn bad_pair(
    answer: &Answer,
    file: &BadFile,
    folder: &mut MemFolder,
) -> Result<Option<Said>, NoMemory> {
    let Some(a) = notes_of(answer, 2, folder)? else {
        return Ok(None);
    };
    match notes_of(answer, 5, folder)? {
        Some(b) => bad_binds(answer, file, &a, &b),
        None => Ok(None),
    }
}

// Of notes with labels.
fn bad_labels(
    answer: &Answer,
    file: &BadFile,
    folder: &mut MemFolder,
) -> Result<Option<Said>, NoMemory> {
    let Some((fault, behind)) = file.fault.of_labelled(answer.alloc)? else {
        return Ok(None);
    };
    let fault = &fault;
    let labelled = Labelled::Faulty { fault, behind };
    match completed_said(answer, labelled, folder)? {
        Some(said) => Ok(Some(with_beginning(file.bytes, said))),
        None => Ok(None),
    }
}

// Of notes.
fn bad_notes(
    answer: &Answer,
    file: &BadFile,
    folder: &mut MemFolder,
) -> Result<Option<Said>, NoMemory> {
    match answer.program {
        Program::EbcNotes => bad_labels(answer, file, folder),
        _ => toml_text_said(answer, file, TomlText::Notes),
    }
}

// The name of a fault of a text of notes with labels, by its number. docs/LABELS.md, "What is answered".
fn fault_name(fault: u8) -> &'static str {
    match fault {
        1 => "nottoml",
        2 => "missing",
        3 => "kind",
        4 => "name",
        5 => "range",
        _ => "twice",
    }
}

/// What is said of the fault of a file of which nothing more is known. The answer itself tells where notes with labels have theirs.
pub fn number_said(answer: &Answer, number: usize, fault: u8) -> Said {
    let Some(slot) = answer.slot(number) else {
        return Said::text(answer.alloc, "the file isn't of its form");
    };
    let mut what = Line::of(answer.alloc, slot.name());
    if answer.program.completes() && number == 1 {
        what.text(" has the fault ")
            .text(fault_name(fault))
            .text("; the answer names the key, and where it stands");
        return Said::with_page(what, "docs/LABELS.md, \"What is answered\"");
    }
    what.text(" isn't of its form; the answer names its first fault, and where it stands");
    Said::with_page(what, "docs/COMMANDS.md, \"Faults\"")
}

// What is said of a file by its fault.
fn bad_file_said(
    answer: &Answer,
    slot: Slot,
    file: &BadFile,
    folder: &mut MemFolder,
) -> Result<Option<Said>, NoMemory> {
    match slot {
        Slot::Image | Slot::Image2 => bad_image(answer.alloc, file),
        Slot::Source => bad_source(answer.alloc, file),
        Slot::Notes | Slot::Notes2 => bad_notes(answer, file, folder),
        Slot::Script | Slot::Script2 => bad_script(answer, file, folder),
        Slot::Binds => bad_pair(answer, file, folder),
        _ => Ok(None),
    }
}

/// What is said of the file of a word that isn't of its form; none if nothing more is known of it.
pub fn bad_said(
    answer: &Answer,
    number: usize,
    folder: &mut MemFolder,
) -> Result<Option<Said>, NoMemory> {
    let Some(slot) = answer.slot(number) else {
        return Ok(None);
    };
    let Some(bytes) = answer.bytes_of(number, folder)? else {
        return Ok(None);
    };
    let bytes = bytes.as_slice();
    match (slot, answer.printed_fault(number)) {
        (Slot::Rom, _) => bad_rom(answer.alloc, bytes, answer.word(3)),
        (Slot::Plan, _) => plan_said(answer, number, bytes, folder),
        (_, Some(fault)) => {
            let file = BadFile {
                number,
                bytes,
                fault,
            };
            bad_file_said(answer, slot, &file, folder)
        }
        _ => Ok(None),
    }
}

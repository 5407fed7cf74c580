//! What is said of files that can't be read, are too large, or can't be written, and of numbers past their limit.

use crate::answer::Answer;
use crate::program::{Program, Slot, Use};
use explain_base::{Line, Said};

// Writes the system's words for what ended a call, with what stands before them.
fn write_cause(answer: &Answer, line: &mut Line) {
    if !answer.cause.is_empty() {
        line.text(": ").text(answer.cause);
    }
}

// What the file that was asked for last stands for.
fn asked_line(answer: &Answer) -> Line {
    let alloc = answer.alloc;
    if answer.asked.is_empty() {
        return Line::of(alloc, "a file");
    }
    if let Some(place) = answer.first_of(Use::Read, answer.asked) {
        return Line::of(alloc, place.slot.name());
    }
    match answer.first_of(Use::Read, "") {
        Some(place) => {
            let mut object = Line::of(alloc, "an object of ");
            object.word(place.word);
            object
        }
        None => Line::of(alloc, "the file"),
    }
}

/// What is said of a file that isn't there, or can't be read.
pub fn unread_said(answer: &Answer) -> Said {
    let mut what = asked_line(answer);
    what.text(" can't be read");
    write_cause(answer, &mut what);
    Said::with_page(what, "docs/COMMANDS.md, \"The answer\"")
}

// Writes a limit, behind what is too large and before what is wanted.
fn write_limit(limit: u64, line: &mut Line) {
    line.text(" more than ")
        .number(limit)
        .text(" bytes; wanted: ")
        .number(limit)
        .text(" at most");
}

// What is said of a file of more bytes than it may have.
fn large_file(answer: &Answer, slot: Slot, name: &str) -> Line {
    let alloc = answer.alloc;
    let limit = slot.limit();
    match slot {
        Slot::Code => {
            let mut what = Line::of(alloc, "raw code of");
            write_limit(limit, &mut what);
            what.text("; an image is checked with its notes, by check IMAGE NOTES");
            what
        }
        Slot::Plan if !answer.asked.is_empty() && answer.asked != name => {
            let mut what = Line::of(alloc, "an object of ");
            what.word(name).text(" has");
            write_limit(limit, &mut what);
            what
        }
        Slot::Image if answer.word(0) == "infer" && answer.asked != name => Line::of(
            alloc,
            "jumps name more places than the notes may have points; wanted: 16384 at most with version 1, 32768 with version 2",
        ),
        Slot::Notes if answer.program.completes() => {
            let mut what = Line::of(alloc, "NOTES, or the complete notes, have more than ");
            what.number(limit)
                .text(" bytes or more points than notes may have");
            what
        }
        _ => {
            let mut what = Line::of(alloc, slot.name());
            what.text(" has");
            write_limit(limit, &mut what);
            what
        }
    }
}

// What is said of a number that is too large.
fn large_number(answer: &Answer, slot: Slot, word: &str) -> Line {
    let mut what = Line::of(answer.alloc, slot.name());
    what.text(" is ")
        .word(word)
        .text("; wanted: ")
        .number(slot.limit())
        .text(" at most");
    what
}

/// What is said of a file or a number that is too large, by the number of its word. The file is that which was asked for last.
pub fn large_said(answer: &Answer, number: usize) -> Said {
    let word = answer.word(number);
    let page = match answer.program {
        Program::EbcNotes => "docs/LABELS.md, \"What is answered\"",
        _ => "docs/COMMANDS.md, \"Commands\"",
    };
    let Some(slot) = answer.slot(number) else {
        return Said::with_page(Line::of(answer.alloc, "a number is too large"), page);
    };
    if let Use::Number = slot.purpose() {
        return Said::with_page(large_number(answer, slot, word), page);
    }
    let mut said = Said::with_page(large_file(answer, slot, word), page);
    said.file.text(match slot {
        Slot::Plan if !answer.asked.is_empty() => answer.asked,
        _ => word,
    });
    said
}

/// What is said of a file that can't be written, or of output that can't.
pub fn unwritten_said(answer: &Answer) -> Said {
    let (name, file) = match answer.first_of(Use::Written, "") {
        Some(place) => (place.slot.name(), place.word),
        None => ("the output", ""),
    };
    let mut what = Line::of(answer.alloc, name);
    what.text(" can't be written");
    write_cause(answer, &mut what);
    let mut said = Said::with_page(what, "docs/COMMANDS.md, \"Exit status\"");
    said.file.text(file);
    said
}

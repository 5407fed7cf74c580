//! What is said of words that are no command.

use crate::answer::Answer;
use crate::program::{Program, Slot, Use};
use explain_base::{Line, Said};

const COMMANDS: &str = "asm, link, check, list, run, twin, sample, rom, infer or pair";

fn is_digits(word: &str) -> bool {
    let bytes = word.as_bytes();
    !bytes.is_empty()
        && bytes.iter().all(|byte| byte.is_ascii_digit())
        && (bytes.len() == 1 || bytes.first() != Some(&b'0'))
}

fn is_identifier(word: &str) -> bool {
    word.len() == 4
        && word.as_bytes().iter().all(|byte| byte.is_ascii_digit()
            || (b'a' <= *byte && *byte <= b'f'))
}

// What is wanted of a word that isn't of its form.
fn wanted(slot: Slot, word: &str) -> Option<&'static str> {
    match slot {
        Slot::Width if word != "32" && word != "64" => Some("32 or 64"),
        Slot::Steps | Slot::PairSteps | Slot::Number if !is_digits(word) => Some(
            "decimal digits, with no 0 in front of others",
        ),
        Slot::Count if !is_digits(word) || word == "0" => Some(
            "decimal digits, with no 0 in front",
        ),
        Slot::Vendor | Slot::Device if !is_identifier(word) => Some(
            "four hexadecimal digits, the letters in lower case",
        ),
        _ => match slot.purpose() {
            Use::Read | Use::Written if word.is_empty() => Some(
                "the name of a file, which isn't empty",
            ),
            _ => None,
        },
    }
}

// Adds the usage line of a command of `ebc`, or of the words of another program.
fn add_usage(answer: &Answer, slots: &[Slot], said: &mut Said) {
    let mut line = Line::of(answer.alloc, "usage:");
    match answer.program {
        Program::Ebc => {
            let command = answer.word(0);
            line.text(" ").text(command);
            for slot in slots {
                line.text(" ").text(slot.name());
            }
            if command == "check" && slots.len() > 1 {
                line.text(", or check CODE");
            }
        }
        Program::EbcPlaces => {
            line.text(" IMAGE");
        }
        Program::EbcNotes => {
            line.text(" PLAN, or PLAN NOTES");
        }
        Program::EbcLint => {
            line.text(" IMAGE NOTES");
        }
    }
    said.add(line);
}

// What is wanted in place of a first word that is no command: a command, or the program of that name beside `ebc`.
fn wanted_program(command: &str) -> &'static str {
    match command {
        "notes" => "the program ebc_notes, which stands beside ebc",
        "places" => "the program ebc_places, which stands beside ebc",
        "lint" => "the program ebc_lint, which stands beside ebc",
        "trace" => "the program ebc_trace, which stands beside ebc",
        _ => COMMANDS,
    }
}

// What is said of a first word, or of two, that are no command.
fn unknown(answer: &Answer) -> Said {
    let command = answer.word(0);
    let mut what = Line::new(answer.alloc);
    if answer.words.is_empty() {
        what.text("no words; a command is wanted: ").text(COMMANDS);
    } else if command == "rom" {
        what.text("`rom ")
            .word(answer.word(1))
            .text("` is no command; wanted: rom wrap, rom list or rom take");
    } else {
        what.text("`")
            .word(command)
            .text("` is no command; wanted: ")
            .text(wanted_program(command));
    }
    Said::only(what)
}

// What is said of too few or too many words.
fn miscounted(answer: &Answer, slots: &[Slot]) -> Said {
    let given = answer.words.len().saturating_sub(answer.skipped());
    let mut what = Line::new(answer.alloc);
    what.count(given)
        .text(if given == 1 { " word" } else { " words" });
    match answer.program {
        Program::Ebc => what
            .text(" after `")
            .text(answer.word(0))
            .text("`; wanted: ")
            .count(slots.len()),
        Program::EbcPlaces => what.text("; wanted: 1"),
        Program::EbcNotes => what.text("; wanted: 1 or 2"),
        Program::EbcLint => what.text("; wanted: 2"),
    };
    Said::only(what)
}

// What is said of the first word that isn't of its form.
fn misshapen(answer: &Answer, slots: &[Slot]) -> Said {
    let skipped = answer.skipped();
    for (number, slot) in slots.iter().enumerate() {
        let word = answer.word(number.saturating_add(skipped));
        if let Some(form) = wanted(*slot, word) {
            let mut what = Line::of(answer.alloc, slot.name());
            what.text(" is `").word(word).text("`; wanted: ").text(form);
            return Said::only(what);
        }
    }
    Said::text(answer.alloc, "the words aren't of their form")
}

// What is said of the words of a command, with its usage line.
fn misused(answer: &Answer, slots: &[Slot]) -> Said {
    let given = answer.words.len().saturating_sub(answer.skipped());
    let mut said = if given == slots.len() {
        misshapen(answer, slots)
    } else {
        miscounted(answer, slots)
    };
    add_usage(answer, slots, &mut said);
    said
}

/// What is said of words that are no command.
pub fn words_said(answer: &Answer) -> Said {
    let mut said = match answer.slots() {
        None => unknown(answer),
        Some(slots) => misused(answer, slots),
    };
    said.see.text(match answer.program {
        Program::Ebc => "docs/COMMANDS.md, \"Commands\"",
        Program::EbcPlaces => "docs/COMMANDS.md, \"The places of an image\"",
        Program::EbcNotes => "docs/LABELS.md, \"What is answered\"",
        Program::EbcLint => "docs/FIRMWARE.md, \"Warnings\"",
    });
    said
}

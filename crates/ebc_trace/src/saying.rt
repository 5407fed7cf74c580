//! What the program says on standard error in its own name: of its words, of LAST, and where the output or memory failed.

use crate::request::{Misuse, Request};
use ebc_base::NoMemory;
use explain::{Told, add_said};
use explain_base::{Line, Said};
use std::alloc::{AllocError, Global};
use std::io;

const PAGE: &str = "docs/TRACE.md, \"The program\"";

// What is said of words that aren't of their form.
fn misuse_said(alloc: Global, misuse: Misuse) -> Said {
    let mut what = Line::new(alloc);
    match misuse {
        Misuse::Count(1) => what.text("1 word; wanted: 6"),
        Misuse::Count(given) => what.count(given).text(" words; wanted: 6"),
        Misuse::Form { name, word, wanted } => what
            .text(name)
            .text(" is `")
            .text(word)
            .text("`; wanted: ")
            .text(wanted),
    };
    Said::with_page(what, PAGE)
}

// The lines in which something is said in the program's name.
fn lines(alloc: Global, said: &Said) -> Result<String, NoMemory> {
    let mut told = Told::new(alloc);
    add_said(alloc, "ebc_trace: error", "", said, &mut told)?;
    Ok(told.into_text())
}

// Says something in the program's name.
fn say<R: io::Eprint + AllocGlobal>(rt: &R, said: &Said) {
    // The exit status tells the outcome also where this text can't be made or printed.
    if let Ok(text) = lines(rt.alloc(), said) {
        let text = text.as_str();
        let _ = eprint!(rt; "{text}");
    }
}

/// Says that words aren't of their form.
pub(crate) fn say_misuse<R: io::Eprint + AllocGlobal>(rt: &R, misuse: Misuse) {
    let alloc = rt.alloc();
    let mut said = misuse_said(alloc, misuse);
    said.add(Line::of(
        alloc,
        "usage: WIDTH IMAGE NOTES SCRIPT FIRST LAST | both IMAGE NOTES SCRIPT FIRST LAST",
    ));
    say(rt, &said);
}

/// Says that LAST is past its limit.
pub(crate) fn say_large<R: io::Eprint + AllocGlobal>(rt: &R, request: &Request) {
    let mut what = Line::of(rt.alloc(), "LAST is ");
    what.text(request.last_word())
        .text("; wanted: 10000000 at most");
    say(rt, &Said::with_page(what, PAGE));
}

/// Says that the output can't be written, with the system's words for the cause.
pub(crate) fn say_unwritten<R: io::Eprint + AllocGlobal>(rt: &R, cause: Option<&io::Error>) {
    let alloc = rt.alloc();
    let mut what = Line::of(alloc, "the output can't be written");
    if let Some(error) = cause {
        if let Ok(text) = format!(in alloc; "{error}") {
            what.text(": ").text(text.as_str());
        }
    }
    say(rt, &Said::with_page(what, "docs/TRACE.md, \"The answer\""));
}

/// Says that memory ran out.
pub(crate) fn say_no_memory<R: io::Eprint>(rt: &R) {
    let _ = eprint!(rt; "ebc_trace: error: memory ran out\n");
}

//! What is said of an answer.

use crate::line::Line;
use ebc_base::Name;
use std::alloc::Global;

/// What is said of an answer, as data: `explain` makes the lines of it. It remembers want of memory, as its texts do.
#[derive(Drop)]
pub struct Said {
    /// The file, where it isn't the one of the answer's word, as an object of a plan; else empty.
    pub file: Line,
    /// What stands after the file: `:LINE:COLUMN`, `: main+0x12`, `:0x44`, `: code+0x21`, or nothing.
    pub at: Line,
    /// What was found and what is wanted: what stands after `error: `, and of a refusal after `error: RULE: `.
    pub what: Line,
    /// More lines, each without the two spaces in front of it.
    pub more: Vec<Name>,
    /// Whole lines of notes with a place of their own, as `driver.notes:32:1: note: ..`.
    pub notes: Vec<Name>,
    /// The path of the key of the notes that is concerned; empty where there is none. `explain` makes a line of notes of it.
    pub key: Line,
    /// What is said of that key; empty where there is none.
    pub note: &'static str,
    /// The page and its section: what stands after `  see `.
    pub see: Line,
    is_short: bool,
}

impl Said {
    /// Only what was found and what is wanted.
    pub fn only(what: Line) -> Said {
        let alloc = what.alloc;
        Said {
            file: Line::new(alloc),
            at: Line::new(alloc),
            what,
            more: Vec::new(alloc),
            notes: Vec::new(alloc),
            key: Line::new(alloc),
            note: "",
            see: Line::new(alloc),
            is_short: false,
        }
    }

    /// Only what was found and what is wanted, where that is always the same.
    pub fn text(alloc: Global, what: &str) -> Said {
        Said::only(Line::of(alloc, what))
    }

    /// What was found and what is wanted, at a place of a file (what stands after the file's name), and the page that mends it.
    pub fn at_place(at: Line, what: Line, page: &str) -> Said {
        let mut said = Said::with_page(what, page);
        said.at = at;
        said
    }

    /// What was found and what is wanted, and the page that mends it.
    pub fn with_page(what: Line, page: &str) -> Said {
        let mut said = Said::only(what);
        said.see.text(page);
        said
    }

    /// What was found and what is wanted, with a key of the table of this number of a list of the notes, and what is said of it.
    pub fn with_key(what: Line, list: &str, number: usize, key: &str, note: &'static str) -> Said {
        let mut said = Said::only(what);
        said.key
            .text(list)
            .text("[")
            .count(number)
            .text("].")
            .text(key);
        said.note = note;
        said
    }

    /// Adds a line, without the two spaces in front of it; none if it is empty.
    pub fn add(&mut self, line: Line) {
        if !push(&mut self.more, line) {
            self.is_short = true;
        }
    }

    /// Adds a whole line of notes with a place of its own; none if it is empty.
    pub fn add_note(&mut self, line: Line) {
        if !push(&mut self.notes, line) {
            self.is_short = true;
        }
    }

    /// Whether memory was wanting for a part of it.
    pub fn is_short(&self) -> bool {
        self.is_short
            || self.file.is_short()
            || self.at.is_short()
            || self.what.is_short()
            || self.key.is_short()
            || self.see.is_short()
    }
}

// Adds a line to others, unless it is empty; false where memory was wanting.
fn push(lines: &mut Vec<Name>, line: Line) -> bool {
    match line.done() {
        Ok(text) => text.is_empty() || lines.push(Name::new(text)).is_ok(),
        Err(_) => false,
    }
}

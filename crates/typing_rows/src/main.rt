//! Tries the typing rules, and the readers of notes, scripts, binds and keys of tables, row by row, as the lines of the
//! standard input say. It prints what was wanted and what was found of each row that doesn't hold, and then how many rows
//! of each kind hold. docs/crates/typing_rows.md has the lines.
#![tactic(auto)]

mod answers;
mod binds;
mod keys;
mod reading;
mod records;
mod row;
mod rows;
mod rule_notes;
mod scripts;
mod text;
mod tried;
mod types;
mod words;

use note_types::Notes;
use rows::Rows;
use rule_notes::notes;
use std::io::{self, BufRead, BufReader};

fn main(rt: HostRuntime) -> io::Result<()> {
    match notes(rt.alloc()) {
        Some(notes) => try_rows(&rt, &notes),
        None => print!(rt; "the notes can't be read\n"),
    }
}

// Tries all rows, those of rules under these notes.
fn try_rows(rt: &HostRuntime, notes: &Notes) -> io::Result<()> {
    let alloc = rt.alloc();
    let mut rows = Rows::new(alloc);
    for line in BufReader::new(alloc, rt.reader())?.lines(alloc) {
        let told = rows.tell(alloc, notes, line?.as_str())?;
        print!(rt; "{told}")?;
    }
    let held = rows.held().told(alloc)?;
    print!(rt; "{held}")
}

//! What rows of instructions are answered, and what is wanted of them.
use crate::row::{Row, row_of};
use crate::text::{Shown, Text};
use crate::tried::Tried;
use crate::words::{place, rule, state_with};
use ebc_insn::well_formed;
use note_types::{Notes, RuleName, State};
use rules_data::after_data;
use rules_flow::{Successors, after_flow, places_ascend};
use std::alloc::{AllocError, Global};

/// What the instructions of a table do.
#[derive(Clone, Copy)]
pub enum Doing {
    /// They work on data.
    Data,
    /// They lead on, or work on the stack.
    Flow,
}

// ---- what is wanted

/// `RULE`, or the words of what is changed, or `same`.
fn wanted_state(state: &State, text: &str) -> Option<Result<State, RuleName>> {
    if let Some(failed) = rule(text) {
        return Some(Err(failed));
    }
    match text {
        "same" => Some(Ok(state.copy())),
        _ => Some(Ok(state_with(state, text)?)),
    }
}

/// `fall WORDS`, or `to PLACE WORDS`: a successor, with what is changed in its state.
fn put_successor(to: &mut Successors, state: &State, text: &str) -> Option<()> {
    match text.strip_prefix("fall") {
        Some(words) => to.fall = Some(state_with(state, words)?),
        None => {
            let rest = text.strip_prefix("to ")?;
            let (at, words) = rest.split_once(' ').unwrap_or((rest, ""));
            to.jump = Some((place(at)?, state_with(state, words)?));
        }
    }
    Some(())
}

/// `RULE`, or `ends`, or successors with ` / ` between them.
fn wanted_successors(state: &State, text: &str) -> Option<Result<Successors, RuleName>> {
    if let Some(failed) = rule(text) {
        return Some(Err(failed));
    }
    let mut to = Successors::ends();
    if text == "ends" {
        return Some(Ok(to));
    }
    for one in text.split(" / ") {
        put_successor(&mut to, state, one)?;
    }
    Some(Ok(to))
}

// ---- what is answered

// What was wanted and what was found, in text.
fn both<T: Shown>(alloc: Global, wanted: &T, found: &T) -> Result<Option<Tried>, AllocError> {
    let wanted = Text::of(alloc, wanted)?;
    let found = Text::of(alloc, found)?;
    Ok(Some(Tried { wanted, found }))
}

// A row on data. `None` where its answer can't be read.
fn try_data(
    alloc: Global,
    notes: &Notes,
    row: &Row,
    answer: &str,
) -> Result<Option<Tried>, AllocError> {
    let Some(wanted) = wanted_state(&row.state, answer) else {
        return Ok(None);
    };
    if !well_formed(&row.insn) || 10 <= notes.thunk.len() {
        return Ok(None);
    }
    let found = after_data(notes, &row.here, &row.state, &row.insn);
    both(alloc, &wanted, &found)
}

// A row of control or of the stack. `None` where its answer can't be read.
fn try_flow(
    alloc: Global,
    notes: &Notes,
    row: &Row,
    answer: &str,
) -> Result<Option<Tried>, AllocError> {
    let Some(wanted) = wanted_successors(&row.state, answer) else {
        return Ok(None);
    };
    if !well_formed(&row.insn) || 10 <= notes.thunk.len() || !places_ascend(notes) {
        return Ok(None);
    }
    let found = after_flow(notes, &row.here, &row.state, &row.insn);
    both(alloc, &wanted, &found)
}

// The bytes, the words and the answer of a row.
fn parts(line: &str) -> Option<(&str, &str, &str)> {
    let (_name, rest) = line.split_once(" | ")?;
    let (bytes, rest) = rest.split_once(" | ")?;
    let (words, answer) = rest.split_once(" | ")?;
    Some((bytes, words, answer))
}

/// `NAME | BYTES | WORDS | ANSWER`: what comes of the row. `None` where its text can't be read.
///
/// # Errors
///
/// Want of memory.
pub fn try_instruction(
    alloc: Global,
    notes: &Notes,
    doing: Doing,
    line: &str,
) -> Result<Option<Tried>, AllocError> {
    let Some((bytes, words, answer)) = parts(line) else {
        return Ok(None);
    };
    let Some(row) = row_of(bytes, words) else {
        return Ok(None);
    };
    match doing {
        Doing::Data => try_data(alloc, notes, &row, answer),
        Doing::Flow => try_flow(alloc, notes, &row, answer),
    }
}

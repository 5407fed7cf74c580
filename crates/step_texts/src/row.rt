//! The lines of bytes of objects that a run has changed.
ghost use Rattle.std.specs.Prelude.{◌≡◌, ◌++◌, OnOk, length, string_bytes};
ghost use Rattle.step_texts.specs.RowTexts.{byte_part, changed_bytes_part, more_line, row_line};

use crate::meaning::NumberPart;
use crate::numbers::Byte;
use crate::step::Change;
use crate::text::LINE_ROOM;
use note_types::{NoMemory, Notes};
use std::alloc::Global;

// Adds a byte if it is another than before, and else two dots.
fn push_changed(old: u8, new: u8, line: &mut String) -> Result<(), NoMemory>
    ensures { OnOk result (string_bytes line.new ≡ string_bytes line.old ++ byte_part old new) }
{
    if old == new {
        line.push_str("..")?;
        return Ok(());
    }
    let byte = Byte(new);
    write!(line, "{byte}")?;
    Ok(())
}

// Adds the bytes that are others than before, and two dots for each that isn't. What wasn't there before was zero.
#[tactic(auto, using(crate::proofs::RowLaws::none, crate::proofs::RowLaws::one_more))]
fn push_bytes(old: &[u8], new: &[u8], line: &mut String) -> Result<(), NoMemory>
    ensures { OnOk result (string_bytes line.new ≡ string_bytes line.old ++ changed_bytes_part old.now new.now (length new.now)) }
{
    for k in 0..new.len() {
        let before = old.get(k).copied().unwrap_or(0);
        push_changed(before, new[k], line)?;
    }
    Ok(())
}

/// Appends the line of bytes of which some are others than they were; those that there weren't were zeros.
///
/// # Errors
///
/// Want of memory alone.
pub fn append_row(
    alloc: Global,
    notes: &Notes,
    at: Change,
    old: &[u8],
    new: &[u8],
    out: &mut Vec<u8>,
) -> Result<(), NoMemory>
    ensures { OnOk result (out.new.items ≡ out.old.items ++ row_line notes.now at old.now new.now) }
{
    let address = NumberPart(notes, at);
    let mut line = String::with_capacity(alloc, LINE_ROOM)?;
    write!(line, "  bytes {address} ")?;
    push_bytes(old, new, &mut line)?;
    line.push('\n')?;
    out.extend_from_slice(line.as_bytes())?;
    Ok(())
}

/// Appends the line that so many more of an object's rows are others than they were, if there are any.
///
/// # Errors
///
/// Want of memory alone.
pub fn append_more(alloc: Global, rows: u64, out: &mut Vec<u8>) -> Result<(), NoMemory>
    ensures { OnOk result (out.new.items ≡ out.old.items ++ more_line rows) }
{
    if rows == 0 {
        return Ok(());
    }
    let line = format!(in alloc; "  more {rows}\n")?;
    out.extend_from_slice(line.as_bytes())?;
    Ok(())
}

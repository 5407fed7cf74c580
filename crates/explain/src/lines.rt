//! The lines that are said of an answer.
ghost use Rattle.std.specs.Prelude.{◌≡◌, ◌≢◌, [], ◌++◌, IfOk, OnOk};
ghost use Rattle.explain.specs.Heads.{BeginsWith};
ghost use Rattle.explain.specs.Shown.{shown_chars};

use crate::told::Told;
use ebc_base::Name;
use explain_base::Said;
use std::alloc::{AllocError, Global};

// Adds a part and what stands before it, unless the part is empty.
fn add_part(alloc: Global, before: &str, part: &str, told: &mut Told) -> Result<(), AllocError>
    ensures { OnOk result (BeginsWith told.old told.new) }
{
    if part.is_empty() {
        return Ok(());
    }
    told.part(alloc, before)?;
    told.part(alloc, part)
}

// Adds what was found, and ends the first line.
fn add_found(alloc: Global, what: &str, told: &mut Told) -> Result<(), AllocError>
    ensures begins { OnOk result (BeginsWith told.old told.new) }
    ensures says { OnOk result (told.new ≢ []) }
{
    add_part(alloc, ": ", what, told)?;
    told.end()
}

// Adds lines, with what stands before each.
fn add_lines(alloc: Global, before: &str, lines: &[Name], told: &mut Told) -> Result<(), AllocError>
    ensures { OnOk result (BeginsWith told.old told.new) }
{
    for line in lines {
        told.line(alloc, before, line.as_str())?;
    }
    Ok(())
}

// Adds all below the first line: the other lines, those of notes, and the page. It tells want of memory of any part of what is said.
fn add_below(alloc: Global, said: &Said, told: &mut Told) -> Result<(), AllocError>
    ensures { OnOk result (BeginsWith told.old told.new) }
{
    if said.is_short() {
        return Err(AllocError);
    }
    add_lines(alloc, "  ", said.more.as_slice(), told)?;
    add_lines(alloc, "", said.notes.as_slice(), told)?;
    if said.see.is_empty() {
        return Ok(());
    }
    told.line(alloc, "  see ", said.see.as_str())
}

/// Adds lines: `HEAD TAIL: WHAT`, more lines, lines of notes, and the page.
pub fn add_said(
    alloc: Global,
    head: &str,
    tail: &str,
    said: &Said,
    told: &mut Told,
) -> Result<(), AllocError>
    ensures begins { OnOk result (BeginsWith (told.old ++ shown_chars head.now) told.new) }
    ensures says { OnOk result (told.new ≢ []) }
{
    told.part(alloc, head)?;
    told.part(alloc, tail)?;
    add_found(alloc, said.what.as_str(), told)?;
    add_below(alloc, said, told)
}

/// The lines that are said, of which the first begins with a head.
pub(crate) fn said_lines(
    alloc: Global,
    head: &str,
    tail: &str,
    said: &Said,
) -> Result<Told, AllocError>
    ensures begins { IfOk result (λ told. BeginsWith (shown_chars head.now) told) }
    ensures says { IfOk result (λ told. told ≢ []) }
{
    let mut told = Told::new(alloc);
    add_said(alloc, head, tail, said, &mut told)?;
    Ok(told)
}

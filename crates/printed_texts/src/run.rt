//! Runs.
ghost use Rattle.std.specs.Prelude.{◌≡◌, ◌++◌, IfOk, OnOk, string_bytes};
ghost use Rattle.std.specs.List.{flat_map};
ghost use Rattle.printed_texts.specs.RunTexts.{differ_line, end_line, event_line, run_text, twin_text};

use crate::ending::ShownEnding;
use crate::event::{append, append_event};
use crate::number::ShownSpot;
use ebc_base::NoMemory;
use note_types::{Ending, Event, Notes, Spot};
use std::alloc::{AllocError, Global};

/// What a run shows: how many steps it took, where it stands, how far it is, and its events.
#[derive(Clone, Copy)]
pub struct ShownRun<'a> {
    pub steps: u64,
    pub spot: Spot,
    pub ending: Ending,
    pub events: &'a [Event],
}

fn append_events(
    alloc: Global,
    notes: &Notes,
    events: &[Event],
    out: &mut Vec<u8>,
) -> Result<(), NoMemory>
    ensures { OnOk result (out.new.items ≡ out.old.items ++ flat_map (event_line notes.now) events.now) }
{
    for event in events {
        append_event(alloc, notes, event, out)?;
    }
    Ok(())
}

/// Appends the last line of a run: how many steps it took, where it stands, and how far it is.
///
/// # Errors
///
/// Want of memory alone.
pub fn append_end(
    alloc: Global,
    notes: &Notes,
    steps: u64,
    spot: Spot,
    ending: Ending,
    out: &mut Vec<u8>,
) -> Result<(), NoMemory>
    ensures { OnOk result (out.new.items ≡ out.old.items ++ end_line notes.now steps spot ending) }
{
    let spot = ShownSpot(spot);
    let ending = ShownEnding { notes, ending };
    let line = format!(in alloc; "end {steps} {spot} {ending}\n")?;
    append(line.as_str(), out)
}

// Appends the text of a run.
fn append_run(
    alloc: Global,
    notes: &Notes,
    run: &ShownRun,
    out: &mut Vec<u8>,
) -> Result<(), NoMemory>
    ensures { OnOk result (out.new.items ≡
        out.old.items ++ run_text notes.now run.now.events.now run.now.steps run.now.spot run.now.ending) }
{
    append_events(alloc, notes, run.events, out)?;
    append_end(alloc, notes, run.steps, run.spot, run.ending, out)
}

/// The text of a run: a line for each event, and the last line, which tells its end.
///
/// # Errors
///
/// Want of memory alone.
pub fn run_text(alloc: Global, notes: &Notes, run: &ShownRun) -> Result<Vec<u8>, NoMemory>
    ensures { IfOk result (λ text. text.items ≡ run_text notes.now run.now.events.now run.now.steps run.now.spot run.now.ending) }
{
    let mut text = Vec::new(alloc);
    append_run(alloc, notes, run, &mut text)?;
    Ok(text)
}

// Appends the line that a run at a width begins with, and its text.
fn append_width(
    alloc: Global,
    notes: &Notes,
    line: &str,
    run: &ShownRun,
    out: &mut Vec<u8>,
) -> Result<(), NoMemory>
    ensures { OnOk result (out.new.items ≡ out.old.items
        ++ (line.now ++ run_text notes.now run.now.events.now run.now.steps run.now.spot run.now.ending)) }
{
    append(line, out)?;
    append_run(alloc, notes, run, out)
}

/// The last line of a run at both widths: whether the two are the same, or the least number of steps after which they aren't.
///
/// # Errors
///
/// Want of memory alone.
pub fn differ_line(alloc: Global, differ: Option<u64>) -> Result<String, AllocError>
    ensures { IfOk result (λ line. string_bytes line ≡ differ_line differ) }
{
    match differ {
        None => String::from_str(alloc, "same\n"),
        Some(step) => format!(in alloc; "differ {step}\n"),
    }
}

/// The text of a run at both widths: that of each, at 4 bytes an address and at 8, and whether they are the same or the least
/// number of steps after which they aren't.
///
/// # Errors
///
/// Want of memory alone.
pub fn twin_text(
    alloc: Global,
    notes: &Notes,
    at4: &ShownRun,
    at8: &ShownRun,
    differ: Option<u64>,
) -> Result<Vec<u8>, NoMemory>
    ensures { IfOk result (λ text. text.items ≡ twin_text
        (run_text notes.now at4.now.events.now at4.now.steps at4.now.spot at4.now.ending)
        (run_text notes.now at8.now.events.now at8.now.steps at8.now.spot at8.now.ending) differ) }
{
    let mut text = Vec::new(alloc);
    append_width(alloc, notes, "width 32\n", at4, &mut text)?;
    append_width(alloc, notes, "width 64\n", at8, &mut text)?;
    let line = differ_line(alloc, differ)?;
    append(line.as_str(), &mut text)?;
    Ok(text)
}

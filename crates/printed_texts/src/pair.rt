//! Runs of two images on one host.
ghost use Rattle.std.specs.Prelude.{◌≡◌, ◌++◌, IfOk, OnOk, codes, string_bytes};
ghost use Rattle.std.specs.List.{flat_map};
ghost use Rattle.script_draft.specs.Printed.{value_text};
ghost use Rattle.printed_texts.specs.PairTexts.{pair_event_line, pair_run_text};
ghost use Rattle.printed_texts.specs.RunTexts.{twin_text};

use crate::event::{append, append_event};
use crate::run::{append_end, differ_line};
use crate::value::ShownValue;
use ebc_base::NoMemory;
use note_types::{Ending, Notes, Spot, Value};
use pair_model::PairEvent;
use std::alloc::Global;

/// What a run of two images shows: how many steps it took, where the image stands that runs, how far it is, and its events.
#[derive(Clone, Copy)]
pub struct ShownPair<'a> {
    pub steps: u64,
    pub spot: Spot,
    pub ending: Ending,
    pub events: &'a [PairEvent],
}

// Appends the line of the reply to a bound call.
fn append_bound(
    alloc: Global,
    notes: &Notes,
    value: Value,
    out: &mut Vec<u8>,
) -> Result<(), NoMemory>
    ensures { OnOk result (out.new.items ≡ out.old.items ++ (codes "a reply bound " ++ (value_text notes.now value ++ codes "\n"))) }
{
    let value = ShownValue { notes, value };
    let line = format!(in alloc; "a reply bound {value}\n")?;
    append(line.as_str(), out)
}

// Appends the line of an event, with the things of the notes of its image by their names.
fn append_pair_event(
    alloc: Global,
    a: &Notes,
    b: &Notes,
    event: &PairEvent,
    out: &mut Vec<u8>,
) -> Result<(), NoMemory>
    ensures { OnOk result (out.new.items ≡ out.old.items ++ pair_event_line a.now b.now event.now) }
{
    match event {
        PairEvent::A(event) => {
            append("a ", out)?;
            append_event(alloc, a, event, out)
        }
        PairEvent::B(event) => {
            append("b ", out)?;
            append_event(alloc, b, event, out)
        }
        PairEvent::Bound(value) => append_bound(alloc, b, *value, out),
    }
}

fn append_pair_events(
    alloc: Global,
    a: &Notes,
    b: &Notes,
    events: &[PairEvent],
    out: &mut Vec<u8>,
) -> Result<(), NoMemory>
    ensures { OnOk result (out.new.items ≡ out.old.items ++ flat_map (pair_event_line a.now b.now) events.now) }
{
    for event in events {
        append_pair_event(alloc, a, b, event, out)?;
    }
    Ok(())
}

// Appends the line that a run at a width begins with, and its text.
fn append_pair(
    alloc: Global,
    a: &Notes,
    b: &Notes,
    line: &str,
    run: &ShownPair,
    out: &mut Vec<u8>,
) -> Result<(), NoMemory>
    ensures { OnOk result (out.new.items ≡ out.old.items
        ++ (line.now ++ pair_run_text a.now b.now run.now.events.now run.now.steps run.now.spot run.now.ending)) }
{
    append(line, out)?;
    append_pair_events(alloc, a, b, run.events, out)?;
    append_end(alloc, a, run.steps, run.spot, run.ending, out)
}

/// The text of a run of image A and image B at both widths, each with its notes: that of each, at 4 bytes an address and at 8, and
/// whether they are the same or the least number of steps after which they aren't.
///
/// # Errors
///
/// Want of memory alone.
pub fn pair_text(
    alloc: Global,
    a: &Notes,
    b: &Notes,
    at4: &ShownPair,
    at8: &ShownPair,
    differ: Option<u64>,
) -> Result<Vec<u8>, NoMemory>
    ensures { IfOk result (λ text. text.items ≡ twin_text
        (pair_run_text a.now b.now at4.now.events.now at4.now.steps at4.now.spot at4.now.ending)
        (pair_run_text a.now b.now at8.now.events.now at8.now.steps at8.now.spot at8.now.ending) differ) }
{
    let mut text = Vec::new(alloc);
    append_pair(alloc, a, b, "width 32\n", at4, &mut text)?;
    append_pair(alloc, a, b, "width 64\n", at8, &mut text)?;
    let line = differ_line(alloc, differ)?;
    append(line.as_str(), &mut text)?;
    Ok(text)
}

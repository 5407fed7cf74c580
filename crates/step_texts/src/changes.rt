//! The lines of what a step changed.
ghost use Rattle.std.specs.Prelude.{◌≡◌, ◌<◌, ◌++◌, OnOk, string_bytes};
ghost use Rattle.std.specs.List.{flat_map};
ghost use Rattle.asm_text.specs.Numbers.{hex_text};
ghost use Rattle.step_texts.specs.StepTexts.{event_below, flag_line, register_line, register_lines, stored_line};

use crate::meaning::NumberPart;
use crate::numbers::Byte;
use crate::step::{Change, Stored};
use crate::text::LINE_ROOM;
use note_types::{Event, NoMemory, Notes};
use printed_texts::append_event;
use std::alloc::Global;

/// Appends the events that a step added, each on a line of its own.
///
/// # Errors
///
/// Want of memory alone.
pub(crate) fn append_events(
    alloc: Global,
    notes: &Notes,
    events: &[Event],
    out: &mut Vec<u8>,
) -> Result<(), NoMemory>
    ensures { OnOk result (out.new.items ≡ out.old.items ++ flat_map (event_below notes.now) events.now) }
{
    for event in events {
        append_event_below(alloc, notes, event, out)?;
    }
    Ok(())
}

fn append_event_below(
    alloc: Global,
    notes: &Notes,
    event: &Event,
    out: &mut Vec<u8>,
) -> Result<(), NoMemory>
    ensures { OnOk result (out.new.items ≡ out.old.items ++ event_below notes.now event.now) }
{
    out.extend_from_slice(b"  ")?;
    append_event(alloc, notes, event, out)
}

// Appends the line of a register, if it changed.
fn append_register(
    alloc: Global,
    notes: &Notes,
    register: u8,
    change: Option<Change>,
    out: &mut Vec<u8>,
) -> Result<(), NoMemory>
    ensures { OnOk result (out.new.items ≡ out.old.items ++ register_line notes.now register change) }
{
    let Some(change) = change else {
        return Ok(());
    };
    let number = NumberPart(notes, change);
    let mut line = String::with_capacity(alloc, LINE_ROOM)?;
    write!(line, "  R{register} {number}\n")?;
    out.extend_from_slice(line.as_bytes())?;
    Ok(())
}

/// Appends the lines of the registers that changed, R0 first.
///
/// # Errors
///
/// Want of memory alone.
#[tactic(auto, using(crate::proofs::RegisterLines::none, crate::proofs::RegisterLines::one_more))]
pub(crate) fn append_registers(
    alloc: Global,
    notes: &Notes,
    registers: &[Option<Change>; 8],
    out: &mut Vec<u8>,
) -> Result<(), NoMemory>
    ensures { OnOk result (out.new.items ≡ out.old.items ++ register_lines notes.now registers.now) }
{
    for register in 0..8u8 {
        append_register(alloc, notes, register, registers[register as usize], out)?;
    }
    Ok(())
}

/// The line of C, if it changed; else nothing.
pub(crate) fn flag_line(flag: Option<bool>) -> &'static str
    ensures { result.now ≡ flag_line flag }
{
    match flag {
        Some(true) => "  C 1\n",
        Some(false) => "  C 0\n",
        None => "",
    }
}

/// Adds the digits of bytes to a line.
///
/// # Errors
///
/// Want of memory alone.
pub(crate) fn push_bytes(bytes: &[u8], line: &mut String) -> Result<(), NoMemory>
    ensures { OnOk result (string_bytes line.new ≡ string_bytes line.old ++ flat_map (hex_text 2) bytes.now) }
{
    for byte in bytes {
        let byte = Byte(*byte);
        write!(line, "{byte}")?;
    }
    Ok(())
}

/// Appends the line of what an instruction stored, if it stored anything.
///
/// # Errors
///
/// Want of memory alone.
pub(crate) fn append_stored(
    alloc: Global,
    notes: &Notes,
    stored: &Option<Stored>,
    out: &mut Vec<u8>,
) -> Result<(), NoMemory>
    ensures { OnOk result (out.new.items ≡ out.old.items ++ stored_line notes.now stored.now) }
{
    let Some(stored) = stored else {
        return Ok(());
    };
    let address = NumberPart(notes, stored.address);
    let mut line = String::with_capacity(alloc, LINE_ROOM)?;
    write!(line, "  store {address} ")?;
    push_bytes(stored.bytes.as_slice(), &mut line)?;
    line.push('\n')?;
    out.extend_from_slice(line.as_bytes())?;
    Ok(())
}

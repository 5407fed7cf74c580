//! The lines of a step.
ghost use Rattle.std.specs.Prelude.{◌≡◌, ◌++◌, IfSome, OnOk};
ghost use Rattle.ebc_insn.specs.Spelling.{WellFormed};
ghost use Rattle.step_texts.specs.StepTexts.{step_text};

use crate::changes::{append_events, append_registers, append_stored, flag_line};
use crate::head::append_head;
use crate::step::Step;
use note_types::{Event, NoMemory, Notes};
use std::alloc::Global;

/// The room that a line is given at first, in bytes.
pub(crate) const LINE_ROOM: usize = 64;

/// Appends the lines of a step that added these events, with the things of the notes by their names. Its instruction has a
/// spelling, as each has that was decoded.
///
/// # Errors
///
/// Want of memory alone.
pub fn append_step(
    alloc: Global,
    notes: &Notes,
    step: &Step,
    events: &[Event],
    out: &mut Vec<u8>,
) -> Result<(), NoMemory>
    requires { IfSome step.now.insn WellFormed }
    ensures { OnOk result (out.new.items ≡ out.old.items ++ step_text notes.now step.now events.now) }
{
    append_head(alloc, notes, step, out)?;
    append_events(alloc, notes, events, out)?;
    append_registers(alloc, notes, &step.registers, out)?;
    out.extend_from_slice(flag_line(step.flag).as_bytes())?;
    append_stored(alloc, notes, &step.stored, out)
}

//! The first line of a step: its number, where the run stood, and the instruction.
ghost use Rattle.std.specs.Prelude.{◌≡◌, ◌++◌, IfSome, OnOk, Some, string_bytes};
ghost use Rattle.ebc_insn.specs.Spelling.{WellFormed};
ghost use Rattle.step_texts.specs.StepTexts.{function_part, instruction_part, step_line};

use crate::step::Step;
use crate::text::LINE_ROOM;
use asm_text::Listed;
use ebc_insn::Insn;
use note_types::{NoMemory, Notes, Spot};
use printed_texts::{ShownSpot, function_at};
use std::alloc::Global;
use std::fmt;

// Where a run stands by the function that has the place, behind a space.
#[derive(Clone, Copy)]
struct FunctionPart<'a> {
    notes: &'a Notes,
    spot: Spot,
}

impl fmt::Display for FunctionPart<'_> {
    ghost output = { λ p. Some (function_part p.notes.now p.spot) };

    fn fmt<W: fmt::Write>(&self, f: &mut fmt::Formatter<W>) -> fmt::Result {
        let Spot::Place(place) = self.spot else {
            return Ok(());
        };
        let Some(function) = function_at(self.notes, place) else {
            return Ok(());
        };
        let name = function.name.as_str();
        let offset = place.saturating_sub(function.place);
        write!(f, " {name}+0x{offset:x}")
    }
}

// Adds an instruction behind a space to a line, as a listing has it.
fn push_instruction(insn: &Option<Insn>, line: &mut String) -> Result<(), NoMemory>
    requires { IfSome insn.now WellFormed }
    ensures { OnOk result (string_bytes line.new ≡ string_bytes line.old ++ instruction_part insn.now) }
{
    let Some(insn) = insn else {
        return Ok(());
    };
    let listed = Listed::Instruction {
        insn: *insn,
        place: None,
    };
    line.push(' ')?;
    listed.append_text(line)?;
    Ok(())
}

/// Appends the first line of a step.
///
/// # Errors
///
/// Want of memory alone.
pub(crate) fn append_head(
    alloc: Global,
    notes: &Notes,
    step: &Step,
    out: &mut Vec<u8>,
) -> Result<(), NoMemory>
    requires { IfSome step.now.insn WellFormed }
    ensures { OnOk result (out.new.items ≡ out.old.items ++ step_line notes.now step.now) }
{
    let number = step.number;
    let spot = ShownSpot(step.place);
    let function = FunctionPart {
        notes,
        spot: step.place,
    };
    let mut line = String::with_capacity(alloc, LINE_ROOM)?;
    write!(line, "step {number} {spot}{function}")?;
    push_instruction(&step.insn, &mut line)?;
    line.push('\n')?;
    out.extend_from_slice(line.as_bytes())?;
    Ok(())
}

//! The row of an instruction.

ghost use Rattle.std.specs.Prelude.{◌≡◌, ◌<◌, ◌^◌, length};
ghost use Rattle.ebc_insn.specs.Spelling.{WellFormed};
ghost use Rattle.note_types.specs.Records.{Ascends};
ghost use Rattle.width_checker.specs.Rows.{row_of};

use crate::turns::turn_of;
use ebc_insn::Insn;
use note_types::{Notes, RuleName, State};
use rules_base::Here;
use rules_flow::Successors;

/// The states after an instruction in a state.
///
/// # Errors
///
/// The first rule of its row that fails.
pub fn row(notes: &Notes, here: &Here, s: &State, i: &Insn) -> Result<Successors, RuleName>
    requires thunks { length notes.now.thunk < 2 ^ 32 }
    requires ascend { Ascends notes.now }
    requires well_formed { WellFormed i.now }
    ensures { result ≡ row_of notes.now here.now s.now i.now }
{
    let turn = turn_of(notes, here, s, i)?;
    Ok(turn.successors(s))
}

//! Where an instruction leaves its result.

ghost use Rattle.std.specs.Prelude.{◌≡◌, ◌<◌};
ghost use Rattle.rules_base.specs.Destinations.{destination, put};

use crate::access::{Access, Target, takes, target_at};
use crate::change::Change;
use crate::operand::Distance;
use ebc_insn::Operand;
use note_types::{FnNote, Notes, RuleName, State, Ty};

/// Where a result goes.
#[derive(Clone, Copy, PartialEq, Eq)]
pub enum Destination {
    /// A register other than R0.
    Register(u8),
    /// A cell in memory.
    Memory(Target),
}

/// Where a result goes: a register other than R0, or the memory there.
#[tactic(auto, unfolding(crate::specs::Destinations::destination))]
pub fn destination_of(
    notes: &Notes,
    f: &FnNote,
    s: &State,
    access: Access,
    op: &Operand,
    d: Distance,
) -> Result<Destination, RuleName>
    requires { op.now.reg < 8 }
    ensures { result ≡ destination notes.now f.now s.now access op.now d }
{
    if op.indirect {
        let target = target_at(notes, f, s, access, op.reg, d)?;
        Ok(Destination::Memory(target))
    } else if op.reg == 0 {
        Err(RuleName::Stack)
    } else {
        Ok(Destination::Register(op.reg))
    }
}

/// A value left there: memory has to take it.
pub fn put(to: Destination, t: Ty) -> Result<Change, RuleName>
    ensures { result ≡ put to t }
{
    match to {
        Destination::Register(reg) => Ok(Change::Written { reg, ty: t }),
        Destination::Memory(target) => if takes(target.cell, t) {
            Ok(Change::Stored {
                field: target.field,
            })
        } else {
            Err(RuleName::Store)
        },
    }
}

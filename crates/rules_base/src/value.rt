//! The values of the operands of an instruction.

ghost use Rattle.std.specs.Prelude.{◌≡◌, ◌<◌};
ghost use Rattle.natural_index.specs.Index.{IsIndexSize};
ghost use Rattle.ebc_insn.specs.Spelling.{ExtraFits, IsOperand};
ghost use Rattle.rules_base.specs.Values.{direct_value, form_access, operand_value, register_type};

use crate::access::{Access, Loaded, load_at};
use crate::operand::{extra_distance, with_immediate};
use ebc_insn::{Extra, Operand};
use note_types::{FnNote, Notes, RuleName, State, Ty};

/// How a form of 64 or of 32 bits reaches memory.
pub fn form_access(wide: bool) -> Access
    ensures { result ≡ form_access wide }
{
    if wide { Access::Form64 } else { Access::Dword }
}

/// The type of a register, where it isn't R0.
#[tactic(auto, unfolding(crate::specs::Values::register_type))]
pub fn register_type(s: &State, reg: u8) -> Result<Ty, RuleName>
    requires { reg < 8 }
    ensures { result ≡ register_type s.now reg }
{
    if reg == 0 {
        Err(RuleName::Stack)
    } else {
        Ok(s.regs[reg as usize])
    }
}

// The value of a register and what stands beside it, where it isn't R0.
fn direct_value(notes: &Notes, s: &State, reg: u8, extra: &Extra) -> Result<Loaded, RuleName>
    requires { reg < 8 }
    ensures { result ≡ direct_value notes.now s.now reg extra.now }
{
    if reg == 0 {
        Err(RuleName::Stack)
    } else {
        Ok(Loaded {
            ty: with_immediate(notes.shape.as_slice(), s.regs[reg as usize], extra),
            made: true,
        })
    }
}

/// The value of an operand: a register other than R0 and the immediate beside it, or what the memory there holds. `bits`
/// is how many bits an index beside it has.
#[tactic(auto, unfolding(crate::specs::Values::operand_value))]
pub fn operand_value(
    notes: &Notes,
    f: &FnNote,
    s: &State,
    access: Access,
    op: &Operand,
    bits: u8,
    extra: &Extra,
) -> Result<Loaded, RuleName>
    requires register { IsOperand op.now }
    requires size { IsIndexSize bits }
    requires extra { ExtraFits bits op.now extra.now }
    ensures { result ≡ operand_value notes.now f.now s.now access op.now extra.now }
{
    if op.indirect {
        load_at(notes, f, s, access, op.reg, extra_distance(bits, op, extra))
    } else {
        direct_value(notes, s, op.reg, extra)
    }
}

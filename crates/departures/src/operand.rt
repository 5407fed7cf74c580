//! Operands that are a register itself.

ghost use Rattle.std.specs.Prelude.{◌≡◌};
ghost use Rattle.departures.specs.Operands.{is_r7, is_register_itself};

use ebc_insn::Operand;

/// Whether an operand is a register itself.
pub fn is_register_itself(reg: u8, op: &Operand) -> bool
    ensures { result ≡ is_register_itself reg op.now }
{
    !op.indirect && op.reg == reg
}

/// Whether an operand is R7 itself.
pub fn is_r7(op: &Operand) -> bool
    ensures { result ≡ is_r7 op.now }
{
    is_register_itself(7, op)
}

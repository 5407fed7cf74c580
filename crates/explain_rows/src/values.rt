//! The values of operands, and of registers.

ghost use Rattle.ebc_insn.specs.Spelling.{ExtraFits, IsOperand};

use crate::operands::Memory;
use ebc_insn::{Extra, Operand};
use explain_base::{Line, Scene};
use note_types::Ty;
use rules_base::{form_access, load_at, operand_value};

/// What is loaded of an operand in memory.
pub(crate) fn loaded_type(scene: &Scene, m: Memory) -> Option<Ty> {
    let loaded = load_at(
        scene.notes,
        scene.f,
        scene.state,
        m.access,
        m.reg,
        m.distance,
    )
    .ok()?;
    Some(loaded.ty)
}

/// Operand 2 of an instruction that computes or compares, in 64 bits where `wide`.
pub(crate) fn right_type(scene: &Scene, wide: bool, right: &Operand, extra: &Extra) -> Option<Ty>
    requires right { IsOperand right.now }
    requires extra { ExtraFits 16 right.now extra.now }
{
    let value = operand_value(
        scene.notes,
        scene.f,
        scene.state,
        form_access(wide),
        right,
        16,
        extra,
    )
    .ok()?;
    Some(value.ty)
}

/// A value by what it is called, with its type: `the divisor is any`.
pub(crate) fn value_line(scene: &Scene, name: &str, t: Ty) -> Line {
    let mut line = Line::of(scene.alloc, name);
    line.text(" is ").type_of(scene.notes, scene.f, t);
    line
}

/// A register, with its type.
pub(crate) fn register_line(scene: &Scene, reg: u8, t: Ty) -> Line {
    let mut line = Line::of(scene.alloc, "R");
    line.number(u64::from(reg))
        .text(" is ")
        .type_of(scene.notes, scene.f, t);
    line
}

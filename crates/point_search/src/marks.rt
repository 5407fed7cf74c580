//! The numbers to which the ends of Ints are widened.

ghost use Rattle.std.specs.Prelude.{◌+◌, ◌≤◌, ◌^◌, length};

use code_walk::Code;
use ebc_base::NoMemory;
use ebc_insn::Insn;
use note_types::Ty;
use std::alloc::Global;

/// 0, and the greatest numbers of 8, 16, 31, 32 and 64 bits: the marks of each function.
pub(crate) const ENDS: [u64; 6] = [
    0,
    0xFF,
    0xFFFF,
    0x7FFF_FFFF,
    0xFFFF_FFFF,
    0xFFFF_FFFF_FFFF_FFFF,
];

// The constant that an instruction compares with, or that it moves to a register and that is below 2^32.
fn constant_in(i: &Insn) -> Option<u64> {
    match i {
        Insn::CompareImm { imm, .. } => Some(i64::from(*imm).cast_unsigned()),
        Insn::MoveImm { left, imm, .. } => {
            if !left.indirect && 0 <= *imm && *imm < 0x1_0000_0000 {
                Some(imm.cast_unsigned())
            } else {
                None
            }
        }
        _ => None,
    }
}

/// The marks of a function, in ascending order: those of each function, the ends of its Int parameters, and, of each constant
/// that it compares with or moves to a register, that and the numbers beside it.
///
/// # Errors
///
/// There is no memory for them.
pub(crate) fn marks_of(alloc: Global, code: &Code) -> Result<Vec<u64>, NoMemory>
    requires { code.now.f.now.place + length code.now.bytes.now ≤ 2 ^ 22 }
{
    let mut marks = ENDS.to_vec(alloc)?;
    for param in code.f.params.as_slice() {
        if let Ty::Int { lo, hi, .. } = param.ty {
            marks.push(lo)?;
            marks.push(hi)?;
        }
    }
    let mut at = code.f.place;
    for _ in code.f.place..code.f.end {
        let Some((insn, next)) = code.insn_at(at) else {
            break;
        };
        if let Some(k) = constant_in(&insn) {
            marks.push(k.saturating_sub(1))?;
            marks.push(k)?;
            marks.push(k.saturating_add(1))?;
        }
        at = next;
    }
    marks.sort_unstable();
    Ok(marks)
}

//! The methods that native calls call, and their signatures.

ghost use Rattle.std.specs.Prelude.{◌<◌, ◌^◌, length};
ghost use Rattle.ebc_insn.specs.Spelling.{ExtraFits, WellFormed};

use ebc_base::NoMemory;
use ebc_insn::{Extra, Insn, Operand};
use note_types::{FnNote, Notes, State, Ty};
use rules_base::{Access, extra_distance, load_at};
use std::alloc::Global;

// The type of the operand of a native call.
fn operand_type(notes: &Notes, f: &FnNote, s: &State, op: &Operand, extra: &Extra) -> Option<Ty>
    requires reg { op.now.reg < 8 }
    requires extra { ExtraFits 32 op.now extra.now }
{
    if !op.indirect {
        return Some(s.regs[op.reg as usize]);
    }
    let d = extra_distance(32, op, extra);
    match load_at(notes, f, s, Access::Natural, op.reg, d) {
        Ok(loaded) => Some(loaded.ty),
        Err(_) => None,
    }
}

/// The method whose address the operand of a native call is, by its number.
pub(crate) fn method_called(notes: &Notes, f: &FnNote, s: &State, i: &Insn) -> Option<u32>
    requires { WellFormed i.now }
{
    let Insn::Call {
        far: false,
        native: true,
        relative: false,
        op,
        extra,
    } = i
    else {
        return None;
    };
    match operand_type(notes, f, s, op, extra)? {
        Ty::Method(method) => Some(method),
        _ => None,
    }
}

/// The signatures of a method, by their numbers.
///
/// # Errors
///
/// There is no memory for them.
pub(crate) fn signatures_of(alloc: Global, notes: &Notes, method: u32) -> Result<Vec<u32>, NoMemory>
    requires { length notes.now.signature < 2 ^ 32 }
{
    let mut numbers = Vec::new(alloc);
    for (number, signature) in notes.signature.as_slice().iter().enumerate() {
        if signature.method == method {
            numbers.push(number as u32)?;
        }
    }
    Ok(numbers)
}

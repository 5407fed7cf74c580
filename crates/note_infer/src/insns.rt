//! The instructions of a function's code.

ghost use Rattle.std.specs.Prelude.{◌+◌, ◌<◌, ◌≤◌, ◌^◌, IfSome, length};
ghost use Rattle.ebc_insn.specs.Spelling.{WellFormed};

use ebc_decode::decode;
use ebc_insn::Insn;
use note_types::FnNote;

/// The instruction at a place of a function's code, and the place of the next one. None where the bytes begin with none, and outside
/// the code.
pub fn insn_at(code: &[u8], f: &FnNote, place: u32) -> Option<(Insn, u32)>
    requires { f.now.place + length code.now ≤ 2 ^ 22 }
    ensures well_formed { IfSome result (λ (i, next). WellFormed i) }
    ensures later { IfSome result (λ (i, next). place < next) }
    ensures within { IfSome result (λ (i, next). next ≤ f.now.place + length code.now) }
{
    let offset = place.checked_sub(f.place)? as usize;
    if code.len() <= offset {
        return None;
    }
    match decode(code, offset) {
        Ok((insn, len)) => Some((insn, place + len as u32)),
        Err(_) => None,
    }
}

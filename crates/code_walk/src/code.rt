//! The code of a function.

ghost use Rattle.std.specs.Prelude.{◌+◌, ◌<◌, ◌≤◌, ◌^◌, IfSome, length};
ghost use Rattle.ebc_insn.specs.Spelling.{WellFormed};

use ebc_insn::Insn;
use note_infer::insn_at;
use note_types::FnNote;

/// A function, by its number, and its code.
#[derive(Clone, Copy)]
pub struct Code<'a> {
    pub func: u32,
    pub f: &'a FnNote,
    pub bytes: &'a [u8],
}

impl<'a> Code<'a> {
    /// The instruction at a place, and the place of the next one. None where the bytes begin with none, and outside the code.
    pub fn insn_at(&self, place: u32) -> Option<(Insn, u32)>
        requires small { self.now.f.now.place + length self.now.bytes.now ≤ 2 ^ 22 }
        ensures well_formed { IfSome result (λ (i, next). WellFormed i) }
        ensures later { IfSome result (λ (i, next). place < next) }
    {
        insn_at(self.bytes, self.f, place)
    }
}

//! Instructions as listings have them.

ghost use Rattle.asm_text.specs.Writing.{ListedFits};

use crate::line::Line;
use asm_text::Listed;
use ebc_insn::{Insn, well_formed};

impl Line {
    /// Adds an instruction as a listing has it, its immediate as a number; nothing if no bytes spell it.
    pub fn insn(&mut self, insn: &Insn) -> &mut Line {
        if !well_formed(insn) {
            return self;
        }
        let listed = Listed::Instruction {
            insn: *insn,
            place: None,
        };
        let added = listed.append_text(&mut self.text);
        self.kept(added.is_ok())
    }
}

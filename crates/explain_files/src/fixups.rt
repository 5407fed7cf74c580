//! What is said of a fixup of an object.

use ebc_decode::decode;
use ebc_insn::Insn;
use ebc_object::{Fixup, Object};
use explain_base::{Line, Said};

// The instruction of some code in which an offset lies, with its own offset, as lengths lead to it from the start on.
fn instruction_at(code: &[u8], offset: usize) -> Option<(usize, Insn)> {
    let mut at = 0;
    for _ in 0..code.len() {
        let (insn, len) = decode(code, at).ok()?;
        if offset < at + len {
            return Some((at, insn));
        }
        at += len;
    }
    None
}

// Writes the instruction in which a fixup lies, if it is found, with a few words after it.
fn write_instruction(object: &Object, fixup: &Fixup, behind: &str, line: &mut Line) {
    if fixup.section == 2 {
        return;
    }
    if let Some((at, insn)) = instruction_at(object.code.as_slice(), fixup.offset as usize) {
        line.text("code+")
            .hexadecimal(at as u64)
            .text(" ")
            .insn(&insn)
            .text(behind);
    }
}

/// What is said at a fixup of an object, of which the file is named. The line of its instruction follows, with a few words after it.
pub(crate) fn fixup_said(
    file: &str,
    object: &Object,
    fixup: &Fixup,
    what: Line,
    behind: &str,
) -> Said {
    let mut instruction = Line::new(what.alloc);
    write_instruction(object, fixup, behind, &mut instruction);
    let section = if fixup.section == 2 { "data" } else { "code" };
    let mut at = Line::of(what.alloc, ": ");
    at.text(section).text("+").at(fixup.offset);
    let mut said = Said::at_place(at, what, "docs/LINKING.md, \"Faults\"");
    said.file.text(file);
    said.add(instruction);
    said
}

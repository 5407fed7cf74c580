//! Instructions as they are written.

ghost use Rattle.std.specs.Prelude.{Some};
ghost use Rattle.asm_text.specs.Writing.{beside_shown, index_shown, insn_shown, operand_shown, slot_shown};

use crate::form::Form;
use std::fmt;

// An index as it is written: by its numbers, or by its raw number of 16, 32 or 64 bits.
#[derive(Clone, Copy)]
pub(crate) enum IndexText {
    Pair { neg: bool, units: u64, bytes: u64 },
    Word(u16),
    Dword(u32),
    Qword(u64),
}

impl fmt::Display for IndexText {
    ghost output = { λ t. Some (index_shown t) };

    #[tactic(auto, using(crate::proofs::HexLaws::raw16, crate::proofs::HexLaws::raw32, crate::proofs::HexLaws::raw64))]
    fn fmt<W: fmt::Write>(&self, f: &mut fmt::Formatter<W>) -> fmt::Result {
        match *self {
            IndexText::Pair {
                neg: false,
                units,
                bytes,
            } => write!(f, "(+{units},+{bytes})"),
            IndexText::Pair { units, bytes, .. } => write!(f, "(-{units},-{bytes})"),
            IndexText::Word(n) => write!(f, "#0x{n:04x}"),
            IndexText::Dword(n) => write!(f, "#0x{n:08x}"),
            IndexText::Qword(n) => write!(f, "#0x{n:016x}"),
        }
    }
}

// What is written behind a register.
#[derive(Clone, Copy)]
pub(crate) enum Beside {
    Nothing,
    Imm(i64),
    Idx(IndexText),
}

impl fmt::Display for Beside {
    ghost output = { λ t. Some (beside_shown t) };

    fn fmt<W: fmt::Write>(&self, f: &mut fmt::Formatter<W>) -> fmt::Result {
        match *self {
            Beside::Nothing => Ok(()),
            Beside::Imm(v) => write!(f, " {v}"),
            Beside::Idx(i) => write!(f, "{i}"),
        }
    }
}

// An operand as it is written.
#[derive(Clone, Copy)]
pub(crate) struct OperandText {
    pub reg: u8,
    pub indirect: bool,
    pub beside: Beside,
}

impl fmt::Display for OperandText {
    ghost output = { λ t. Some (operand_shown t) };

    fn fmt<W: fmt::Write>(&self, f: &mut fmt::Formatter<W>) -> fmt::Result {
        let (reg, beside) = (self.reg, self.beside);
        if self.indirect {
            write!(f, "@R{reg}{beside}")
        } else {
            write!(f, "R{reg}{beside}")
        }
    }
}

// One of the operands of an instruction.
#[derive(Clone, Copy)]
pub(crate) enum Slot {
    Operand(OperandText),
    Number(i64),
    Code(u8),
    Label(u32),
    Index(IndexText),
    Flags,
    Pointer,
}

impl fmt::Display for Slot {
    ghost output = { λ t. Some (slot_shown t) };

    #[tactic(auto, using(crate::proofs::HexLaws::raw32))]
    fn fmt<W: fmt::Write>(&self, f: &mut fmt::Formatter<W>) -> fmt::Result {
        match *self {
            Slot::Operand(o) => write!(f, "{o}"),
            Slot::Number(v) => write!(f, "{v}"),
            Slot::Code(n) => write!(f, "{n}"),
            Slot::Label(place) => write!(f, "L{place:08x}"),
            Slot::Index(i) => write!(f, "{i}"),
            Slot::Flags => f.write_str("[FLAGS]"),
            Slot::Pointer => f.write_str("[IP]"),
        }
    }
}

// The operands of an instruction.
#[derive(Clone, Copy)]
pub(crate) enum OperandTexts {
    Nothing,
    One(Slot),
    Two(Slot, Slot),
}

// An instruction as it is written.
#[derive(Clone, Copy)]
pub(crate) struct InsnText {
    pub form: Form,
    pub operands: OperandTexts,
}

impl fmt::Display for InsnText {
    ghost output = { λ t. Some (insn_shown t) };

    fn fmt<W: fmt::Write>(&self, f: &mut fmt::Formatter<W>) -> fmt::Result {
        let form = self.form;
        match self.operands {
            OperandTexts::Nothing => write!(f, "{form}"),
            OperandTexts::One(only) => write!(f, "{form} {only}"),
            OperandTexts::Two(first, second) => write!(f, "{form} {first}, {second}"),
        }
    }
}

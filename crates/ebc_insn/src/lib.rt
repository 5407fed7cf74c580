//! The instructions of EFI Byte Code (UEFI specification, chapter "EFI Byte Code Virtual Machine"): which of them have
//! a spelling, by which parts they are spelled, and how long the spelling is.
//!
//! Promises:
//!
//! - `well_formed`: true exactly where the instruction has a spelling.
//! - `len`: of an instruction with a spelling, `spelled` gives the length of that, and `range` says that it is 2 to 18.
//! - `parts`: the two bytes and the two fields that spell an instruction.
//! - `Field::size`: how many bytes a field has.
#![tactic(auto)]

mod code;
mod fits;

ghost use Rattle.std.specs.Prelude.{◌≡◌, ◌≤◌, ◌↔◌, IsTrue, length};
ghost use Rattle.ebc_insn.specs.Spelling.{WellFormed, spelling};

use crate::fits::{
    extra_fits, fits, fits_byte, is_index_size, is_operand, is_word_or_dword, left_fits, move_fits,
    right_fits, target_fits,
};
pub use code::{Code, Field, parts};
use natural_index::Index;

/// An operand (UEFI specification, "EBC Instruction Operands"): a register, or the memory at the address in it.
#[derive(Clone, Copy, PartialEq, Eq)]
pub struct Operand {
    /// The number of the register: 0 to 7 for R0 to R7. No instruction with another number has a spelling.
    pub reg: u8,
    /// Whether the operand is the memory at the address in the register.
    pub indirect: bool,
}

/// What stands beside an operand (UEFI specification, "Immediate Operands" and "Indexed Operands"): nothing, a number
/// beside a direct operand, or an index beside an indirect one.
#[derive(Clone, Copy, PartialEq, Eq)]
pub enum Extra {
    Nothing,
    /// A signed number that is added to the register, of 16, 32 or 64 bits as the instruction has it.
    Imm(i64),
    /// A natural index that is added to the address in the register, of as many bits.
    Idx(Index),
}

/// When a jump is taken, by the flag C (UEFI specification, "JMP" and "JMP8").
#[derive(Clone, Copy, PartialEq, Eq)]
pub enum Cond {
    Always,
    /// Where C is set.
    Set,
    /// Where C is clear.
    Clear,
}

/// How much a move moves (UEFI specification, "MOV", "MOVI" and "MOVn"): 8, 16, 32 or 64 bits, or a natural unit, which
/// is as wide as an address.
#[derive(Clone, Copy, PartialEq, Eq)]
pub enum Size {
    Byte,
    Word,
    Dword,
    Qword,
    Natural,
}

/// A comparison of operand 1 with operand 2 (UEFI specification, "CMP"), signed, or unsigned where the name begins with U.
#[derive(Clone, Copy, PartialEq, Eq)]
pub enum CmpOp {
    Eq,
    Lte,
    Gte,
    Ulte,
    Ugte,
}

/// An operation that leaves its result in operand 1 (UEFI specification, "EBC Instruction Set"), in the order of the
/// opcodes.
#[derive(Clone, Copy, PartialEq, Eq)]
pub enum ArithOp {
    Not,
    Neg,
    Add,
    Sub,
    Mul,
    Mulu,
    Div,
    Divu,
    Mod,
    Modu,
    And,
    Or,
    Xor,
    Shl,
    Shr,
    Ashr,
    Extb,
    Extw,
    Extd,
}

/// An instruction (UEFI specification, "EBC Instruction Set"). `well_formed` says which have a spelling.
///
/// Where a variant has `wide`, it works on 64 bits if that is set and else on 32. `bits` is how many bits an immediate
/// or an index has in the spelling: 16, 32 or 64. `left` and `right` are operands 1 and 2, as is `op` of what has one,
/// and `extra` stands beside the last of them. `lidx` is the index of operand 1, and `ridx` that of operand 2.
#[derive(Clone, Copy, PartialEq, Eq)]
pub enum Insn {
    /// BREAK: an exception or a call of the virtual machine, by its code.
    Break {
        code: u8,
    },
    /// JMP: to the address that operand 1 gives or, where `far`, to the immediate of 64 bits; past the next instruction
    /// where `relative`.
    Jump {
        cond: Cond,
        far: bool,
        relative: bool,
        op: Operand,
        extra: Extra,
    },
    /// JMP8: a jump to so many words of 16 bits past the next instruction, -128 to 127.
    Jump8 {
        cond: Cond,
        words: i8,
    },
    /// CALL, and CALLEX where `native`: as JMP, with a return address.
    Call {
        far: bool,
        native: bool,
        relative: bool,
        op: Operand,
        extra: Extra,
    },
    /// RET.
    Ret,
    /// CMP: sets the flag C by a comparison of the register `left` with operand 2.
    Compare {
        op: CmpOp,
        wide: bool,
        left: u8,
        right: Operand,
        extra: Extra,
    },
    /// CMPI: sets the flag C by a comparison of operand 1, with its index `idx`, with an immediate, of 32 bits where
    /// `long` and else of 16.
    CompareImm {
        op: CmpOp,
        wide: bool,
        left: Operand,
        idx: Option<Index>,
        long: bool,
        imm: i32,
    },
    /// NOT to EXTNDD: an operation on operand 2, or on both, with its result in operand 1.
    Arith {
        op: ArithOp,
        wide: bool,
        left: Operand,
        right: Operand,
        extra: Extra,
    },
    /// MOVb, MOVw, MOVd, MOVq, MOVqq and MOVn: moves operand 2 to operand 1.
    Move {
        size: Size,
        bits: u8,
        left: Operand,
        right: Operand,
        lidx: Option<Index>,
        ridx: Option<Index>,
    },
    /// MOVsn: moves operand 2, a natural unit that is sign-extended, to operand 1.
    MoveSigned {
        bits: u8,
        left: Operand,
        right: Operand,
        lidx: Option<Index>,
        extra: Extra,
    },
    /// MOVI: moves an immediate, sign-extended, to operand 1.
    MoveImm {
        size: Size,
        bits: u8,
        left: Operand,
        lidx: Option<Index>,
        imm: i64,
    },
    /// MOVIn: moves the value of the index `idx` to operand 1.
    MoveImmNatural {
        bits: u8,
        left: Operand,
        lidx: Option<Index>,
        idx: Index,
    },
    /// MOVREL: moves the address so many bytes past the next instruction to operand 1.
    MoveRelative {
        bits: u8,
        left: Operand,
        lidx: Option<Index>,
        imm: i64,
    },
    /// LOADSP: moves the register `from` to the flags, the one dedicated register that can be written.
    LoadSpecial {
        from: u8,
    },
    /// STORESP: moves a dedicated register to the register `to`: the flags for 0, the instruction pointer for 1.
    StoreSpecial {
        to: u8,
        special: u8,
    },
    /// PUSH.
    Push {
        wide: bool,
        op: Operand,
        extra: Extra,
    },
    /// POP.
    Pop {
        wide: bool,
        op: Operand,
        extra: Extra,
    },
    /// PUSHn.
    PushNatural {
        op: Operand,
        extra: Extra,
    },
    /// POPn.
    PopNatural {
        op: Operand,
        extra: Extra,
    },
}

/// Whether an instruction has a spelling (UEFI specification, "EBC Instruction Set").
pub fn well_formed(i: &Insn) -> bool
    ensures { IsTrue result ↔ WellFormed i.now }
{
    match i {
        Insn::Break { code } => fits_byte(*code),
        Insn::Jump8 { words, .. } => fits(8, (*words).into()),
        Insn::Ret => true,
        Insn::Jump { far, op, extra, .. } | Insn::Call { far, op, extra, .. } => target_fits(
            *far, op, extra,
        ),
        Insn::Compare {
            left,
            right,
            extra,
            ..
        } => *left < 8 && is_operand(right) && extra_fits(16, right, extra),
        Insn::CompareImm {
            left,
            idx,
            long,
            imm,
            ..
        } => is_operand(left)
            && left_fits(16, left, idx)
            && fits(if *long { 32 } else { 16 }, (*imm).into()),
        Insn::Arith {
            left,
            right,
            extra,
            ..
        } => is_operand(left) && is_operand(right) && extra_fits(16, right, extra),
        Insn::Move {
            size,
            bits,
            left,
            right,
            lidx,
            ridx,
        } => move_fits(*size, *bits)
            && is_operand(left)
            && is_operand(right)
            && left_fits(*bits, left, lidx)
            && right_fits(*bits, ridx),
        Insn::MoveSigned {
            bits,
            left,
            right,
            lidx,
            extra,
        } => is_word_or_dword(*bits)
            && is_operand(left)
            && is_operand(right)
            && left_fits(*bits, left, lidx)
            && extra_fits(*bits, right, extra),
        Insn::MoveImm {
            size,
            bits,
            left,
            lidx,
            imm,
        } => is_index_size(*bits)
            && *size != Size::Natural
            && is_operand(left)
            && left_fits(16, left, lidx)
            && fits(*bits, *imm),
        Insn::MoveImmNatural {
            bits,
            left,
            lidx,
            idx,
        } => is_index_size(*bits)
            && is_operand(left)
            && left_fits(16, left, lidx)
            && idx.fits(*bits),
        Insn::MoveRelative {
            bits,
            left,
            lidx,
            imm,
        } => is_index_size(*bits)
            && is_operand(left)
            && left_fits(16, left, lidx)
            && fits(*bits, *imm),
        Insn::LoadSpecial { from } => *from < 8,
        Insn::StoreSpecial { to, special } => *to < 8 && *special < 2,
        Insn::Push { op, extra, .. }
        | Insn::Pop { op, extra, .. }
        | Insn::PushNatural { op, extra }
        | Insn::PopNatural { op, extra } => is_operand(op) && extra_fits(16, op, extra),
    }
}

/// How many bytes spell an instruction (UEFI specification, "Instruction Encoding"): 2 to 18.
#[tactic(auto, using(crate::proofs::Bytes::length_bytes_of))]
pub fn len(i: &Insn) -> usize
    requires { WellFormed i.now }
    ensures spelled { result ≡ length (spelling i.now) }
    ensures range { (2 ≤ result) × (result ≤ 18) }
{
    let code = parts(i);
    2 + code.one.size() + code.two.size()
}

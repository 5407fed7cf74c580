//! What a mnemonic says.

use ebc_insn::{ArithOp, CmpOp, Cond, Size};

/// The form of an instruction: all that its mnemonic says (docs/ASSEMBLY.md, "Mnemonics"; UEFI specification, "EBC
/// Instruction Set"). `bits` is 16, 32 or 64, and `wide` is an operation on 64 bits in place of 32.
#[derive(Clone, Copy)]
pub enum Form {
    /// BREAK.
    Break,
    /// JMP32, or JMP64 where `far`; `a` stands for not `relative`.
    Jump {
        cond: Cond,
        far: bool,
        relative: bool,
    },
    /// JMP8.
    Jump8(Cond),
    /// CALL32, or CALL64 where `far`; EX stands for `native`, and `a` for not `relative`.
    Call {
        far: bool,
        native: bool,
        relative: bool,
    },
    /// RET.
    Ret,
    /// CMP.
    Compare {
        op: CmpOp,
        wide: bool,
    },
    /// CMPI, with an immediate of 32 bits where `long` and else of 16.
    CompareImm {
        op: CmpOp,
        wide: bool,
        long: bool,
    },
    /// NOT to EXTNDD.
    Arith {
        op: ArithOp,
        wide: bool,
    },
    /// MOV with a size and the bits of its indexes.
    Move {
        size: Size,
        bits: u8,
    },
    /// MOVsn.
    MoveSigned {
        bits: u8,
    },
    /// MOVI with a size and the bits of its immediate.
    MoveImm {
        size: Size,
        bits: u8,
    },
    /// MOVIn.
    MoveImmNatural {
        bits: u8,
    },
    /// MOVREL.
    MoveRelative {
        bits: u8,
    },
    /// LOADSP.
    LoadSpecial,
    /// STORESP.
    StoreSpecial,
    /// PUSH.
    Push {
        wide: bool,
    },
    /// POP.
    Pop {
        wide: bool,
    },
    /// PUSHn.
    PushNatural,
    /// POPn.
    PopNatural,
}

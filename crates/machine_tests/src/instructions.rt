//! Lengths of instructions, and instructions without a spelling.

use ebc_insn::{ArithOp, CmpOp, Cond, Extra, Insn, Operand, Size, len, well_formed};
use natural_index::Index;

fn register(reg: u8) -> Operand {
    Operand {
        reg,
        indirect: false,
    }
}

fn memory(reg: u8) -> Operand {
    Operand {
        reg,
        indirect: true,
    }
}

// So many natural units forward; tag 7 has no spelling in 16 bits.
fn index(tag: u8, units: u64) -> Index {
    Index {
        neg: false,
        tag,
        units,
        bytes: 0,
    }
}

#[test]
fn lengths(rt: HostRuntime) {
    let rows = [
        (Insn::Break { code: 3 }, 2),
        (
            Insn::Jump {
                cond: Cond::Set,
                far: true,
                relative: true,
                op: register(0),
                extra: Extra::Imm(i64::MIN),
            },
            10,
        ),
        (
            Insn::Jump8 {
                cond: Cond::Always,
                words: -128,
            },
            2,
        ),
        (
            Insn::Call {
                far: false,
                native: true,
                relative: false,
                op: memory(5),
                extra: Extra::Idx(index(1, 2)),
            },
            6,
        ),
        (Insn::Ret, 2),
        (
            Insn::Compare {
                op: CmpOp::Ugte,
                wide: false,
                left: 7,
                right: memory(7),
                extra: Extra::Nothing,
            },
            2,
        ),
        (
            Insn::CompareImm {
                op: CmpOp::Lte,
                wide: true,
                left: memory(4),
                idx: Some(index(1, 1)),
                long: true,
                imm: i32::MIN,
            },
            8,
        ),
        (
            Insn::Arith {
                op: ArithOp::Extd,
                wide: false,
                left: memory(1),
                right: register(2),
                extra: Extra::Imm(-0x8000),
            },
            4,
        ),
        (
            Insn::Move {
                size: Size::Qword,
                bits: 64,
                left: memory(1),
                right: register(2),
                lidx: Some(index(7, 1 << 55)),
                ridx: Some(index(7, 0)),
            },
            18,
        ),
        (
            Insn::MoveSigned {
                bits: 32,
                left: register(1),
                right: register(2),
                lidx: None,
                extra: Extra::Imm(0x7FFF_FFFF),
            },
            6,
        ),
        (
            Insn::MoveImm {
                size: Size::Byte,
                bits: 64,
                left: memory(1),
                lidx: Some(index(0, 0)),
                imm: -1,
            },
            12,
        ),
        (
            Insn::MoveImmNatural {
                bits: 16,
                left: register(4),
                lidx: None,
                idx: index(6, 4095),
            },
            4,
        ),
        (
            Insn::MoveRelative {
                bits: 32,
                left: register(1),
                lidx: None,
                imm: 0,
            },
            6,
        ),
        (Insn::LoadSpecial { from: 7 }, 2),
        (Insn::StoreSpecial { to: 7, special: 1 }, 2),
        (
            Insn::Push {
                wide: true,
                op: register(3),
                extra: Extra::Nothing,
            },
            2,
        ),
        (
            Insn::PopNatural {
                op: memory(3),
                extra: Extra::Idx(index(0, 0)),
            },
            4,
        ),
    ];
    for (insn, length) in rows {
        assert!(rt; well_formed(&insn));
        assert!(rt; len(&insn) == length);
    }
}

#[test]
fn without_a_spelling(rt: HostRuntime) {
    let rows = [
        // A far jump has an address, and no operand.
        Insn::Jump {
            cond: Cond::Always,
            far: true,
            relative: false,
            op: register(0),
            extra: Extra::Nothing,
        },
        Insn::Jump {
            cond: Cond::Always,
            far: true,
            relative: false,
            op: register(1),
            extra: Extra::Imm(0),
        },
        // A near one has an immediate of 32 bits.
        Insn::Call {
            far: false,
            native: false,
            relative: false,
            op: register(1),
            extra: Extra::Imm(0x8000_0000),
        },
        // There is no R8.
        Insn::Compare {
            op: CmpOp::Eq,
            wide: true,
            left: 8,
            right: register(2),
            extra: Extra::Nothing,
        },
        Insn::CompareImm {
            op: CmpOp::Eq,
            wide: true,
            left: register(4),
            idx: None,
            long: false,
            imm: 0x8000,
        },
        // A direct operand has no index, and an indirect one no immediate.
        Insn::Arith {
            op: ArithOp::Add,
            wide: true,
            left: register(1),
            right: register(2),
            extra: Extra::Idx(index(0, 0)),
        },
        Insn::Push {
            wide: true,
            op: memory(1),
            extra: Extra::Imm(1),
        },
        Insn::MoveRelative {
            bits: 16,
            left: register(1),
            lidx: Some(index(0, 0)),
            imm: 0,
        },
        // Only 64 bits are moved by indexes of 64 bits.
        Insn::Move {
            size: Size::Dword,
            bits: 64,
            left: register(1),
            right: register(2),
            lidx: None,
            ridx: None,
        },
        Insn::MoveSigned {
            bits: 64,
            left: register(1),
            right: register(2),
            lidx: None,
            extra: Extra::Nothing,
        },
        Insn::MoveImm {
            size: Size::Natural,
            bits: 16,
            left: register(1),
            lidx: None,
            imm: 5,
        },
        Insn::MoveImmNatural {
            bits: 16,
            left: register(4),
            lidx: None,
            idx: index(6, 4096),
        },
        Insn::StoreSpecial { to: 0, special: 2 },
    ];
    for insn in rows {
        assert!(rt; !well_formed(&insn));
    }
}

//! Instructions with the bytes that spell them, and each pair of first bytes by a table of its own.

use ebc_decode::{DecodeFault, decode, encode};
use ebc_insn::{ArithOp, CmpOp, Cond, Extra, Insn, Operand, Size};
use natural_index::Index;

fn register(reg: u8) -> Operand {
    Operand {
        reg,
        indirect: false,
    }
}

fn memory(reg: u8) -> Operand {
    Operand {
        reg,
        indirect: true,
    }
}

fn index(neg: bool, tag: u8, units: u64, bytes: u64) -> Index {
    Index {
        neg,
        tag,
        units,
        bytes,
    }
}

// Instructions of each form with the bytes that spell them.
fn rows() -> [(&'static [u8], Insn); 24] {
    [
        (&[0x00, 0x05], Insn::Break { code: 5 }),
        (
            &[0x81, 0xD1, 0x04, 0x00, 0x00, 0x00],
            Insn::Jump {
                cond: Cond::Set,
                far: false,
                relative: true,
                op: register(1),
                extra: Extra::Imm(4),
            },
        ),
        (
            &[0xC1, 0x00, 0x00, 0x10, 0x00, 0x00, 0x00, 0x00, 0x00, 0x80],
            Insn::Jump {
                cond: Cond::Always,
                far: true,
                relative: false,
                op: register(0),
                extra: Extra::Imm(i64::MIN + 0x1000),
            },
        ),
        (
            &[0x82, 0xFE],
            Insn::Jump8 {
                cond: Cond::Clear,
                words: -2,
            },
        ),
        (
            &[0x83, 0x2D, 0x82, 0x01, 0x00, 0x10],
            Insn::Call {
                far: false,
                native: true,
                relative: false,
                op: memory(5),
                extra: Extra::Idx(index(false, 1, 2, 24)),
            },
        ),
        (&[0x04, 0x00], Insn::Ret),
        (
            &[0xC9, 0xA1, 0x01, 0x10],
            Insn::Compare {
                op: CmpOp::Ugte,
                wide: true,
                left: 1,
                right: memory(2),
                extra: Extra::Idx(index(false, 1, 1, 0)),
            },
        ),
        (
            &[0x6D, 0x04, 0x08, 0x00],
            Insn::CompareImm {
                op: CmpOp::Eq,
                wide: true,
                left: register(4),
                idx: None,
                long: false,
                imm: 8,
            },
        ),
        (
            &[0xB1, 0x1C, 0x01, 0x10, 0xFE, 0xFF, 0xFF, 0xFF],
            Insn::CompareImm {
                op: CmpOp::Ugte,
                wide: false,
                left: memory(4),
                idx: Some(index(false, 1, 1, 0)),
                long: true,
                imm: -2,
            },
        ),
        (
            &[0x0C, 0x21],
            Insn::Arith {
                op: ArithOp::Add,
                wide: false,
                left: register(1),
                right: register(2),
                extra: Extra::Nothing,
            },
        ),
        (
            &[0xDC, 0x29, 0xFF, 0xFF],
            Insn::Arith {
                op: ArithOp::Extd,
                wide: true,
                left: memory(1),
                right: register(2),
                extra: Extra::Imm(-1),
            },
        ),
        (
            &[0x60, 0x00, 0x22, 0x90],
            Insn::Move {
                size: Size::Qword,
                bits: 16,
                left: register(0),
                right: register(0),
                lidx: None,
                ridx: Some(index(true, 1, 2, 8)),
            },
        ),
        (
            &[
                0xE8, 0xA9, 0x01, 0x00, 0x00, 0x00, 0x00, 0x00, 0x00, 0x10, 0x04, 0x00, 0x00, 0x00,
                0x00, 0x00, 0x00, 0x00,
            ],
            Insn::Move {
                size: Size::Qword,
                bits: 64,
                left: memory(1),
                right: memory(2),
                lidx: Some(index(false, 1, 1, 0)),
                ridx: Some(index(false, 0, 0, 4)),
            },
        ),
        (
            &[0xA6, 0x29, 0x01, 0x00, 0x00, 0x10],
            Insn::MoveSigned {
                bits: 32,
                left: memory(1),
                right: register(2),
                lidx: Some(index(false, 1, 1, 0)),
                extra: Extra::Nothing,
            },
        ),
        (
            &[0x77, 0x37, 0x00, 0x80],
            Insn::MoveImm {
                size: Size::Qword,
                bits: 16,
                left: register(7),
                lidx: None,
                imm: -0x8000,
            },
        ),
        (
            &[
                0xF7, 0x4A, 0x01, 0x10, 0xFF, 0xFF, 0xFF, 0xFF, 0xFF, 0xFF, 0xFF, 0xFF,
            ],
            Insn::MoveImm {
                size: Size::Byte,
                bits: 64,
                left: memory(2),
                lidx: Some(index(false, 1, 1, 0)),
                imm: -1,
            },
        ),
        (
            &[0x78, 0x04, 0x00, 0x80],
            Insn::MoveImmNatural {
                bits: 16,
                left: register(4),
                lidx: None,
                idx: index(true, 0, 0, 0),
            },
        ),
        (
            &[0x78, 0x04, 0x01, 0x10],
            Insn::MoveImmNatural {
                bits: 16,
                left: register(4),
                lidx: None,
                idx: index(false, 1, 1, 0),
            },
        ),
        (
            &[0x79, 0x01, 0xFE, 0xFF],
            Insn::MoveRelative {
                bits: 16,
                left: register(1),
                lidx: None,
                imm: -2,
            },
        ),
        (&[0x29, 0x50], Insn::LoadSpecial { from: 5 }),
        (&[0x2A, 0x15], Insn::StoreSpecial { to: 5, special: 1 }),
        (
            &[0xAB, 0x03, 0x01, 0x00],
            Insn::Push {
                wide: false,
                op: register(3),
                extra: Extra::Imm(1),
            },
        ),
        (
            &[0x6C, 0x0B],
            Insn::Pop {
                wide: true,
                op: memory(3),
                extra: Extra::Nothing,
            },
        ),
        (
            &[0xB5, 0x0B, 0x01, 0x10],
            Insn::PushNatural {
                op: memory(3),
                extra: Extra::Idx(index(false, 1, 1, 0)),
            },
        ),
    ]
}

#[test]
fn instructions(rt: HostRuntime) {
    for (code, insn) in rows() {
        assert!(rt; decode(code, 0) == Ok((insn, code.len())));
        assert!(rt; ebc_insn::well_formed(&insn), "{code:?}");
        assert!(rt; encode(&insn).as_slice() == code);
    }
}

#[test]
fn faults(rt: HostRuntime) {
    let rows: [(&[u8], DecodeFault); 14] = [
        (&[], DecodeFault::Short),
        (&[0x77], DecodeFault::Short),
        (&[0x77, 0x31, 0x05], DecodeFault::Short),
        (
            &[0xC1, 0x00, 0x00, 0x10, 0x00, 0x00, 0x00, 0x00, 0x00],
            DecodeFault::Short,
        ),
        (&[0x27, 0x00], DecodeFault::Opcode),
        (&[0x04, 0x01], DecodeFault::Reserved),
        (&[0x42, 0x00], DecodeFault::Reserved),
        (&[0x41, 0x00], DecodeFault::Reserved),
        (&[0x37, 0x71], DecodeFault::Reserved),
        (&[0xA0, 0x12, 0x00, 0x00], DecodeFault::DirectIndex),
        (&[0xA0, 0x12], DecodeFault::DirectIndex),
        (&[0x78, 0x04, 0x00, 0x70], DecodeFault::IndexTag),
        (&[0xE0, 0x1A, 0x00, 0x00, 0x00, 0x70], DecodeFault::IndexTag),
        (&[0xE0, 0x1A, 0x00, 0x70, 0x00], DecodeFault::Short),
    ];
    for (code, fault) in rows {
        assert!(rt; decode(code, 0) == Err(fault));
    }
}

#[test]
fn places(rt: HostRuntime) {
    let code = [0x78, 0x04, 0x01, 0x10, 0x6D, 0x04, 0x08, 0x00, 0x04, 0x00];
    let first = Insn::MoveImmNatural {
        bits: 16,
        left: register(4),
        lidx: None,
        idx: index(false, 1, 1, 0),
    };
    let second = Insn::CompareImm {
        op: CmpOp::Eq,
        wide: true,
        left: register(4),
        idx: None,
        long: false,
        imm: 8,
    };
    assert!(rt; decode(&code, 0) == Ok((first, 4)));
    assert!(rt; decode(&code, 4) == Ok((second, 4)));
    assert!(rt; decode(&code, 8) == Ok((Insn::Ret, 2)));
    assert!(rt; decode(&code, 10) == Err(DecodeFault::Short));
}

// The bits of the first two bytes that stand for something, as a row of the encoding table has them.
#[derive(Clone, Copy)]
struct Row {
    // The first and the last opcode of the row.
    opcodes: (u8, u8),
    // Bits of each byte that must be zero.
    clear: (u8, u8),
    // The bit of either byte that says that there is a first field.
    mark: (u8, u8),
    // How many bytes the first field has.
    size: u8,
    // Whether the first field is an index of operand 1.
    left_index: bool,
    second: Second,
}

// What the second field is.
#[derive(Clone, Copy)]
enum Second {
    Nothing,
    // So many bytes, if bit 6 of the first byte is set.
    Marked(u8),
    // An immediate of 4 bytes if bit 7 of the first byte is set, and else of 2.
    Long,
    // 2, 4 or 8 bytes, for 1, 2 or 3 in bits 6 and 7 of the first byte.
    Width,
}

fn plain_row(opcodes: (u8, u8), clear: (u8, u8), mark: (u8, u8), size: u8) -> Row {
    Row {
        opcodes,
        clear,
        mark,
        size,
        left_index: false,
        second: Second::Nothing,
    }
}

fn move_row(opcodes: (u8, u8), size: u8) -> Row {
    Row {
        opcodes,
        clear: (0, 0),
        mark: (0x80, 0),
        size,
        left_index: true,
        second: Second::Marked(size),
    }
}

fn index_row(opcodes: (u8, u8), clear: (u8, u8), mark: (u8, u8), second: Second) -> Row {
    Row {
        opcodes,
        clear,
        mark,
        size: 2,
        left_index: true,
        second,
    }
}

fn table() -> [Row; 21] {
    [
        plain_row((0x00, 0x00), (0xC0, 0x00), (0, 0), 0),
        plain_row((0x01, 0x01), (0x00, 0x20), (0x80, 0), 4),
        plain_row((0x02, 0x02), (0x00, 0x00), (0, 0), 0),
        plain_row((0x03, 0x03), (0x00, 0xC0), (0x80, 0), 4),
        plain_row((0x04, 0x04), (0xC0, 0xFF), (0, 0), 0),
        plain_row((0x05, 0x09), (0x00, 0x08), (0x80, 0), 2),
        plain_row((0x0A, 0x1C), (0x00, 0x00), (0x80, 0), 2),
        move_row((0x1D, 0x20), 2),
        move_row((0x21, 0x24), 4),
        move_row((0x25, 0x25), 2),
        move_row((0x26, 0x26), 4),
        move_row((0x28, 0x28), 8),
        plain_row((0x29, 0x29), (0xC0, 0x8F), (0, 0), 0),
        plain_row((0x2A, 0x2A), (0xC0, 0xE8), (0, 0), 0),
        plain_row((0x2B, 0x2C), (0x00, 0xF0), (0x80, 0), 2),
        index_row((0x2D, 0x31), (0x00, 0xE0), (0, 0x10), Second::Long),
        move_row((0x32, 0x32), 2),
        move_row((0x33, 0x33), 4),
        plain_row((0x35, 0x36), (0x40, 0xF0), (0x80, 0), 2),
        index_row((0x37, 0x37), (0x00, 0x80), (0, 0x40), Second::Width),
        index_row((0x38, 0x39), (0x00, 0xB0), (0, 0x40), Second::Width),
    ]
}

fn row_of(opcode: u8) -> Option<Row> {
    for row in table() {
        if row.opcodes.0 <= opcode && opcode <= row.opcodes.1 {
            return Some(row);
        }
    }
    None
}

impl Row {
    // The length of what two bytes with zeros after them spell, or why they spell nothing.
    fn expected(self, b0: u8, b1: u8) -> Result<usize, DecodeFault> {
        let jumps = self.opcodes.0 == 0x01 || self.opcodes.0 == 0x03;
        let far = jumps && b0 & 0x40 != 0;
        let marked = b0 & self.mark.0 != 0 || b1 & self.mark.1 != 0;
        let clear = b0 & self.clear.0 == 0 && b1 & self.clear.1 == 0;
        if !clear || self.has_lone_condition(b0, b1) || far && (!marked || b1 & 0x0F != 0) {
            return Err(DecodeFault::Reserved);
        }
        let second = match self.second {
            Second::Nothing => 0,
            Second::Marked(size) => if b0 & 0x40 != 0 { size } else { 0 },
            Second::Long => if b0 & 0x80 != 0 { 4 } else { 2 },
            Second::Width => match b0 & 0xC0 {
                0x00 => return Err(DecodeFault::Reserved),
                0x40 => 2,
                0x80 => 4,
                _ => 8,
            },
        };
        if self.left_index && marked && b1 & 0x08 == 0 {
            return Err(DecodeFault::DirectIndex);
        }
        let first = if far {
            8
        } else if marked {
            self.size
        } else {
            0
        };
        Ok(2 + usize::from(first) + usize::from(second))
    }

    // Whether a jump has the bit for C set, and isn't conditional.
    fn has_lone_condition(self, b0: u8, b1: u8) -> bool {
        match self.opcodes.0 {
            0x01 => b1 & 0xC0 == 0x40,
            0x02 => b0 & 0xC0 == 0x40,
            _ => false,
        }
    }
}

#[test]
fn all_first_two_bytes(rt: HostRuntime) {
    for b0 in 0..=255 {
        let row = row_of(b0 & 0x3F);
        for b1 in 0..=255 {
            let mut code = [0; 18];
            code[0] = b0;
            code[1] = b1;
            let expected = match row {
                Some(row) => row.expected(b0, b1),
                None => Err(DecodeFault::Opcode),
            };
            match decode(&code, 0) {
                Ok((insn, length)) => {
                    assert!(rt; Ok(length) == expected, "{b0} {b1}");
                    assert!(rt;
                        decode(&code[..length - 1], 0) == Err(DecodeFault::Short),
                        "{b0} {b1}"
                    );
                    assert!(rt; encode(&insn).as_slice() == &code[..length], "{b0} {b1}");
                }
                Err(fault) => assert!(rt; Err(fault) == expected, "{b0} {b1}"),
            }
        }
    }
}

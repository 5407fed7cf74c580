//! Results of the arithmetic and of the comparisons.

use ebc_insn::{ArithOp, CmpOp};
use machine_alu::{DivideError, compare, compute};

const LEAST: u64 = 0x8000_0000_0000_0000;

const MINUS_ONE: u64 = 0xFFFF_FFFF_FFFF_FFFF;

#[test]
fn results(rt: HostRuntime) {
    let rows = [
        // Sums and differences wrap, and a result of 32 bits clears the upper half.
        (ArithOp::Add, false, 0xFFFF_FFFF_0000_0001, 0xFFFF_FFFF, 0),
        (ArithOp::Add, true, MINUS_ONE, 2, 1),
        (ArithOp::Sub, false, 0, 1, 0xFFFF_FFFF),
        // One operand.
        (ArithOp::Not, false, 9, 0, 0xFFFF_FFFF),
        (ArithOp::Neg, true, 9, 1, MINUS_ONE),
        (ArithOp::Neg, false, 9, 0x8000_0000, 0x8000_0000),
        (ArithOp::Extb, false, 9, 0x80, 0xFFFF_FF80),
        (ArithOp::Extw, true, 9, 0xFFFF_7FFF, 0x7FFF),
        (ArithOp::Extd, true, 9, 0x8000_0000, 0xFFFF_FFFF_8000_0000),
        // The smallest number by -1 wraps; MOD has the dividend's sign.
        (ArithOp::Div, true, LEAST, MINUS_ONE, LEAST),
        (ArithOp::Mod, true, LEAST, MINUS_ONE, 0),
        (
            ArithOp::Div,
            true,
            7,
            0xFFFF_FFFF_FFFF_FFFE,
            0xFFFF_FFFF_FFFF_FFFD,
        ),
        (ArithOp::Mod, true, 7, 0xFFFF_FFFF_FFFF_FFFE, 1),
        (ArithOp::Divu, true, LEAST, 2, 0x4000_0000_0000_0000),
        (ArithOp::Modu, false, 0xFFFF_FFFF, 10, 5),
        (ArithOp::Mul, false, 0xFFFF_FFFF, 0xFFFF_FFFF, 1),
        (ArithOp::Mulu, true, LEAST, 3, LEAST),
        // Counts at and past the width.
        (ArithOp::Shl, false, 1, 31, 0x8000_0000),
        (ArithOp::Shl, true, 1, 64, 0),
        (ArithOp::Shr, false, 0x8000_0000, 32, 0),
        (ArithOp::Shr, false, 0x8000_0000, 0x1_0000_0001, 0x4000_0000),
        (ArithOp::Ashr, true, LEAST, MINUS_ONE, MINUS_ONE),
        (ArithOp::Ashr, false, 0x7FFF_FFFF, 32, 0),
        // Bits.
        (ArithOp::And, true, LEAST + 6, LEAST + 3, LEAST + 2),
        (ArithOp::Or, false, LEAST + 6, LEAST + 3, 7),
        (ArithOp::Xor, true, 6, 3, 5),
    ];
    for (op, wide, a, b, result) in rows {
        assert!(rt; compute(op, wide, a, b) == Ok(result));
    }
}

#[test]
fn zero_divisors(rt: HostRuntime) {
    for op in [ArithOp::Div, ArithOp::Divu, ArithOp::Mod, ArithOp::Modu] {
        assert!(rt; compute(op, true, 7, 0) == Err(DivideError));
        assert!(rt; compute(op, false, 7, 0x3_0000_0000) == Err(DivideError));
        assert!(rt; compute(op, true, 7, 0x3_0000_0000).is_ok());
    }
}

#[test]
fn comparisons(rt: HostRuntime) {
    let rows = [
        (CmpOp::Eq, false, 0x1_0000_0000, 0, true),
        (CmpOp::Eq, true, 0x1_0000_0000, 0, false),
        (CmpOp::Lte, true, MINUS_ONE, 0, true),
        (CmpOp::Gte, false, 0x7FFF_FFFF, 0x8000_0000, true),
        (CmpOp::Ulte, true, MINUS_ONE, 0, false),
        (CmpOp::Ugte, false, 0x7FFF_FFFF, 0x8000_0000, false),
    ];
    for (op, wide, a, b, result) in rows {
        assert!(rt; compare(op, wide, a, b) == result);
    }
}

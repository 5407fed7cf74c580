//! Fields of the first two bytes of an instruction, each moved to bit 0.

ghost use Rattle.std.specs.Prelude.{◌≡◌};
ghost use Rattle.ebc_decode.specs.Reading.{arith_at, bits_at, cmp_at, cond_at, flag, operand_at, size_at};

use ebc_insn::{ArithOp, CmpOp, Cond, Operand, Size};

// Bit 0.
#[inline(always)]
pub fn flag(n: u8) -> bool
    ensures { result ≡ flag n }
{
    n % 2 == 1
}

// An operand from four bits.
#[inline(always)]
pub fn operand_at(n: u8) -> Operand
    ensures { result ≡ operand_at n }
{
    Operand {
        reg: n % 8,
        indirect: flag(n / 8),
    }
}

// A jump's condition from bits 6 and 7 of a byte.
#[inline(always)]
pub fn cond_at(n: u8) -> Cond
    ensures { result ≡ cond_at n }
{
    match n {
        0 => Cond::Always,
        3 => Cond::Set,
        _ => Cond::Clear,
    }
}

// How many bits an immediate or an index has.
#[inline(always)]
pub fn bits_at(n: u8) -> u8
    ensures { result ≡ bits_at n }
{
    match n {
        1 => 16,
        2 => 32,
        _ => 64,
    }
}

// The size of a move.
#[inline(always)]
pub fn size_at(n: u8) -> Size
    ensures { result ≡ size_at n }
{
    match n {
        0 => Size::Byte,
        1 => Size::Word,
        2 => Size::Dword,
        _ => Size::Qword,
    }
}

// The comparison of an opcode, from the first of its kind.
#[inline(always)]
pub fn cmp_op_at(n: u8) -> CmpOp
    ensures { result ≡ cmp_at n }
{
    match n {
        0 => CmpOp::Eq,
        1 => CmpOp::Lte,
        2 => CmpOp::Gte,
        3 => CmpOp::Ulte,
        _ => CmpOp::Ugte,
    }
}

// The operation of an opcode, from the first of its kind.
#[inline(always)]
pub fn arith_op_at(n: u8) -> ArithOp
    ensures { result ≡ arith_at n }
{
    match n {
        0 => ArithOp::Not,
        1 => ArithOp::Neg,
        2 => ArithOp::Add,
        3 => ArithOp::Sub,
        4 => ArithOp::Mul,
        5 => ArithOp::Mulu,
        6 => ArithOp::Div,
        7 => ArithOp::Divu,
        8 => ArithOp::Mod,
        9 => ArithOp::Modu,
        10 => ArithOp::And,
        11 => ArithOp::Or,
        12 => ArithOp::Xor,
        13 => ArithOp::Shl,
        14 => ArithOp::Shr,
        15 => ArithOp::Ashr,
        16 => ArithOp::Extb,
        17 => ArithOp::Extw,
        _ => ArithOp::Extd,
    }
}

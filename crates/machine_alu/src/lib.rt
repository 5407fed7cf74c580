//! The arithmetic of the machine: what the operations and comparisons of EFI Byte Code give on two numbers, at 32 and
//! at 64 bits (UEFI specification, chapter "EFI Byte Code Virtual Machine", section "EBC Instruction Set").
//!
//! Promises:
//!
//! - `compute`: `value` gives the table's result of an operation on two numbers; `divide_error` says that the error
//!   comes exactly where an operation divides by a number whose low bits are 0.
//! - `compare`: whether the two numbers compare as the operation asks.
#![tactic(auto)]

ghost use Rattle.std.specs.Prelude.{◌≡◌, ◌<◌, ◌^◌, ◌*ℤ◌, ◌↔◌, IsTrue, IsErr};
ghost use Rattle.machine_alu.specs.Alu.{bits_of, low, signed, wrap, shifted, outcome, divides_by_zero, computed, compared};

use ebc_insn::{ArithOp, CmpOp};

/// A division by 0.
#[derive(Clone, Copy, PartialEq, Eq)]
pub struct DivideError;

/// The result of an operation on operand 1, `a`, and operand 2, `b`, of 64 bits where `wide` and else of 32.
///
/// Only the low 64 or 32 bits of the operands count, and the bits of the result above them are zero. NOT, NEG and the
/// extensions act on operand 2 alone. MUL, DIV, MOD and ASHR are signed; MULU, DIVU, MODU and SHR are unsigned. DIV rounds
/// towards zero, and MOD has the sign of operand 1; the smallest number divided by -1 wraps. A shift by the width or more
/// gives 0, or for ASHR the sign in each bit.
///
/// `DivideError` comes exactly where DIV, DIVU, MOD or MODU has a divisor whose low 64 or 32 bits are 0.
#[tactic(auto, unfolding(crate::specs::Alu::computed))]
#[inline(always)]
pub fn compute(op: ArithOp, wide: bool, a: u64, b: u64) -> Result<u64, DivideError>
    ensures value { result ≡ computed op wide a b }
    ensures divide_error { IsErr result ↔ IsTrue (divides_by_zero op wide b) }
{
    let (x, y) = (low(wide, a), low(wide, b));
    Ok(match op {
        ArithOp::Not => low(wide, !y),
        ArithOp::Neg => low(wide, y.wrapping_neg()),
        ArithOp::Add => low(wide, x.wrapping_add(y)),
        ArithOp::Sub => low(wide, x.wrapping_sub(y)),
        ArithOp::Mul => product(wide, signed(wide, x), signed(wide, y)),
        ArithOp::Mulu => low(wide, x.wrapping_mul(y)),
        ArithOp::Div if y != 0 => wrap(wide, signed(wide, x).wrapping_div(signed(wide, y))),
        ArithOp::Divu if y != 0 => x / y,
        ArithOp::Mod if y != 0 => wrap(wide, signed(wide, x).wrapping_rem(signed(wide, y))),
        ArithOp::Modu if y != 0 => x % y,
        ArithOp::Div | ArithOp::Divu | ArithOp::Mod | ArithOp::Modu => return Err(DivideError),
        ArithOp::And => x & y,
        ArithOp::Or => x | y,
        ArithOp::Xor => x ^ y,
        ArithOp::Shl => shift_left(wide, x, y),
        ArithOp::Shr => shift_right(wide, x, y),
        ArithOp::Ashr => wrap(wide, shift_signed(signed(wide, x), y)),
        ArithOp::Extb => wrap(wide, ((y % 0x100) as u8).cast_signed() as i64),
        ArithOp::Extw => wrap(wide, ((y % 0x1_0000) as u16).cast_signed() as i64),
        ArithOp::Extd => wrap(wide, ((y % 0x1_0000_0000) as u32).cast_signed() as i64),
    })
}

/// Whether operand 1, `a`, compares with operand 2, `b`, as the operation asks, of 64 bits where `wide` and else of 32:
/// equal, at most or at least, as signed or as unsigned numbers.
#[tactic(auto, unfolding(crate::specs::Alu::compared))]
#[inline(always)]
pub fn compare(op: CmpOp, wide: bool, a: u64, b: u64) -> bool
    ensures { result ≡ compared op wide a b }
{
    match op {
        CmpOp::Eq => low(wide, a) == low(wide, b),
        CmpOp::Lte => signed(wide, a) <= signed(wide, b),
        CmpOp::Gte => signed(wide, a) >= signed(wide, b),
        CmpOp::Ulte => low(wide, a) <= low(wide, b),
        CmpOp::Ugte => low(wide, a) >= low(wide, b),
    }
}

// The low 64 or 32 bits.
#[inline(always)]
fn low(wide: bool, x: u64) -> u64
    ensures value { result ≡ low (bits_of wide) x }
    ensures below { result < 2 ^ bits_of wide }
{
    if wide { x } else { x % 0x1_0000_0000 }
}

// The low 64 or 32 bits as a signed number.
#[inline(always)]
fn signed(wide: bool, x: u64) -> i64
    ensures { result ≡ signed (bits_of wide) x }
{
    if wide {
        x.cast_signed()
    } else {
        ((x % 0x1_0000_0000) as u32).cast_signed() as i64
    }
}

// The low 64 or 32 bits of a signed number.
#[inline(always)]
fn wrap(wide: bool, z: i64) -> u64
    ensures { result ≡ wrap (bits_of wide) z }
{
    low(wide, z.cast_unsigned())
}

// The low 64 or 32 bits of a product.
#[tactic(auto, using(crate::proofs::Products::wrap_product))]
#[inline(always)]
fn product(wide: bool, m: i64, n: i64) -> u64
    ensures { result ≡ wrap (bits_of wide) (m *ℤ n) }
{
    wrap(wide, m.wrapping_mul(n))
}

#[tactic(auto, using(crate::proofs::Shifts::past_left))]
#[inline(always)]
fn shift_left(wide: bool, x: u64, y: u64) -> u64
    requires { x < 2 ^ bits_of wide }
    ensures { result ≡ outcome (bits_of wide) ArithOp.Shl x y }
{
    let bits = if wide { 64 } else { 32 };
    if y < bits { low(wide, x << y) } else { 0 }
}

#[tactic(auto, using(crate::proofs::Shifts::past_right))]
#[inline(always)]
fn shift_right(wide: bool, x: u64, y: u64) -> u64
    requires { x < 2 ^ bits_of wide }
    ensures { result ≡ outcome (bits_of wide) ArithOp.Shr x y }
{
    if y < 64 { x >> y } else { 0 }
}

#[tactic(auto, using(crate::proofs::Shifts::past_negative, crate::proofs::Shifts::past_positive))]
#[inline(always)]
fn shift_signed(z: i64, y: u64) -> i64
    ensures { result ≡ shifted z y }
{
    if y < 64 {
        z >> y
    } else if z < 0 {
        -1
    } else {
        0
    }
}

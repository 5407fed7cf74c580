//! What the operations of arithmetic give on types.

ghost use Rattle.std.specs.Prelude.{◌≡◌, ◌^◌, ◌<◌};
ghost use Rattle.machine_alu.specs.Alu.{bits_of, computed, divides};
ghost use Rattle.rules_base.specs.Parts.{full};
ghost use Rattle.rules_data.specs.Arithmetic.{common_bits, computed_type, divided, divisor_known, error_bit, error_status, fold_row};
ghost use Rattle.rules_data.specs.Arithmetic.{int_row, is_last_bit, is_unary, other_row, power_product, remainder, shifted_left};
ghost use Rattle.rules_data.specs.Arithmetic.{shifted_right, shl_row, or_row, wide_row, folded};

use ebc_insn::ArithOp;
use machine_alu::{DivideError, compute};
use note_types::{Shape, Ty};
use rules_base::{
    Span, constant, constant_of, difference, full, is_int, is_int_below, product, span_of, sum,
};

/// What an operation gives.
#[tactic(auto, unfolding(crate::specs::Arithmetic::computed_type))]
pub fn computed_type(shapes: &[Shape], op: ArithOp, wide: bool, a: Ty, b: Ty) -> Ty
    ensures { result ≡ computed_type shapes.now op wide a b }
{
    let row = if wide {
        wide_row(shapes, op, a, b)
    } else {
        None
    };
    match row {
        Some(t) => t,
        None => other_row(op, wide, if is_unary(op) { b } else { a }, b),
    }
}

/// Whether the divisor of a division is a number.
pub fn divisor_known(op: ArithOp, b: Ty) -> bool
    ensures { result ≡ divisor_known op b }
{
    !divides(op) || is_int(b)
}

// Whether an operation divides by operand 2.
fn divides(op: ArithOp) -> bool
    ensures { result ≡ divides op }
{
    matches!(
        op,
        ArithOp::Div | ArithOp::Divu | ArithOp::Mod | ArithOp::Modu
    )
}

// ---- rows on 64 bits

#[tactic(auto, unfolding(crate::specs::Arithmetic::wide_row))]
fn wide_row(shapes: &[Shape], op: ArithOp, a: Ty, b: Ty) -> Option<Ty>
    ensures { result ≡ wide_row shapes.now op a b }
{
    match op {
        ArithOp::Add => Some(sum(shapes, a, b)),
        ArithOp::Sub => Some(difference(shapes, a, b)),
        ArithOp::Mul | ArithOp::Mulu => Some(product(a, b)),
        ArithOp::Shl => shl_row(a, b),
        ArithOp::Or => or_row(a, b),
        ArithOp::And => common_bits(a, b),
        ArithOp::Divu => divided(span_of(a)?, constant_of(b)?),
        ArithOp::Modu => remainder(span_of(a)?, constant_of(b)?),
        ArithOp::Shr => shifted_right(span_of(a)?, constant_of(b)?),
        _ => None,
    }
}

fn shl_row(a: Ty, b: Ty) -> Option<Ty>
    ensures { result ≡ shl_row a b }
{
    if let Some(t) = error_bit(a, b) {
        return Some(t);
    }
    shifted_left(a, b)
}

fn or_row(a: Ty, b: Ty) -> Option<Ty>
    ensures { result ≡ or_row a b }
{
    if let Some(t) = error_status(a, b) {
        return Some(t);
    }
    error_status(b, a)
}

fn is_last_bit(b: Ty) -> bool
    ensures { result ≡ is_last_bit b }
{
    match b {
        Ty::Lin { n, c } => n == 8 && c == -1,
        _ => false,
    }
}

fn error_bit(a: Ty, b: Ty) -> Option<Ty>
    ensures { result ≡ error_bit a b }
{
    let x = constant_of(a)?;
    if x == 1 && is_last_bit(b) {
        Some(Ty::Mask)
    } else {
        None
    }
}

fn power_product(a: Ty, k: u64) -> Option<Ty>
    ensures { result ≡ power_product a k }
{
    if k < 64 {
        Some(product(a, constant(1 << k)))
    } else {
        None
    }
}

fn shifted_left(a: Ty, b: Ty) -> Option<Ty>
    ensures { result ≡ shifted_left a b }
{
    span_of(a)?;
    power_product(a, constant_of(b)?)
}

fn error_status(a: Ty, b: Ty) -> Option<Ty>
    ensures { result ≡ error_status a b }
{
    match a {
        Ty::Mask => if is_int_below(0x8000_0000, b) {
            Some(Ty::Status(0))
        } else {
            None
        },
        _ => None,
    }
}

fn common_bits(a: Ty, b: Ty) -> Option<Ty>
    ensures { result ≡ common_bits a b }
{
    let x = span_of(a)?;
    let y = span_of(b)?;
    Some(Ty::Int {
        lo: 0,
        hi: x.hi.min(y.hi),
        div: 1,
    })
}

fn divided(x: Span, k: u64) -> Option<Ty>
    ensures { result ≡ divided x k }
{
    if 0 < k {
        Some(Ty::Int {
            lo: x.lo / k,
            hi: x.hi / k,
            div: 1,
        })
    } else {
        None
    }
}

fn remainder(x: Span, k: u64) -> Option<Ty>
    ensures { result ≡ remainder x k }
{
    if 0 < k {
        Some(Ty::Int {
            lo: 0,
            hi: k - 1,
            div: 1,
        })
    } else {
        None
    }
}

fn shifted_right(x: Span, k: u64) -> Option<Ty>
    ensures { result ≡ shifted_right x k }
{
    if k < 64 {
        Some(Ty::Int {
            lo: x.lo >> k,
            hi: x.hi >> k,
            div: 1,
        })
    } else {
        None
    }
}

// ---- other arithmetic

fn is_unary(op: ArithOp) -> bool
    ensures { result ≡ is_unary op }
{
    matches!(
        op,
        ArithOp::Not | ArithOp::Neg | ArithOp::Extb | ArithOp::Extw | ArithOp::Extd
    )
}

fn folded(wide: bool, v: Result<u64, DivideError>) -> Ty
    ensures { result ≡ folded wide v }
{
    match v {
        Ok(number) => constant(number),
        Err(_) => full(wide),
    }
}

fn fold_row(op: ArithOp, wide: bool, a: Ty, b: Ty) -> Option<Ty>
    ensures { result ≡ fold_row op wide a b }
{
    let x = constant_of(a)?;
    let y = constant_of(b)?;
    Some(folded(wide, compute(op, wide, x, y)))
}

fn int_row(wide: bool, a: Ty, b: Ty) -> Ty
    ensures { result ≡ int_row wide a b }
{
    if is_int(a) && is_int(b) {
        full(wide)
    } else {
        Ty::Any
    }
}

fn other_row(op: ArithOp, wide: bool, a: Ty, b: Ty) -> Ty
    ensures { result ≡ other_row op wide a b }
{
    match fold_row(op, wide, a, b) {
        Some(t) => t,
        None => int_row(wide, a, b),
    }
}

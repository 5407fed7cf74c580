//! Sums, differences and products of types.

ghost use Rattle.std.specs.Prelude.{◌≡◌, ◌*◌, ◌+ℤ◌};
ghost use Rattle.rules_base.specs.Sums.{added, by_bytes, by_scaled, bytes_sum, constant_difference, constant_product, constant_sum};
ghost use Rattle.rules_base.specs.Sums.{difference, divisor_within, fall_sum, fallen, int_difference, int_product, int_sum, is_moved, lin};
ghost use Rattle.rules_base.specs.Sums.{lin_product, lin_sum, multiple, offset_difference, offset_sum, onward, pointer_at, pointer_sum};
ghost use Rattle.rules_base.specs.Sums.{product, scaled, scaled_sum, small_negative, strides, sum, sum_row, taken, times};

use crate::divisors::shared;
use crate::parts::{
    Offset, Pointer, Span, constant, constant_of, divisor_of, fall_of, full, is_near, lin_of,
    near_offset, offset_of, pointer_of, span_of,
};
use note_types::{Shape, Ty, divides};

/// The sum of two types.
#[tactic(auto, unfolding(crate::specs::Sums::sum))]
pub fn sum(shapes: &[Shape], a: Ty, b: Ty) -> Ty
    ensures { result ≡ sum shapes.now a b }
{
    match sum_row(shapes, a, b) {
        Some(t) => t,
        None => Ty::Any,
    }
}

/// The difference of two types.
#[tactic(auto, unfolding(crate::specs::Sums::difference))]
pub fn difference(shapes: &[Shape], a: Ty, b: Ty) -> Ty
    ensures { result ≡ difference shapes.now a b }
{
    if let Some(t) = constant_difference(a, b) {
        return t;
    }
    if let Some(t) = int_difference(a, b) {
        return t;
    }
    match offset_difference(shapes, a, b) {
        Some(t) => t,
        None => Ty::Any,
    }
}

/// The product of two types.
#[tactic(auto, unfolding(crate::specs::Sums::product))]
pub fn product(a: Ty, b: Ty) -> Ty
    ensures { result ≡ product a b }
{
    if let Some(t) = constant_product(a, b) {
        return t;
    }
    if let Some(t) = multiple(a, b) {
        return t;
    }
    if let Some(t) = multiple(b, a) {
        return t;
    }
    if let Some(t) = lin_product(a, b) {
        return t;
    }
    if let Some(t) = lin_product(b, a) {
        return t;
    }
    match int_product(a, b) {
        Some(t) => t,
        None => Ty::Any,
    }
}

// ---- within the limit of 2^20

/// n natural units and c bytes as a number.
pub fn lin(n: i64, c: i64) -> Ty
    ensures { result ≡ lin n c }
{
    if is_near(n) && is_near(c) {
        Ty::Lin {
            n: n as i32,
            c: c as i32,
        }
    } else {
        Ty::Any
    }
}

// The sum of two numbers of 32 bits.
fn plus(a: i32, b: i32) -> i64
    ensures { result ≡ a +ℤ b }
{
    i64::from(a) + i64::from(b)
}

// A pointer that is n natural units and c bytes past an instance.
fn pointer_at(p: Pointer, n: i64, c: i64) -> Ty
    ensures { result ≡ pointer_at p n c }
{
    if is_near(n) && is_near(c) {
        Ty::Ptr {
            shape: p.shape,
            count: p.count,
            n: n as i32,
            c: c as i32,
            null: false,
        }
    } else {
        Ty::Any
    }
}

// A pointer some instances on.
fn onward(p: Pointer, steps: u64) -> Ty
    ensures { result ≡ onward p steps }
{
    Ty::Ptr {
        shape: p.shape,
        count: p.count.saturating_sub(steps),
        n: p.n,
        c: p.c,
        null: false,
    }
}

// ---- the rows of a sum

#[tactic(auto, unfolding(crate::specs::Sums::sum_row))]
fn sum_row(shapes: &[Shape], a: Ty, b: Ty) -> Option<Ty>
    ensures { result ≡ sum_row shapes.now a b }
{
    if let Some(t) = constant_sum(a, b) {
        return Some(t);
    }
    if let Some(t) = fall_sum(a, b) {
        return Some(t);
    }
    if let Some(t) = fall_sum(b, a) {
        return Some(t);
    }
    if let Some(t) = int_sum(a, b) {
        return Some(t);
    }
    if let Some(t) = lin_sum(a, b) {
        return Some(t);
    }
    if let Some(t) = lin_sum(b, a) {
        return Some(t);
    }
    if let Some(t) = pointer_sum(shapes, a, b) {
        return Some(t);
    }
    pointer_sum(shapes, b, a)
}

fn constant_sum(a: Ty, b: Ty) -> Option<Ty>
    ensures { result ≡ constant_sum a b }
{
    Some(constant(constant_of(a)?.wrapping_add(constant_of(b)?)))
}

fn fallen(x: Span, m: u64) -> Option<Ty>
    ensures { result ≡ fallen x m }
{
    if m <= x.lo {
        Some(Ty::Int {
            lo: x.lo - m,
            hi: x.hi.saturating_sub(m),
            div: shared(x.div, m),
        })
    } else {
        None
    }
}

fn fall_sum(a: Ty, b: Ty) -> Option<Ty>
    ensures { result ≡ fall_sum a b }
{
    let x = span_of(a)?;
    let m = fall_of(constant_of(b)?)?;
    fallen(x, m)
}

fn added(x: Span, y: Span) -> Ty
    ensures { result ≡ added x y }
{
    match (x.lo.checked_add(y.lo), x.hi.checked_add(y.hi)) {
        (Some(lo), Some(hi)) => Ty::Int {
            lo,
            hi,
            div: shared(divisor_of(x), divisor_of(y)),
        },
        _ => full(true),
    }
}

fn int_sum(a: Ty, b: Ty) -> Option<Ty>
    ensures { result ≡ int_sum a b }
{
    Some(added(span_of(a)?, span_of(b)?))
}

fn lin_sum(a: Ty, b: Ty) -> Option<Ty>
    ensures { result ≡ lin_sum a b }
{
    let x = lin_of(a)?;
    let y = offset_of(b)?;
    Some(lin(plus(x.n, y.n), plus(x.c, y.c)))
}

fn by_scaled(p: Pointer, s: &Shape, t: Ty) -> Option<Ty>
    ensures { result ≡ by_scaled p s.now t }
{
    match t {
        Ty::Scaled { n, c, hi } => if u64::from(s.n) == n && u64::from(s.c) == c && hi < p.count {
            Some(onward(p, hi))
        } else {
            None
        },
        _ => None,
    }
}

fn scaled_sum(shapes: &[Shape], a: Ty, b: Ty) -> Option<Ty>
    ensures { result ≡ scaled_sum shapes.now a b }
{
    let p = pointer_of(a)?;
    let s = shapes.get(p.shape as usize)?;
    by_scaled(p, s, b)
}

fn strides(size: u64, x: Span) -> bool
    ensures { result ≡ strides size x }
{
    0 < size && (divides(size, x.div) || (x.lo == x.hi && divides(size, x.lo)))
}

fn by_bytes(p: Pointer, s: &Shape, x: Span) -> Option<Ty>
    ensures { result ≡ by_bytes p s.now x }
{
    let size = u64::from(s.c);
    if s.n == 0 && strides(size, x) && x.hi / size < p.count {
        Some(onward(p, x.hi / size))
    } else {
        None
    }
}

fn bytes_sum(shapes: &[Shape], a: Ty, b: Ty) -> Option<Ty>
    ensures { result ≡ bytes_sum shapes.now a b }
{
    let p = pointer_of(a)?;
    let s = shapes.get(p.shape as usize)?;
    by_bytes(p, s, span_of(b)?)
}

fn offset_sum(a: Ty, b: Ty) -> Option<Ty>
    ensures { result ≡ offset_sum a b }
{
    let p = pointer_of(a)?;
    let o = offset_of(b)?;
    Some(pointer_at(p, plus(p.n, o.n), plus(p.c, o.c)))
}

fn pointer_sum(shapes: &[Shape], a: Ty, b: Ty) -> Option<Ty>
    ensures { result ≡ pointer_sum shapes.now a b }
{
    if let Some(t) = scaled_sum(shapes, a, b) {
        return Some(t);
    }
    if let Some(t) = bytes_sum(shapes, a, b) {
        return Some(t);
    }
    offset_sum(a, b)
}

// ---- the rows of a difference

fn constant_difference(a: Ty, b: Ty) -> Option<Ty>
    ensures { result ≡ constant_difference a b }
{
    Some(constant(constant_of(a)?.wrapping_sub(constant_of(b)?)))
}

fn taken(x: Span, y: Span) -> Ty
    ensures { result ≡ taken x y }
{
    if y.hi <= x.lo {
        Ty::Int {
            lo: x.lo - y.hi,
            hi: x.hi.saturating_sub(y.lo),
            div: shared(divisor_of(x), divisor_of(y)),
        }
    } else {
        full(true)
    }
}

fn int_difference(a: Ty, b: Ty) -> Option<Ty>
    ensures { result ≡ int_difference a b }
{
    Some(taken(span_of(a)?, span_of(b)?))
}

fn is_moved(t: Ty) -> bool
    ensures { result ≡ is_moved t }
{
    matches!(t, Ty::Lin { .. } | Ty::Ptr { .. })
}

fn small_negative(k: u64) -> Option<Ty>
    ensures { result ≡ small_negative k }
{
    near_offset(k)?;
    Some(constant(k.wrapping_neg()))
}

fn offset_difference(shapes: &[Shape], a: Ty, b: Ty) -> Option<Ty>
    ensures { result ≡ offset_difference shapes.now a b }
{
    if is_moved(a) {
        let t = small_negative(constant_of(b)?)?;
        Some(sum(shapes, a, t))
    } else {
        None
    }
}

// ---- the rows of a product

fn constant_product(a: Ty, b: Ty) -> Option<Ty>
    ensures { result ≡ constant_product a b }
{
    Some(constant(constant_of(a)?.wrapping_mul(constant_of(b)?)))
}

fn divisor_within(d: u64, k: u64) -> u64
    ensures { result ≡ divisor_within (d * k) }
{
    match d.checked_mul(k) {
        Some(product) => product,
        None => 1,
    }
}

fn times(x: Span, k: u64) -> Option<Ty>
    ensures { result ≡ times x k }
{
    if k == 0 {
        return None;
    }
    match (x.lo.checked_mul(k), x.hi.checked_mul(k)) {
        (Some(lo), Some(hi)) => Some(Ty::Int {
            lo,
            hi,
            div: divisor_within(x.div, k),
        }),
        _ => None,
    }
}

fn multiple(a: Ty, b: Ty) -> Option<Ty>
    ensures { result ≡ multiple a b }
{
    times(span_of(a)?, constant_of(b)?)
}

fn scaled(x: Span, o: Offset) -> Option<Ty>
    ensures { result ≡ scaled x o }
{
    let n = u64::from(o.n.unsigned_abs());
    let c = u64::from(o.c.unsigned_abs());
    let most = u128::from(x.hi) * u128::from(8 * n + c);
    if 0 <= o.n && 0 <= o.c && most < 0x1_0000_0000 {
        Some(Ty::Scaled { n, c, hi: x.hi })
    } else {
        None
    }
}

fn lin_product(a: Ty, b: Ty) -> Option<Ty>
    ensures { result ≡ lin_product a b }
{
    scaled(span_of(a)?, lin_of(b)?)
}

fn int_product(a: Ty, b: Ty) -> Option<Ty>
    ensures { result ≡ int_product a b }
{
    span_of(a)?;
    span_of(b)?;
    Some(full(true))
}

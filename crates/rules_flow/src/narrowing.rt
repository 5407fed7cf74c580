//! What a comparison says on either side of a jump.

ghost use Rattle.std.specs.Prelude.{◌≡◌};
ghost use Rattle.rules_flow.specs.Narrowing.{at_least, at_most, cut_to, exactly, from, granted, int_of, is_not_null, is_plain};
ghost use Rattle.rules_flow.specs.Narrowing.{is_signed_success, is_success, narrow, narrowed, narrowed_by, narrowed_span, other_than, past};
ghost use Rattle.rules_flow.specs.Narrowing.{short_of, up_to};
ghost use Rattle.note_types.specs.States.{type_of};

use ebc_insn::CmpOp;
use note_types::{Fact, State, Ty, divides};
use rules_base::Span;

// ---- numbers

fn int_of(x: Span) -> Ty
    ensures { result ≡ int_of x }
{
    Ty::Int {
        lo: x.lo,
        hi: x.hi,
        div: x.div,
    }
}

// The numbers from `lo` to `hi`, unless there are none.
fn cut_to(x: Span, lo: u64, hi: u64) -> Ty
    ensures { result ≡ cut_to x lo hi }
{
    if lo <= hi {
        Ty::Int { lo, hi, div: x.div }
    } else {
        int_of(x)
    }
}

fn at_most(x: Span, k: u64) -> Ty
    ensures { result ≡ at_most x k }
{
    cut_to(x, x.lo, x.hi.min(k))
}

fn past(x: Span, k: u64) -> Ty
    ensures { result ≡ past x k }
{
    match k.checked_add(1) {
        Some(next) => cut_to(x, x.lo.max(next), x.hi),
        None => int_of(x),
    }
}

fn at_least(x: Span, k: u64) -> Ty
    ensures { result ≡ at_least x k }
{
    cut_to(x, x.lo.max(k), x.hi)
}

fn short_of(x: Span, k: u64) -> Ty
    ensures { result ≡ short_of x k }
{
    if k == 0 {
        int_of(x)
    } else {
        cut_to(x, x.lo, x.hi.min(k - 1))
    }
}

// The one number k, where it is among them.
fn exactly(x: Span, k: u64) -> Ty
    ensures { result ≡ exactly x k }
{
    if x.lo <= k && k <= x.hi && divides(x.div, k) {
        Ty::Int {
            lo: k,
            hi: k,
            div: x.div,
        }
    } else {
        int_of(x)
    }
}

// The numbers but k, where it is an end.
fn other_than(x: Span, k: u64) -> Ty
    ensures { result ≡ other_than x k }
{
    if x.lo == k {
        past(x, k)
    } else if x.hi == k {
        cut_to(x, x.lo, k.saturating_sub(1))
    } else {
        int_of(x)
    }
}

fn is_plain(x: Span, k: u64) -> bool
    ensures { result ≡ is_plain x k }
{
    x.hi < 0x8000_0000_0000_0000 && k < 0x8000_0000_0000_0000
}

// The numbers of which a comparison with k holds, where `taken`, or doesn't.
fn narrowed_span(op: CmpOp, taken: bool, x: Span, k: u64) -> Ty
    ensures { result ≡ narrowed_span op taken x k }
{
    match op {
        CmpOp::Eq => if taken {
            exactly(x, k)
        } else {
            other_than(x, k)
        },
        CmpOp::Ulte => up_to(taken, x, k),
        CmpOp::Ugte => from(taken, x, k),
        CmpOp::Lte => if is_plain(x, k) {
            up_to(taken, x, k)
        } else {
            int_of(x)
        },
        CmpOp::Gte => if is_plain(x, k) {
            from(taken, x, k)
        } else {
            int_of(x)
        },
    }
}

fn up_to(taken: bool, x: Span, k: u64) -> Ty
    ensures { result ≡ up_to taken x k }
{
    if taken { at_most(x, k) } else { past(x, k) }
}

fn from(taken: bool, x: Span, k: u64) -> Ty
    ensures { result ≡ from taken x k }
{
    if taken {
        at_least(x, k)
    } else {
        short_of(x, k)
    }
}

// ---- types

// Whether the comparison is one with null that fails.
fn is_not_null(op: CmpOp, taken: bool, k: u64) -> bool
    ensures { result ≡ is_not_null op taken k }
{
    match op {
        CmpOp::Eq => !taken && k == 0,
        _ => false,
    }
}

// The type of a register of which a comparison with k holds, or doesn't.
fn narrowed(op: CmpOp, taken: bool, t: Ty, k: u64) -> Ty
    ensures { result ≡ narrowed op taken t k }
{
    match t {
        Ty::Int { lo, hi, div } => narrowed_span(op, taken, Span { lo, hi, div }, k),
        Ty::Ptr {
            shape,
            count,
            n,
            c,
            null,
        } => Ty::Ptr {
            shape,
            count,
            n,
            c,
            null: null && !is_not_null(op, taken, k),
        },
        _ => t,
    }
}

// ---- grants

fn is_success(op: CmpOp, taken: bool, k: u64) -> bool
    ensures { result ≡ is_success op taken k }
{
    match op {
        CmpOp::Eq => taken && k < 0x8000_0000,
        _ => false,
    }
}

fn is_signed_success(op: CmpOp, taken: bool, k: u64) -> bool
    ensures { result ≡ is_signed_success op taken k }
{
    match op {
        CmpOp::Gte => taken && k < 0x8000_0000,
        CmpOp::Lte => !taken && k == u64::MAX,
        _ => false,
    }
}

// The local fields that a comparison says are written.
fn granted(op: CmpOp, taken: bool, t: Ty, k: u64) -> u64
    ensures { result ≡ granted op taken t k }
{
    match t {
        Ty::Status(grants) => if is_success(op, taken, k) { grants } else { 0 },
        Ty::SignedStatus(grants) => if is_signed_success(op, taken, k) {
            grants
        } else {
            0
        },
        _ => 0,
    }
}

// ---- states

// The type of a register; nothing is known past R7.
fn type_of(s: &State, reg: u8) -> Ty
    ensures { result ≡ type_of s.now reg }
{
    match s.regs.get(reg as usize) {
        Some(t) => *t,
        None => Ty::Any,
    }
}

fn narrow_by(s: &mut State, fact: Fact, taken: bool)
    ensures { s.new ≡ narrowed_by s.old fact taken }
{
    let t = type_of(s, fact.reg);
    if fact.reg < 8 {
        s.regs[fact.reg as usize] = narrowed(fact.op, taken, t, fact.k);
    }
    s.written |= granted(fact.op, taken, t, fact.k);
}

/// Narrows a state to where C is set, if `taken`, or clear.
#[tactic(auto, unfolding(crate::specs::Narrowing::narrow))]
pub fn narrow(s: &mut State, taken: bool)
    ensures { s.new ≡ narrow s.old taken }
{
    if let Some(fact) = s.fact {
        narrow_by(s, fact, taken);
    }
}

//! Which types may be compared.

ghost use Rattle.std.specs.Prelude.{◌≡◌};
ghost use Rattle.rules_data.specs.Compares.{compares, compares_wide, equates, is_entry, is_handle, is_number, is_start, is_status, orders};

use ebc_insn::CmpOp;
use note_types::Ty;
use rules_base::{is_int, is_int_below};

/// Whether two types may be compared: numbers, and in 64 bits what has one answer at both widths.
#[tactic(auto, unfolding(crate::specs::Compares::compares))]
pub fn compares(op: CmpOp, wide: bool, a: Ty, b: Ty) -> bool
    ensures { result ≡ compares op wide a b }
{
    (is_int(a) && is_int(b)) || (wide && compares_wide(op, a, b))
}

fn compares_wide(op: CmpOp, a: Ty, b: Ty) -> bool
    ensures { result ≡ compares_wide op a b }
{
    match op {
        CmpOp::Eq => equates(a, b) || equates(b, a),
        CmpOp::Lte => orders(true, a, b),
        CmpOp::Gte => orders(false, a, b),
        CmpOp::Ulte | CmpOp::Ugte => false,
    }
}

fn equates(a: Ty, b: Ty) -> bool
    ensures { result ≡ equates a b }
{
    match a {
        Ty::Ptr { n, c, .. } => n == 0 && c == 0 && (is_start(b) || is_number(0, b)),
        Ty::Handle => is_handle(b) || is_number(0, b),
        Ty::Entry => is_entry(b) || is_number(0, b),
        Ty::Status(_) => is_status(b) || is_int_below(0x8000_0000, b),
        _ => false,
    }
}

fn orders(or_error: bool, a: Ty, b: Ty) -> bool
    ensures { result ≡ orders or_error a b }
{
    match a {
        Ty::SignedStatus(_) => {
            is_int_below(0x8000_0000, b) || (or_error && is_number(u64::MAX, b))
        }
        _ => false,
    }
}

fn is_number(k: u64, t: Ty) -> bool
    ensures { result ≡ is_number k t }
{
    match t {
        Ty::Int { lo, hi, .. } => lo == k && hi == k,
        _ => false,
    }
}

fn is_start(t: Ty) -> bool
    ensures { result ≡ is_start t }
{
    match t {
        Ty::Ptr { n, c, .. } => n == 0 && c == 0,
        _ => false,
    }
}

fn is_handle(t: Ty) -> bool
    ensures { result ≡ is_handle t }
{
    matches!(t, Ty::Handle)
}

fn is_entry(t: Ty) -> bool
    ensures { result ≡ is_entry t }
{
    matches!(t, Ty::Entry)
}

fn is_status(t: Ty) -> bool
    ensures { result ≡ is_status t }
{
    matches!(t, Ty::Status(_))
}

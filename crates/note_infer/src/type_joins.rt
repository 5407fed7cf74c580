//! The join of two types: what is known where two ways meet.

ghost use Rattle.std.specs.Prelude.{◌≡◌};
ghost use Rattle.note_infer.specs.Join.{are_within, common, is_zero, join_equal, join_ints, join_null, join_pointers, join_signed};
ghost use Rattle.note_infer.specs.Join.{join_status, join_types, least_end, or_null};
ghost use Rattle.note_infer.specs.JoinLaws.{AreBelow, KeepsKnown, Weakens};

use crate::states::same_type;
use note_types::Ty;

// Equal types.
fn join_equal(a: &Ty, b: &Ty) -> Option<Ty>
    ensures { result ≡ join_equal a.now b.now }
{
    if same_type(a, b) { Some(*a) } else { None }
}

// The common one of two numbers, or else another one.
fn common(x: u64, y: u64, other: u64) -> u64
    ensures { result ≡ common x y other }
{
    if x == y { x } else { other }
}

// Whether two numbers are at most a third.
fn are_within(x: u64, y: u64, end: u64) -> bool
    ensures { result ≡ are_within x y end }
{
    x <= end && y <= end
}

// The least of three ends that is at least both.
fn least_end(x: u64, y: u64) -> u64
    ensures { result ≡ least_end x y }
{
    if are_within(x, y, 0x7FFF_FFFF) {
        0x7FFF_FFFF
    } else if are_within(x, y, 0xFFFF_FFFF) {
        0xFFFF_FFFF
    } else {
        0xFFFF_FFFF_FFFF_FFFF
    }
}

// Two Ints.
fn join_ints(a: &Ty, b: &Ty) -> Option<Ty>
    ensures { result ≡ join_ints a.now b.now }
{
    match (*a, *b) {
        (
            Ty::Int { lo, hi, div },
            Ty::Int {
                lo: from,
                hi: to,
                div: by,
            },
        ) => Some(Ty::Int {
            lo: common(lo, from, 0),
            hi: common(hi, to, least_end(hi, to)),
            div: common(div, by, 1),
        }),
        _ => None,
    }
}

// Two Ptrs of one shape and offset.
fn join_pointers(a: &Ty, b: &Ty) -> Option<Ty>
    ensures { result ≡ join_pointers a.now b.now }
{
    match (*a, *b) {
        (
            Ty::Ptr {
                shape,
                count,
                n,
                c,
                null,
            },
            Ty::Ptr {
                shape: other_shape,
                count: other_count,
                n: other_n,
                c: other_c,
                null: other_null,
            },
        ) => {
            if shape == other_shape && (n == other_n && c == other_c) {
                Some(Ty::Ptr {
                    shape,
                    count: common(count, other_count, 1),
                    n,
                    c,
                    null: null || other_null,
                })
            } else {
                None
            }
        }
        _ => None,
    }
}

// Whether a type is the number 0.
fn is_zero(a: &Ty) -> bool
    ensures { result ≡ is_zero a.now }
{
    match *a {
        Ty::Int { lo, hi, .. } => lo == 0 && hi == 0,
        _ => false,
    }
}

// The type that may be null too.
fn or_null(b: &Ty) -> Option<Ty>
    ensures { result ≡ or_null b.now }
{
    match *b {
        Ty::Ptr {
            shape,
            count,
            n,
            c,
            ..
        } => {
            if n == 0 && c == 0 {
                Some(Ty::Ptr {
                    shape,
                    count,
                    n,
                    c,
                    null: true,
                })
            } else {
                None
            }
        }
        Ty::Handle => Some(Ty::Handle),
        Ty::Entry => Some(Ty::Entry),
        _ => None,
    }
}

// The number 0, and a type that null fits or a Ptr that isn't null.
fn join_null(a: &Ty, b: &Ty) -> Option<Ty>
    ensures { result ≡ join_null a.now b.now }
{
    if is_zero(a) { or_null(b) } else { None }
}

// A Status, and another one or a number below 2^31.
fn join_status(a: &Ty, b: &Ty) -> Option<Ty>
    ensures { result ≡ join_status a.now b.now }
{
    match (*a, *b) {
        (Ty::Status(_), Ty::Status(_)) => Some(Ty::Status(0)),
        (Ty::Status(_), Ty::Int { hi, .. }) => {
            if hi < 0x8000_0000 {
                Some(Ty::Status(0))
            } else {
                None
            }
        }
        _ => None,
    }
}

// Two sign-extended statuses.
fn join_signed(a: &Ty, b: &Ty) -> Option<Ty>
    ensures { result ≡ join_signed a.now b.now }
{
    match (*a, *b) {
        (Ty::SignedStatus(_), Ty::SignedStatus(_)) => Some(Ty::SignedStatus(0)),
        _ => None,
    }
}

// What two types have in common, by the first row that applies.
#[tactic(auto, unfolding(crate::specs::Join::join_types))]
fn joined(a: &Ty, b: &Ty) -> Ty
    ensures { result ≡ join_types a.now b.now }
{
    if let Some(t) = join_equal(a, b) {
        return t;
    }
    if let Some(t) = join_ints(a, b) {
        return t;
    }
    if let Some(t) = join_pointers(a, b) {
        return t;
    }
    if let Some(t) = join_null(a, b) {
        return t;
    }
    if let Some(t) = join_null(b, a) {
        return t;
    }
    if let Some(t) = join_status(a, b) {
        return t;
    }
    if let Some(t) = join_status(b, a) {
        return t;
    }
    match join_signed(a, b) {
        Some(t) => t,
        None => Ty::Any,
    }
}

/// What two types have in common, by the first of these rows that applies; those on two different types hold in either order:
///
/// - Equal types: the type itself.
/// - Two Ints: an Int. Its lower end is the common one, or else 0. Its upper end is the common one, or else the least of
///   2^31 - 1, 2^32 - 1 and 2^64 - 1 that is at least both. Its divisor is the common one, or else 1.
/// - Two Ptrs of one shape and offset: that Ptr with the common count, or else with count 1. It may be null where either may.
/// - The Int 0, and a Ptr at (0, 0), Handle or Entry: the second type; a Ptr then may be null.
/// - Two Statuses, or a Status and an Int below 2^31: a Status with no grants.
/// - Two SignedStatuses: a SignedStatus with no grants.
/// - Any other two: Any.
///
/// Both types are below it, where they are within their bounds.
pub fn join_types(a: &Ty, b: &Ty) -> Ty
    ensures joined { result ≡ join_types a.now b.now }
    ensures below { AreBelow a.now b.now result }
    ensures known { KeepsKnown a.now b.now result }
    ensures weaker { Weakens a.now result }
    ensures equal { a.now ≡ b.now → result ≡ a.now }
{
    joined(a, b)
}

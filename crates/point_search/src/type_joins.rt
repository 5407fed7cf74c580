//! The join of two types: the least type that both are below.

use note_types::{Ty, ty_below};

// The greatest common divisor of two numbers.
fn gcd(a: u64, b: u64) -> u64 {
    let mut x = a;
    let mut y = b;
    while y != 0 {
        let z = x % y;
        x = y;
        y = z;
    }
    x
}

// A number that divides all numbers of an Int; 0 where that is 0 alone.
fn divisor(lo: u64, hi: u64, div: u64) -> u64 {
    if lo == hi { lo } else { div }
}

// Two Ints.
fn join_ints(a: &Ty, b: &Ty) -> Option<Ty> {
    match (*a, *b) {
        (
            Ty::Int { lo, hi, div },
            Ty::Int {
                lo: from,
                hi: to,
                div: by,
            },
        ) => Some(Ty::Int {
            lo: lo.min(from),
            hi: hi.max(to),
            div: gcd(divisor(lo, hi, div), divisor(from, to, by)).max(1),
        }),
        _ => None,
    }
}

// Two Ptrs of one shape and offset.
fn join_pointers(a: &Ty, b: &Ty) -> Option<Ty> {
    match (*a, *b) {
        (
            Ty::Ptr {
                shape,
                count,
                n,
                c,
                null,
            },
            Ty::Ptr {
                shape: other_shape,
                count: other_count,
                n: other_n,
                c: other_c,
                null: other_null,
            },
        ) if shape == other_shape && n == other_n && c == other_c => Some(Ty::Ptr {
            shape,
            count: count.min(other_count),
            n,
            c,
            null: null || other_null,
        }),
        _ => None,
    }
}

// The number 0, and a Ptr at (0, 0).
fn join_null(a: &Ty, b: &Ty) -> Option<Ty> {
    match (*a, *b) {
        (
            Ty::Int { hi: 0, .. },
            Ty::Ptr {
                shape,
                count,
                n: 0,
                c: 0,
                ..
            },
        ) => Some(Ty::Ptr {
            shape,
            count,
            n: 0,
            c: 0,
            null: true,
        }),
        _ => None,
    }
}

// Two statuses of one kind, or a Status and a number below 2^31.
fn join_statuses(a: &Ty, b: &Ty) -> Option<Ty> {
    match (*a, *b) {
        (Ty::Status(granted), Ty::Status(other)) => Some(Ty::Status(granted & other)),
        (Ty::SignedStatus(granted), Ty::SignedStatus(other)) => {
            Some(Ty::SignedStatus(granted & other))
        }
        (Ty::Status(_), Ty::Int { hi, .. }) if hi < 0x8000_0000 => Some(Ty::Status(0)),
        _ => None,
    }
}

// Two different types of which none is below the other, in this order.
fn joined(a: &Ty, b: &Ty) -> Option<Ty> {
    match (*a, *b) {
        (Ty::Int { .. }, Ty::Int { .. }) => join_ints(a, b),
        (Ty::Int { .. }, Ty::Ptr { .. }) => join_null(a, b),
        (Ty::Ptr { .. }, Ty::Ptr { .. }) => join_pointers(a, b),
        _ => join_statuses(a, b),
    }
}

/// The least type that two types are below, by the first row that applies; a row on two different types holds in either
/// order:
///
/// - One is below the other: the other.
/// - Two Ints: from the lower end to the higher one. Its divisor is the greatest that both share, where one number counts
///   by its value.
/// - Two Ptrs of one shape and offset: that with the smaller count, which may be null where either may.
/// - The number 0, and a Ptr at (0, 0): the Ptr, which may be null.
/// - Two statuses of one kind: with the grants that both have. A Status and an Int below 2^31: a Status with no grants.
/// - Any other two: Any.
pub(crate) fn join_types(a: &Ty, b: &Ty) -> Ty {
    if ty_below(a, b) {
        return *b;
    }
    if ty_below(b, a) {
        return *a;
    }
    match joined(a, b) {
        Some(t) => t,
        None => joined(b, a).unwrap_or(Ty::Any),
    }
}

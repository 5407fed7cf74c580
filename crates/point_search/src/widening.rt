//! Widening: a state that grows at the head of a loop grows by leaps, so that the search ends.

use crate::marks::ENDS;
use crate::states::zipped;
use note_types::{State, Ty};

// How often the state at a head grows to the marks of its function, before it grows to the ends of types.
const BY_MARKS: u32 = 12;

// The least mark that is at least a number.
fn mark_above(marks: &[u64], x: u64) -> u64 {
    let first = marks.partition_point(|mark| *mark < x);
    match marks.get(first) {
        Some(mark) => *mark,
        None => 0xFFFF_FFFF_FFFF_FFFF,
    }
}

// The greatest mark that is at most a number.
fn mark_below(marks: &[u64], x: u64) -> u64 {
    let behind = marks.partition_point(|mark| *mark <= x);
    match marks.get(behind.saturating_sub(1)) {
        Some(mark) => x.min(*mark),
        None => 0,
    }
}

// The type to which a type is widened that grew from an old one: an end that moved to a mark, a count that fell to 1, and, where
// growth has been long, a divisor that changed to 1.
fn widened_type(old: &Ty, new: &Ty, marks: &[u64], long: bool) -> Ty {
    match (*old, *new) {
        (
            Ty::Int {
                lo: from,
                hi: to,
                div: by,
            },
            Ty::Int { lo, hi, div },
        ) => Ty::Int {
            lo: if lo < from { mark_below(marks, lo) } else { lo },
            hi: if to < hi { mark_above(marks, hi) } else { hi },
            div: if long && div != by { 1 } else { div },
        },
        (
            Ty::Ptr { count: had, .. },
            Ty::Ptr {
                shape,
                count,
                n,
                c,
                null,
            },
        ) => Ty::Ptr {
            shape,
            count: if count < had { 1 } else { count },
            n,
            c,
            null,
        },
        _ => *new,
    }
}

/// The state to which the state at a head is widened that grew from an old one for this time, by the marks of its function.
pub(crate) fn widened(old: &State, new: &State, marks: &[u64], growths: u32) -> Option<State> {
    let long = BY_MARKS < growths;
    let marks: &[u64] = if long { &ENDS } else { marks };
    zipped(old, new, |a: &Ty, b: &Ty| widened_type(a, b, marks, long))
}

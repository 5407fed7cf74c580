//! Why nothing is known of a sum, a difference or a product of two types.

use explain_base::Line;
use note_types::{Notes, Shape, Ty};
use rules_base::{Distance, constant};
use std::alloc::Global;

// A constant that is added to a size or a pointer lies from minus this number to it, as do both parts of the sum.
const NEAR: i64 = 0x10_0000;

// Numbers below this one fit 32 bits.
const FOUR_BYTES: u128 = 0x1_0000_0000;

const NO_PRODUCT: &str = "such types keep nothing in a product";

// The signed number of a constant that is added to a size or a pointer.
fn near_constant(t: Ty) -> Option<i64> {
    match t {
        Ty::Int { lo, hi, .. } if lo == hi => {
            let k = lo.cast_signed();
            if -NEAR <= k && k <= NEAR {
                Some(k)
            } else {
                None
            }
        }
        _ => None,
    }
}

// ---- sums

// Numbers by which a pointer moves, the greatest of them, and what divides them all.
fn bytes_line(alloc: Global, s: &Shape, count: u64, hi: u64, by: u64) -> Line {
    let (units, size) = (u64::from(s.n), u64::from(s.c));
    let mut line = Line::new(alloc);
    if units == 0 && size != 0 && by % size == 0 {
        line.number(hi)
            .text(" / ")
            .number(size)
            .text(" isn't below the count ")
            .number(count);
        return line;
    }
    line.text(s.name.as_str()).text(" has size ");
    if units == 0 {
        line.number(size)
            .text(", and the numbers are known as multiples of ")
            .number(by)
            .text(" alone");
        return line;
    }
    line.pair(units, size)
        .text(", which differs with the width, and numbers multiplied by lin:")
        .number(units)
        .text(",")
        .number(size)
        .text(" are wanted");
    line
}

// Numbers up to `hi` that are multiplied by a size.
fn scaled_line(alloc: Global, s: &Shape, count: u64, by: Distance, hi: u64) -> Line {
    let mut line = Line::new(alloc);
    if i64::from(s.n) != by.n || i64::from(s.c) != by.c {
        line.text(s.name.as_str())
            .text(" has size ")
            .pair(u64::from(s.n), u64::from(s.c))
            .text(", and the numbers are multiplied by ")
            .distance(by);
        return line;
    }
    line.number(hi)
        .text(" isn't below the count ")
        .number(count);
    line
}

// What is added to a pointer that isn't null, to `count` instances of a shape.
fn moved_line(alloc: Global, s: &Shape, count: u64, t: Ty) -> Line {
    match t {
        Ty::Int { lo, hi, div } if near_constant(t).is_none() => {
            bytes_line(alloc, s, count, hi, if lo == hi { lo } else { div })
        }
        Ty::Lin { .. } | Ty::Int { .. } => Line::of(alloc, "the offset would be past 1048576"),
        Ty::Scaled { n, c, hi } => {
            let by = Distance {
                n: i64::try_from(n).unwrap_or(i64::MAX),
                c: i64::try_from(c).unwrap_or(i64::MAX),
            };
            scaled_line(alloc, s, count, by, hi)
        }
        _ => Line::of(alloc, "numbers or a size are wanted beside a pointer"),
    }
}

fn pointer_sum_line(alloc: Global, notes: &Notes, p: Ty, t: Ty) -> Option<Line> {
    let Ty::Ptr {
        shape,
        count,
        null,
        ..
    } = p
    else {
        return None;
    };
    if null {
        return Some(Line::of(
            alloc,
            "a pointer that may be null keeps nothing in a sum, and a comparison with 0 is wanted before",
        ));
    }
    let s = notes.shape.as_slice().get(shape as usize)?;
    Some(moved_line(alloc, s, count, t))
}

/// Why nothing is known of the sum of two types; `None` where nothing is known of one of them.
pub(crate) fn sum_line(alloc: Global, notes: &Notes, a: Ty, b: Ty) -> Option<Line> {
    let what = match (a, b) {
        (Ty::Any, _) | (_, Ty::Any) => return None,
        (Ty::Ptr { .. }, _) => return pointer_sum_line(alloc, notes, a, b),
        (_, Ty::Ptr { .. }) => return pointer_sum_line(alloc, notes, b, a),
        (Ty::Lin { .. }, Ty::Lin { .. }) => "the size would be past 1048576",
        (Ty::Lin { .. }, Ty::Int { .. }) | (Ty::Int { .. }, Ty::Lin { .. }) =>
            "to a size a constant from -1048576 to 1048576 is added, and the size stays within these",
        _ => "such types keep nothing in a sum, nor with an immediate or an index beside them",
    };
    Some(Line::of(alloc, what))
}

// ---- differences and products

/// Why nothing is known of the difference of two types; `None` where nothing is known of one of them.
pub(crate) fn difference_line(alloc: Global, notes: &Notes, a: Ty, b: Ty) -> Option<Line> {
    let what = match (a, b) {
        (Ty::Any, _) | (_, Ty::Any) => return None,
        (Ty::Ptr { .. } | Ty::Lin { .. }, _) => {
            if let Some(k) = near_constant(b) {
                let taken = constant(k.saturating_neg().cast_unsigned());
                return sum_line(alloc, notes, a, taken);
            }
            "from a pointer or a size a constant from -1048576 to 1048576 alone is taken"
        }
        _ => "such types keep nothing in a difference",
    };
    Some(Line::of(alloc, what))
}

/// Why nothing is known of the product of two types; `None` where nothing is known of one of them.
pub(crate) fn product_line(alloc: Global, a: Ty, b: Ty) -> Option<Line> {
    let mut line = Line::new(alloc);
    match (a, b) {
        (Ty::Any, _) | (_, Ty::Any) => return None,
        (Ty::Int { .. }, Ty::Lin { c, .. }) | (Ty::Lin { c, .. }, Ty::Int { .. }) if c < 0 => line
            .text("a size with ")
            .signed(i128::from(c))
            .text(" bytes keeps nothing in a product"),
        (Ty::Int { hi, .. }, Ty::Lin { n, c }) | (Ty::Lin { n, c }, Ty::Int { hi, .. }) => {
            let bytes = u64::from(n.unsigned_abs()) * 8 + u64::from(c.unsigned_abs());
            if u128::from(hi) * u128::from(bytes) < FOUR_BYTES {
                line.text(NO_PRODUCT)
            } else {
                line.number(hi)
                    .text(" times ")
                    .number(bytes)
                    .text(" bytes, where a pointer has 8, isn't below 4294967296")
            }
        }
        _ => line.text(NO_PRODUCT),
    };
    Some(line)
}

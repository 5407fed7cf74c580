//! What is said of the rule `shape`.

use crate::refused::Refused;
use explain_base::{Line, Said};
use note_types::{Shape, ShapeFault, shape_ok};

// Writes `NAME at (N, C)` of a field.
fn write_field(s: &Shape, number: u32, line: &mut Line) {
    if let Some(x) = s.fields.as_slice().get(number as usize) {
        line.text(x.name.as_str())
            .text(" at ")
            .pair(u64::from(x.n), u64::from(x.c));
    }
}

fn write_fault(s: &Shape, fault: ShapeFault, line: &mut Line) {
    let (name, n, c) = (s.name.as_str(), u64::from(s.n), u64::from(s.c));
    match fault {
        ShapeFault::Empty { width } => {
            line.text(name)
                .text(" has size ")
                .pair(n, c)
                .text(", 0 bytes where a pointer has ")
                .number(u64::from(width));
        }
        ShapeFault::Outside { width, field } => {
            line.text("where a pointer has ")
                .number(u64::from(width))
                .text(" bytes, the field ");
            write_field(s, field, line);
            line.text(" of ")
                .text(name)
                .text(" ends past its size ")
                .pair(n, c);
        }
        ShapeFault::Overlap {
            width,
            first,
            second,
        } => {
            line.text("where a pointer has ")
                .number(u64::from(width))
                .text(" bytes, the fields ");
            write_field(s, first, line);
            line.text(" and ");
            write_field(s, second, line);
            line.text(" of ").text(name).text(" share a byte");
        }
    }
}

/// What is said where a shape isn't well formed.
pub(crate) fn said_of_shape(refused: &Refused) -> Option<Said> {
    let number = refused.place as usize;
    let s = refused.notes.shape.as_slice().get(number)?;
    // Shapes of notes have no more fields.
    if 256 < s.fields.len() {
        return None;
    }
    let Err(fault) = shape_ok(s) else {
        return None;
    };
    let mut what = Line::new(refused.alloc);
    write_fault(s, fault, &mut what);
    let key = match fault {
        ShapeFault::Empty { .. } => "size",
        _ => "fields",
    };
    Some(Said::with_key(what, "shape", number, key, "the shape"))
}

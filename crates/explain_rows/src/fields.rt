//! What lies near a place that names no cell: the fields of a shape, and what lies above R0.

use crate::sizes::{item_size, together};
use explain_base::{Line, Scene, kind_text};
use note_types::{Field, Pair};
use rules_base::{Distance, slot_size};

// How many fields are told at most.
const FIELDS: usize = 4;

// The number of the field that begins nearest to a distance where a pointer has eight bytes, of those that aren't among these.
fn nearest(fields: &[Field], d: Distance, told: &[usize]) -> Option<usize> {
    let sought = d.n.saturating_mul(8).saturating_add(d.c);
    let mut best = None;
    for (number, x) in fields.iter().enumerate() {
        if told.contains(&number) {
            continue;
        }
        let field = i64::from(x.n)
            .saturating_mul(8)
            .saturating_add(i64::from(x.c));
        let far = field.saturating_sub(sought).unsigned_abs();
        best = match best {
            Some((_, least)) if least <= far => best,
            _ => Some((number, far)),
        };
    }
    let (number, _) = best?;
    Some(number)
}

/// The fields that are nearest to a distance, the nearest first.
pub(crate) fn fields_near(scene: &Scene, fields: &[Field], d: Distance) -> Line {
    let mut texts = Line::new(scene.alloc);
    let mut told = [usize::MAX; FIELDS];
    for turn in 0..FIELDS {
        let Some(number) = nearest(fields, d, told.as_slice()) else {
            break;
        };
        told[turn] = number;
        if let Some(x) = fields.get(number) {
            texts
                .comma()
                .text(x.name.as_str())
                .text(" ")
                .cell(scene.notes, scene.f, x.cell);
            texts.text(" at ").pair(u64::from(x.n), u64::from(x.c));
        }
    }
    texts
}

/// What lies above R0: the items and the parameters, each with its distance.
pub(crate) fn above_stack(scene: &Scene) -> Line {
    let mut texts = Line::new(scene.alloc);
    let mut at = Pair { n: 0, c: 0 };
    for item in scene.state.items.as_slice() {
        texts
            .comma()
            .item(scene.notes, scene.f, item)
            .text(" at ")
            .size(at);
        at = together(at, item_size(scene, item));
    }
    at = together(at, Pair { n: 0, c: 16 });
    for (number, p) in scene.f.params.as_slice().iter().enumerate() {
        texts.comma().text("parameter ").count(number);
        texts.text(", ").text(kind_text(p.kind)).text(" ");
        texts
            .type_of(scene.notes, scene.f, p.ty)
            .text(", at ")
            .size(at);
        at = together(at, slot_size(p.kind));
    }
    texts
}

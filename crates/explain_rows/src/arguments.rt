//! What is said of `arguments`, and of `unwritten` where an argument lends a local field to be read.

use crate::callee::{Callee, Parameter, Takes, callee_of, slot_at};
use explain_base::{Line, Said, Scene, kind_text};
use note_types::{Cell, Ty, Want, ty_below};
use rules_base::{cell_of, has_field, local_fields};

// ---- what is passed

// Whether a value is the address of such a cell: of a caller's local, or of a local field of the function's own.
fn is_cell(scene: &Scene, cell: Cell, t: Ty) -> bool {
    match t {
        Ty::Lent(lent) => lent == cell,
        Ty::Local(field) => {
            cell_of(local_fields(scene.notes, scene.f), field as usize) == Some(cell)
        }
        _ => false,
    }
}

fn is_wanted(scene: &Scene, want: Want, t: Ty) -> bool {
    match want {
        Want::Any => true,
        Want::Int { lo, hi } => ty_below(&t, &Ty::Int { lo, hi, div: 1 }),
        Want::Size { n, c } => match t {
            Ty::Lin { n: m, c: d } => i64::from(m) == i64::from(n) && i64::from(d) == i64::from(c),
            Ty::Int { lo, hi, .. } => n == 0 && lo == u64::from(c) && hi == u64::from(c),
            _ => false,
        },
        Want::Ptr => match t {
            Ty::Ptr { n, c, .. } => n == 0 && c == 0,
            Ty::Int { lo, hi, .. } => lo == 0 && hi == 0,
            _ => false,
        },
        Want::Handle => ty_below(&t, &Ty::Handle),
        Want::Status => ty_below(&t, &Ty::Status(0)),
        Want::Entry => ty_below(&t, &Ty::Entry),
        Want::Out(cell) | Want::Inout(cell) => is_cell(scene, cell, t),
    }
}

// Whether a slot is passed for a parameter that has its kind and takes its value.
fn is_met(scene: &Scene, p: Parameter, number: usize) -> bool {
    match (slot_at(scene, number), p.takes) {
        (Some((kind, _)), _) if kind != p.kind => false,
        (Some((_, t)), Takes::Type(Ty::Lent(cell))) => is_cell(scene, cell, t),
        (Some((_, t)), Takes::Type(p)) => ty_below(&t, &p),
        (Some((_, t)), Takes::Want(want)) => is_wanted(scene, want, t),
        (None, _) => false,
    }
}

// The first parameter that isn't met, and its number.
fn unmet(scene: &Scene, callee: Callee) -> Option<(usize, Parameter)> {
    for number in 0..usize::MAX {
        let p = callee.parameter(number)?;
        if !is_met(scene, p, number) {
            return Some((number, p));
        }
    }
    None
}

// The first argument that lends a local field that isn't written to be read: its number, and the field's.
fn lent_unwritten(scene: &Scene, callee: Callee) -> Option<(usize, u32)> {
    for number in 0..usize::MAX {
        let reads = matches!(
            callee.parameter(number)?.takes,
            Takes::Type(Ty::Lent(_)) | Takes::Want(Want::Inout(_))
        );
        match slot_at(scene, number) {
            Some((_, Ty::Local(field))) if reads && !has_field(scene.state.written, field) => {
                return Some((number, field));
            }
            _ => {}
        }
    }
    None
}

// ---- texts

// Writes what a parameter takes.
fn write_takes(scene: &Scene, callee: Callee, takes: Takes, line: &mut Line) {
    let f = match callee {
        Callee::Function(_, g) => g,
        Callee::Method(..) => scene.f,
    };
    match takes {
        Takes::Type(t) => line.type_of(scene.notes, f, t),
        Takes::Want(Want::Any) => line.text("any"),
        Takes::Want(Want::Int { lo, hi }) => line.text("int:").number(lo).text("..").number(hi),
        Takes::Want(Want::Size { n, c }) => line
            .text("size:")
            .number(u64::from(n))
            .text(",")
            .number(u64::from(c)),
        Takes::Want(Want::Ptr) => line.text("ptr, the start of an object or 0,"),
        Takes::Want(Want::Handle) => line.text("handle"),
        Takes::Want(Want::Status) => line.text("status"),
        Takes::Want(Want::Entry) => line.text("entry"),
        Takes::Want(want @ (Want::Out(cell) | Want::Inout(cell))) => line
            .text(if matches!(want, Want::Out(_)) {
                "out:"
            } else {
                "inout:"
            })
            .cell(scene.notes, scene.f, cell)
            .text(", the address of such a local field,"),
    };
}

// The sentence with the key of the parameters.
fn with_parameters(callee: Callee, what: Line) -> Said {
    match callee {
        Callee::Function(number, _) => Said::with_key(
            what,
            "function",
            number,
            "params",
            "the parameters of the function that is called",
        ),
        Callee::Method(number, _) => Said::with_key(
            what,
            "signature",
            number as usize,
            "params",
            "the parameters of the signature",
        ),
    }
}

// The first parameter that isn't met, with what is passed for it; none where each is.
fn unmet_line(scene: &Scene, callee: Callee) -> Option<Line> {
    let (number, p) = unmet(scene, callee)?;
    let mut what = Line::of(scene.alloc, "argument ");
    what.count(number).text(" is ");
    match scene.state.items.as_slice().get(number) {
        Some(item) => what.item(scene.notes, scene.f, item),
        None => what.text("not there"),
    };
    what.text(", and ").text(kind_text(p.kind)).text(" ");
    write_takes(scene, callee, p.takes, &mut what);
    what.text(" is wanted");
    Some(what)
}

/// What is said of `arguments`.
pub(crate) fn said_of_arguments(scene: &Scene) -> Option<Said> {
    let callee = callee_of(scene)?;
    let what = unmet_line(scene, callee)?;
    Some(with_parameters(callee, what))
}

/// Whether a signature, by its number, takes what lies on the stack before a native call, and else why not.
pub fn candidate_line(scene: &Scene, number: usize) -> Line {
    let mut line = Line::new(scene.alloc);
    if let Some(signature) = scene.notes.signature.as_slice().get(number) {
        line.text(signature.name.as_str());
        let number = u32::try_from(number).unwrap_or(u32::MAX);
        match unmet_line(scene, Callee::Method(number, signature)) {
            Some(unmet) => line.text(": ").line(&unmet),
            None => line.text(" takes what lies on the stack"),
        };
    }
    line
}

/// What is said of `unwritten`, where an argument lends a local field to be read.
pub(crate) fn said_of_lent(scene: &Scene) -> Option<Said> {
    let callee = callee_of(scene)?;
    let (number, field) = lent_unwritten(scene, callee)?;
    let x = local_fields(scene.notes, scene.f).get(field as usize)?;
    let mut what = Line::of(scene.alloc, "argument ");
    what.count(number)
        .text(" lends the local field ")
        .text(x.name.as_str())
        .text(
            " to be read, and it isn't written here; a store to it is wanted before, or a test of the status that grants it",
        );
    Some(with_parameters(callee, what))
}

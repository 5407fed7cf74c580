//! What is said of operands in memory: `address`, `null`, `unwritten`.

ghost use Rattle.ebc_insn.specs.Spelling.{WellFormed};

use crate::fields::{above_stack, fields_near};
use crate::operands::{Memory, left_memory, right_memory};
use crate::values::register_line;
use explain_base::{Line, Said, Scene, access_text, accesses_of, kind_text};
use note_types::{RuleName, Shape, SlotKind, Ty};
use rules_base::{Distance, Place, load_at, local_fields, place_at, target_at};

// Whether an operand in memory fails by a rule.
fn fails_by(scene: &Scene, m: Memory, rule: RuleName) -> bool {
    if m.stores {
        if let Err(other) = target_at(
            scene.notes,
            scene.f,
            scene.state,
            m.access,
            m.reg,
            m.distance,
        ) {
            if other == rule {
                return true;
            }
        }
    }
    if !m.loads {
        return false;
    }
    match load_at(
        scene.notes,
        scene.f,
        scene.state,
        m.access,
        m.reg,
        m.distance,
    ) {
        Ok(_) => false,
        Err(other) => other == rule,
    }
}

// The first operand in memory that fails by a rule.
fn failing(scene: &Scene, rule: RuleName) -> Option<Memory>
    requires { WellFormed scene.now.insn.now }
{
    if let Some(m) = left_memory(scene.insn) {
        if fails_by(scene, m, rule) {
            return Some(m);
        }
    }
    match right_memory(scene.insn) {
        Some(m) if fails_by(scene, m, rule) => Some(m),
        _ => None,
    }
}

// The place that an operand names.
fn place_of(scene: &Scene, m: Memory) -> Option<Place> {
    place_at(scene.notes, scene.f, scene.state, m.reg, m.distance)
}

// ---- operands that name no cell

fn beside_stack(scene: &Scene, m: Memory) -> Said {
    let mut what = Line::of(scene.alloc, "no local field or parameter begins at R0 and ");
    what.distance(m.distance);
    let mut lies = Line::new(scene.alloc);
    lies.list(
        "above R0 lie: ",
        &above_stack(scene),
        "above R0 lie no items and no parameters",
    );
    let mut said = Said::only(what);
    said.add(lies);
    said
}

// Where a distance leads out of the first of so many instances; empty where it doesn't.
fn past_line(scene: &Scene, s: &Shape, count: u64, d: Distance) -> Line {
    let mut line = Line::new(scene.alloc);
    let bytes = d.n.saturating_mul(8).saturating_add(d.c);
    let size = (8 * i64::from(s.n)).saturating_add(i64::from(s.c));
    if bytes < size {
        return line;
    }
    line.text(s.name.as_str())
        .text(" has size ")
        .pair(u64::from(s.n), u64::from(s.c));
    line.text(if count > 1 {
        ", and an operand reaches the first instance alone; a number times the size, added to the pointer, leads to another"
    } else {
        ", and the pointer leads to one instance"
    });
    line
}

// A pointer to so many instances of a shape, by its number, whose fields begin elsewhere than at a distance from the instance.
fn beside_field(scene: &Scene, m: Memory, number: u32, s: &Shape, count: u64, d: Distance) -> Said {
    let name = s.name.as_str();
    let mut what = register_line(scene, m.reg, scene.state.regs[m.reg as usize]);
    what.text(", and ")
        .text(name)
        .text(" has no field that begins at ")
        .distance(d);
    let mut fields = Line::of(scene.alloc, name);
    let near = fields_near(scene, s.fields.as_slice(), d);
    fields.list(" has, nearest first: ", &near, " has no fields");
    let mut said = Said::with_key(
        what,
        "shape",
        number as usize,
        "fields",
        "the shape's fields",
    );
    said.add(fields);
    said.add(past_line(scene, s, count, d));
    said
}

fn nowhere(scene: &Scene, m: Memory) -> Said {
    if m.reg == 0 {
        return beside_stack(scene, m);
    }
    let t = scene.state.regs[m.reg as usize];
    if let Ty::Ptr {
        shape,
        count,
        n,
        c,
        ..
    } = t
    {
        if let Some(s) = scene.notes.shape.as_slice().get(shape as usize) {
            let d = Distance {
                n: m.distance.n.saturating_add(i64::from(n)),
                c: m.distance.c.saturating_add(i64::from(c)),
            };
            return beside_field(scene, m, shape, s, count, d);
        }
    }
    let mut what = register_line(scene, m.reg, t);
    match t {
        Ty::Local(_) | Ty::Lent(_) | Ty::ThunkAt(_) => what
            .text(", the address of one cell, and ")
            .distance(m.distance)
            .text(" leads away from it"),
        _ => what.text(
            ", and an address is wanted: a pointer to a shape, or a local's or a thunk cell's",
        ),
    };
    Said::only(what)
}

// ---- cells that are accessed otherwise than they may be

// By which moves a parameter is loaded.
fn loads_of(kind: SlotKind, ty: Ty) -> &'static str {
    match (kind, ty) {
        (SlotKind::N, Ty::Status(_)) => "MOVn, and by MOVsn too",
        (SlotKind::N, _) => "MOVn",
        (_, Ty::Status(_)) => "MOVq, and by MOVsn too",
        _ => "MOVq",
    }
}

// Writes how a place is accessed, and how it may be.
fn write_access(scene: &Scene, m: Memory, place: Place, line: &mut Line) {
    let access = access_text(m.access);
    match place {
        Place::Object { cell, .. } | Place::Local { cell, .. } => {
            line.text(access)
                .text(if m.stores {
                    " stores to a cell "
                } else {
                    " loads a cell "
                })
                .cell(scene.notes, scene.f, cell);
            line.text(", which is accessed by ").text(accesses_of(cell));
            return;
        }
        Place::Parameter { kind, ty } => line
            .text("a parameter ")
            .text(kind_text(kind))
            .text(" ")
            .type_of(scene.notes, scene.f, ty),
        Place::ThunkCell(_) => line.text("a thunk cell"),
    };
    line.text(if m.stores {
        " is stored to by "
    } else {
        " is loaded by "
    })
    .text(access)
    .text("; it is loaded by ")
    .text(match place {
        Place::Parameter { kind, ty } => loads_of(kind, ty),
        _ => "MOVn",
    })
    .text(", and never stored to");
}

/// What is said of `address`.
pub(crate) fn said_of_address(scene: &Scene) -> Option<Said>
    requires { WellFormed scene.now.insn.now }
{
    let m = failing(scene, RuleName::Address)?;
    let Some(place) = place_of(scene, m) else {
        return Some(nowhere(scene, m));
    };
    let mut what = Line::new(scene.alloc);
    write_access(scene, m, place, &mut what);
    Some(Said::only(what))
}

/// What is said of `null`.
pub(crate) fn said_of_null(scene: &Scene) -> Option<Said>
    requires { WellFormed scene.now.insn.now }
{
    let m = failing(scene, RuleName::Null)?;
    let mut what = register_line(scene, m.reg, scene.state.regs[m.reg as usize]);
    what.text(", which may be null; a comparison with 0 and a jump where it is are wanted before");
    Some(Said::only(what))
}

/// What is said of `unwritten`, where an operand is a local field.
pub(crate) fn said_of_unwritten(scene: &Scene) -> Option<Said>
    requires { WellFormed scene.now.insn.now }
{
    let m = failing(scene, RuleName::Unwritten)?;
    let Some(Place::Local { field, .. }) = place_of(scene, m) else {
        return None;
    };
    let x = local_fields(scene.notes, scene.f).get(field as usize)?;
    let mut what = Line::of(scene.alloc, "the local field ");
    what.text(x.name.as_str()).text(
        " isn't written here; a store to it is wanted before, or a test of the status that grants it",
    );
    Some(Said::only(what))
}

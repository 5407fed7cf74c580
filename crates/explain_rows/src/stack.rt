//! What is said of `stack`.

ghost use Rattle.ebc_insn.specs.Spelling.{WellFormed};

use crate::operands::{Slot, moved_slot};
use crate::sizes::{item_size, items_size, together};
use ebc_insn::{Insn, Size};
use explain_base::{Line, Said, Scene, kind_text};
use note_types::{Item, Pair, SlotKind};
use rules_base::{index_distance, locals_size, slot_size};

// How many slots a function may have at most.
const SLOTS: usize = 64;

// How many of the items are slots. The others are the locals.
fn slots_in(items: &[Item]) -> usize {
    let mut slots = 0usize;
    for item in items {
        if let Item::Slot { .. } = item {
            slots = slots.saturating_add(1);
        }
    }
    slots
}

// What is said where an item of this size has no room.
fn no_room(scene: &Scene, size: Pair, doing: &str) -> Said {
    let mut what = Line::of(scene.alloc, doing);
    what.text(" makes the items ")
        .size(together(items_size(scene), size));
    what.text(", and ")
        .text(scene.f.name.as_str())
        .text(" has need ")
        .size(scene.f.need);
    Said::with_key(
        what,
        "function",
        scene.func as usize,
        "need",
        "the function's need",
    )
}

fn said_of_push(scene: &Scene, slot: Slot) -> Said {
    if slot.op.reg == 0 && !slot.op.indirect {
        return Said::text(
            scene.alloc,
            "R0 is pushed; its value is taken by MOVq alone",
        );
    }
    if SLOTS <= slots_in(scene.state.items.as_slice()) {
        return Said::text(scene.alloc, "this push makes more than 64 slots");
    }
    no_room(scene, slot_size(slot.kind), "this push")
}

fn said_of_pop(scene: &Scene, slot: Slot) -> Said {
    if slot.op.reg == 0 {
        return Said::text(
            scene.alloc,
            "a pop goes to another register than R0, or through one",
        );
    }
    let mut what = Line::of(scene.alloc, "a slot ");
    what.text(kind_text(slot.kind));
    let numbers = match slot.kind {
        SlotKind::D => " with numbers below 2147483648",
        SlotKind::N | SlotKind::Q => "",
    };
    match scene.state.items.as_slice().first() {
        None => what.text(" is popped, and nothing is pushed"),
        Some(top) => what
            .text(numbers)
            .text(" is popped, and ")
            .item(scene.notes, scene.f, top)
            .text(" is on top"),
    };
    Said::only(what)
}

// ---- MOVq R0, R0

// What is said of R0 that goes down.
fn said_of_locals(scene: &Scene, size: Pair) -> Said {
    let (items, taken) = (
        scene.state.items.as_slice(),
        locals_size(scene.notes, scene.f),
    );
    let is_there = slots_in(items) < items.len();
    let mut what = Line::of(scene.alloc, "R0 goes down by ");
    what.size(size).text(", and ");
    let Some(shape) = scene.f.locals else {
        what.text(scene.f.name.as_str()).text(" has no locals");
        return Said::only(what);
    };
    if is_there {
        what.text("the locals are there already");
        return Said::only(what);
    }
    if taken == size {
        return no_room(scene, size, "making the locals");
    }
    what.text("the locals take ").size(taken);
    let note = "the size of the locals";
    Said::with_key(what, "shape", shape as usize, "size", note)
}

// What is said of R0 that goes up: the sums of the sizes of the items from the top.
fn said_of_drop(scene: &Scene, size: Pair) -> Said {
    let mut what = Line::of(scene.alloc, "R0 goes up by ");
    what.size(size).text(", which drops no whole items; the items from the top sum up to (0, 0)");
    let mut sum = Pair { n: 0, c: 0 };
    for item in scene.state.items.as_slice() {
        sum = together(sum, item_size(scene, item));
        what.text(", ").size(sum);
    }
    Said::only(what)
}

// ---- the rule

// Whether MOVq R0, R0 moves R0 down, and how far; `None` of other instructions.
fn frame_move(i: &Insn) -> Option<(bool, Pair)>
    requires { WellFormed i.now }
{
    let Insn::Move {
        size: Size::Qword,
        bits,
        left,
        right,
        ridx,
        ..
    } = i
    else {
        return None;
    };
    if left.reg != 0 || left.indirect || right.reg != 0 || right.indirect {
        return None;
    }
    let d = index_distance(*bits, ridx);
    let size = Pair {
        n: d.n.unsigned_abs(),
        c: d.c.unsigned_abs(),
    };
    Some((d.n < 0 || d.c < 0, size))
}

/// What is said of `stack`.
pub(crate) fn said_of_stack(scene: &Scene) -> Said
    requires { WellFormed scene.now.insn.now }
{
    if let Some(slot) = moved_slot(scene.insn) {
        return if slot.pops {
            said_of_pop(scene, slot)
        } else {
            said_of_push(scene, slot)
        };
    }
    match frame_move(scene.insn) {
        Some((true, size)) => said_of_locals(scene, size),
        Some((false, size)) => said_of_drop(scene, size),
        None => Said::text(
            scene.alloc,
            "R0 is an operand here; its value is taken by MOVq alone, and it is changed by MOVq R0, R0 with an index alone",
        ),
    }
}

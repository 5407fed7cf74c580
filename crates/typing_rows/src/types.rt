//! Cells, types, states and what a method wants, and what a typing rule answers, in text.
use crate::text::{Shown, Text};
use crate::words::rule_text;
use ebc_insn::CmpOp;
use note_types::{Cell, Fact, Item, Items, Pair, RuleName, SlotKind, State, Ty, Want};
use rules_flow::Successors;

impl Shown for Pair {
    fn show(&self, text: &mut Text) {
        text.put("Pair { n: ", &self.n);
        text.put(", c: ", &self.c);
        text.word(" }");
    }
}

impl Shown for SlotKind {
    fn show(&self, text: &mut Text) {
        text.word(match self {
            SlotKind::N => "N",
            SlotKind::Q => "Q",
            SlotKind::D => "D",
        })
    }
}

// The address of instances, in a cell.
fn pointer(text: &mut Text, shape: &u32, count: &u64, null: &bool) {
    text.put(" { shape: ", shape);
    text.put(", count: ", count);
    text.put(", null: ", null);
    text.word(" }");
}

impl Shown for Cell {
    fn show(&self, text: &mut Text) {
        match self {
            Cell::I8 => text.word("I8"),
            Cell::I16 => text.word("I16"),
            Cell::I32 => text.word("I32"),
            Cell::I64 => text.word("I64"),
            Cell::N => text.word("N"),
            Cell::Stat => text.word("Stat"),
            Cell::Handle => text.word("Handle"),
            Cell::Entry => text.word("Entry"),
            Cell::Ptr { shape, count, null } => {
                text.word("Ptr");
                pointer(text, shape, count, null)
            }
            Cell::P64 { shape, count, null } => {
                text.word("P64");
                pointer(text, shape, count, null)
            }
            Cell::Method(method) => within(text, "Method", method),
        }
    }
}

// A case with the one thing that it holds.
fn within<T: Shown>(text: &mut Text, case: &str, value: &T) {
    text.word(case);
    text.put("(", value);
    text.word(")");
}

// A type that is an address with what is added to it.
fn address(text: &mut Text, ty: &Ty) {
    let Ty::Ptr {
        shape,
        count,
        n,
        c,
        null,
    } = ty
    else {
        return text.word("no address");
    };
    text.put("Ptr { shape: ", shape);
    text.put(", count: ", count);
    text.put(", n: ", n);
    text.put(", c: ", c);
    text.put(", null: ", null);
    text.word(" }");
}

// A type of numbers.
fn number(text: &mut Text, ty: &Ty) {
    match ty {
        Ty::Int { lo, hi, div } => {
            text.put("Int { lo: ", lo);
            text.put(", hi: ", hi);
            text.put(", div: ", div);
            text.word(" }");
        }
        Ty::Lin { n, c } => {
            text.put("Lin { n: ", n);
            text.put(", c: ", c);
            text.word(" }");
        }
        Ty::Scaled { n, c, hi } => {
            text.put("Scaled { n: ", n);
            text.put(", c: ", c);
            text.put(", hi: ", hi);
            text.word(" }");
        }
        _ => address(text, ty),
    }
}

impl Shown for Ty {
    fn show(&self, text: &mut Text) {
        match self {
            Ty::Any => text.word("Any"),
            Ty::Mask => text.word("Mask"),
            Ty::Handle => text.word("Handle"),
            Ty::Entry => text.word("Entry"),
            Ty::Local(field) => within(text, "Local", field),
            Ty::Lent(cell) => within(text, "Lent", cell),
            Ty::Status(fields) => within(text, "Status", fields),
            Ty::SignedStatus(fields) => within(text, "SignedStatus", fields),
            Ty::Method(method) => within(text, "Method", method),
            Ty::ThunkAt(place) => within(text, "ThunkAt", place),
            Ty::Saved(register) => within(text, "Saved", register),
            _ => number(text, self),
        }
    }
}

impl Shown for Want {
    fn show(&self, text: &mut Text) {
        match self {
            Want::Any => text.word("Any"),
            Want::Int { lo, hi } => {
                text.put("Int { lo: ", lo);
                text.put(", hi: ", hi);
                text.word(" }");
            }
            Want::Size { n, c } => {
                text.put("Size { n: ", n);
                text.put(", c: ", c);
                text.word(" }");
            }
            Want::Ptr => text.word("Ptr"),
            Want::Handle => text.word("Handle"),
            Want::Status => text.word("Status"),
            Want::Entry => text.word("Entry"),
            Want::Out(cell) => within(text, "Out", cell),
            Want::Inout(cell) => within(text, "Inout", cell),
        }
    }
}

impl Shown for Item {
    fn show(&self, text: &mut Text) {
        match self {
            Item::Slot { kind, ty } => {
                text.put("Slot { kind: ", kind);
                text.put(", ty: ", ty);
                text.word(" }");
            }
            Item::Locals => text.word("Locals"),
        }
    }
}

impl Shown for Items {
    fn show(&self, text: &mut Text) {
        text.word("Items { items: [");
        text.list(self.as_slice());
        text.word("] }");
    }
}

impl Shown for CmpOp {
    fn show(&self, text: &mut Text) {
        text.word(match self {
            CmpOp::Eq => "Eq",
            CmpOp::Lte => "Lte",
            CmpOp::Gte => "Gte",
            CmpOp::Ulte => "Ulte",
            CmpOp::Ugte => "Ugte",
        })
    }
}

impl Shown for Fact {
    fn show(&self, text: &mut Text) {
        text.put("Fact { reg: ", &self.reg);
        text.put(", op: ", &self.op);
        text.put(", k: ", &self.k);
        text.word(" }");
    }
}

impl Shown for State {
    fn show(&self, text: &mut Text) {
        text.word("State { regs: [");
        text.list(self.regs.as_slice());
        text.put("], items: ", &self.items);
        text.put(", written: ", &self.written);
        text.put(", made: ", &self.made);
        text.put(", fact: ", &self.fact);
        text.word(" }");
    }
}

impl Shown for RuleName {
    fn show(&self, text: &mut Text) {
        text.word(rule_text(*self));
    }
}

impl Shown for Successors {
    fn show(&self, text: &mut Text) {
        text.put("Successors { fall: ", &self.fall);
        text.word(", jump: ");
        match &self.jump {
            Some((place, state)) => {
                text.put("Some((", place);
                text.put(", ", state);
                text.word("))");
            }
            None => text.word("None"),
        }
        text.word(" }");
    }
}

impl<T: Shown> Shown for Result<T, RuleName> {
    fn show(&self, text: &mut Text) {
        match self {
            Ok(value) => value.show(text),
            Err(rule) => text.put("refused by ", rule),
        }
    }
}

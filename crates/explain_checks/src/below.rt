//! What is said of the rule `below`: the first part of a state that says less than a point to which it leads.

ghost use Rattle.note_types.specs.Records.{IsNotes};

use crate::refused::Stopped;
use explain_base::{Line, Said};
use note_types::{Item, Notes, Point, State, Ty, ty_below};
use rules_base::{has_field, local_fields};
use rules_flow::Successors;

// Writes the items from the top, or `nothing`.
pub(crate) fn write_items(stopped: &Stopped, items: &[Item], line: &mut Line) {
    for (number, item) in items.iter().enumerate() {
        line.text(if number == 0 { "" } else { ", " })
            .item(stopped.refused.notes, stopped.f, item);
    }
    if items.is_empty() {
        line.text("nothing");
    }
}

// Writes the type of a value, and the type that the point has.
fn write_types(stopped: &Stopped, a: Ty, b: Ty, line: &mut Line) {
    let (notes, f) = (stopped.refused.notes, stopped.f);
    line.text(" is ")
        .type_of(notes, f, a)
        .text(", and the point wants ")
        .type_of(notes, f, b);
}

// Whether the items of two stacks agree in number and in kind.
fn all_agree(s: &[Item], t: &[Item]) -> bool {
    if s.len() != t.len() {
        return false;
    }
    for (a, b) in s.iter().zip(t.iter()) {
        match (a, b) {
            (Item::Slot { kind: k, .. }, Item::Slot { kind: l, .. }) if k == l => {}
            (Item::Locals, Item::Locals) => {}
            _ => return false,
        }
    }
    true
}

// Writes what the items of a stack lack: a kind, or else the first type that isn't below that of the point. False where they lack nothing.
fn lacks_items(stopped: &Stopped, s: &[Item], t: &[Item], line: &mut Line) -> bool {
    if !all_agree(s, t) {
        line.text("on the stack is ");
        write_items(stopped, s, line);
        line.text(", and the point wants ");
        write_items(stopped, t, line);
        return true;
    }
    for (number, (a, b)) in s.iter().zip(t.iter()).enumerate() {
        if let (Item::Slot { ty: x, .. }, Item::Slot { ty: y, .. }) = (a, b) {
            if !ty_below(x, y) {
                line.text("item ").count(number).text(" from the top");
                write_types(stopped, *x, *y, line);
                return true;
            }
        }
    }
    false
}

// Writes the first thing that a state lacks of a point's: a register, an item, a local field or a thunk. It tells the key of the point.
fn lack_of(stopped: &Stopped, s: &State, t: &State, line: &mut Line) -> Option<&'static str> {
    for reg in 1..8usize {
        let (a, b) = (s.regs[reg], t.regs[reg]);
        if !ty_below(&a, &b) {
            line.text("R").count(reg);
            write_types(stopped, a, b, line);
            return Some("regs");
        }
    }
    if lacks_items(stopped, s.items.as_slice(), t.items.as_slice(), line) {
        return Some("stack");
    }
    let mut number = 0u32;
    for x in local_fields(stopped.refused.notes, stopped.f) {
        if has_field(t.written, number) && !has_field(s.written, number) {
            line.text("the local field ")
                .text(x.name.as_str())
                .text(" isn't written, and the point says it is");
            return Some("written");
        }
        number = number.saturating_add(1);
    }
    if s.made == t.made {
        return None;
    }
    line.text("made is ")
        .number(u64::from(s.made))
        .text(", and the point wants ")
        .number(u64::from(t.made));
    Some("made")
}

// The point at a place, and its number.
fn point_at(notes: &Notes, place: u32) -> Option<(usize, &Point)> {
    for (number, point) in notes.point.as_slice().iter().enumerate() {
        if point.place == place {
            return Some((number, point));
        }
    }
    None
}

// What is said where a state comes to the point at a place and lacks something of it.
fn said_of_coming(stopped: &Stopped, s: &State, place: u32, how: &str) -> Option<Said> {
    let (number, point) = point_at(stopped.refused.notes, place)?;
    let mut what = Line::of(stopped.refused.alloc, how);
    what.text(" the point at ").at(place).text(": ");
    let key = lack_of(stopped, s, &point.state.state(), &mut what)?;
    Some(Said::with_key(what, "point", number, key, "what the point says"))
}

// The same of the states to which the instruction leads.
fn said_of_leading(stopped: &Stopped, successors: &Successors, next: u32) -> Option<Said> {
    if let Some(fall) = &successors.fall {
        if let Some(said) = said_of_coming(stopped, fall, next, "this falls to") {
            return Some(said);
        }
    }
    match &successors.jump {
        Some((place, jump)) => said_of_coming(stopped, jump, *place, "this jumps to"),
        None => None,
    }
}

/// What is said where a state says less than a point to which it leads.
pub(crate) fn said_of_below(stopped: &Stopped) -> Option<Said>
    requires { IsNotes stopped.now.refused.now.notes.now }
{
    let (arrived, place) = (&stopped.at.arrived, stopped.at.place);
    if let (Some(s), true) = (arrived, place == stopped.f.place) {
        if let Some(said) = said_of_coming(stopped, s, place, "the entry state comes to") {
            return Some(said);
        }
    }
    let (_, next) = stopped.at.insn?;
    let successors = stopped.at.leads(stopped.refused.notes)?;
    said_of_leading(stopped, &successors, next)
}

//! The stack of a function: room, slots that are pushed and popped, locals that are made and dropped.

ghost use Rattle.std.specs.Prelude.{◌≡◌, ◌<◌, ◌≤◌, ◌*◌, ◌+◌, ◌^◌, length, map, IfSome, IfOk, drop, option_map};
ghost use Rattle.std.specs.List.{list_any};
ghost use Rattle.ebc_insn.specs.Spelling.{ExtraFits, IsOperand};
ghost use Rattle.std.specs.Bool.{OnTrue};
ghost use Rattle.rules_flow.specs.Frames.{at, below_top, drop_row, forgotten, frame_row, has_room, is_popped, is_size, is_within};
ghost use Rattle.rules_flow.specs.Frames.{item_size, items_size, left_after, left_item, left_type, loses, make_row, one_slot, plus};
ghost use Rattle.rules_flow.specs.Frames.{pop_destination, pop_row, popped_type, push_row, slot_access, slot_type, top_type, with_item};
ghost use Rattle.rules_flow.specs.Frames.{with_left, without_top, left_registers};
ghost use Rattle.note_types.specs.Known.{is_locals, is_slot};
ghost use Rattle.rules_base.specs.Outcomes.{gives_map};
ghost use Rattle.rules_flow.specs.Steps.{FitsStep, successors_of};

use crate::step::{Step, Update};
use ebc_insn::{Extra, Operand};
use note_types::{FnNote, Item, Items, Notes, Pair, RuleName, SlotKind, State, Ty};
use rules_base::{
    Access, Destination, Distance, also, beside, extra_distance, is_int_below, kept_dword,
    kept_natural, locals_size, needs, operand_value, put, slot_size, target_at, with_immediate,
};

// ---- room

fn is_slot(item: &Item) -> bool
    ensures { result ≡ is_slot item.now }
{
    matches!(item, Item::Slot { .. })
}

fn is_locals(item: &Item) -> bool
    ensures { result ≡ is_locals item.now }
{
    matches!(item, Item::Locals)
}

// What an item takes of the stack, where the locals take so much.
fn item_size(locals: Pair, item: &Item) -> Pair
    requires units { locals.n < 2 ^ 32 }
    requires bytes { locals.c < 2 ^ 32 }
    ensures size { result ≡ item_size locals item.now }
    ensures units { result.n < 2 ^ 32 }
    ensures bytes { result.c < 2 ^ 32 }
{
    match item {
        Item::Slot { kind, .. } => slot_size(*kind),
        Item::Locals => locals,
    }
}

/// What items take of the stack, where the locals take so much.
#[tactic(auto, unfolding(crate::specs::Frames::items_size))]
pub fn items_size(locals: Pair, items: &[Item]) -> Pair
    requires units { locals.n < 2 ^ 32 }
    requires bytes { locals.c < 2 ^ 32 }
    requires few { length items.now ≤ 65 }
    ensures size { result ≡ items_size locals items.now }
    ensures units { result.n ≤ 2 ^ 32 * length items.now }
    ensures bytes { result.c ≤ 2 ^ 32 * length items.now }
{
    match items {
        [] => Pair { n: 0, c: 0 },
        [item, rest @ ..] => {
            let first = item_size(locals, item);
            let others = items_size(locals, rest);
            Pair {
                n: first.n + others.n,
                c: first.c + others.c,
            }
        }
    }
}

/// A size at width 4 or 8.
pub fn at(width: u8, p: Pair) -> u128
    ensures { result ≡ at width p }
{
    u128::from(p.n) * u128::from(width) + u128::from(p.c)
}

/// Whether a size is within another one at both widths.
pub fn is_within(a: Pair, b: Pair) -> bool
    ensures { result ≡ is_within a b }
{
    at(4, a) <= at(4, b) && at(8, a) <= at(8, b)
}

fn one_slot(item: &Item) -> usize
    ensures value { result ≡ one_slot item.now }
    ensures few { result ≤ 1 }
{
    if is_slot(item) { 1 } else { 0 }
}

// Whether a function has room for one more item: at most 64 slots, beside them the locals, and within what it needs.
#[tactic(auto, unfolding(crate::specs::Frames::has_room))]
fn has_room(notes: &Notes, f: &FnNote, item: &Item, items: &[Item]) -> bool
    ensures value { result ≡ has_room notes.now f.now item.now items.now }
    ensures room { OnTrue result (length items.now < 65) }
{
    if 65 <= items.len() {
        return false;
    }
    let slots = items.iter().filter(|x| is_slot(*x)).count() + one_slot(item);
    let locals = locals_size(notes, f);
    let first = item_size(locals, item);
    let others = items_size(locals, items);
    let size = Pair {
        n: first.n + others.n,
        c: first.c + others.c,
    };
    slots <= 64 && is_within(size, f.need)
}

// ---- slots pushed

// How a push or a pop reaches memory, by the kind of its slot.
fn slot_access(kind: SlotKind) -> Access
    ensures { result ≡ slot_access kind }
{
    match kind {
        SlotKind::N => Access::Natural,
        SlotKind::Q => Access::Form64,
        SlotKind::D => Access::Dword,
    }
}

// What a slot keeps of a value.
fn slot_type(kind: SlotKind, t: Ty) -> Ty
    ensures { result ≡ slot_type kind t }
{
    match kind {
        SlotKind::N => kept_natural(t),
        SlotKind::Q => t,
        SlotKind::D => kept_dword(t),
    }
}

/// One more item comes on top.
pub fn push_item(s: &mut State, item: Item)
    requires { length s.old.items < 65 }
    ensures { s.new ≡ with_item s.old item }
{
    s.items.push(item);
}

/// PUSHn, PUSH64 and PUSH32, by the kind of the slot.
#[tactic(auto, unfolding(crate::specs::Frames::push_row))]
pub fn push_row(
    notes: &Notes,
    f: &FnNote,
    s: &State,
    kind: SlotKind,
    op: &Operand,
    extra: &Extra,
) -> Result<Step, RuleName>
    requires operand { IsOperand op.now }
    requires extra { ExtraFits 16 op.now extra.now }
    ensures goes { gives_map (successors_of s.now) result ≡ push_row notes.now f.now s.now kind op.now extra.now }
    ensures fits { IfOk result (FitsStep s.now) }
{
    let empty = Item::Slot { kind, ty: Ty::Any };
    let room = has_room(notes, f, &empty, s.items.as_slice());
    let v = also(
        operand_value(notes, f, s, slot_access(kind), op, 16, extra),
        needs(RuleName::Stack, room),
    )?;
    if !v.made {
        return Err(RuleName::Thunk);
    }
    let ty = slot_type(kind, v.ty);
    Ok(Step::Falls(Update::Pushed(Item::Slot { kind, ty })))
}

// ---- slots popped

// Whether a value may be popped from a slot of its kind: what is sign-extended has to be below 2^31.
fn is_popped(kind: SlotKind, t: Ty) -> bool
    ensures { result ≡ is_popped kind t }
{
    match kind {
        SlotKind::D => is_int_below(0x8000_0000, t),
        SlotKind::N | SlotKind::Q => true,
    }
}

// The type in the top slot, which has to be of this kind.
fn top_type(kind: SlotKind, items: &[Item]) -> Result<Ty, RuleName>
    ensures { result ≡ top_type kind items.now }
{
    match items {
        [Item::Slot { kind: k, ty }, ..] => if kind == *k && is_popped(kind, *ty) {
            Ok(*ty)
        } else {
            Err(RuleName::Stack)
        },
        _ => Err(RuleName::Stack),
    }
}

// Where a pop leaves the value: never through R0.
fn pop_destination(
    notes: &Notes,
    f: &FnNote,
    s: &State,
    kind: SlotKind,
    op: &Operand,
    extra: &Extra,
) -> Result<Destination, RuleName>
    requires operand { IsOperand op.now }
    requires extra { ExtraFits 16 op.now extra.now }
    ensures { result ≡ pop_destination notes.now f.now s.now kind op.now extra.now }
{
    if op.reg == 0 {
        Err(RuleName::Stack)
    } else if op.indirect {
        let d = extra_distance(16, op, extra);
        let target = target_at(notes, f, s, slot_access(kind), op.reg, d)?;
        Ok(Destination::Memory(target))
    } else {
        Ok(Destination::Register(op.reg))
    }
}

// The value that a pop leaves: with its immediate, in a register.
fn popped_type(notes: &Notes, op: &Operand, extra: &Extra, t: Ty) -> Ty
    ensures { result ≡ popped_type notes.now op.now extra.now t }
{
    if op.indirect {
        t
    } else {
        with_immediate(notes.shape.as_slice(), t, extra)
    }
}

/// The top item goes.
pub fn pop_item(s: &mut State)
    ensures { s.new ≡ without_top s.old }
{
    let _top = s.items.pop();
}

/// POPn, POP64 and POP32, by the kind of the slot.
#[tactic(auto, unfolding(crate::specs::Frames::pop_row))]
pub fn pop_row(
    notes: &Notes,
    f: &FnNote,
    s: &State,
    kind: SlotKind,
    op: &Operand,
    extra: &Extra,
) -> Result<Step, RuleName>
    requires operand { IsOperand op.now }
    requires extra { ExtraFits 16 op.now extra.now }
    ensures goes { gives_map (successors_of s.now) result ≡ pop_row notes.now f.now s.now kind op.now extra.now }
    ensures fits { IfOk result (FitsStep s.now) }
{
    let (t, to) = beside(
        top_type(kind, s.items.as_slice()),
        pop_destination(notes, f, s, kind, op, extra),
    )?;
    let change = put(to, popped_type(notes, op, extra, t))?;
    Ok(Step::Falls(Update::Popped(change)))
}

// ---- locals made

fn is_size(p: Pair, n: u64, c: u64) -> bool
    ensures { result ≡ is_size p n c }
{
    p.n == n && p.c == c
}

// Whether the locals are among the items.
fn has_locals(items: &[Item]) -> bool
    ensures { result ≡ list_any is_locals items.now }
{
    items.iter().any(|x| is_locals(x))
}

// Making the locals, which aren't there and take so much.
fn make_row(notes: &Notes, f: &FnNote, s: &State, n: u64, c: u64) -> Result<Step, RuleName>
    ensures goes { gives_map (successors_of s.now) result ≡ make_row notes.now f.now s.now n c }
    ensures fits { IfOk result (FitsStep s.now) }
{
    let items = s.items.as_slice();
    if f.locals.is_some()
        && !has_locals(items)
        && is_size(locals_size(notes, f), n, c)
        && has_room(notes, f, &Item::Locals, items)
    {
        Ok(Step::Falls(Update::Pushed(Item::Locals)))
    } else {
        Err(RuleName::Stack)
    }
}

// ---- items dropped

// How many items on top take exactly so much.
#[tactic(auto, unfolding(crate::specs::Frames::left_after))]
fn dropped(locals: Pair, items: &[Item], n: u64, c: u64) -> Option<usize>
    requires units { locals.n < 2 ^ 32 }
    requires bytes { locals.c < 2 ^ 32 }
    ensures left { option_map (λ k. drop k items.now) result ≡ left_after locals items.now n c }
    ensures fewer { IfSome result (λ k. k ≤ length items.now) }
{
    match items {
        [] => if n == 0 && c == 0 { Some(0) } else { None },
        [item, rest @ ..] => {
            let size = item_size(locals, item);
            if n == 0 && c == 0 {
                Some(0)
            } else if size.n <= n && size.c <= c {
                let others = dropped(locals, rest, n - size.n, c - size.c)?;
                Some(others + 1)
            } else {
                None
            }
        }
    }
}

fn forgotten(t: Ty) -> Ty
    ensures { result ≡ forgotten t }
{
    match t {
        Ty::Local(_) => Ty::Any,
        Ty::Status(_) => Ty::Status(0),
        Ty::SignedStatus(_) => Ty::SignedStatus(0),
        _ => t,
    }
}

fn left_type(lost: bool, t: Ty) -> Ty
    ensures { result ≡ left_type lost t }
{
    if lost { forgotten(t) } else { t }
}

fn left_item(lost: bool, item: Item) -> Item
    ensures { result ≡ left_item lost item }
{
    match item {
        Item::Slot { kind, ty } => Item::Slot {
            kind,
            ty: left_type(lost, ty),
        },
        Item::Locals => Item::Locals,
    }
}

fn left_items(lost: bool, left: &[Item]) -> Items
    requires { length left.now ≤ 65 }
    ensures { result ≡ map (left_item lost) left.now }
{
    let mut items = Items::new();
    for item in left {
        items.push_below(left_item(lost, *item));
    }
    items
}

// The registers without the locals where they are lost.
fn left_registers(lost: bool, s: &State) -> [Ty; 8]
    ensures { result ≡ left_registers lost s.now }
{
    [
        left_type(lost, s.regs[0]),
        left_type(lost, s.regs[1]),
        left_type(lost, s.regs[2]),
        left_type(lost, s.regs[3]),
        left_type(lost, s.regs[4]),
        left_type(lost, s.regs[5]),
        left_type(lost, s.regs[6]),
        left_type(lost, s.regs[7]),
    ]
}

/// So many items go from the top, and what is known of the locals goes where they are lost.
#[tactic(auto, unfolding(crate::specs::Frames::with_left))]
pub fn drop_items(s: &mut State, count: usize, lost: bool)
    requires { count ≤ length s.old.items }
    ensures { s.new ≡ with_left s.old lost (drop count s.old.items) }
{
    s.regs = left_registers(lost, s);
    s.items = left_items(lost, below(s.items.as_slice(), count));
    if lost {
        s.written = 0;
    }
}

// The items below so many on top.
fn below(items: &[Item], count: usize) -> &[Item]
    requires { count ≤ length items.now }
    ensures left { result.now ≡ drop count items.now }
    ensures fewer { length result.now ≤ length items.now }
{
    &items[count..]
}

// Dropping items from the top that take exactly so much.
fn drop_row(notes: &Notes, f: &FnNote, s: &State, n: u64, c: u64) -> Result<Step, RuleName>
    ensures goes { gives_map (successors_of s.now) result ≡ drop_row notes.now f.now s.now n c }
    ensures fits { IfOk result (FitsStep s.now) }
{
    let items = s.items.as_slice();
    match dropped(locals_size(notes, f), items, n, c) {
        Some(count) => {
            let lost = has_locals(items) && !has_locals(below(items, count));
            Ok(Step::Falls(Update::Dropped { count, lost }))
        }
        None => Err(RuleName::Stack),
    }
}

/// MOVq R0, R0: down by the size of the locals makes them, and up drops items.
#[tactic(auto, unfolding(crate::specs::Frames::frame_row))]
pub fn frame_row(notes: &Notes, f: &FnNote, s: &State, d: Distance) -> Result<Step, RuleName>
    ensures goes { gives_map (successors_of s.now) result ≡ frame_row notes.now f.now s.now d }
    ensures fits { IfOk result (FitsStep s.now) }
{
    let n = d.n.unsigned_abs();
    let c = d.c.unsigned_abs();
    if 0 <= d.n && 0 <= d.c {
        drop_row(notes, f, s, n, c)
    } else if d.n <= 0 && d.c <= 0 {
        make_row(notes, f, s, n, c)
    } else {
        Err(RuleName::Stack)
    }
}

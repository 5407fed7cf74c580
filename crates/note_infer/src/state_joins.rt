//! The join of two states: what is known before an instruction where two ways meet.

ghost use Rattle.std.specs.Prelude.{◌≡◌, ◌≤◌, length, IfSome};
ghost use Rattle.note_types.specs.BelowTests.{same_kind};
ghost use Rattle.note_infer.specs.Join.{join_types};
ghost use Rattle.note_infer.specs.JoinStates.{agree, item_agrees, items_agree, join_item, join_states, joined, zipped};
ghost use Rattle.note_infer.specs.JoinLaws.{AreBothBelow, KeepsEqual, StateWeakens};

use crate::type_joins::join_types;
use note_types::{Item, Items, State, Ty};

// Whether two items agree in kind.
fn item_agrees(x: &Item, y: &Item) -> bool
    ensures { result ≡ item_agrees x.now y.now }
{
    match (*x, *y) {
        (Item::Slot { kind, .. }, Item::Slot { kind: other, .. }) => kind == other,
        (Item::Locals, Item::Locals) => true,
        _ => false,
    }
}

// Whether items agree in number and in kind.
fn items_agree(xs: &[Item], ys: &[Item]) -> bool
    ensures { result ≡ items_agree xs.now ys.now }
{
    if xs.len() != ys.len() {
        return false;
    }
    for (number, item) in xs.iter().enumerate() {
        if !item_agrees(item, &ys[number]) {
            return false;
        }
    }
    true
}

// The join of two items that agree.
fn join_item(x: &Item, y: &Item) -> Item
    ensures { result ≡ join_item x.now y.now }
{
    match (*x, *y) {
        (Item::Slot { kind, ty }, Item::Slot { ty: other, .. }) => Item::Slot {
            kind,
            ty: join_types(&ty, &other),
        },
        _ => *x,
    }
}

// The joins of items, place by place.
fn join_items(xs: &[Item], ys: &[Item]) -> Items
    requires agree { length xs.now ≡ length ys.now }
    requires few { length xs.now ≤ 65 }
    ensures { result ≡ zipped join_item xs.now ys.now }
{
    let mut items = Items::new();
    for (number, item) in xs.iter().enumerate() {
        items.push_below(join_item(item, &ys[number]));
    }
    items
}

// The joins of registers.
fn join_registers(xs: &[Ty; 8], ys: &[Ty; 8]) -> [Ty; 8]
    ensures { result ≡ zipped join_types xs.now ys.now }
{
    [
        join_types(&xs[0], &ys[0]),
        join_types(&xs[1], &ys[1]),
        join_types(&xs[2], &ys[2]),
        join_types(&xs[3], &ys[3]),
        join_types(&xs[4], &ys[4]),
        join_types(&xs[5], &ys[5]),
        join_types(&xs[6], &ys[6]),
        join_types(&xs[7], &ys[7]),
    ]
}

// Whether two states agree: they don't clash.
#[tactic(auto, unfolding(crate::specs::JoinStates::agree))]
fn agree(s: &State, t: &State) -> bool
    ensures { result ≡ agree s.now t.now }
{
    items_agree(s.items.as_slice(), t.items.as_slice()) && s.made == t.made
}

// What two states have in common that agree.
#[tactic(auto, unfolding(crate::specs::JoinStates::joined))]
fn joined(s: &State, t: &State) -> State
    requires { length s.now.items ≡ length t.now.items }
    ensures { result ≡ joined s.now t.now }
{
    State {
        regs: join_registers(&s.regs, &t.regs),
        items: join_items(s.items.as_slice(), t.items.as_slice()),
        written: s.written & t.written,
        made: s.made,
        fact: None,
    }
}

/// What two states have in common, or `None` where they clash: where their items differ in number or in kind, or not as many
/// thunks are made. Its types are the joins of theirs, its written fields are those written in both, and it has no fact. Two
/// states of a function are both below it.
pub fn join_states(s: &State, t: &State) -> Option<State>
    ensures joined { result ≡ join_states s.now t.now }
    ensures below { IfSome result (AreBothBelow s.now t.now) }
    ensures weaker { IfSome result (StateWeakens s.now) }
    ensures equal { KeepsEqual s.now t.now result }
{
    if agree(s, t) {
        Some(joined(s, t))
    } else {
        None
    }
}

//! Whether two states are one.

ghost use Rattle.std.specs.Prelude.{◌≡◌, ◌↔◌, IsTrue};
ghost use Rattle.note_types.specs.BelowTests.{same_type};

use note_types::{Fact, Item, State, Ty};

// Whether two types are one.
pub(crate) fn same_type(a: &Ty, b: &Ty) -> bool
    ensures one { IsTrue result ↔ (a.now ≡ b.now) }
    ensures test { result ≡ same_type a.now b.now }
{
    *a == *b
}

// Whether two registers' lists of types are one.
fn same_registers(a: &[Ty; 8], b: &[Ty; 8]) -> bool
    ensures { IsTrue result ↔ (a.now ≡ b.now) }
{
    for r in 0..8 {
        if !same_type(&a[r], &b[r]) {
            return false;
        }
    }
    true
}

// Whether two items are one.
fn same_item(a: &Item, b: &Item) -> bool
    ensures { IsTrue result ↔ (a.now ≡ b.now) }
{
    match (*a, *b) {
        (
            Item::Slot { kind, ty },
            Item::Slot {
                kind: other,
                ty: second,
            },
        ) => { kind == other && same_type(&ty, &second) }
        (Item::Locals, Item::Locals) => true,
        _ => false,
    }
}

// Whether two lists of items are one.
fn same_items(a: &[Item], b: &[Item]) -> bool
    ensures { IsTrue result ↔ (a.now ≡ b.now) }
{
    if a.len() != b.len() {
        return false;
    }
    for (number, item) in a.iter().enumerate() {
        if !same_item(item, &b[number]) {
            return false;
        }
    }
    true
}

// Whether two facts are one.
fn same_fact(a: &Option<Fact>, b: &Option<Fact>) -> bool
    ensures { IsTrue result ↔ (a.now ≡ b.now) }
{
    *a == *b
}

/// Whether two states are one.
pub(crate) fn same_state(a: &State, b: &State) -> bool
    ensures { IsTrue result ↔ (a.now ≡ b.now) }
{
    same_registers(&a.regs, &b.regs)
        && same_items(a.items.as_slice(), b.items.as_slice())
        && a.written == b.written
        && a.made == b.made
        && same_fact(&a.fact, &b.fact)
}

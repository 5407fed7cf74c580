//! States that are made of two states, type by type.

use crate::type_joins::join_types;
use note_types::{CompactState, Item, State, Ty, fits_below};

// The item of two items whose type is the one that `f` gives of theirs; none where they differ in kind.
fn zipped_item<F: Fn(&Ty, &Ty) -> Ty>(x: &Item, y: &Item, f: &F) -> Option<Item>
    requires { F.IsAlwaysCallable f.now }
{
    match (*x, *y) {
        (
            Item::Slot { kind, ty },
            Item::Slot {
                kind: other,
                ty: second,
            },
        ) => {
            if kind == other {
                Some(Item::Slot {
                    kind,
                    ty: f(&ty, &second),
                })
            } else {
                None
            }
        }
        (Item::Locals, Item::Locals) => Some(Item::Locals),
        _ => None,
    }
}

/// The state of two states whose types are those that `f` gives of theirs. It has the fields that both have written, and no fact.
/// None where they clash: where their items differ in number or in kind, or not as many thunks are made.
pub(crate) fn zipped<F: Fn(&Ty, &Ty) -> Ty>(s: &State, t: &State, f: F) -> Option<State>
    requires { F.IsAlwaysCallable f }
{
    if s.made != t.made || s.items.len() != t.items.len() {
        return None;
    }
    let mut joined = s.copy();
    joined.fact = None;
    joined.written = s.written & t.written;
    joined.items.clear();
    for r in 0..8usize {
        joined.regs[r] = f(&s.regs[r], &t.regs[r]);
    }
    for (x, y) in s.items.as_slice().iter().zip(t.items.as_slice()) {
        let item = zipped_item(x, y, &f)?;
        if joined.items.len() < 65 {
            joined.items.push_below(item);
        }
    }
    Some(joined)
}

/// The join of two states; none where they clash.
pub(crate) fn join_states(s: &State, t: &State) -> Option<State> {
    zipped(s, t, |a: &Ty, b: &Ty| join_types(a, b))
}

/// Whether two states say the same.
pub(crate) fn is_same(s: &CompactState, t: &CompactState) -> bool {
    fits_below(&s.state(), t) && fits_below(&t.state(), s)
}

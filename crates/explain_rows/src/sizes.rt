//! What the items of the stack take.

use explain_base::Scene;
use note_types::{Item, Pair};
use rules_base::{locals_size, slot_size};

/// Two sizes together.
pub(crate) fn together(a: Pair, b: Pair) -> Pair {
    Pair {
        n: a.n.saturating_add(b.n),
        c: a.c.saturating_add(b.c),
    }
}

/// What an item takes.
pub(crate) fn item_size(scene: &Scene, item: &Item) -> Pair {
    match item {
        Item::Slot { kind, .. } => slot_size(*kind),
        Item::Locals => locals_size(scene.notes, scene.f),
    }
}

/// What all items take.
pub(crate) fn items_size(scene: &Scene) -> Pair {
    let mut sum = Pair { n: 0, c: 0 };
    for item in scene.state.items.as_slice() {
        sum = together(sum, item_size(scene, item));
    }
    sum
}

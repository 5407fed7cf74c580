//! The items of a point's stack, as their texts have them.
ghost use Rattle.std.specs.Prelude.{◌≡◌, ◌≤◌, length};

use note_texts::ItemText;
use std::marker::Model;

/// The items of the stack from the top, at most 65: 64 slots and the locals. Contracts see them as the list.
#[derive(Drop)]
pub struct StackText {
    items: Vec<ItemText>,
}

impl Model for StackText {
    ghost use Rattle.std.specs.Prelude.{List, ◌≤◌, length};
    ghost use Rattle.note_texts.specs.declared.slot.ItemText.{ItemText};

    ghost Value = { List ItemText };

    ghost view = { λ s. s.items.items };

    ghost invariant = { λ s. length s.items.items ≤ 65 };
}

impl StackText {
    /// The items of a `Vec` of at most 65.
    pub fn new(items: Vec<ItemText>) -> Self
        requires { length items.items ≤ 65 }
        ensures { result ≡ items.items }
    {
        StackText { items }
    }

    /// The items, the top first.
    pub fn as_slice(&self) -> &[ItemText]
        ensures items { result.now ≡ self.now }
        ensures fits { length self.now ≤ 65 }
    {
        self.items.as_slice()
    }
}

//! The arguments of a call.
ghost use Rattle.std.specs.Prelude.{◌≡◌, ◌<◌, ◌≤◌, ◌↔◌, [], ◌∷◌, ◌++◌, length, IsTrue};
ghost use Rattle.std.specs.Cmp.Lexicographic.{pointwise, lists_per};
ghost use Rattle.note_types.specs.contracts.seen.SeenPartialEq.TheImpl.{ghosts as seens};
ghost use Rattle.note_types.specs.contracts.seen.SeenPartialEq.TheImpl.Laws.{laws-law};

use crate::seen::Seen;
use arrayvec::ArrayVec;
use std::marker::Model;

/// The arguments of a call in their order, at most 16. Contracts see them as the list.
#[derive(Drop)]
pub struct Args {
    values: ArrayVec<Seen, 16>,
}

impl Model for Args {
    ghost use Rattle.std.specs.Prelude.{List};
    ghost use Rattle.note_types.specs.declared.seen.Seen.{Seen};

    ghost Value = { List Seen };

    ghost view = { λ a. a.values.items };
}

impl Args {
    /// No arguments.
    pub fn new() -> Self
        ensures { result ≡ [] }
    {
        Args {
            values: ArrayVec::new(),
        }
    }

    /// The arguments, the first one first.
    pub fn as_slice(&self) -> &[Seen]
        ensures values { result.now ≡ self.now }
        ensures fits { length self.now ≤ 16 }
    {
        self.values.as_slice()
    }

    /// How many arguments there are.
    pub fn len(&self) -> usize
        ensures count { result ≡ length self.now }
        ensures fits { length self.now ≤ 16 }
    {
        self.values.len()
    }

    /// Whether there is none.
    pub fn is_empty(&self) -> bool
        ensures { IsTrue result ↔ (self.now ≡ []) }
    {
        self.values.is_empty()
    }

    /// Adds an argument after the others.
    pub fn push(&mut self, value: Seen)
        requires { length self.old < 16 }
        ensures { self.new ≡ self.old ++ value ∷ [] }
    {
        self.values.push(value);
    }

    /// The same arguments once more.
    pub fn copy(&self) -> Self
        ensures { result ≡ self.now }
    {
        let mut values = ArrayVec::new();
        let _fits = values.try_extend_from_slice(self.values.as_slice());
        Args { values }
    }
}

impl PartialEq for Args {
    ghost eq = { λ a b. pointwise seens.eq a b };

    ghost laws = { lists_per laws-law };

    fn eq(&self, other: &Args) -> bool {
        self.values.as_slice() == other.values.as_slice()
    }
}

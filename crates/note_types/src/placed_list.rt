//! A list of things that begin at places of the image, in which the first at a place is found without going through all.
ghost use Rattle.std.specs.Prelude.{◌≡◌, ◌<◌, ◌↔◌, ℕ, [], length, pos, position, option_copied, IfOk, IfSome, IsTrue};
ghost use Rattle.std.specs.Ordering.{int_eq};
ghost use Rattle.note_types.specs.Places.{AreFirsts};

use std::alloc::{AllocError, Global};
use std::collections::BTreeMap;
use std::marker::Model;

/// A thing that begins at a place of the image.
pub trait Placed: Drop {
    /// The place of a thing.
    ghost place_of: { Self → ℕ };

    /// The place, an offset from the image's base in bytes.
    fn place(&self) -> u32
        ensures { result ≡ place_of self.now };
}

/// Things in their order, which need not be that of their places. Contracts see them as the list.
#[derive(Drop)]
pub struct PlacedList<T: Placed> {
    items: Vec<T>,
    // The number of the first thing at each place.
    firsts: BTreeMap<i128, usize>,
}

impl<T: Placed> Model for PlacedList<T> {
    ghost use Rattle.std.specs.Prelude.{List};
    ghost use Rattle.note_types.specs.Places.{AreFirsts};

    ghost Value = { List T };

    ghost view = { λ l. l.items.items };

    ghost invariant = { λ l. AreFirsts T.place_of l.items.items 0 l.firsts };
}

// The number of the first thing at each place.
#[tactic(auto, using(crate::proofs::PlaceLaws::no_firsts, crate::proofs::PlaceLaws::with_first))]
fn first_numbers<T: Placed>(
    alloc: Global,
    things: &[T],
) -> Result<BTreeMap<i128, usize>, AllocError>
    ensures { IfOk result (λ firsts. AreFirsts T.place_of things.now 0 firsts) }
{
    let mut firsts = BTreeMap::new(alloc);
    for number in (0..things.len()).rev() {
        firsts.insert(i128::from(things[number].place()), number)?;
    }
    Ok(firsts)
}

impl<T: Placed> PlacedList<T> {
    /// The things of a `Vec`.
    ///
    /// # Errors
    ///
    /// There was no memory.
    pub fn new(alloc: Global, items: Vec<T>) -> Result<Self, AllocError>
        ensures { IfOk result (λ list. list ≡ items.items) }
    {
        let firsts = first_numbers(alloc, items.as_slice())?;
        Ok(PlacedList { items, firsts })
    }

    /// The things.
    pub fn as_slice(&self) -> &[T]
        ensures { result.now ≡ self.now }
    {
        self.items.as_slice()
    }

    /// How many things there are.
    pub fn len(&self) -> usize
        ensures { result ≡ length self.now }
    {
        self.items.len()
    }

    /// Whether there is nothing.
    pub fn is_empty(&self) -> bool
        ensures { IsTrue result ↔ (self.now ≡ []) }
    {
        self.items.is_empty()
    }

    /// The number of the first thing at a place.
    pub fn first_at(&self, place: i128) -> Option<usize>
        ensures first { result ≡ position (λ x. int_eq (pos (T.place_of x)) place) self.now }
        ensures within { IfSome result (λ number. number < length self.now) }
    {
        self.firsts.get(&place).copied()
    }
}

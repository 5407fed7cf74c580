//! Places in ascending order.

ghost use Rattle.std.specs.Prelude.{IfOk, IsPermutation};
ghost use Rattle.std.specs.List.Sorted.{IsNonDecreasing};
ghost use Rattle.label_places.specs.Ends.{IsNext};

use std::alloc::AllocError;
use std::marker::Model;

/// Places in ascending order. Contracts see them as their list.
#[derive(Drop)]
pub struct Places {
    ascending: Vec<u64>,
}

impl Model for Places {
    ghost use Rattle.std.specs.Prelude.{ℕ, List};
    ghost use Rattle.std.specs.List.Sorted.{IsNonDecreasing};

    ghost Value = { List ℕ };

    ghost view = { λ p. p.ascending.items };

    ghost invariant = { λ p. IsNonDecreasing p.ascending.items };
}

// The least of ascending places above one, where it is less than a bound, and otherwise the bound.
fn next_above(ascending: &[u64], place: u64, bound: u64) -> u64
    requires { IsNonDecreasing ascending.now }
    ensures { IsNext place bound ascending.now result }
{
    let above = ascending.partition_point(|p| *p <= place);
    match ascending.get(above) {
        Some(next) => { if *next < bound { *next } else { bound } }
        None => bound,
    }
}

impl Places {
    /// These places, put in order.
    ///
    /// # Errors
    ///
    /// There was no memory.
    pub fn new(mut places: Vec<u64>) -> Result<Places, AllocError>
        ensures { IfOk result (λ ascending. IsPermutation places.items ascending) }
    {
        places.sort()?;
        Ok(Places { ascending: places })
    }

    /// The least of the places above one, where it is less than a bound, and otherwise the bound.
    pub fn next_above(&self, place: u64, bound: u64) -> u64
        ensures { IsNext place bound self.now result }
    {
        next_above(self.ascending.as_slice(), place, bound)
    }
}

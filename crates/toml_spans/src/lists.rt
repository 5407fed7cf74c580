//! The lists of tables that a path goes through.

use crate::path::{Step, behind_item};
use ebc_base::NoMemory;
use std::alloc::Global;

/// How many tables each list that a path goes through has so far, by how many steps of the path are left behind the list.
#[derive(Drop)]
pub(crate) struct Lists {
    counts: Vec<usize>,
}

impl Lists {
    /// None has a table yet. The path has so many steps.
    pub fn new(alloc: Global, steps: usize) -> Result<Lists, NoMemory> {
        Ok(Lists {
            counts: vec![in alloc; 0; steps]?,
        })
    }

    /// What is left of a path in the last table of the list there, or there itself if it is no list; none if the path goes on otherwise.
    pub fn in_last<'a>(&self, left: Option<&'a [Step]>) -> Option<&'a [Step]> {
        let left = left?;
        match self.counts.get(left.len()) {
            Some(count) if *count > 0 => behind_item(left, count.saturating_sub(1)),
            _ => Some(left),
        }
    }

    /// Adds a table to the list there. What is left of a path in it, or of one that ends at the list; none if the path goes on otherwise.
    pub fn add<'a>(&mut self, left: Option<&'a [Step]>) -> Option<&'a [Step]> {
        let left = left?;
        if left.is_empty() {
            return Some(left);
        }
        let count = self.counts.get_mut(left.len())?;
        let number = *count;
        *count = number.saturating_add(1);
        behind_item(left, number)
    }
}

//! The leaders that are to be looked at again.

use ebc_base::NoMemory;
use std::alloc::Global;

/// Which leaders, by their numbers, are to be looked at again. None of them is before number `from`.
#[derive(Drop)]
pub(crate) struct Due {
    is_due: Vec<bool>,
    from: usize,
}

impl Due {
    /// None of so many leaders.
    ///
    /// # Errors
    ///
    /// There is no memory for them.
    pub fn none(alloc: Global, count: usize) -> Result<Due, NoMemory> {
        Ok(Due {
            is_due: vec![in alloc; false; count]?,
            from: 0,
        })
    }

    /// Adds a leader.
    pub fn add(&mut self, number: usize) {
        if number < self.is_due.len() {
            self.is_due[number] = true;
            self.from = self.from.min(number);
        }
    }

    /// Takes the first leader.
    pub fn take_first(&mut self) -> Option<usize> {
        let rest = self.is_due.as_slice().get(self.from..)?;
        let first = self
            .from
            .checked_add(rest.iter().position(|is_due| *is_due)?)?;
        if first < self.is_due.len() {
            self.is_due[first] = false;
        }
        self.from = first;
        Some(first)
    }
}

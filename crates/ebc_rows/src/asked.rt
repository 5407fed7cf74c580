//! What a line of a row asks, with what was found of it and what is wanted.
use std::alloc::{AllocError, Global};

/// A line that asks, what was found, and what is wanted so far.
#[derive(Drop)]
pub struct Asked {
    line: String,
    found: String,
    wanted: String,
}

impl Asked {
    /// A line of which nothing is wanted yet.
    ///
    /// # Errors
    ///
    /// Want of memory.
    pub fn new(alloc: Global, line: &str, found: String) -> Result<Asked, AllocError> {
        let line = String::from_str(alloc, line)?;
        let wanted = String::new(alloc);
        Ok(Asked {
            line,
            found,
            wanted,
        })
    }

    /// Wants a line more.
    ///
    /// # Errors
    ///
    /// Want of memory.
    pub fn want(&mut self, line: &str) -> Result<(), AllocError> {
        self.wanted.push_str(line)?;
        self.wanted.push_str("\n")
    }

    /// Whether what was found is what is wanted.
    pub fn holds(&self) -> bool {
        self.found.as_str() == self.wanted.as_str()
    }

    /// What is printed of a line of a row that doesn't hold.
    ///
    /// # Errors
    ///
    /// Want of memory.
    pub fn told(&self, alloc: Global, row: &str) -> Result<String, AllocError> {
        let (line, wanted, found) = (
            self.line.as_str(),
            self.wanted.as_str(),
            self.found.as_str(),
        );
        format!(in alloc; "row {row}: {line}\nwanted\n{wanted}found\n{found}")
    }
}

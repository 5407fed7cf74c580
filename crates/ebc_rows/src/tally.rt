//! What of the rows holds: the line that asks, and how many answers of each kind held.
use crate::asked::Asked;
use std::alloc::{AllocError, Global};

/// The line that asks, if one does, the row that it is of, and how many answers of the row's kind held so far. The kind is the first part
/// of the row's name.
#[derive(Drop)]
pub struct Tally {
    // The usage line, for which the wanted line `usage` stands.
    usage: String,
    row: String,
    kind: String,
    held: u64,
    asked: Option<Asked>,
}

impl Tally {
    /// No row yet.
    pub fn new(alloc: Global) -> Tally {
        Tally {
            usage: String::new(alloc),
            row: String::new(alloc),
            kind: String::new(alloc),
            held: 0,
            asked: None,
        }
    }

    /// Takes a line as the usage line.
    ///
    /// # Errors
    ///
    /// Want of memory.
    pub fn put_usage(&mut self, alloc: Global, line: &str) -> Result<(), AllocError> {
        self.usage = String::from_str(alloc, line)?;
        Ok(())
    }

    /// Begins a row. The answer is what is printed of the kind before, where the row is of another.
    ///
    /// # Errors
    ///
    /// Want of memory.
    pub fn begin(&mut self, alloc: Global, name: &str) -> Result<String, AllocError> {
        self.row = String::from_str(alloc, name)?;
        let (kind, _) = name.split_once('/').unwrap_or((name, ""));
        if self.kind.as_str() == kind {
            return Ok(String::new(alloc));
        }
        let count = self.count(alloc)?;
        self.kind = String::from_str(alloc, kind)?;
        self.held = 0;
        Ok(count)
    }

    /// Takes a line that asks, with what was found.
    ///
    /// # Errors
    ///
    /// Want of memory.
    pub fn ask(&mut self, alloc: Global, line: &str, found: String) -> Result<(), AllocError> {
        self.asked = Some(Asked::new(alloc, line, found)?);
        Ok(())
    }

    /// Wants a line of what is asked. The answer is whether something is.
    ///
    /// # Errors
    ///
    /// Want of memory.
    pub fn want(&mut self, line: &str) -> Result<bool, AllocError> {
        let Some(asked) = &mut self.asked else {
            return Ok(false);
        };
        match line {
            "usage" => asked.want(self.usage.as_str())?,
            _ => asked.want(line)?,
        }
        Ok(true)
    }

    /// What is printed of the line that asks, which is nothing where it holds.
    ///
    /// # Errors
    ///
    /// Want of memory.
    pub fn settle(&mut self, alloc: Global) -> Result<String, AllocError> {
        let Some(asked) = self.asked.take() else {
            return Ok(String::new(alloc));
        };
        if !asked.holds() {
            return asked.told(alloc, self.row.as_str());
        }
        self.held = self.held.saturating_add(1);
        Ok(String::new(alloc))
    }

    /// How many answers of the kind held, once there is one.
    ///
    /// # Errors
    ///
    /// Want of memory.
    pub fn count(&self, alloc: Global) -> Result<String, AllocError> {
        if self.kind.is_empty() {
            return Ok(String::new(alloc));
        }
        format!(in alloc; "{}: {} answers\n", self.kind.as_str(), self.held)
    }
}

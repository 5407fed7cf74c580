//! What comes of rows: what was wanted and what was found of one, and how many of each kind held.
use std::alloc::{AllocError, Global};

/// What was wanted of a row, and what was found.
#[derive(Drop)]
pub struct Tried {
    pub wanted: String,
    pub found: String,
}

impl Tried {
    /// Whether the row holds.
    pub fn holds(&self) -> bool {
        self.wanted.as_str() == self.found.as_str()
    }

    /// What is printed of a row that doesn't hold: its table and its line, and both.
    ///
    /// # Errors
    ///
    /// Want of memory.
    pub fn told(&self, alloc: Global, table: &str, line: &str) -> Result<String, AllocError> {
        let (wanted, found) = (self.wanted.as_str(), self.found.as_str());
        format!(in alloc; "{table}: {line}\nwanted {wanted}\nfound {found}\n")
    }
}

/// The kinds of rows.
#[derive(Clone, Copy)]
pub enum Kind {
    /// Of an instruction.
    Rules,
    /// Of the keys of a table.
    Keys,
    /// Of notes.
    Notes,
    /// Of a script.
    Scripts,
    /// Of binds.
    Binds,
}

/// How many rows of each kind held.
#[derive(Clone, Copy)]
pub struct Held {
    rules: u64,
    keys: u64,
    notes: u64,
    scripts: u64,
    binds: u64,
}

impl Held {
    /// None yet.
    pub fn new() -> Held {
        Held {
            rules: 0,
            keys: 0,
            notes: 0,
            scripts: 0,
            binds: 0,
        }
    }

    /// Counts a row.
    pub fn count(&mut self, kind: Kind) {
        let rows = match kind {
            Kind::Rules => &mut self.rules,
            Kind::Keys => &mut self.keys,
            Kind::Notes => &mut self.notes,
            Kind::Scripts => &mut self.scripts,
            Kind::Binds => &mut self.binds,
        };
        *rows = rows.saturating_add(1);
    }

    /// A line a kind.
    ///
    /// # Errors
    ///
    /// Want of memory.
    pub fn told(self, alloc: Global) -> Result<String, AllocError> {
        let Held {
            rules,
            keys,
            notes,
            scripts,
            binds,
        } = self;
        format!(in alloc;
            "rules: {rules} rows\nkeys: {keys} rows\nnotes: {notes} rows\nscripts: {scripts} rows\nbinds: {binds} rows\n"
        )
    }
}

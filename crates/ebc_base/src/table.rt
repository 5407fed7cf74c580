//! Names and their numbers.
ghost use Rattle.std.specs.Prelude.{◌≡◌, ◌≤◌, ◌<◌, ◌-◌, ◌^◌, [], length, not, IfOk, OnOk, OnErr};
ghost use Rattle.ebc_base.specs.Tables.{is_named, name_number, with_name};

use crate::name::Name;
use crate::sequence::Sequence;
use indexmap::IndexSet;
use std::alloc::{AllocError, Global};
use std::marker::Model;

/// Names in the order in which they were added, each once; the number of a name is its place among them. There are
/// fewer than 2^32. Contracts see it as the list of the names.
#[derive(Drop)]
pub struct NameTable {
    names: IndexSet<String>,
}

impl Model for NameTable {
    ghost use Rattle.std.specs.Prelude.{ℕ, List, ◌<◌, ◌^◌, length, map, string_bytes};

    ghost Value = { List (List ℕ) };

    ghost view = { λ t. map string_bytes t.names.keys };

    ghost invariant = { λ t. length t.names.keys < 2 ^ 32 };
}

impl NameTable {
    /// No names.
    pub fn new(alloc: Global) -> Self
        ensures { result ≡ [] }
    {
        NameTable {
            names: IndexSet::new(alloc),
        }
    }

    /// Adds a name at the end unless it is there, and tells whether it was new. The table has room for it.
    ///
    /// # Errors
    ///
    /// There was no memory, and the table is unchanged.
    pub fn add(&mut self, alloc: Global, name: &Name) -> Result<bool, AllocError>
        requires { length self.old < 2 ^ 32 - 1 }
        ensures new { IfOk result (λ new. new ≡ not (is_named name.now self.old)) }
        ensures ok { OnOk result (self.new ≡ with_name name.now self.old) }
        ensures err { OnErr result (self.new ≡ self.old) }
    {
        let copy = String::from_str(alloc, name.as_str())?;
        let new = self.names.insert(copy)?;
        Ok(new)
    }

    /// The number of a name, or the number of names where it isn't there.
    pub fn number(&self, name: &Name) -> u32
        ensures number { result ≡ name_number name.now self.now }
        ensures within { result ≤ length self.now }
    {
        match self.names.get_index_of(name.as_str()) {
            Some(number) => number as u32,
            None => self.names.len() as u32,
        }
    }

    /// Whether a name is there.
    pub fn has(&self, name: &Name) -> bool
        ensures { result ≡ is_named name.now self.now }
    {
        self.names.contains(name.as_str())
    }

    /// How many names there are, fewer than 2^32.
    pub fn len(&self) -> usize
        ensures len { result ≡ length self.now }
        ensures within { result < 2 ^ 32 }
    {
        self.names.len()
    }

    /// The names, handed out in their order.
    ///
    /// # Errors
    ///
    /// There was no memory.
    pub fn into_names(self, alloc: Global) -> Result<Sequence<Name>, AllocError>
        ensures { IfOk result (λ names. names ≡ self) }
    {
        let mut names = Vec::new(alloc);
        for text in self.names {
            names.push(Name::new(text))?;
        }
        Ok(Sequence::new(names))
    }
}

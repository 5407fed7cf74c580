//! What stands at the keys of a table.
ghost use Rattle.std.specs.Prelude.{◌≡◌, ◌+◌, ◌++◌, ◌≤◌, IfOk, length, map, bytes_eq};
ghost use Rattle.std.specs.List.{list_any};
ghost use Rattle.toml.specs.View.{view, table_view, items_view};
ghost use Rattle.note_texts.specs.Outcome.{Gives, GivesBy};
ghost use Rattle.note_texts.specs.KeyTexts.{key_text};
ghost use Rattle.note_texts.specs.Keys.{field, number_at, text_at, optional_text_at, flag_at, pair_at, only_keys};
ghost use Rattle.note_texts.specs.Lists.{array_at, list_at, texts_at, texts_beside_at, tables_at, count_beside};

use crate::from_table::FromTable;
use crate::from_text::FromText;
use crate::items::{has_text, rows_of, texts_of};
use crate::key_text::key_text;
use crate::value::{text_of, value_at, whole_number};
use note_types::{Name, NotesEnd, Pair, TomlFault};
use std::alloc::{AllocError, Global};
use toml::{Table, Value};

/// A table of a TOML text and the path before its keys: empty for the whole text, `function[2].` for an item of a list.
/// The path of a key is this path and the key.
#[derive(Clone, Copy)]
pub struct Row<'a> {
    pub prefix: &'a str,
    pub table: &'a Table,
}

impl<'a> Row<'a> {
    /// The path of a key.
    ///
    /// # Errors
    ///
    /// There was no memory.
    pub fn path(self, alloc: Global, key: &str) -> Result<Name, AllocError>
        ensures { IfOk result (λ n. n ≡ self.entry.prefix.now ++ key.now) }
    {
        let prefix = self.prefix;
        Ok(Name::new(format!(in alloc; "{prefix}{key}")?))
    }

    // The path of a key that may have any characters.
    fn told_path(self, alloc: Global, key: &str) -> Result<Name, AllocError>
        ensures { IfOk result (λ n. n ≡ self.entry.prefix.now ++ key_text key.now) }
    {
        let told = key_text(alloc, key)?;
        self.path(alloc, told.as_str())
    }

    fn field(self, alloc: Global, key: &str) -> Result<&'a Value, NotesEnd>
        ensures { GivesBy (λ v. view v.now) result (field self.entry.prefix.now key.now (table_view self.entry.table.now)) }
    {
        match value_at(self.table, key) {
            Some(value) => Ok(value),
            None => Err(NotesEnd::Fault(TomlFault::Missing(self.path(alloc, key)?))),
        }
    }

    /// The whole number from `low` to `high` at a key.
    ///
    /// # Errors
    ///
    /// `TomlFault::Missing`; `TomlFault::Kind` where no whole number is there; `TomlFault::Range` where another one is;
    /// no memory.
    #[tactic(auto, unfolding(crate::specs::Keys::number_at))]
    pub fn number(self, alloc: Global, key: &str, low: u64, high: u64) -> Result<u64, NotesEnd>
        ensures number { Gives result (number_at self.entry.prefix.now key.now low high (table_view self.entry.table.now)) }
        ensures within { IfOk result (λ n. (low ≤ n) × (n ≤ high)) }
    {
        let value = self.field(alloc, key)?;
        whole_number(alloc, self, key, low, high, value)
    }

    /// What the text at a key stands for.
    ///
    /// # Errors
    ///
    /// `TomlFault::Missing`; `TomlFault::Kind` where no text is there; `TomlFault::Range` where it is not of the form of
    /// `T`; no memory.
    #[tactic(auto, unfolding(crate::specs::Keys::text_at))]
    pub fn text<T: FromText>(self, alloc: Global, key: &str) -> Result<T, NotesEnd>
        ensures { Gives result (text_at T.reads_as self.entry.prefix.now key.now (table_view self.entry.table.now)) }
    {
        let value = self.field(alloc, key)?;
        text_of::<T>(alloc, self, key, value)
    }

    /// What the text at a key stands for; `None` where the key isn't there.
    ///
    /// # Errors
    ///
    /// `TomlFault::Kind` where no text is there; `TomlFault::Range` where it is not of the form of `T`; no memory.
    #[tactic(auto, unfolding(crate::specs::Keys::optional_text_at))]
    pub fn optional_text<T: FromText>(self, alloc: Global, key: &str) -> Result<Option<T>, NotesEnd>
        ensures { Gives result (optional_text_at T.reads_as self.entry.prefix.now key.now (table_view self.entry.table.now)) }
    {
        let Some(value) = value_at(self.table, key) else {
            return Ok(None);
        };
        Ok(Some(text_of::<T>(alloc, self, key, value)?))
    }

    /// The flag at a key; `false` where the key isn't there.
    ///
    /// # Errors
    ///
    /// `TomlFault::Kind` where something else is there; no memory.
    #[tactic(auto, unfolding(crate::specs::Keys::flag_at))]
    pub fn flag(self, alloc: Global, key: &str) -> Result<bool, NotesEnd>
        ensures { Gives result (flag_at self.entry.prefix.now key.now (table_view self.entry.table.now)) }
    {
        let Some(value) = value_at(self.table, key) else {
            return Ok(false);
        };
        match value.as_bool() {
            Some(flag) => Ok(flag),
            None => Err(NotesEnd::Fault(TomlFault::Kind(self.path(alloc, key)?))),
        }
    }

    /// The pair of natural units and bytes at a key: an array of two numbers from 0 to `high`.
    ///
    /// # Errors
    ///
    /// `TomlFault::Missing`; `TomlFault::Kind` where no array is there; `TomlFault::Range` where it hasn't two items;
    /// then of the first item that is no such number, `TomlFault::Kind` or `TomlFault::Range`; no memory.
    #[tactic(auto, unfolding(crate::specs::Keys::pair_at))]
    pub fn pair(self, alloc: Global, key: &str, high: u64) -> Result<Pair, NotesEnd>
        ensures pair { Gives result (pair_at self.entry.prefix.now key.now high (table_view self.entry.table.now)) }
        ensures within { IfOk result (λ p. (p.n ≤ high) × (p.c ≤ high)) }
    {
        let array = self.field(alloc, key)?;
        let Some(values) = array.as_array() else {
            return Err(NotesEnd::Fault(TomlFault::Kind(self.path(alloc, key)?)));
        };
        let [n, c] = values.as_slice() else {
            return Err(NotesEnd::Fault(TomlFault::Range(self.path(alloc, key)?)));
        };
        let n = whole_number(alloc, self, key, 0, high, n)?;
        let c = whole_number(alloc, self, key, 0, high, c)?;
        Ok(Pair { n, c })
    }

    /// The items of the list at a key, which may be left out and has then none.
    ///
    /// # Errors
    ///
    /// `TomlFault::Kind` where something else is there; no memory.
    #[tactic(auto, unfolding(crate::specs::Lists::array_at))]
    pub fn array(self, alloc: Global, key: &str) -> Result<&'a [Value], NotesEnd>
        ensures { GivesBy (λ v. items_view v.now) result (array_at self.entry.prefix.now key.now (table_view self.entry.table.now)) }
    {
        let Some(value) = value_at(self.table, key) else {
            return Ok(&[]);
        };
        match value.as_array() {
            Some(values) => Ok(values.as_slice()),
            None => Err(NotesEnd::Fault(TomlFault::Kind(self.path(alloc, key)?))),
        }
    }

    /// The items of the list at a key, at most `limit` of them. The list may be left out, and has then none.
    ///
    /// # Errors
    ///
    /// `TomlFault::Kind` where something else is there; `TomlFault::Range` where there are more; no memory.
    #[tactic(auto, using(crate::proofs::Counts::count_view), unfolding(crate::specs::Lists::list_at))]
    pub fn list(self, alloc: Global, key: &str, limit: usize) -> Result<&'a [Value], NotesEnd>
        ensures items { GivesBy (λ v. items_view v.now) result
            (list_at self.entry.prefix.now key.now limit (table_view self.entry.table.now)) }
        ensures within { IfOk result (λ v. length v.now ≤ limit) }
    {
        let values = self.array(alloc, key)?;
        if values.len() > limit {
            return Err(NotesEnd::Fault(TomlFault::Range(self.path(alloc, key)?)));
        }
        Ok(values)
    }

    /// What the texts of the list at a key stand for, at most `limit` of them. The list may be left out.
    ///
    /// # Errors
    ///
    /// With the list's path: `TomlFault::Kind` where something else is there; `TomlFault::Range` where there are more;
    /// then of the first item that is no text of the form of `T`, `TomlFault::Kind` or `TomlFault::Range`; no memory.
    #[tactic(auto, unfolding(crate::specs::Lists::texts_at))]
    pub fn texts<T: FromText>(
        self,
        alloc: Global,
        key: &str,
        limit: usize,
    ) -> Result<Vec<T>, NotesEnd>
        ensures texts { GivesBy (λ v. v.items) result
            (texts_at T.reads_as self.entry.prefix.now key.now limit (table_view self.entry.table.now)) }
        ensures within { IfOk result (λ v. length v.items ≤ limit) }
    {
        let values = self.list(alloc, key, limit)?;
        texts_of::<T>(alloc, self, key, values)
    }

    /// What the texts of the list at a key stand for, at most `limit` of them beside one that is the very text `beside`.
    /// The list may be left out.
    ///
    /// # Errors
    ///
    /// As for `texts`.
    #[tactic(auto, unfolding(crate::specs::Lists::texts_beside_at))]
    pub fn texts_beside<T: FromText>(
        self,
        alloc: Global,
        key: &str,
        limit: usize,
        beside: &str,
    ) -> Result<Vec<T>, NotesEnd>
        ensures texts { GivesBy (λ v. v.items) result
            (texts_beside_at T.reads_as self.entry.prefix.now key.now limit beside.now (table_view self.entry.table.now)) }
        ensures within { IfOk result (λ v. length v.items ≤ limit + 1) }
    {
        let values = self.array(alloc, key)?;
        if count_beside(values, beside) > limit {
            return Err(NotesEnd::Fault(TomlFault::Range(self.path(alloc, key)?)));
        }
        texts_of::<T>(alloc, self, key, values)
    }

    /// What the tables of the list at a key stand for, at most `limit` of them. The list may be left out.
    ///
    /// # Errors
    ///
    /// `TomlFault::Kind` where something else is there and `TomlFault::Range` where there are more, with the list's path;
    /// then of the first item that is no table, `TomlFault::Kind` with the item's path, or the first fault in it; no memory.
    #[tactic(auto, unfolding(crate::specs::Lists::tables_at))]
    pub fn tables<T: FromTable>(
        self,
        alloc: Global,
        key: &str,
        limit: usize,
    ) -> Result<Vec<T>, NotesEnd>
        ensures tables { GivesBy (λ v. v.items) result
            (tables_at T.reads_as self.entry.prefix.now key.now limit (table_view self.entry.table.now)) }
        ensures within { IfOk result (λ v. length v.items ≤ limit) }
    {
        let values = self.list(alloc, key, limit)?;
        let path = self.path(alloc, key)?;
        rows_of::<T>(alloc, path.as_str(), values)
    }

    /// Nothing where each key is one of those `known`.
    ///
    /// # Errors
    ///
    /// `TomlFault::Kind` of the first key, in the order of their bytes, that isn't; no memory.
    pub fn only_keys(self, alloc: Global, known: &[&str]) -> Result<(), NotesEnd>
        ensures { Gives result (only_keys self.entry.prefix.now (map (λ k. k.now) known.now) (table_view self.entry.table.now)) }
    {
        for (key, _) in self.table {
            if !is_known(key.as_str(), known) {
                return Err(NotesEnd::Fault(TomlFault::Kind(self.told_path(alloc, key.as_str())?)));
            }
        }
        Ok(())
    }
}

fn is_known(key: &str, known: &[&str]) -> bool
    ensures { result ≡ list_any (λ k. bytes_eq key.now k.now) known.now }
{
    known.iter().any(|k| key == *k)
}

#[tactic(auto, using(crate::proofs::Counts::count_view, crate::proofs::Counts::has_text_view))]
fn count_beside(values: &[Value], beside: &str) -> usize
    ensures { result ≡ count_beside beside.now (items_view values.now) }
{
    if has_text(values, beside) {
        values.len().saturating_sub(1)
    } else {
        values.len()
    }
}

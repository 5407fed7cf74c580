//! What a table stands for.
ghost use Rattle.std.specs.Prelude.{List, ℕ, Result};
ghost use Rattle.toml.specs.Data.{Members};
ghost use Rattle.toml.specs.View.{table_view};
ghost use Rattle.note_types.specs.declared.fault.TomlFault.{TomlFault};
ghost use Rattle.note_texts.specs.Outcome.{Gives};

use crate::row::Row;
use note_types::NotesEnd;
use std::alloc::Global;

/// What stands in a table of its own form, as an item of a list of tables.
pub trait FromTable: Sized + Drop {
    /// What a table stands for, by the path before its keys, or the first fault in it.
    ghost reads_as: { List ℕ → Members → Result Self TomlFault };

    /// What the table stands for.
    ///
    /// # Errors
    ///
    /// The first fault in the table; no memory.
    fn from_table(alloc: Global, row: Row) -> Result<Self, NotesEnd>
        ensures { Gives result (reads_as row.entry.prefix.now (table_view row.entry.table.now)) };
}

//! The first pass over binds: the draft that a TOML table stands for, by its keys and those of the tables of its list.
ghost use Rattle.bind_texts.specs.BindTexts.{bind_row, draft_of};
ghost use Rattle.note_texts.specs.Outcome.{Gives};
ghost use Rattle.toml.specs.View.{table_view};

use note_texts::{FromTable, Row};
use note_types::{Name, NotesEnd, Sequence};
use std::alloc::Global;
use toml::Table;

/// Binds of a text.
const MAX_BINDS: usize = 4_294_967_295;

/// A bind as its text has it: the names of a method of image A and of a function of image B.
#[derive(Drop)]
pub struct BindDraft {
    pub method: Name,
    pub function: Name,
}

impl FromTable for BindDraft {
    ghost reads_as = { bind_row };

    #[tactic(auto, unfolding(crate::specs::BindTexts::bind_row))]
    fn from_table(alloc: Global, row: Row) -> Result<Self, NotesEnd> {
        let method = row.text::<Name>(alloc, "method")?;
        let function = row.text::<Name>(alloc, "function")?;
        row.only_keys(alloc, &["method", "function"])?;
        Ok(BindDraft { method, function })
    }
}

/// The draft that a table stands for, the whole text.
///
/// # Errors
///
/// `TomlFault::Missing`, `Kind` or `Range` of the first key that is at fault; no memory.
#[tactic(auto, unfolding(crate::specs::BindTexts::draft_of))]
pub fn read_draft(alloc: Global, table: &Table) -> Result<Sequence<BindDraft>, NotesEnd>
    ensures { Gives result (draft_of (table_view table.now)) }
{
    let row = Row { prefix: "", table };
    row.number(alloc, "version", 1, 1)?;
    let binds = row.tables::<BindDraft>(alloc, "bind", MAX_BINDS)?;
    row.only_keys(alloc, &["version", "bind"])?;
    Ok(Sequence::new(binds))
}

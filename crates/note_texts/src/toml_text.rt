//! The table that a text is.
ghost use Rattle.std.specs.Prelude.{◌≡◌};
ghost use Rattle.toml.specs.View.{table_view};
ghost use Rattle.note_texts.specs.Outcome.{GivesBy};
ghost use Rattle.note_texts.specs.Keys.{document};

use note_types::{NotesEnd, TomlFault};
use std::alloc::Global;
use toml::Table;

/// The table that a text is: a document of TOML.
///
/// # Errors
///
/// `TomlFault::NotToml` where the bytes aren't UTF-8, or aren't a document of TOML; no memory.
#[tactic(auto, unfolding(crate::specs::Keys::document))]
pub fn document(alloc: Global, text: &[u8]) -> Result<Table, NotesEnd>
    ensures { GivesBy (λ t. table_view t) result (document text.now) }
{
    let text = match std::str::from_utf8(text) {
        Ok(text) => text,
        Err(_) => return Err(NotesEnd::Fault(TomlFault::NotToml)),
    };
    match toml::table_from_str(alloc, text) {
        Ok(table) => Ok(table),
        Err(e) if e.is_memory() => Err(NotesEnd::NoMemory),
        Err(_) => Err(NotesEnd::Fault(TomlFault::NotToml)),
    }
}

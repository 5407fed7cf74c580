//! Reads binds, a TOML text that says which function of image B answers the calls of which method of image A, as the
//! binds that the text stands for under the notes of both, or tells its first fault with the key where it stands.
//! docs/PAIRS.md, "Binds", says how they are written.
//!
//! Promises:
//!
//! - `read_binds`: `binds` says that it returns what `binds_of` says of the text under the notes of both images, the
//!   binds or the first fault with its path. `agree` says of binds that were read that each agrees with the notes
//!   (`AllAgree` of `pair_model`). It asks nothing of the notes.
//! - Where memory runs out it says so, and its clauses say nothing more.
//!
//! It looks methods up by a hash where it seeks one that is bound again, and names in the lists of the notes: those of
//! notes that were read have at most 1,024 methods and 4,096 functions. Each bind is tried with all signatures of A.
#![tactic(auto)]

ghost use Rattle.bind_texts.specs.BindTexts.{binds_in, binds_of};
ghost use Rattle.note_texts.specs.Outcome.{Gives};
ghost use Rattle.pair_model.specs.Binds.{AllAgree};
ghost use Rattle.std.specs.Prelude.{IfOk};

mod agreeing;
mod draft;
mod once;
mod resolve;

use crate::agreeing::all_agree;
use crate::draft::{BindDraft, read_draft};
use crate::once::methods_once;
use crate::resolve::resolve_binds;
use note_texts::document;
use note_types::{Notes, NotesEnd};
use pair_model::Binds;
use std::alloc::Global;

// The binds that a draft stands for under the notes of both images.
#[tactic(auto, unfolding(crate::specs::BindTexts::binds_in))]
fn binds_in(alloc: Global, draft: &[BindDraft], a: &Notes, b: &Notes) -> Result<Binds, NotesEnd>
    ensures binds { Gives result (binds_in a.now b.now draft.now) }
    ensures agree { IfOk result (AllAgree a.now b.now) }
{
    methods_once(alloc, draft)?;
    let binds = resolve_binds(alloc, draft, a, b)?;
    all_agree(alloc, binds.as_slice(), a, b)?;
    Ok(binds)
}

/// The binds that a text stands for under the notes of image A, whose methods it names, and of image B, whose functions.
///
/// # Errors
///
/// The first fault, with the path of the key where it stands, as docs/PAIRS.md, "Binds", lists them: `TomlFault::NotToml`; then
/// `Missing`, `Kind` and `Range` key by key; then `Twice` where a method is bound again; then `Name`; then `Range` where a bind
/// doesn't agree with the notes. Or there was no memory.
#[tactic(auto, unfolding(crate::specs::BindTexts::binds_of))]
pub fn read_binds(alloc: Global, text: &[u8], a: &Notes, b: &Notes) -> Result<Binds, NotesEnd>
    ensures binds { Gives result (binds_of a.now b.now text.now) }
    ensures agree { IfOk result (AllAgree a.now b.now) }
{
    let table = document(alloc, text)?;
    let draft = read_draft(alloc, &table)?;
    binds_in(alloc, draft.as_slice(), a, b)
}

//! Reads scripts, a TOML text that says what the firmware holds and does in a run, as the record that the text stands
//! for under a program's notes, or tells its first fault with the key where it stands. docs/SCRIPTS.md says how scripts
//! are written.
//!
//! Promises:
//!
//! - `read_script`: `script` says that it returns what `script_of` says of the text under the notes, the record or the
//!   first fault with its path. `meets` says of a script that was read that it is an `IsScript` of `host_model`: its
//!   values are such as texts may have, all that it names is there, each argument, cell, object, call and notification
//!   meets the conditions by itself, and the limits hold. It asks nothing of the notes.
//! - `function_number`, `method_number`: the number of the function and of the method of a name, as the definitions of
//!   the same names say.
//! - `printed_texts_are_read`: what reports print of a value (`value_text` of `script_draft`) that scripts can write
//!   (`IsWritten`) is read as that value (`values`), and so it is with arguments (`arguments`), under notes as
//!   `IsNotes` says whose functions and methods have names of their own (`HasNames`).
//! - `read_names_are_given`: the functions and the methods of notes that a text stands for (`notes_of` of `type_notes`)
//!   have names that texts can have, each a name of its own (`HasNames`). `read_notes_print_and_read`: so under notes
//!   that were read, of whatever text, printed values and arguments are read again (`values`, `arguments`); nothing
//!   else is asked of the notes.
//! - Where memory runs out it says so, and its clause says nothing more.
#![tactic(auto)]

ghost use Rattle.note_texts.specs.Outcome.{Gives};
ghost use Rattle.std.specs.Prelude.{IfOk};
ghost use Rattle.host_model.specs.Scripts.{IsScript};
ghost use Rattle.protocol_script.specs.Scripts.{script_in, script_of};

mod conditions;
mod contents;
mod laws;
mod limits;
mod numbers;
mod objects;
mod resolve;
mod shapes;
mod tables;

use crate::conditions::meet_conditions;
use crate::resolve::resolve_script;
pub use laws::{printed_texts_are_read, read_names_are_given, read_notes_print_and_read};
use note_texts::document;
use note_types::{Notes, NotesEnd, Script};
pub use numbers::{function_number, method_number};
use script_draft::{ScriptDraft, cells_once, read_draft};
use std::alloc::Global;

// The script that a draft stands for under the notes of its program.
#[tactic(auto, unfolding(crate::specs::Scripts::script_in))]
fn script_in(alloc: Global, notes: &Notes, draft: &ScriptDraft) -> Result<Script, NotesEnd>
    ensures { Gives result (script_in notes.now draft.now) }
{
    let script = resolve_script(alloc, notes, draft)?;
    meet_conditions(alloc, notes, &script)?;
    Ok(script)
}

/// The script that a text stands for under the notes of its program.
///
/// # Errors
///
/// The first fault, with the path of the key where it stands, as docs/SCRIPTS.md lists them: `TomlFault::NotToml`; then
/// `Missing`, `Kind` and `Range` key by key; then `Twice`; then `Name`; then `Range` for a condition that isn't met. Or
/// there was no memory.
#[tactic(auto, unfolding(crate::specs::Scripts::script_of))]
pub fn read_script(alloc: Global, text: &[u8], notes: &Notes) -> Result<Script, NotesEnd>
    ensures script { Gives result (script_of notes.now text.now) }
    ensures meets { IfOk result (IsScript notes.now) }
{
    let table = document(alloc, text)?;
    let draft = read_draft(alloc, &table)?;
    cells_once(alloc, &draft)?;
    script_in(alloc, notes, &draft)
}

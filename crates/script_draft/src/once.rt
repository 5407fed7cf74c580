//! The second pass over scripts: whether each cell stands once in its table.
ghost use Rattle.std.specs.Prelude.{◌≡◌, IfOk, codes};
ghost use Rattle.note_texts.specs.Outcome.{Gives};
ghost use Rattle.script_draft.specs.Lists.{all_pass};
ghost use Rattle.script_draft.specs.Once.{call_once, object_once, objects_once, once, repeats_cell};

use crate::draft::{CallDraft, ObjectDraft, ScriptDraft};
use indexmap::IndexSet;
use note_texts::row_prefix;
use note_types::{Name, NotesEnd, TomlFault};
use std::alloc::{AllocError, Global};

fn repeats_cell(alloc: Global, object: &ObjectDraft) -> Result<bool, AllocError>
    ensures { IfOk result (λ repeats. repeats ≡ repeats_cell object.now) }
{
    let cells = object.cells.as_slice();
    let mut seen = IndexSet::new(alloc);
    for (number, cell) in cells.iter().enumerate() {
        if !seen.insert((cell.instance, cell.field.as_str()))? {
            return Ok(true);
        }
    }
    Ok(false)
}

fn object_once(
    alloc: Global,
    path: &str,
    index: usize,
    object: &ObjectDraft,
) -> Result<(), NotesEnd>
    ensures { Gives result (object_once path.now index object.now) }
{
    if repeats_cell(alloc, object)? {
        let prefix = row_prefix(alloc, path, index)?;
        let key = format!(in alloc; "{prefix}cells")?;
        return Err(NotesEnd::Fault(TomlFault::Twice(Name::new(key))));
    }
    Ok(())
}

fn objects_once(alloc: Global, path: &str, objects: &[ObjectDraft]) -> Result<(), NotesEnd>
    ensures { Gives result (objects_once path.now objects.now) }
{
    for i in 0..objects.len() {
        object_once(alloc, path, i, &objects[i])?;
    }
    Ok(())
}

fn call_once(alloc: Global, index: usize, call: &CallDraft) -> Result<(), NotesEnd>
    ensures { Gives result (call_once index call.now) }
{
    let prefix = row_prefix(alloc, "call", index)?;
    let path = format!(in alloc; "{prefix}make")?;
    objects_once(alloc, path.as_str(), call.make.as_slice())
}

fn calls_once(alloc: Global, calls: &[CallDraft]) -> Result<(), NotesEnd>
    ensures { Gives result (all_pass call_once 0 calls.now) }
{
    for i in 0..calls.len() {
        call_once(alloc, i, &calls[i])?;
    }
    Ok(())
}

/// Nothing where no table of a script gives a cell twice.
///
/// # Errors
///
/// `TomlFault::Twice` with the path of the `cells` of the first that does; no memory.
#[tactic(auto, unfolding(crate::specs::Once::once))]
pub fn cells_once(alloc: Global, draft: &ScriptDraft) -> Result<(), NotesEnd>
    ensures { Gives result (once draft.now) }
{
    objects_once(alloc, "object", draft.object.as_slice())?;
    calls_once(alloc, draft.call.as_slice())
}

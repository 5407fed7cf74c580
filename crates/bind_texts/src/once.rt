//! The second pass over binds: whether each is of another method than those before it.
ghost use Rattle.bind_texts.specs.BindTexts.{bound_once, methods_before};
ghost use Rattle.ebc_base.specs.Tables.{is_named};
ghost use Rattle.note_texts.specs.Keys.{row_prefix};
ghost use Rattle.note_texts.specs.Outcome.{Gives};
ghost use Rattle.note_types.specs.declared.fault.NotesEnd.TheVariants.{Fault};
ghost use Rattle.note_types.specs.declared.fault.TomlFault.TheVariants.{Twice};
ghost use Rattle.script_draft.specs.Lists.{all_pass};
ghost use Rattle.std.specs.Prelude.{◌≡◌, ◌++◌, IfOk, codes, not};

use crate::draft::BindDraft;
use indexmap::IndexSet;
use note_texts::row_prefix;
use note_types::{Name, NotesEnd, TomlFault};
use std::alloc::{AllocError, Global};

// The fault of a bind whose method one before it has.
fn again(alloc: Global, index: usize) -> Result<NotesEnd, AllocError>
    ensures { IfOk result (λ end. end ≡ Fault (Twice (row_prefix (codes "bind") index ++ codes "method"))) }
{
    let prefix = row_prefix(alloc, "bind", index)?;
    let key = format!(in alloc; "{prefix}method")?;
    Ok(NotesEnd::Fault(TomlFault::Twice(Name::new(key))))
}

/// Nothing where no method is bound again.
///
/// # Errors
///
/// `TomlFault::Twice` with the path of the `method` of the first bind whose method one before it has; no memory.
pub fn methods_once(alloc: Global, binds: &[BindDraft]) -> Result<(), NotesEnd>
    ensures { Gives result (all_pass (bound_once binds.now) 0 binds.now) }
{
    let mut methods = IndexSet::new(alloc);
    for i in 0..binds.len() {
        if !methods.insert(binds[i].method.as_str())? {
            return Err(again(alloc, i)?);
        }
    }
    Ok(())
}

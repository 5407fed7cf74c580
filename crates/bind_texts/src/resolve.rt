//! The third pass over binds: the numbers of the methods and the functions that they name, where each is there.
ghost use Rattle.bind_texts.specs.BindTexts.{bind_of};
ghost use Rattle.ebc_base.specs.Steps.{or_else};
ghost use Rattle.note_texts.specs.Keys.{row_prefix};
ghost use Rattle.note_texts.specs.Outcome.{Gives};
ghost use Rattle.note_types.specs.declared.fault.TomlFault.TheVariants.{Name as NameFault};
ghost use Rattle.script_draft.specs.Lists.{each_of};
ghost use Rattle.std.specs.Prelude.{◌++◌, codes};

use crate::draft::BindDraft;
use note_texts::row_prefix;
use note_types::{Name, Notes, NotesEnd, TomlFault};
use pair_model::{Bind, Binds};
use protocol_script::{function_number, method_number};
use std::alloc::Global;

// The number of what the bind of an index names at a key, or the fault that it isn't there.
fn known(alloc: Global, index: usize, key: &str, number: Option<u32>) -> Result<u32, NotesEnd>
    ensures { Gives result (or_else (NameFault (row_prefix (codes "bind") index ++ key.now)) number) }
{
    match number {
        Some(number) => Ok(number),
        None => {
            let prefix = row_prefix(alloc, "bind", index)?;
            let path = format!(in alloc; "{prefix}{key}")?;
            Err(NotesEnd::Fault(TomlFault::Name(Name::new(path))))
        }
    }
}

fn resolve_bind(
    alloc: Global,
    index: usize,
    bind: &BindDraft,
    a: &Notes,
    b: &Notes,
) -> Result<Bind, NotesEnd>
    ensures { Gives result (bind_of a.now b.now index bind.now) }
{
    let method = known(alloc, index, "method", method_number(a, &bind.method))?;
    let function = known(alloc, index, "function", function_number(b, &bind.function))?;
    Ok(Bind { method, function })
}

/// The binds with the numbers of what they name: methods of image A, and functions of image B.
///
/// # Errors
///
/// `TomlFault::Name` with the path of the first key that names what isn't there; no memory.
pub fn resolve_binds(
    alloc: Global,
    binds: &[BindDraft],
    a: &Notes,
    b: &Notes,
) -> Result<Binds, NotesEnd>
    ensures { Gives result (each_of (bind_of a.now b.now) 0 binds.now) }
{
    let mut resolved = Vec::new(alloc);
    for i in 0..binds.len() {
        resolved.push(resolve_bind(alloc, i, &binds[i], a, b)?)?;
    }
    Ok(Binds::new(resolved))
}

//! The fourth pass over binds: whether each agrees with the notes of both images.
ghost use Rattle.bind_texts.specs.BindTexts.{bind_passes};
ghost use Rattle.note_texts.specs.Outcome.{Gives};
ghost use Rattle.pair_model.specs.Binds.{AllAgree};
ghost use Rattle.script_draft.specs.Lists.{all_pass};
ghost use Rattle.std.specs.Prelude.{OnOk};

use note_texts::item_path;
use note_types::{Name, Notes, NotesEnd, TomlFault};
use pair_model::Bind;
use std::alloc::Global;

fn agrees(alloc: Global, index: usize, bind: &Bind, a: &Notes, b: &Notes) -> Result<(), NotesEnd>
    ensures { Gives result (bind_passes a.now b.now index bind.now) }
{
    if bind.agrees(a, b) {
        return Ok(());
    }
    let path = item_path(alloc, "bind", index)?;
    Err(NotesEnd::Fault(TomlFault::Range(Name::new(path))))
}

/// Nothing where each bind agrees with the notes of both images.
///
/// # Errors
///
/// `TomlFault::Range` with the path of the first bind that doesn't; no memory.
pub fn all_agree(alloc: Global, binds: &[Bind], a: &Notes, b: &Notes) -> Result<(), NotesEnd>
    ensures passes { Gives result (all_pass (bind_passes a.now b.now) 0 binds.now) }
    ensures agree { OnOk result (AllAgree a.now b.now binds.now) }
{
    for i in 0..binds.len() {
        agrees(alloc, i, &binds[i], a, b)?;
    }
    Ok(())
}

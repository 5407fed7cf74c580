//! The fourth pass over notes: the conditions, tried in their order.
ghost use Rattle.std.specs.Prelude.{◌≡◌, IfOk, None};
ghost use Rattle.note_texts.specs.Outcome.{Gives, GivesBy};
ghost use Rattle.type_notes.specs.Conditions.{conditions, disordered, stray, unmet};
ghost use Rattle.note_draft.specs.Findings.{refused};
ghost use Rattle.note_draft.specs.declared.finding.Refusal.TheVariants.{Range};
ghost use Rattle.type_notes.specs.Owners.{AreOwners};

use crate::conditions::{overfull, thunkless, too_large, unhanded, unkept, unpassed, unreturned};
use crate::owners::{Owners, find_owners};
use crate::points::{mislocated, unfielded};
use note_draft::{Finding, Key, NameTables, NotesDraft, Refusal, TableList, first_descent, refuse};
use note_types::{NotesEnd, TomlFault};
use std::alloc::Global;

// ---- conditions

fn disordered(draft: &NotesDraft) -> Option<Finding>
    ensures { result ≡ disordered draft.now }
{
    let functions = first_descent(draft.function.as_slice());
    Finding::at(TableList::Function, Key::Place, functions)
        .or_else(|| Finding::at(
            TableList::Point,
            Key::Place,
            first_descent(draft.point.as_slice()),
        ))
        .or_else(|| Finding::at(
            TableList::Site,
            Key::Place,
            first_descent(draft.site.as_slice()),
        ))
}

/// The function of each point, by its number.
fn owners_of(alloc: Global, draft: &NotesDraft) -> Result<Vec<usize>, NotesEnd>
    requires { disordered draft.now ≡ None }
    ensures stray { GivesBy (λ _. tt) result (refused Range (stray draft.now)) }
    ensures own { IfOk result (λ owners. AreOwners draft.now.function draft.now.point owners.items) }
{
    match find_owners(alloc, draft.function.as_slice(), draft.point.as_slice())? {
        Owners::All(owners) => Ok(owners),
        Owners::Stray(item) => {
            let stray = Finding {
                list: TableList::Point,
                item,
                key: Key::Place,
            };
            Err(NotesEnd::Fault(TomlFault::Range(stray.path(alloc)?)))
        }
    }
}

#[tactic(auto, unfolding(crate::specs::Conditions::unmet))]
fn unmet(names: &NameTables, draft: &NotesDraft, owners: &[usize]) -> Option<Finding>
    requires { AreOwners draft.now.function draft.now.point owners.now }
    ensures { result ≡ unmet names.now draft.now }
{
    unkept(draft)
        .or_else(|| unhanded(draft))
        .or_else(|| unpassed(draft))
        .or_else(|| unreturned(draft))
        .or_else(|| unfielded(names, draft, owners))
        .or_else(|| thunkless(draft))
        .or_else(|| mislocated(names, draft, owners))
        .or_else(|| overfull(names, draft))
        .or_else(|| too_large(draft))
}

/// The function of each point, by its number, where the draft meets all conditions.
///
/// # Errors
///
/// `TomlFault::Range` with the path at which the first that isn't met is named; no memory.
#[tactic(auto, unfolding(crate::specs::Conditions::conditions))]
pub fn meet_conditions(
    alloc: Global,
    names: &NameTables,
    draft: &NotesDraft,
) -> Result<Vec<usize>, NotesEnd>
    ensures conditions { GivesBy (λ _. tt) result (conditions names.now draft.now) }
    ensures owners { IfOk result (λ owners. AreOwners draft.now.function draft.now.point owners.items) }
{
    refuse(alloc, Refusal::Range, disordered(draft))?;
    let owners = owners_of(alloc, draft)?;
    refuse(
        alloc,
        Refusal::Range,
        unmet(names, draft, owners.as_slice()),
    )?;
    Ok(owners)
}

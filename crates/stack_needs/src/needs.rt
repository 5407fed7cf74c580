//! Levels and needs: a function has the least level above those that it calls, and needs what lies on its stack at most,
//! its calls included.

ghost use Rattle.std.specs.Prelude.{◌≡◌, ℕ, IfErr, IfOk, length};
ghost use Rattle.note_types.specs.Records.{IsNotes};
ghost use Rattle.pe_image.specs.Images.{IsImage};
ghost use Rattle.rules_image.specs.Images.{FunctionHolds};
ghost use Rattle.stack_needs.specs.Calls.{CallsFunction, HasStackCause};
ghost use Rattle.stack_needs.specs.Walks.{Sees};

use crate::order::callees_first;
use crate::outcome::{Found, Known, NotFound};
use crate::walk::{Called, Walked, walk};
use note_types::{FnNote, Notes, Pair};
use pe_image::Image;
use std::alloc::Global;

// How many bytes a call puts on the stack beside what the callee needs.
const RETURN_CELL: i64 = 16;

// What walks through all functions see.
fn walk_all(alloc: Global, image: &Image, notes: &Notes) -> Result<Vec<Walked>, NotFound>
    requires image { IsImage image.now }
    requires notes { IsNotes notes.now }
    requires functions { (k : ℕ) → FunctionHolds image.now notes.now k }
    ensures calls { IfOk result (λ walks. (k j : ℕ) → Sees walks.items k j → CallsFunction image.now notes.now k j) }
    ensures cause { IfErr result (HasStackCause image.now notes.now) }
{
    let mut walks = Vec::new(alloc);
    for f in notes.function.as_slice() {
        walks.push(walk(alloc, image, notes, f)?)?;
    }
    Ok(walks)
}

// What the notes of functions say.
fn written(alloc: Global, functions: &[FnNote]) -> Result<Vec<Found>, NotFound>
    ensures count { IfOk result (λ found. length found.items ≡ length functions.now) }
    ensures ends { IfErr result (λ end. end ≡ NotFound.NoMemory) }
{
    let mut found = Vec::new(alloc);
    for f in functions {
        found.push(Found {
            level: f.level,
            need: f.need,
        })?;
    }
    Ok(found)
}

// The least level above those of the functions that are called.
fn level_above(found: &[Found], calls: &[Called]) -> u64 {
    let mut level = 0u64;
    for call in calls {
        if let Some(callee) = found.get(call.function) {
            level = level.max(callee.level.saturating_add(1));
        }
    }
    level
}

// What a function needs: the most that lies on its stack, and at each call that with the return cell and the callee's need.
fn need_of(found: &[Found], walked: &Walked) -> Pair {
    let mut most = walked.most;
    for call in walked.calls.as_slice() {
        if let Some(callee) = found.get(call.function) {
            let depth = call.depth.with(RETURN_CELL, RETURN_CELL);
            most = most.greater(depth.with_need(callee.need));
        }
    }
    most.need()
}

// Sets the levels of these functions, each behind those that it calls.
fn set_levels(order: &[usize], walks: &[Walked], found: &mut Vec<Found>)
    ensures { length found.new.items ≡ length found.old.items }
{
    for k in order {
        if *k < walks.len() && *k < found.len() {
            let level = level_above(found.as_slice(), walks[*k].calls.as_slice());
            found[*k].level = level;
        }
    }
}

// Sets the needs of these functions, each behind those that it calls.
fn set_needs(order: &[usize], walks: &[Walked], found: &mut Vec<Found>)
    ensures { length found.new.items ≡ length found.old.items }
{
    for k in order {
        if *k < walks.len() && *k < found.len() {
            let need = need_of(found.as_slice(), &walks[*k]);
            found[*k].need = need;
        }
    }
}

/// The levels and needs of functions: as their notes have them where they are known, else found. `known` goes by the functions'
/// order; of a function behind its end neither is known. A level is 0 where the code that is reached calls no function, else one
/// more than the greatest level of those called. A need holds what lies on the stack at each place that is reached, and at each
/// call that with 16 bytes and the callee's need.
///
/// # Errors
///
/// Two ways come to a place with different amounts on the stack: the first such place that is met. The calls of a function lead
/// back to it by functions whose level, or whose need, isn't known. There is no memory.
pub fn find_needs(
    alloc: Global,
    image: &Image,
    notes: &Notes,
    known: &[Known],
) -> Result<Vec<Found>, NotFound>
    requires image { IsImage image.now }
    requires notes { IsNotes notes.now }
    requires functions { (k : ℕ) → FunctionHolds image.now notes.now k }
    ensures count { IfOk result (λ found. length found.items ≡ length notes.now.function) }
    ensures cause { IfErr result (HasStackCause image.now notes.now) }
{
    let walks = walk_all(alloc, image, notes)?;
    let mut found = written(alloc, notes.function.as_slice())?;
    let levels: Vec<bool> = known.iter().map(|it| it.level).collect(alloc)?;
    let order = callees_first(alloc, walks.as_slice(), levels.as_slice())?;
    set_levels(order.as_slice(), walks.as_slice(), &mut found);
    let needs: Vec<bool> = known.iter().map(|it| it.need).collect(alloc)?;
    let order = callees_first(alloc, walks.as_slice(), needs.as_slice())?;
    set_needs(order.as_slice(), walks.as_slice(), &mut found);
    Ok(found)
}

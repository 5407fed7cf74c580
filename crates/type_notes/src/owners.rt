//! The functions that hold the points.
ghost use Rattle.std.specs.Prelude.{◌≡◌, ◌≤◌, length, map, IfOk, IfSome, None};
ghost use Rattle.type_notes.specs.Owners.{FindsOwners, EndBy, owner_of};
ghost use Rattle.note_draft.specs.Repeats.{first_descent};

use note_draft::{FunctionDraft, PointDraft};
use std::alloc::{AllocError, Global};

/// The functions that hold the points.
#[derive(Drop)]
pub enum Owners {
    /// For each point the number of the first function that holds its place.
    All(Vec<usize>),
    /// The least number of a point whose place no function holds.
    Stray(usize),
}

/// The first function that holds each point, where functions and points ascend by their places. The search for a point
/// begins at the function where that for the point before it ended.
///
/// # Errors
///
/// There was no memory.
pub fn find_owners(
    alloc: Global,
    functions: &[FunctionDraft],
    points: &[PointDraft],
) -> Result<Owners, AllocError>
    requires functions { first_descent (map (λ f. f.place) functions.now) ≡ None }
    requires points { first_descent (map (λ p. p.place) points.now) ≡ None }
    ensures { IfOk result (FindsOwners functions.now points.now) }
{
    let mut owners = Vec::new(alloc);
    let mut from = 0;
    for (number, point) in points.iter().enumerate() {
        match owner_from(functions, from, point.place) {
            Some(owner) => {
                owners.push(owner)?;
                from = owner;
            }
            None => return Ok(Owners::Stray(number)),
        }
    }
    Ok(Owners::All(owners))
}

// The first function that holds a place, by which those below number `from` end. The first function that ends past the
// place is the only one that can, since those after it begin after it.
fn owner_from(functions: &[FunctionDraft], from: usize, place: u32) -> Option<usize>
    requires ascend { first_descent (map (λ f. f.place) functions.now) ≡ None }
    requires from { from ≤ length functions.now }
    requires before { EndBy functions.now from place }
    ensures owner { result ≡ owner_of functions.now place }
    ensures before { IfSome result (λ owner. EndBy functions.now owner place) }
    ensures within { IfSome result (λ owner. owner ≤ length functions.now) }
{
    for number in from..functions.len() {
        let function = &functions[number];
        if place < function.end {
            return if function.place <= place {
                Some(number)
            } else {
                None
            };
        }
    }
    None
}

//! The rules of shapes, functions, static objects and thunk cells, and the points at leaders.

ghost use Rattle.std.specs.Prelude.{◌≡◌, ◌↔◌, ◌++◌, [], IfOk, IsTrue, OnOk, length};
ghost use Rattle.std.specs.List.Sorted.{IsStrictlyIncreasing};
ghost use Rattle.note_types.specs.Records.{IsNotes};
ghost use Rattle.pe_image.specs.Images.{IsImage};
ghost use Rattle.width_checker.specs.Typed.{TablesHold};
ghost use Rattle.note_infer.specs.Inferred.{points_of, with_point};
ghost use Rattle.note_infer.specs.Coming.{state_at};

use ebc_base::{NoMemory, Sequence};
use note_types::{CompactState, Notes, Point, Points, State};
use pe_image::Image;
use rules_image::{all_apart, check_functions, check_shapes, check_statics, check_thunks};
use std::alloc::Global;
use width_checker::Checker;

/// Whether the rules of shapes, functions, static objects and thunk cells hold.
///
/// # Errors
///
/// There is no memory to sort them.
pub(crate) fn tables_hold(alloc: Global, image: &Image, notes: &Notes) -> Result<bool, NoMemory>
    requires image { IsImage image.now }
    requires notes { IsNotes notes.now }
    ensures { IfOk result (λ holds. IsTrue holds ↔ TablesHold image.now notes.now) }
{
    let Ok(()) = check_shapes(notes) else {
        return Ok(false);
    };
    let Ok(()) = check_functions(image, notes) else {
        return Ok(false);
    };
    let mut checker = Checker::reserve(alloc, image, notes)?;
    let apart = all_apart(notes, checker.order.as_mut_slice());
    let Ok(()) = check_statics(image, notes, apart) else {
        return Ok(false);
    };
    match check_thunks(image, notes, apart) {
        Ok(()) => Ok(true),
        Err(_) => Ok(false),
    }
}

// Adds the point at a place, where a state is there. It is put into `room` in between.
fn add_point(
    alloc: Global,
    place: u32,
    state: &Option<CompactState>,
    room: &mut State,
    points: &mut Vec<Point>,
) -> Result<(), NoMemory>
    ensures { OnOk result (points.new.items ≡ points.old.items ++ with_point place state.now []) }
{
    if let Some(state) = state {
        state.put(room);
        points.push(Point {
            place,
            state: CompactState::new(alloc, room)?,
        })?;
    }
    Ok(())
}

/// The points at the leaders that have a state. Each is put into `room` in between.
///
/// # Errors
///
/// There is no memory for them.
pub(crate) fn points_of(
    alloc: Global,
    leaders: &[u32],
    states: &[Option<CompactState>],
    room: &mut State,
) -> Result<Points, NoMemory>
    requires ascend { IsStrictlyIncreasing leaders.now }
    requires long { length states.now ≡ length leaders.now }
    ensures { IfOk result (λ points. points ≡ points_of (state_at leaders.now states.now) leaders.now) }
{
    let mut points = Vec::new(alloc);
    for (number, place) in leaders.iter().enumerate() {
        add_point(alloc, *place, &states[number], room, &mut points)?;
    }
    Ok(Sequence::new(points))
}

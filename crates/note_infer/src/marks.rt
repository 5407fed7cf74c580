//! Leaders as points.

ghost use Rattle.std.specs.Prelude.{◌≡◌, ◌<◌, ◌↔◌, IfOk, IsTrue};
ghost use Rattle.note_types.specs.Records.{Ascends, IsNotes};
ghost use Rattle.rules_image.specs.Images.{PointHolds};
ghost use Rattle.note_infer.specs.Rounds.{marked};

use crate::copies::with_points;
use ebc_base::{NoMemory, Sequence};
use note_types::{CompactState, Notes, Point, entry_state};
use rules_image::first_point;
use std::alloc::Global;

/// Notes with a point at each leader in place of their own points.
///
/// # Errors
///
/// There is no memory for them.
pub fn marked(alloc: Global, notes: &Notes, leaders: &[u32]) -> Result<Notes, NoMemory>
    requires { IsNotes notes.now }
    ensures { IfOk result (λ copy. copy ≡ marked notes.now leaders.now) }
{
    let state = entry_state(notes, notes.entry);
    let mut points = Vec::new(alloc);
    for leader in leaders {
        points.push(Point {
            place: *leader,
            state: CompactState::new(alloc, &state)?,
        })?;
    }
    with_points(alloc, notes, Sequence::new(points))
}

/// Whether no point is inside the bytes of an instruction from a place up to `next`.
pub(crate) fn has_no_point(notes: &Notes, at: u32, next: u32) -> bool
    requires ascend { Ascends notes.now }
    requires later { at < next }
    ensures { IsTrue result ↔ PointHolds notes.now at next }
{
    match notes.point.as_slice().get(first_point(notes, at + 1)) {
        Some(p) => next <= p.place,
        None => true,
    }
}

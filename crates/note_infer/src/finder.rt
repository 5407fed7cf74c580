//! The points that are found for an image under notes, or where it got stuck.

ghost use Rattle.std.specs.Prelude.{◌≡◌, ◌<◌, ◌≤◌, ℕ, IfErr, IfOk, List, Some, length};
ghost use Rattle.note_types.specs.Limits.{point_limit};
ghost use Rattle.note_types.specs.Records.{IsNotes};
ghost use Rattle.note_types.specs.declared.notes.Point.{Point};
ghost use Rattle.pe_image.specs.Images.{IsImage};
ghost use Rattle.width_checker.specs.Typed.{TablesHold, Typed};
ghost use Rattle.note_infer.specs.declared.inferred.Inferred.{Inferred};
ghost use Rattle.note_infer.specs.Inferred.{IsInferred, IsSettled, points_of};
ghost use Rattle.note_infer.specs.Leaders.{AreLeaders};
ghost use Rattle.note_infer.specs.Rounds.{with_points};
ghost use Rattle.note_infer.specs.Coming.{state_at};
ghost use Rattle.note_infer.specs.Stopping.{IsNotFound};

use crate::Inferred;
use crate::copies::with_points;
use crate::leaders::find_leaders;
use crate::marks::marked;
use crate::rounds::{NotFound, Rounds};
use crate::tables::{points_of, tables_hold};
use ebc_base::NoMemory;
use note_types::{CompactState, Notes, Points, entry_state, point_limit};
use pe_image::Image;
use std::alloc::Global;
use width_checker::{Verdict, check};

// The answer where a rule of shapes, functions, static objects or thunk cells fails.
fn refused_tables(alloc: Global, image: &Image, notes: &Notes) -> Result<Inferred, NoMemory>
    requires image { IsImage image.now }
    requires notes { IsNotes notes.now }
    requires tables { ¬ TablesHold image.now notes.now }
    ensures { IfOk result (IsInferred image.now notes.now) }
{
    let Verdict::Refused { place, rule } = check(alloc, image, notes)? else {
        unreachable!();
    };
    Ok(Inferred::Stuck {
        place,
        rule,
        state: None,
    })
}

// The points of notes.
fn points_in(notes: Notes) -> Points
    ensures { result ≡ notes.point }
{
    notes.point
}

// The answer where rounds have settled on these states at the leaders.
fn checked_points(
    alloc: Global,
    image: &Image,
    notes: &Notes,
    leaders: &[u32],
    states: &[Option<CompactState>],
) -> Result<Inferred, NoMemory>
    requires image { IsImage image.now }
    requires notes { IsNotes notes.now }
    requires ascend { AreLeaders image.now notes.now leaders.now }
    requires long { length states.now ≡ length leaders.now }
    requires settled { IsSettled image.now notes.now leaders.now (state_at leaders.now states.now) }
    ensures { IfOk result (IsInferred image.now notes.now) }
{
    let mut room = entry_state(notes, notes.entry);
    let points = points_of(alloc, leaders, states, &mut room)?;
    let found = with_points(alloc, notes, points)?;
    match check(alloc, image, &found)? {
        Verdict::Neutral => Ok(Inferred::Points(points_in(found))),
        Verdict::Refused { place, rule } => Ok(Inferred::Stuck {
            place,
            rule,
            state: None,
        }),
    }
}

// The states at the leaders on which rounds settle.
fn settled_states(
    alloc: Global,
    image: &Image,
    notes: &Notes,
    leaders: &[u32],
) -> Result<Vec<Option<CompactState>>, NotFound>
    requires image { IsImage image.now }
    requires notes { IsNotes notes.now }
    requires tables { TablesHold image.now notes.now }
    requires leaders { AreLeaders image.now notes.now leaders.now }
    requires few { length leaders.now ≤ point_limit notes.now.version }
    ensures settled { IfOk result (λ states. IsSettled image.now notes.now leaders.now (state_at leaders.now states.items)) }
    ensures long { IfOk result (λ states. length states.items ≡ length leaders.now) }
    ensures stuck { IfErr result (IsNotFound image.now notes.now leaders.now) }
{
    let marked = marked(alloc, notes, leaders)?;
    let rounds = Rounds {
        image,
        notes,
        marked: &marked,
        leaders,
    };
    rounds.settle(alloc)
}

// The answer where the rules of shapes, functions, static objects and thunk cells hold and the leaders are within the limit.
fn find_points(
    alloc: Global,
    image: &Image,
    notes: &Notes,
    leaders: &[u32],
) -> Result<Inferred, NoMemory>
    requires image { IsImage image.now }
    requires notes { IsNotes notes.now }
    requires tables { TablesHold image.now notes.now }
    requires leaders { AreLeaders image.now notes.now leaders.now }
    requires few { length leaders.now ≤ point_limit notes.now.version }
    ensures { IfOk result (IsInferred image.now notes.now) }
{
    match settled_states(alloc, image, notes, leaders) {
        Ok(states) => checked_points(alloc, image, notes, leaders, states.as_slice()),
        Err(NotFound::NoMemory) => Err(NoMemory),
        Err(NotFound::Stuck(stop)) => Ok(Inferred::Stuck {
            place: stop.place,
            rule: stop.rule,
            state: Some(stop.state.state()),
        }),
    }
}

/// The points found for an image under notes, whose own points are ignored, or where it got stuck: by the rules of shapes,
/// functions, static objects and thunk cells, then by the number of leaders, then round by round, then by the check of the
/// image under the points found.
///
/// # Errors
///
/// There is no memory.
pub fn infer(alloc: Global, image: &Image, notes: &Notes) -> Result<Inferred, NoMemory>
    requires image { IsImage image.now }
    requires notes { IsNotes notes.now }
    ensures inferred { IfOk result (IsInferred image.now notes.now) }
    ensures once { IfOk result (λ answer. (other : Inferred) → IsInferred image.now notes.now other → other ≡ answer) }
    ensures typed { IfOk result (λ answer. (points : List Point) → answer ≡ Inferred.Points points →
        Typed image.now (with_points notes.now points)) }
{
    if !tables_hold(alloc, image, notes)? {
        return refused_tables(alloc, image, notes);
    }
    let leaders = find_leaders(alloc, image, notes)?;
    if point_limit(notes.version) < leaders.len() as u64 {
        return Ok(Inferred::Many {
            leaders: leaders.len() as u32,
        });
    }
    find_points(alloc, image, notes, leaders.as_slice())
}

//! Points.
ghost use Rattle.std.specs.Prelude.{◌≡◌, IfOk, string_bytes};
ghost use Rattle.printed_texts.specs.PrintedStates.{point_text, points_text};

use crate::lists::array_line;
use crate::state::state_texts;
use note_types::{NoMemory, Notes, Point};
use std::alloc::Global;

// The table of a point.
#[tactic(auto, unfolding(crate::specs::PrintedStates::point_text))]
fn point_text(alloc: Global, notes: &Notes, point: &Point) -> Result<String, NoMemory>
    ensures { IfOk result (λ text. string_bytes text ≡ point_text notes.now point.now) }
{
    let place = point.place;
    let state = point.state.state();
    let made = state.made;
    let texts = state_texts(alloc, notes, place, &state)?;
    let regs = array_line(alloc, "regs", texts.regs.as_slice())?;
    let stack = array_line(alloc, "stack", texts.stack.as_slice())?;
    let written = array_line(alloc, "written", texts.written.as_slice())?;
    Ok(format!(in alloc; "[[point]]\nplace = {place}\n{regs}{stack}{written}made = {made}\n")?)
}

/// The points as tables of notes, one after the other.
///
/// # Errors
///
/// Want of memory alone.
pub fn points_text(alloc: Global, notes: &Notes, points: &[Point]) -> Result<String, NoMemory>
    ensures { IfOk result (λ text. string_bytes text ≡ points_text notes.now points.now) }
{
    let mut text = String::new(alloc);
    for point in points {
        let table = point_text(alloc, notes, point)?;
        text.push_str(table.as_str())?;
    }
    Ok(text)
}

//! The search for points, function by function.

ghost use Rattle.std.specs.Prelude.{◌≤◌, ℕ, length};
ghost use Rattle.note_types.specs.Limits.{point_limit};
ghost use Rattle.note_types.specs.Records.{IsNotes};
ghost use Rattle.pe_image.specs.Images.{IsImage};
ghost use Rattle.rules_image.specs.Images.{FunctionHolds};
ghost use Rattle.note_infer.specs.Leaders.{AreLeaders};

use crate::course::Course;
use crate::marks::marks_of;
use code_walk::Search;
use ebc_base::NoMemory;
use note_infer::{find_leaders, marked};
use note_types::{Notes, Point, point_limit};
use pe_image::Image;
use rules_image::check_functions;
use std::alloc::Global;

// How often the leaders of a function are looked at, for each leader, before its search is given up.
const LOOKS: usize = 64;

// Goes through a function, by its number, until no leader of it is to be looked at again, and tells whether it came so far.
fn settle(alloc: Global, search: &Search, func: u32, course: &mut Course) -> Result<bool, NoMemory>
    requires image { IsImage search.now.image.now }
    requires notes { IsNotes search.now.notes.now }
    requires functions { (k : ℕ) → FunctionHolds search.now.image.now search.now.notes.now k }
{
    let Some(code) = search.code(func) else {
        return Ok(true);
    };
    let marks = marks_of(alloc, &code)?;
    search.enter(func, course)?;
    for _ in 0..search.leaders.len().saturating_add(1).saturating_mul(LOOKS) {
        let Some(number) = course.take_first() else {
            return Ok(true);
        };
        if let Some((place, state)) = course.advance(number, marks.as_slice())? {
            search.walk(func, place, state, course)?;
        }
    }
    Ok(false)
}

// The points that are found under notes with the leaders as points, where each function's search comes to an end.
fn points_under(
    alloc: Global,
    image: &Image,
    notes: &Notes,
    leaders: &[u32],
) -> Result<Option<Vec<Point>>, NoMemory>
    requires image { IsImage image.now }
    requires notes { IsNotes notes.now }
{
    let Ok(()) = check_functions(image, notes) else {
        return Ok(None);
    };
    let search = Search {
        image,
        notes,
        leaders,
    };
    let mut course = Course::new(alloc, leaders)?;
    for func in 0..notes.function.len() {
        if !settle(alloc, &search, func as u32, &mut course)? {
            return Ok(None);
        }
    }
    Ok(Some(course.into_points()?))
}

// The points that are found at leaders.
fn points_at(alloc: Global, search: &Search) -> Result<Option<Vec<Point>>, NoMemory>
    requires image { IsImage search.now.image.now }
    requires notes { IsNotes search.now.notes.now }
    requires functions { (k : ℕ) → FunctionHolds search.now.image.now search.now.notes.now k }
    requires leaders { AreLeaders search.now.image.now search.now.notes.now search.now.leaders.now }
    requires few { length search.now.leaders.now ≤ point_limit search.now.notes.now.version }
{
    let marked = marked(alloc, search.notes, search.leaders)?;
    points_under(alloc, search.image, &marked, search.leaders)
}

/// Points for an image under notes, whose own points are ignored: the states at the leaders that the search comes to, in the order of
/// their places. None where functions break their rule, where there are more leaders than notes may have points, or where the search
/// of a function is given up.
///
/// # Errors
///
/// There is no memory.
pub fn search_points(
    alloc: Global,
    image: &Image,
    notes: &Notes,
) -> Result<Option<Vec<Point>>, NoMemory>
    requires image { IsImage image.now }
    requires notes { IsNotes notes.now }
{
    let Ok(()) = check_functions(image, notes) else {
        return Ok(None);
    };
    let leaders = find_leaders(alloc, image, notes)?;
    if point_limit(notes.version) < leaders.len() as u64 {
        return Ok(None);
    }
    let search = Search {
        image,
        notes,
        leaders: leaders.as_slice(),
    };
    points_at(alloc, &search)
}

//! The search for sites: rounds of walks, in which each place of the code is walked through at most once.

ghost use Rattle.std.specs.Prelude.{◌≤◌, ℕ, length};
ghost use Rattle.note_types.specs.Limits.{point_limit};
ghost use Rattle.note_types.specs.Records.{IsNotes};
ghost use Rattle.pe_image.specs.Images.{IsImage};
ghost use Rattle.rules_image.specs.Images.{FunctionHolds};
ghost use Rattle.note_infer.specs.Leaders.{AreLeaders};

use crate::comings::{Comings, Reached};
use crate::course::Course;
use crate::trial::Trial;
use code_walk::Search;
use ebc_base::NoMemory;
use note_infer::{find_leaders, marked};
use note_types::{Notes, Site, point_limit};
use pe_image::Image;
use rules_image::check_functions;
use std::alloc::Global;

// Walks on from a leader.
fn go_on(search: &Search, reached: Reached, course: &mut Course) -> Result<(), NoMemory>
    requires image { IsImage search.now.image.now }
    requires notes { IsNotes search.now.notes.now }
    requires functions { (k : ℕ) → FunctionHolds search.now.image.now search.now.notes.now k }
{
    let Reached { number, state } = reached;
    let Some(place) = search.leaders.get(number) else {
        return Ok(());
    };
    let functions = search.notes.function.as_slice();
    let func = functions.partition_point(|f| f.end <= *place);
    search.walk(func as u32, *place, state, course)
}

// Walks from all functions, and then in rounds from the leaders to which a state came first in the round before.
fn run(search: &Search, course: &mut Course) -> Result<(), NoMemory>
    requires image { IsImage search.now.image.now }
    requires notes { IsNotes search.now.notes.now }
    requires functions { (k : ℕ) → FunctionHolds search.now.image.now search.now.notes.now k }
{
    for func in 0..search.notes.function.len() {
        search.enter(func as u32, course)?;
    }
    for _ in 0..search.leaders.len() {
        let reached = course.comings.end_round(course.alloc)?;
        if reached.is_empty() {
            break;
        }
        for it in reached {
            go_on(search, it, course)?;
        }
    }
    Ok(())
}

// The sites that are found.
fn sites(alloc: Global, search: &Search) -> Result<Vec<Site>, NoMemory>
    requires image { IsImage search.now.image.now }
    requires notes { IsNotes search.now.notes.now }
    requires functions { (k : ℕ) → FunctionHolds search.now.image.now search.now.notes.now k }
    requires leaders { AreLeaders search.now.image.now search.now.notes.now search.now.leaders.now }
    requires few { length search.now.leaders.now ≤ point_limit search.now.notes.now.version }
{
    let marked = marked(alloc, search.notes, search.leaders)?;
    let mut course = Course {
        alloc,
        trial: Trial::new(marked),
        comings: Comings::new(alloc, search.leaders.len())?,
        found: Vec::new(alloc),
    };
    run(search, &mut course)?;
    Ok(course.found)
}

/// The sites that notes lack, in the order of their places: one for each native call that the search for points comes to with the
/// address of a method, where the method has one signature alone, or one of its signatures alone takes the arguments that the
/// search first comes there with. None where functions break their rule, or where there are more leaders than notes may have points.
///
/// # Errors
///
/// There is no memory.
pub fn find_sites(alloc: Global, image: &Image, notes: &Notes) -> Result<Vec<Site>, NoMemory>
    requires image { IsImage image.now }
    requires notes { IsNotes notes.now }
{
    let Ok(()) = check_functions(image, notes) else {
        return Ok(Vec::new(alloc));
    };
    let leaders = find_leaders(alloc, image, notes)?;
    if point_limit(notes.version) < leaders.len() as u64 {
        return Ok(Vec::new(alloc));
    }
    let search = Search {
        image,
        notes,
        leaders: leaders.as_slice(),
    };
    let mut found = sites(alloc, &search)?;
    found.sort_unstable_by_key(|site| site.place);
    Ok(found)
}

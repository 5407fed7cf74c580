//! What is said of calls: `site`, `level`.

ghost use Rattle.ebc_insn.specs.Spelling.{WellFormed};

use crate::callee::{called_function, called_type, method_name, signature_of, site_number};
use crate::sizes::{items_size, together};
use explain_base::{Line, Said, Scene};
use note_types::{FnNote, Pair, Ty};

// How many sites are told at most.
const SITES: u32 = 8;

// What a call takes of the stack beside what the function needs that is called.
const RETURN_CELL: Pair = Pair { n: 0, c: 16 };

// ---- sites

// Writes the places of the function's sites. It tells the number of the one that is nearest to the place.
fn write_sites(scene: &Scene, line: &mut Line) -> Option<usize> {
    let mut count = 0u32;
    let mut best = None;
    for (number, x) in scene.notes.site.as_slice().iter().enumerate() {
        if scene.f.place <= x.place && x.place < scene.f.end {
            if count < SITES {
                line.text(" ").at(x.place);
                count += 1;
            }
            let far = x.place.abs_diff(scene.here.place);
            best = match best {
                Some((_, least)) if least <= far => best,
                _ => Some((number, far)),
            };
        }
    }
    let Some((number, _)) = best else {
        line.text(" none");
        return None;
    };
    Some(number)
}

/// What is said of `site`.
pub(crate) fn said_of_site(scene: &Scene) -> Option<Said>
    requires { WellFormed scene.now.insn.now }
{
    let Some(Ty::Method(number)) = called_type(scene) else {
        return None;
    };
    let mut what = Line::of(scene.alloc, method_name(scene.notes, number));
    if let Some(site) = site_number(scene) {
        let (name, other) = match signature_of(scene, site) {
            Some((_, g)) => (g.name.as_str(), method_name(scene.notes, g.method)),
            None => ("", ""),
        };
        what.text(" is called, and the site here has signature ")
            .text(name)
            .text(", of ")
            .text(other);
        return Some(Said::with_key(what, "site", site, "signature", "the site here"));
    }
    what.text(" is called here, at ")
        .at(scene.here.place)
        .text(", where the notes have no site; ")
        .text(scene.f.name.as_str())
        .text(" has sites at:");
    Some(match write_sites(scene, &mut what) {
        Some(number) => Said::with_key(what, "site", number, "place", "the nearest site"),
        None => Said::only(what),
    })
}

// ---- levels

fn no_lower(scene: &Scene, number: usize, g: &FnNote) -> Said {
    let mut what = Line::of(scene.alloc, scene.f.name.as_str());
    what.text(" has level ")
        .number(u64::from(scene.f.level))
        .text(" and calls ")
        .text(g.name.as_str());
    what.text(" of level ")
        .number(u64::from(g.level))
        .text(", and a lower one is wanted");
    Said::with_key(
        what,
        "function",
        number,
        "level",
        "the level of the function that is called",
    )
}

/// What is said of `level`: the level of what is called isn't lower, or what the call takes has no room.
pub(crate) fn said_of_level(scene: &Scene) -> Option<Said> {
    let (number, g) = called_function(scene)?;
    if scene.f.level <= g.level {
        return Some(no_lower(scene, number, g));
    }
    let items = items_size(scene);
    let mut what = Line::of(scene.alloc, "the items ");
    what.size(items)
        .text(", the return cell (0, 16) and the need ")
        .size(g.need);
    what.text(" of ")
        .text(g.name.as_str())
        .text(" make ")
        .size(together(together(items, RETURN_CELL), g.need));
    what.text(", and ")
        .text(scene.f.name.as_str())
        .text(" has need ")
        .size(scene.f.need);
    Some(Said::with_key(
        what,
        "function",
        scene.func as usize,
        "need",
        "the function's need",
    ))
}

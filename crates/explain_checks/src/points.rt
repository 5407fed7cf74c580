//! What is said of where an instruction stands: the rules `state`, `point` and `end`.

ghost use Rattle.pe_image.specs.Images.{IsImage};

use crate::decoding::insn_at;
use crate::refused::Stopped;
use crate::targets::target_place;
use explain_base::{Line, Said};
use note_infer::reloc_at;
use note_types::NoMemory;

/// What is said where no state is before the instruction.
pub(crate) fn said_of_state(stopped: &Stopped) -> Said {
    let what = if stopped.refused.infers {
        "nothing falls to this instruction, which stands after a RET or a jump, and no jump goes here"
    } else {
        "nothing falls to this instruction, which stands after a RET or a jump, and the notes have no point here"
    };
    Said::text(stopped.refused.alloc, what)
}

// Writes from where to where the instruction goes.
fn write_extent(stopped: &Stopped, next: u32, line: &mut Line) {
    line.text("inside this instruction, which goes from ")
        .at(stopped.at.place)
        .text(" up to ")
        .at(next);
}

// What is said of a point of the notes inside an instruction before `next`.
fn said_of_inner_point(stopped: &Stopped, next: u32) -> Option<Said> {
    for (number, p) in stopped.refused.notes.point.as_slice().iter().enumerate() {
        if stopped.at.place < p.place && p.place < next {
            let mut what = Line::of(stopped.refused.alloc, "the point at ");
            what.at(p.place).text(" lies ");
            write_extent(stopped, next, &mut what);
            return Some(Said::with_key(what, "point", number, "place", "the point's place"));
        }
    }
    None
}

// A jump inside a function: its place, and the place to which it goes.
#[derive(Clone, Copy)]
struct Leap {
    at: u32,
    target: i128,
}

// The first jump of the function to a place inside an instruction before `next`.
fn inner_leap(stopped: &Stopped, next: u32) -> Result<Option<Leap>, NoMemory>
    requires { IsImage stopped.now.refused.now.image.now }
{
    let (alloc, image, f) = (stopped.refused.alloc, stopped.refused.image, stopped.f);
    let place = stopped.at.place;
    let mut after = f.place;
    for at in f.place..f.end {
        if at == after {
            let Some((insn, length)) = insn_at(alloc, image, at, f.end)? else {
                return Ok(None);
            };
            after = at.saturating_add(length);
            if let Some(target) = target_place(&insn, after, reloc_at(image, after)) {
                if i128::from(place) < target && target < i128::from(next) {
                    return Ok(Some(Leap { at, target }));
                }
            }
        }
    }
    Ok(None)
}

/// What is said where a point lies inside the instruction, or of `infer` where a jump of the function goes there.
pub(crate) fn said_of_point(stopped: &Stopped) -> Result<Option<Said>, NoMemory>
    requires { IsImage stopped.now.refused.now.image.now }
{
    let Some((_, next)) = stopped.at.insn else {
        return Ok(None);
    };
    if !stopped.refused.infers {
        return Ok(said_of_inner_point(stopped, next));
    }
    let Some(leap) = inner_leap(stopped, next)? else {
        return Ok(None);
    };
    let mut what = Line::of(stopped.refused.alloc, "the jump at ");
    what.at(leap.at)
        .text(" goes to ")
        .target(leap.target)
        .text(", ");
    write_extent(stopped, next, &mut what);
    Ok(Some(Said::only(what)))
}

/// What is said where control falls out of the function.
pub(crate) fn said_of_end(stopped: &Stopped) -> Option<Said> {
    let (_, next) = stopped.at.insn?;
    let mut what = Line::of(stopped.refused.alloc, "this falls to ");
    what.at(next)
        .text(", out of ")
        .text(stopped.f.name.as_str())
        .text(", which ends at ")
        .at(stopped.f.end);
    what.text("; RET or a jump is wanted there, or a later end");
    Some(Said::with_key(
        what,
        "function",
        stopped.at.func as usize,
        "end",
        "the function's end",
    ))
}

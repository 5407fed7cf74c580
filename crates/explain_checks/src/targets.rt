//! What is said of the rule `target`.

use crate::refused::Stopped;
use ebc_insn::Insn;
use explain_base::{Line, Said};
use note_infer::{jump_names, names_place};

// At most so many points are told.
const POINTS: u32 = 8;

/// The place to which an instruction before `next` jumps, or calls byte code. `reloc` is the place that its relocated
/// immediate names.
pub(crate) fn target_place(insn: &Insn, next: u32, reloc: Option<u64>) -> Option<i128> {
    match insn {
        Insn::Call {
            far,
            native: false,
            relative,
            op,
            extra,
        } => jump_names(next, reloc, *far, *relative, op, extra),
        _ => names_place(next, reloc, insn),
    }
}

fn call_line(stopped: &Stopped, place: i128) -> Line {
    let notes = stopped.refused.notes;
    let entry = match notes.function.as_slice().get(notes.entry as usize) {
        Some(f) => Some(i128::from(f.place)),
        None => None,
    };
    let mut what = Line::of(stopped.refused.alloc, "the call goes to ");
    what.target(place).text(if entry == Some(place) {
        ", the entry function, which isn't called"
    } else {
        ", where no function of the notes begins"
    });
    what
}

// What is said of a jump, with the places of the points of the function.
fn jump_line(stopped: &Stopped, place: i128) -> Line {
    let (name, from, to) = (stopped.f.name.as_str(), stopped.f.place, stopped.f.end);
    let mut what = Line::of(stopped.refused.alloc, "the jump goes to ");
    what.target(place);
    if place == i128::from(to) {
        what.text(", where ")
            .text(name)
            .text(" ends; an instruction is wanted there, as RET");
        return what;
    }
    if place < i128::from(from) || i128::from(to) < place {
        what.text(", outside ").text(name).text(", which is ");
        what.at(from).text(" up to ").at(to);
        return what;
    }
    what.text(", where the notes have no point; ")
        .text(name)
        .text(" has points at:");
    let mut count = 0u32;
    for p in stopped.refused.notes.point.as_slice() {
        if from <= p.place && p.place < to && count < POINTS {
            what.text(" ").at(p.place);
            count += 1;
        }
    }
    what.text(if count == 0 { " none" } else { "" });
    what
}

/// The place to which an instruction jumps or calls byte code.
pub(crate) fn target_of(stopped: &Stopped) -> Option<i128> {
    let here = stopped.at.here?;
    let (insn, next) = stopped.at.insn?;
    let reloc = match here.reloc {
        Some(place) => Some(u64::from(place)),
        None => None,
    };
    target_place(&insn, next, reloc)
}

/// What is said where a jump or a call goes to no such place.
pub(crate) fn said_of_target(stopped: &Stopped) -> Option<Said> {
    let place = target_of(stopped)?;
    Some(Said::only(match stopped.at.insn {
        Some((Insn::Call { .. }, _)) => call_line(stopped, place),
        _ => jump_line(stopped, place),
    }))
}

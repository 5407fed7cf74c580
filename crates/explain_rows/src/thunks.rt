//! What is said of `thunk`.

ghost use Rattle.ebc_insn.specs.Spelling.{WellFormed};

use crate::operands::right_memory;
use ebc_insn::Insn;
use explain_base::{Line, Said, Scene};
use rules_base::{Place, place_at};

// What is said of BREAK 5.
fn making_line(scene: &Scene) -> Line {
    let (made, count) = (scene.state.made, scene.notes.thunk.len());
    let mut what = Line::of(scene.alloc, "BREAK 5 makes ");
    if count <= made as usize {
        what.text("a thunk, and all ")
            .count(count)
            .text(" of the notes are made");
        return what;
    }
    what.text("thunk ")
        .number(u64::from(made))
        .text(" next, and R7 is ");
    what.type_of(scene.notes, scene.f, scene.state.regs[7])
        .text("; thunk:")
        .number(u64::from(made));
    what.text(" is wanted");
    what
}

// What is said of another instruction than BREAK, which may read a thunk cell.
fn using_line(scene: &Scene) -> Line
    requires { WellFormed scene.now.insn.now }
{
    let place = match right_memory(scene.insn) {
        Some(m) => place_at(scene.notes, scene.f, scene.state, m.reg, m.distance),
        None => None,
    };
    let mut what = Line::new(scene.alloc);
    if let Some(Place::ThunkCell(thunk)) = place {
        what.text("thunk ")
            .number(u64::from(thunk))
            .text(" is used, and ");
    }
    what.number(u64::from(scene.state.made))
        .text(" of the ")
        .count(scene.notes.thunk.len())
        .text(" thunks are made here");
    what.text(match place {
        Some(Place::ThunkCell(_)) => "; BREAK 5 makes them in the order of the notes",
        _ => ", and a call wants all of them made before",
    });
    what
}

/// What is said of `thunk`.
pub(crate) fn said_of_thunk(scene: &Scene) -> Said
    requires { WellFormed scene.now.insn.now }
{
    Said::only(match scene.insn {
        Insn::Break { .. } => making_line(scene),
        _ => using_line(scene),
    })
}

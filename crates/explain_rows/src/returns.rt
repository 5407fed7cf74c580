//! What is said of `return`.

ghost use Rattle.std.specs.Prelude.{◌<◌, IfSome};

use crate::sizes::items_size;
use explain_base::{Line, Said, Scene};
use note_types::Ty;

// The first of R1 to R3 that isn't what it was at the entry.
fn changed(scene: &Scene) -> Option<u8>
    ensures { IfSome result (λ reg. reg < 8) }
{
    for reg in 1..4u8 {
        let t = scene.state.regs[reg as usize];
        if t != Ty::Saved(reg) {
            return Some(reg);
        }
    }
    None
}

/// What is said of `return`.
pub(crate) fn said_of_return(scene: &Scene) -> Said {
    let (notes, f) = (scene.notes, scene.f);
    let mut what = Line::of(scene.alloc, "RET with ");
    if !scene.state.items.is_empty() {
        what.text("items on the stack, ")
            .size(items_size(scene))
            .text(" in all, and none is wanted");
        return Said::only(what);
    }
    if let Some(reg) = changed(scene) {
        let number = u64::from(reg);
        what.type_of(notes, f, scene.state.regs[reg as usize])
            .text(" in R")
            .number(number);
        what.text(", and saved:").number(number);
        what.text(", what R")
            .number(number)
            .text(" held at the entry, is wanted");
        return Said::only(what);
    }
    what.type_of(notes, f, scene.state.regs[7])
        .text(" in R7, and ")
        .type_of(notes, f, f.result)
        .text(" is wanted");
    let (number, note) = (scene.func as usize, "the function's result");
    Said::with_key(what, "function", number, "result", note)
}

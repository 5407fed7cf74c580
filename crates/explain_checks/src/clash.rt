//! What is said of the rule `below` where `infer` is stuck: a state clashes with another one that comes to the same
//! place.

ghost use Rattle.note_types.specs.Records.{IsNotes};

use crate::below::write_items;
use crate::refused::Stopped;
use crate::targets::target_of;
use ebc_insn::{Cond, Insn};
use explain_base::{Line, Said};
use note_types::State;

// Where a state comes, by the ways of the instruction before it.
fn said_of_ways(stopped: &Stopped, ways: Line, s: &State) -> Said {
    let mut what = ways;
    what.text(" with ");
    write_items(stopped, s.items.as_slice(), &mut what);
    what.text(" on the stack and made ")
        .number(u64::from(s.made));
    what.text("; another way comes there with other items or another made, and the two don't join");
    Said::only(what)
}

/// What is said where the state clashes. A jump leaves the items and the thunks as they were.
pub(crate) fn said_of_clash(stopped: &Stopped) -> Option<Said>
    requires { IsNotes stopped.now.refused.now.notes.now }
{
    let (insn, next) = stopped.at.insn?;
    let (place, may_fall) = match insn {
        Insn::Call { .. } => (None, true),
        Insn::Jump { cond, .. } | Insn::Jump8 { cond, .. } => (
            target_of(stopped),
            cond != Cond::Always,
        ),
        _ => (target_of(stopped), true),
    };
    let Some(place) = place else {
        let successors = stopped.at.leads(stopped.refused.notes)?;
        let fall = successors.fall.as_ref()?;
        let mut ways = Line::of(stopped.refused.alloc, "this falls to ");
        ways.at(next);
        return Some(said_of_ways(stopped, ways, fall));
    };
    let state = stopped.at.state.as_ref()?;
    let mut ways = Line::of(stopped.refused.alloc, "this jumps to ");
    ways.target(place);
    if may_fall {
        ways.text(" or falls to ").at(next);
    }
    Some(said_of_ways(stopped, ways, state))
}

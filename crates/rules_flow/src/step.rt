//! What an instruction of control or of the stack does, told by what changes.

ghost use Rattle.std.specs.Prelude.{◌≡◌, not};
ghost use Rattle.rules_flow.specs.Narrowing.{narrow};
ghost use Rattle.rules_flow.specs.Steps.{FitsStep, FitsUpdate, successors_of, updated};

use crate::calls::{set_called, set_made};
use crate::frames::{drop_items, pop_item, push_item};
use crate::narrowing::narrow;
use crate::successors::Successors;
use note_types::{Item, State, Ty};
use rules_base::Change;

/// Where control goes on after an instruction, and what changes in the state.
#[derive(Clone, Copy, PartialEq, Eq)]
pub enum Step {
    /// The next instruction, after a change.
    Falls(Update),
    /// The instruction at a place, with nothing changed.
    Goes { place: u32 },
    /// The instruction at a place where C is `set`, and else the next one; each state is narrowed.
    Parts { place: u32, set: bool },
    /// No instruction of the function.
    Ends,
}

/// What changes before the next instruction.
#[derive(Clone, Copy, PartialEq, Eq)]
pub enum Update {
    /// A call: R7 has this type, and these local fields are written.
    Called { ty: Ty, written: u64 },
    /// The next thunk is made.
    Made,
    /// An item comes on top.
    Pushed(Item),
    /// The top item goes, and then this changes.
    Popped(Change),
    /// So many items go from the top, and the locals are lost or aren't.
    Dropped { count: usize, lost: bool },
}

impl Update {
    /// Makes the change.
    pub fn apply(self, s: &mut State)
        requires { FitsUpdate s.old self }
        ensures { s.new ≡ updated s.old self }
    {
        match self {
            Update::Called { ty, written } => set_called(s, ty, written),
            Update::Made => set_made(s),
            Update::Pushed(item) => push_item(s, item),
            Update::Popped(change) => {
                pop_item(s);
                change.apply(s);
            }
            Update::Dropped { count, lost } => drop_items(s, count, lost),
        }
    }
}

// The same state once more, after a change.
fn after(s: &State, update: Update) -> State
    requires { FitsUpdate s.now update }
    ensures { result ≡ updated s.now update }
{
    let mut next = s.copy();
    update.apply(&mut next);
    next
}

/// The same state once more, narrowed to where C is set, if `taken`, or clear.
pub fn narrowed(s: &State, taken: bool) -> State
    ensures { result ≡ narrow s.now taken }
{
    let mut next = s.copy();
    narrow(&mut next, taken);
    next
}

impl Step {
    /// The states that the instruction leads to from a state, which is copied once for each of them.
    pub fn successors(self, s: &State) -> Successors
        requires { FitsStep s.now self }
        ensures { result ≡ successors_of s.now self }
    {
        match self {
            Step::Falls(update) => Successors::falls(after(s, update)),
            Step::Goes { place } => Successors::goes(place, s.copy()),
            Step::Parts { place, set } => {
                Successors::parts(narrowed(s, !set), place, narrowed(s, set))
            }
            Step::Ends => Successors::ends(),
        }
    }
}

//! What a walk leaves to its caller.

ghost use Rattle.ebc_insn.specs.Spelling.{WellFormed};
ghost use Rattle.note_types.specs.Records.{IsNotes};

use ebc_base::NoMemory;
use ebc_insn::Insn;
use note_types::{FnNote, Notes, State};
use rules_base::Here;
use rules_flow::Successors;

/// How control comes to a leader.
#[derive(Clone, Copy, PartialEq, Eq)]
pub enum Source {
    /// By the entry of its function.
    Entry,
    /// From the instruction before it.
    Fall,
    /// By the jump at this place.
    Jump(u32),
}

/// What meets instructions and leaders on a walk.
pub trait Visitor {
    /// The states after an instruction of a function in a state; none where the walk ends.
    ///
    /// # Errors
    ///
    /// There is no memory.
    fn after(
        &mut self,
        notes: &Notes,
        f: &FnNote,
        here: &Here,
        s: &State,
        i: &Insn,
    ) -> Result<Option<Successors>, NoMemory>
        requires notes { IsNotes notes.now }
        requires well_formed { WellFormed i.now };

    /// Takes the state that comes to the leader of this number.
    ///
    /// # Errors
    ///
    /// There is no memory.
    fn come(&mut self, number: usize, source: Source, s: State) -> Result<(), NoMemory>;
}

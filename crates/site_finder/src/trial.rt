//! Notes in which one site at a time is tried.

ghost use Rattle.std.specs.Prelude.{◌<◌, ◌^◌, length, map};
ghost use Rattle.std.specs.List.Sorted.{IsStrictlyIncreasing};
ghost use Rattle.ebc_insn.specs.Spelling.{WellFormed};
ghost use Rattle.note_types.specs.Records.{IsNotes};
ghost use Rattle.note_types.specs.declared.notes.FnNote.{FnNote};
ghost use Rattle.note_types.specs.declared.notes.Point.{Point};
ghost use Rattle.note_types.specs.declared.notes.Site.{Site};

use ebc_base::{NoMemory, Sequence};
use ebc_insn::Insn;
use note_infer::row;
use note_types::{Notes, Site, State};
use rules_base::Here;
use rules_flow::Successors;
use std::alloc::Global;

/// Notes with the leaders as points, whose functions, points and sites ascend by place.
#[derive(Drop)]
pub(crate) struct Trial {
    pub notes: Notes,
    ghost thunks: { length notes.thunk < 2 ^ 32 },
    ghost functions: { IsStrictlyIncreasing (map (λ (f : FnNote). f.place) notes.function) },
    ghost points: { IsStrictlyIncreasing (map (λ (p : Point). p.place) notes.point) },
    ghost sites: { IsStrictlyIncreasing (map (λ (o : Site). o.place) notes.site) },
}

impl Trial {
    /// Notes in which sites are tried in place of their own.
    pub fn new(notes: Notes) -> Trial
        requires { IsNotes notes }
    {
        Trial { notes }
    }

    /// The states after an instruction in a state, where no rule of its row fails.
    pub fn after(&self, here: &Here, s: &State, i: &Insn) -> Option<Successors>
        requires { WellFormed i.now }
    {
        row(&self.notes, here, s, i).ok()
    }

    /// The states after a native call in a state by the signature of this number, where no rule of its row fails.
    ///
    /// # Errors
    ///
    /// There is no memory.
    pub fn after_call(
        &mut self,
        alloc: Global,
        here: &Here,
        s: &State,
        i: &Insn,
        signature: u32,
    ) -> Result<Option<Successors>, NoMemory>
        requires { WellFormed i.now }
    {
        let site = Site {
            place: here.place,
            signature,
        };
        self.notes.site = Sequence::new(vec![in alloc; site]?);
        Ok(self.after(here, s, i))
    }
}

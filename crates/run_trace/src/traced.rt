//! A run whose steps are told, with the CALLs that haven't returned.
ghost use Rattle.std.specs.Prelude.{◌≡◌, ◌↔◌, ℕ, ◌+◌, ◌-◌, ◌^◌, ◌<◌, ◌++◌, IfOk, IsTrue, OnOk, min};
ghost use Rattle.ebc_width.specs.Width.{IsWidth};
ghost use Rattle.host_model.specs.RunState.{RunState};
ghost use Rattle.host_model.specs.Scripts.{IsScript};
ghost use Rattle.host_model.specs.World.{World};
ghost use Rattle.note_types.specs.Records.{IsNotes};
ghost use Rattle.note_types.specs.declared.ending.Ending.TheVariants.{Running};
ghost use Rattle.pe_image.specs.Images.{IsImage};
ghost use Rattle.pe_image.specs.Mapped.{AreBytes};
ghost use Rattle.twin_run.specs.Runner.{IsRunner};
ghost use Rattle.run_trace.specs.Following.{IsAfter, world_under};
ghost use Rattle.run_trace.specs.Traces.{lines_of, state_after};

use crate::calls::{InnerCall, follow, next_back};
use crate::telling::{Program, append_state, tell_step};
use note_types::{Ending, NoMemory};
use std::alloc::Global;
use twin_run::{Runner, start};

/// A run that has begun, and the CALLs of the image that haven't returned, the first one first.
#[derive(Drop)]
pub struct TracedRun<const W: usize> {
    pub(crate) runner: Runner<W>,
    pub(crate) calls: Vec<InnerCall>,
}

impl<const W: usize> TracedRun<W> {
    /// Starts a run.
    ///
    /// # Errors
    ///
    /// There is no memory for it.
    pub fn start(alloc: Global, program: Program) -> Result<TracedRun<W>, NoMemory>
        requires width { IsWidth W }
        requires image { IsImage program.image.now }
        requires bytes { AreBytes program.image.now }
        requires notes { IsNotes program.notes.now }
        requires script { IsScript program.notes.now program.script.now }
        ensures start { IfOk result (IsAfter W program.entry 0) }
        ensures taken { IfOk result (λ x. x.runner.taken ≡ 0) }
    {
        let runner = start::<W>(alloc, program.image, program.notes, program.script)?;
        let calls = Vec::new(alloc);
        Ok(TracedRun { runner, calls })
    }

    /// Whether it goes on.
    pub fn goes_on(&self) -> bool
        ensures { (world : World) (r : RunState) → IsRunner W world self.now.runner r → IsTrue result ↔ (r.ending ≡ Running) }
    {
        matches!(self.runner.ending(), Ending::Running)
    }

    /// Takes the next step. A run that ended stays as it is.
    ///
    /// # Errors
    ///
    /// There is no memory for one CALL more.
    pub fn step(&mut self, program: Program) -> Result<(), NoMemory>
        requires width { IsWidth W }
        requires after { (taken : ℕ) × IsAfter W program taken self.old }
        ensures after { OnOk result ((taken : ℕ) → IsAfter W program.entry taken self.old → IsAfter W program.entry (taken + 1) self.new) }
        ensures counted { self.old.runner.ending ≡ Running → self.new.runner.taken ≡ min (self.old.runner.taken + 1) (2 ^ 64 - 1) }
    {
        if self.goes_on() {
            let back = next_back(&self.runner, program.notes, program.script);
            self.runner
                .step(program.image, program.notes, program.script);
            return follow(&mut self.calls, &self.runner, back);
        }
        Ok(())
    }

    /// Takes the step behind the first so many, and appends its lines. A run that has ended stays as it is, and its step has none.
    ///
    /// # Errors
    ///
    /// There is no memory for the text, or for one CALL more.
    pub fn tell_step(
        &mut self,
        alloc: Global,
        program: Program,
        taken: u64,
        out: &mut Vec<u8>,
    ) -> Result<(), NoMemory>
        requires width { IsWidth W }
        requires image { IsImage program.image.now }
        requires few { taken < 2 ^ 64 - 1 }
        requires before { IsAfter W program taken self.old }
        ensures after { OnOk result (IsAfter W program.entry (taken + 1) self.new) }
        ensures counted { self.old.runner.ending ≡ Running → self.new.runner.taken ≡ min (self.old.runner.taken + 1) (2 ^ 64 - 1) }
        ensures text { OnOk result
            (out.new.items ≡ out.old.items ++ lines_of W program.entry.image.now (world_under program.entry) (taken + 1)) }
    {
        if self.goes_on() {
            let back = next_back(&self.runner, program.notes, program.script);
            tell_step(alloc, program, &mut self.runner, taken + 1, out)?;
            return follow(&mut self.calls, &self.runner, back);
        }
        Ok(())
    }

    /// Appends the lines of the state: what the machine holds, what is open and what has changed.
    ///
    /// # Errors
    ///
    /// There is no memory for the text.
    pub fn append_state(
        &self,
        alloc: Global,
        program: Program,
        out: &mut Vec<u8>,
    ) -> Result<(), NoMemory>
        requires width { IsWidth W }
        requires image { IsImage program.image.now }
        requires bytes { AreBytes program.image.now }
        requires notes { IsNotes program.notes.now }
        requires script { IsScript program.notes.now program.script.now }
        requires after { (taken : ℕ) × IsAfter W program taken self.now }
        ensures { OnOk result ((taken : ℕ) → IsAfter W program.entry taken self.now →
            out.new.items ≡ out.old.items ++ state_after W program.entry.image.now (world_under program.entry) taken) }
    {
        append_state(alloc, program, &self.runner, self.calls.as_slice(), out)
    }
}

//! The runs of an image at both widths, step by step.
ghost use Rattle.std.specs.Prelude.{◌≡◌, ℕ, ◌+◌, ◌-◌, ◌^◌, ◌<◌, ◌++◌, IfOk, OnOk, false, max};
ghost use Rattle.host_model.specs.Scripts.{IsScript};
ghost use Rattle.note_types.specs.Records.{IsNotes};
ghost use Rattle.pe_image.specs.Images.{IsImage};
ghost use Rattle.pe_image.specs.Mapped.{AreBytes};
ghost use Rattle.run_trace.specs.Following.{HasEnded, world_under};
ghost use Rattle.run_trace.specs.declared.telling.Program.{Program};
ghost use Rattle.twin_trace.specs.BothTraces.{AreBothAfter, states_beside, step_beside, steps_beside};

use ebc_base::NoMemory;
use run_trace::{Program, TracedRun};
use side_by_side::append_beside;
use std::alloc::Global;

/// The runs of an image at both widths, after as many steps.
#[derive(Drop)]
pub(crate) struct BothRuns {
    pub at4: TracedRun<4>,
    pub at8: TracedRun<8>,
}

impl BothRuns {
    /// Starts both runs.
    ///
    /// # Errors
    ///
    /// There is no memory for them.
    pub fn start(alloc: Global, program: Program) -> Result<BothRuns, NoMemory>
        requires image { IsImage program.image.now }
        requires bytes { AreBytes program.image.now }
        requires notes { IsNotes program.notes.now }
        requires script { IsScript program.notes.now program.script.now }
        ensures { IfOk result (AreBothAfter program.entry 0) }
    {
        let at4 = TracedRun::start(alloc, program)?;
        let at8 = TracedRun::start(alloc, program)?;
        Ok(BothRuns { at4, at8 })
    }

    // Whether one of them goes on.
    fn go_on(&self) -> bool
        ensures { (program : Program) (taken : ℕ) → AreBothAfter program taken self.now → result ≡ false →
            HasEnded 4 program taken × HasEnded 8 program taken }
    {
        if self.at4.goes_on() {
            return true;
        }
        self.at8.goes_on()
    }

    /// Goes on from after so many steps to after as many.
    ///
    /// # Errors
    ///
    /// There is no memory for what is open.
    pub fn pass(&mut self, program: Program, taken: u64, last: u64) -> Result<(), NoMemory>
        requires { AreBothAfter program taken self.old }
        ensures { OnOk result (AreBothAfter program.entry (max taken last) self.new) }
    {
        let mut number = taken;
        while number < last && self.go_on() {
            self.at4.step(program)?;
            self.at8.step(program)?;
            number += 1;
        }
        Ok(())
    }

    // Takes the step behind the first so many, and appends its lines.
    fn tell_next(
        &mut self,
        alloc: Global,
        program: Program,
        taken: u64,
        out: &mut Vec<u8>,
    ) -> Result<(), NoMemory>
        requires image { IsImage program.image.now }
        requires few { taken < 2 ^ 64 - 1 }
        requires before { AreBothAfter program taken self.old }
        ensures after { OnOk result (AreBothAfter program.entry (taken + 1) self.new) }
        ensures text { OnOk result
            (out.new.items ≡ out.old.items ++ step_beside program.entry.image.now (world_under program.entry) (taken + 1)) }
    {
        let mut at32 = Vec::new(alloc);
        let mut at64 = Vec::new(alloc);
        self.at4.tell_step(alloc, program, taken, &mut at32)?;
        self.at8.tell_step(alloc, program, taken, &mut at64)?;
        append_beside(at32.as_slice(), at64.as_slice(), out)?;
        Ok(())
    }

    /// Goes on from after so many steps to after as many, and appends the lines of the steps.
    ///
    /// # Errors
    ///
    /// There is no memory for the text.
    pub fn tell(
        &mut self,
        alloc: Global,
        program: Program,
        taken: u64,
        last: u64,
        out: &mut Vec<u8>,
    ) -> Result<(), NoMemory>
        requires image { IsImage program.image.now }
        requires before { AreBothAfter program taken self.old }
        ensures after { OnOk result (AreBothAfter program.entry (max taken last) self.new) }
        ensures text { OnOk result
            (out.new.items ≡ out.old.items ++ steps_beside program.entry.image.now (world_under program.entry) taken last) }
    {
        let mut number = taken;
        while number < last && self.go_on() {
            self.tell_next(alloc, program, number, out)?;
            number += 1;
        }
        Ok(())
    }

    /// Appends the lines of the states of both runs.
    ///
    /// # Errors
    ///
    /// There is no memory for the text.
    pub fn append_states(
        &self,
        alloc: Global,
        program: Program,
        out: &mut Vec<u8>,
    ) -> Result<(), NoMemory>
        requires image { IsImage program.image.now }
        requires bytes { AreBytes program.image.now }
        requires notes { IsNotes program.notes.now }
        requires script { IsScript program.notes.now program.script.now }
        requires after { (taken : ℕ) × AreBothAfter program taken self.now }
        ensures { OnOk result ((taken : ℕ) → AreBothAfter program.entry taken self.now →
            out.new.items ≡ out.old.items ++ states_beside program.entry.image.now (world_under program.entry) taken) }
    {
        let mut at32 = Vec::new(alloc);
        let mut at64 = Vec::new(alloc);
        self.at4.append_state(alloc, program, &mut at32)?;
        self.at8.append_state(alloc, program, &mut at64)?;
        append_beside(at32.as_slice(), at64.as_slice(), out)?;
        Ok(())
    }
}

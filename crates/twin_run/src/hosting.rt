//! The steps of the host in a run (docs/HOST.md, "Steps").
ghost use Rattle.std.specs.Prelude.{◌≡◌, ◌<◌, ◌≤◌, None, true, false, length, nat_eq, Some, vec_capacity};
ghost use Rattle.ebc_width.specs.Width.{IsWidth};
ghost use Rattle.note_types.specs.Records.{IsNotes};
ghost use Rattle.host_model.specs.HostPlans.{function_params, is_due};
ghost use Rattle.host_model.specs.HostSteps.{call_under_way, host_step};
ghost use Rattle.host_model.specs.Placements.{frame_limit, own_placement};
ghost use Rattle.host_model.specs.Progress.{NoCall};
ghost use Rattle.host_model.specs.RunState.{RunState};
ghost use Rattle.host_model.specs.World.{World};
ghost use Rattle.native_host.specs.Hosts.{HasRoom, IsCalled};
ghost use Rattle.native_host.specs.Kept.{IsOf};
ghost use Rattle.native_host.specs.Steps.{OnEnter, taken};
ghost use Rattle.twin_run.specs.Runner.{IsAt, IsReady};

use crate::entering::argument_numbers;
use crate::runner::{AskedCall, Runner};
use entry_thunk::leave;
use native_host::HostStep;
use note_types::{Ending, Notes, Script};

impl<const W: usize> Runner<W> {
    // The function of the top frame has returned: the frame is left, and the run is finished where it was the first one.
    pub(crate) fn leave_function(&mut self, notes: &Notes)
        requires width { IsWidth W }
        requires notes { IsOf W notes.now self.old.host.places }
        requires room { HasRoom self.old.host 1 }
        requires inside { 0 < length self.old.frames }
        ensures at { (world : World) (r : RunState) → world.notes ≡ notes.now → nat_eq r.machine.ip r.machine.gate ≡ true →
            IsAt W world self.old r → IsAt W world self.new (host_step W world (own_placement W world) r) }
        ensures capacity { vec_capacity self.old.host.trace ≤ vec_capacity self.new.host.trace }
    {
        let Some(left) = leave(&mut self.machine, &mut self.frames) else {
            unreachable!();
        };
        self.asked = None;
        if left.notified {
            let _ = self.host.resumed(notes, left.func, left.r7);
        } else if self.frames.depth() == 0 {
            self.ending = Ending::Finished(self.host.result_of(notes, left.func, left.r7));
        } else {
            let _ = self.host.returned(notes, left.func, left.r7);
        }
    }

    // A native call is asked for.
    pub(crate) fn call(&mut self, notes: &Notes, script: &Script, asked: AskedCall)
        requires width { IsWidth W }
        requires ready { IsReady W notes.now script.now self.old }
        requires asked { self.old.asked ≡ Some asked }
        ensures at { (world : World) (r : RunState) → world.notes ≡ notes.now → world.script ≡ script.now →
            nat_eq r.machine.ip r.machine.gate ≡ false → IsAt W world self.old r →
            IsAt W world self.new (host_step W world (own_placement W world) r) }
        ensures capacity { vec_capacity self.old.host.trace ≤ vec_capacity self.new.host.trace }
    {
        let r0 = self.machine.regs[0];
        match self.host.call(
            notes,
            script,
            &mut self.mem,
            &mut self.frames,
            r0,
            asked.place,
            asked.target,
        ) {
            HostStep::Accepted => self.asked = None,
            ended => self.take(notes, ended, false),
        }
    }

    // A native call that was accepted goes on.
    pub(crate) fn next(&mut self, notes: &Notes, script: &Script)
        requires width { IsWidth W }
        requires ready { IsReady W notes.now script.now self.old }
        requires asked { self.old.asked ≡ None }
        requires called { IsCalled self.old.frames }
        ensures at { (world : World) (r : RunState) → world.notes ≡ notes.now → world.script ≡ script.now →
            nat_eq r.machine.ip r.machine.gate ≡ false → IsAt W world self.old r →
            IsAt W world self.new (host_step W world (own_placement W world) r) }
        ensures capacity { vec_capacity self.old.host.trace ≤ vec_capacity self.new.host.trace }
    {
        let step = self
            .host
            .next(notes, script, &mut self.mem, &mut self.frames);
        self.take(notes, step, false);
    }

    // A notification is due.
    pub(crate) fn notify(&mut self, notes: &Notes, script: &Script)
        requires width { IsWidth W }
        requires ready { IsReady W notes.now script.now self.old }
        requires asked { self.old.asked ≡ None }
        ensures at { (world : World) (r : RunState) → world.notes ≡ notes.now → world.script ≡ script.now →
            nat_eq r.machine.ip r.machine.gate ≡ false → call_under_way r.hosts ≡ NoCall → is_due world.script r.script ≡ true →
            IsAt W world self.old r → IsAt W world self.new (host_step W world (own_placement W world) r) }
        ensures capacity { vec_capacity self.old.host.trace ≤ vec_capacity self.new.host.trace }
    {
        let step = self.host.notification(notes, script, &self.frames);
        self.take(notes, step, true);
    }

    // Takes what a step of the host comes to: a function is entered, as a notification or not, a call gets its reply, or the run
    // ends.
    fn take(&mut self, notes: &Notes, step: HostStep, notified: bool)
        requires width { IsWidth W }
        requires notes { IsNotes notes.now }
        requires kept { IsOf W notes.now self.old.host.places }
        requires entered { OnEnter step (λ func args.
            (func < length notes.now.function) × (length args ≡ length (function_params notes.now func)) ×
            (length self.old.frames < frame_limit) × (self.old.asked ≡ None)) }
        ensures at { (world : World) (r : RunState) → world.notes ≡ notes.now → IsAt W world self.old r →
            IsAt W world self.new (taken notified W world (own_placement W world) r step) }
        ensures host { self.new.host ≡ self.old.host }
    {
        match step {
            HostStep::Accepted => {}
            HostStep::Enter { func, args } => {
                let numbers = argument_numbers(&self.host, &args);
                self.enter(notes, func, numbers.as_slice(), notified);
            }
            HostStep::Reply(number) => self.machine.regs[7] = number,
            HostStep::Mismatch(reason) => self.ending = Ending::Mismatch(reason),
            HostStep::ScriptEnd => self.ending = Ending::ScriptEnd,
            HostStep::Raised(exception) => self.ending = Ending::Raised(exception),
        }
    }
}

//! The runner of a run at one width (docs/HOST.md, "Runs").
ghost use Rattle.std.specs.Prelude.{◌≡◌, ◌≢◌, ◌↔◌, ◌+◌, ◌-◌, ◌^◌, ◌<◌, ◌≤◌, false, min, IfOk, IfSome, IsTrue, None, length, map};
ghost use Rattle.std.specs.Prelude.{vec_capacity};
ghost use Rattle.std.specs.Bool.{OnFalse, OnTrue};
ghost use Rattle.ebc_width.specs.Width.{IsWidth};
ghost use Rattle.note_types.specs.Records.{IsNotes};
ghost use Rattle.note_types.specs.declared.ending.Ending.TheVariants.{Running};
ghost use Rattle.note_types.specs.declared.script.Script.{Script};
ghost use Rattle.pe_image.specs.Images.{IsImage};
ghost use Rattle.pe_image.specs.Mapped.{AreBytes};
ghost use Rattle.callex_thunk.specs.HostFrames.{saved_of};
ghost use Rattle.host_model.specs.HostPlans.{is_due};
ghost use Rattle.host_model.specs.HostSteps.{call_under_way, spot_of};
ghost use Rattle.host_model.specs.Placements.{own_placement};
ghost use Rattle.host_model.specs.Progress.{NoCall, ScriptPlace};
ghost use Rattle.host_model.specs.RunState.{RunState};
ghost use Rattle.host_model.specs.Runs.{run_of, run_step, running_step, world_of};
ghost use Rattle.host_model.specs.Scripts.{IsScript};
ghost use Rattle.host_model.specs.World.{World};
ghost use Rattle.native_host.specs.Hosts.{IsCalled};
ghost use Rattle.twin_run.specs.Runner.{GoesOnFor, IsAt, IsFree, IsMachines, IsQuiet, IsReady, IsRunner, Runs, TakesSteps, steps_on};

use crate::entering::numbers_of;
use crate::reports::RunReport;
use callex_thunk::NO_ENTRY;
use ebc_base::NoMemory;
use ebc_machine::Machine;
use frame_stack::FrameStack;
use native_host::Host;
use note_types::{Ending, Event, Notes, Script, Spot};
use object_memory::ObjMem;
use pe_image::Image;
use std::alloc::Global;

// How many instructions ahead a runner looks for a notification.
const AHEAD: u64 = 1_000;

/// A native call that a call instruction asks for.
#[derive(Clone, Copy)]
pub struct AskedCall {
    /// The place of the instruction, 0xFFFFFFFF outside the image.
    pub place: u32,
    /// The address that is called.
    pub target: u64,
}

/// A run of an image on the modelled host, at a width of `W` bytes, step by step (docs/HOST.md). Nothing is allocated once it is
/// started.
#[derive(Drop)]
pub struct Runner<const W: usize> {
    pub(crate) host: Host<W>,
    pub(crate) mem: ObjMem<W>,
    pub(crate) machine: Machine<W>,
    pub(crate) frames: FrameStack,
    // The native call that is asked for in the top frame, until the host accepts it.
    pub(crate) asked: Option<AskedCall>,
    // How many instructions are done, up to 2^64 - 1.
    pub(crate) done: u64,
    // While fewer instructions are done no native call is under way and no notification is due.
    pub(crate) quiet: u64,
    // How many steps it took, up to 2^64 - 1.
    pub(crate) taken: u64,
    // The bytes that the image takes.
    pub(crate) image_size: u32,
    pub(crate) ending: Ending,
}

/// Starts a run of an image under notes and with a script, all of which were read: the state before the first step.
///
/// # Errors
///
/// There is no memory for the run. No other call of the runner takes any.
pub fn start<const W: usize>(
    alloc: Global,
    image: &Image,
    notes: &Notes,
    script: &Script,
) -> Result<Runner<W>, NoMemory>
    requires width { IsWidth W }
    requires image { IsImage image.now }
    requires bytes { AreBytes image.now }
    requires notes { IsNotes notes.now }
    requires script { IsScript notes.now script.now }
    ensures start { IfOk result (λ x.
        IsRunner W (world_of image.now notes.now script.now) x
        (run_of W (world_of image.now notes.now script.now) (own_placement W (world_of image.now notes.now script.now)) image.now 0)) }
    ensures taken { IfOk result (λ x. x.taken ≡ 0) }
{
    let (host, mem) = native_host::start::<W>(alloc, image, notes, script)?;
    let frames = FrameStack::new(alloc)?;
    let numbers = numbers_of(&host, &script.args);
    let machine = Machine {
        regs: [host.stack_end(), 0, 0, 0, 0, 0, 0, 0],
        ip: host.gate(),
        flags: 0,
        gate: host.gate(),
    };
    let mut runner = Runner {
        host,
        mem,
        machine,
        frames,
        asked: None,
        done: 0,
        quiet: 0,
        taken: 0,
        image_size: image.size,
        ending: Ending::Running,
    };
    runner.enter(notes, notes.entry, numbers.as_slice(), false);
    Ok(runner)
}

impl<const W: usize> Runner<W> {
    /// One step of the run of an image under its notes and with its script, the host's or the machine's; it is counted. A run that
    /// ended stays as it is. The image is in the runner's memory since the start, so no step looks at this one.
    pub fn step(&mut self, image: &Image, notes: &Notes, script: &Script)
        requires width { IsWidth W }
        requires runs { Runs W notes.now script.now self.old }
        ensures step { (world : World) (r : RunState) → world.notes ≡ notes.now → world.script ≡ script.now → IsRunner W world self.old r →
            IsRunner W world self.new (run_step W world (own_placement W world) r) }
        ensures counted { self.old.ending ≡ Running → self.new.taken ≡ min (self.old.taken + 1) (2 ^ 64 - 1) }
        ensures over { self.old.ending ≢ Running → self.new ≡ self.old }
    {
        if let Ending::Running = self.ending {
            self.steps(notes, script, 1);
        }
    }

    // Steps of a run that goes on, at least one and at most so many, which are counted; how many they were.
    pub(crate) fn steps(&mut self, notes: &Notes, script: &Script, most: u64) -> u64
        requires width { IsWidth W }
        requires runs { Runs W notes.now script.now self.old }
        requires running { self.old.ending ≡ Running }
        requires some { 0 < most }
        ensures steps { TakesSteps W notes.now script.now self.old self.new result }
        ensures some { 0 < result }
        ensures most { result ≤ most }
    {
        let taken = self.taken;
        let steps = self.go_on(notes, script, most);
        self.taken = taken.saturating_add(steps);
        steps
    }

    // The same without the count.
    fn go_on(&mut self, notes: &Notes, script: &Script, most: u64) -> u64
        requires width { IsWidth W }
        requires runs { Runs W notes.now script.now self.old }
        requires running { self.old.ending ≡ Running }
        requires some { 0 < most }
        ensures steps { (world : World) (r : RunState) → world.notes ≡ notes.now → world.script ≡ script.now → IsRunner W world self.old r →
            IsRunner W world self.new (steps_on W world result r) }
        ensures goes_on { (world : World) (r : RunState) → world.notes ≡ notes.now → world.script ≡ script.now →
            IsRunner W world self.old r → GoesOnFor W world result r }
        ensures some { 0 < result }
        ensures most { result ≤ most }
    {
        match self.turn(notes, script) {
            None => 1,
            Some(free) => self.instructions(notes, if free < most { free } else { most }),
        }
    }

    // A step of the host, where it is the host's turn; else how many steps, at least one, are the machine's if they stay inside a
    // function and ask for nothing.
    fn turn(&mut self, notes: &Notes, script: &Script) -> Option<u64>
        requires width { IsWidth W }
        requires ready { IsReady W notes.now script.now self.old }
        requires quiet { IsQuiet script.now self.old }
        ensures host { (world : World) (r : RunState) → result ≡ None → world.notes ≡ notes.now → world.script ≡ script.now →
            IsAt W world self.old r → IsAt W world self.new (running_step W world (own_placement W world) r) }
        ensures machine { IfSome result (IsMachines W script.now self.old self.new) }
        ensures quiet { IsQuiet script.now self.new }
        ensures capacity { vec_capacity self.old.host.trace ≤ vec_capacity self.new.host.trace }
    {
        let free = self.free();
        if free > 0 {
            Some(free)
        } else if self.machine.ip == self.machine.gate {
            self.leave_function(notes);
            self.quiet = 0;
            None
        } else {
            self.look(notes, script)
        }
    }

    // How many steps are the machine's if they stay inside a function and ask for nothing, as far as it is known.
    pub(crate) fn free(&self) -> u64
        ensures inside { 0 < result → self.now.machine.ip ≢ self.now.machine.gate }
        ensures free { (script : Script) → 0 < result → IsQuiet script self.now → IsFree script self.now result }
    {
        if self.machine.ip == self.machine.gate {
            0
        } else {
            self.quiet.saturating_sub(self.done)
        }
    }

    // The same inside a function, where it has to be looked at whose turn it is.
    fn look(&mut self, notes: &Notes, script: &Script) -> Option<u64>
        requires width { IsWidth W }
        requires ready { IsReady W notes.now script.now self.old }
        requires inside { self.old.machine.ip ≢ self.old.machine.gate }
        ensures host { (world : World) (r : RunState) → result ≡ None → world.notes ≡ notes.now → world.script ≡ script.now →
            IsAt W world self.old r → IsAt W world self.new (running_step W world (own_placement W world) r) }
        ensures machine { IfSome result (IsMachines W script.now self.old self.new) }
        ensures quiet { IsQuiet script.now self.new }
        ensures capacity { vec_capacity self.old.host.trace ≤ vec_capacity self.new.host.trace }
    {
        if let Some(asked) = self.asked {
            self.call(notes, script, asked);
            self.quiet = 0;
            None
        } else if self.is_called() {
            self.next(notes, script);
            self.quiet = 0;
            None
        } else if self.host.due(script, self.done) {
            self.notify(notes, script);
            self.quiet = 0;
            None
        } else {
            self.quiet = self.quiet_ahead(script);
            Some(1)
        }
    }

    // Some instructions ahead, if no notification is due while fewer are done, and else none.
    fn quiet_ahead(&self, script: &Script) -> u64
        ensures { (at : ScriptPlace) → at.notifications ≡ self.now.host.notifications → at.instructions < result →
            is_due script.now at ≡ false }
    {
        let ahead = self.done.saturating_add(AHEAD);
        if self.host.due(script, ahead) {
            0
        } else {
            ahead
        }
    }

    // Whether a native call that the script answers is under way above the top frame.
    pub(crate) fn is_called(&self) -> bool
        requires { 0 < length self.now.frames }
        ensures called { OnTrue result (IsCalled self.now.frames) }
        ensures none { OnFalse result (call_under_way (map saved_of self.now.frames) ≡ NoCall) }
    {
        let (entry, _, _) = self.frames.mark();
        entry != NO_ENTRY
    }

    // Whether the run goes on.
    pub(crate) fn is_running(&self) -> bool
        ensures { IsTrue result ↔ (self.now.ending ≡ Running) }
    {
        matches!(self.ending, Ending::Running)
    }

    /// How the run ended, or that it goes on.
    pub fn ending(&self) -> Ending
        ensures { (world : World) (r : RunState) → IsRunner W world self.now r → result ≡ r.ending }
    {
        self.ending
    }

    /// Where the run stands.
    pub fn spot(&self) -> Spot
        ensures { (world : World) (r : RunState) → IsRunner W world self.now r → result ≡ spot_of world (own_placement W world) r.machine }
    {
        if self.machine.ip == self.machine.gate {
            return Spot::Gate;
        }
        match self.image_place(self.machine.ip) {
            Some(place) => Spot::Place(place),
            None => Spot::Wild(self.machine.ip),
        }
    }

    /// The events so far, the first one first.
    pub fn trace(&self) -> &Vec<Event>
        ensures { (world : World) (r : RunState) → IsRunner W world self.now r → result.now.items ≡ r.trace }
    {
        self.host.trace()
    }

    /// What the run shows: how many steps it took, where it stands, how it ended, or that it goes on, and its events, handed over.
    pub fn report(self) -> RunReport
        ensures steps { result.steps ≡ self.entry.taken }
        ensures spot { (world : World) (r : RunState) → IsRunner W world self.entry r →
            result.spot ≡ spot_of world (own_placement W world) r.machine }
        ensures ending { (world : World) (r : RunState) → IsRunner W world self.entry r → result.ending ≡ r.ending }
        ensures events { (world : World) (r : RunState) → IsRunner W world self.entry r → result.events.items ≡ r.trace }
    {
        RunReport {
            steps: self.taken,
            spot: self.spot(),
            ending: self.ending,
            events: self.host.into_trace(),
        }
    }
}

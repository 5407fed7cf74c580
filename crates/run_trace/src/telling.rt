//! The steps of a run, told one by one.
ghost use Rattle.std.specs.Prelude.{◌≡◌, ◌+◌, ◌-◌, ◌^◌, ◌<◌, ◌≤◌, ◌++◌, IfOk, OnOk, drop, min};
ghost use Rattle.ebc_width.specs.Width.{IsWidth};
ghost use Rattle.host_model.specs.RunState.{RunState};
ghost use Rattle.host_model.specs.Runs.{world_of};
ghost use Rattle.host_model.specs.Scripts.{IsScript};
ghost use Rattle.host_model.specs.World.{World};
ghost use Rattle.note_types.specs.Records.{IsNotes};
ghost use Rattle.note_types.specs.declared.ending.Ending.TheVariants.{Running};
ghost use Rattle.pe_image.specs.Images.{IsImage};
ghost use Rattle.pe_image.specs.Mapped.{AreBytes};
ghost use Rattle.run_trace.specs.Following.{IsAfter, Steps, TellsStep, world_under};
ghost use Rattle.run_trace.specs.Traces.{lines_of, state_lines, trace_lines};
ghost use Rattle.run_trace.specs.Walks.{RunsImage};
ghost use Rattle.twin_run.specs.Reported.{IsReport, own_run};
ghost use Rattle.twin_run.specs.Runner.{IsRunner, Runs};

use crate::before::Before;
use crate::calls::InnerCall;
use crate::changed::append_changed;
use crate::holding::holdings;
use crate::opened::append_opened;
use crate::pointing::append_pointed_to;
use crate::traced::TracedRun;
use note_types::{Event, NoMemory, Notes, Script};
use pe_image::Image;
use std::alloc::Global;
use step_texts::{append_holdings, append_step};
use twin_run::{RunReport, Runner, start};

/// What a run is of: an image under its notes and with a script.
#[derive(Clone, Copy)]
pub struct Program<'a> {
    pub image: &'a Image,
    pub notes: &'a Notes,
    pub script: &'a Script,
}

// The events from that number on.
fn added(events: &[Event], first: usize) -> &[Event]
    ensures { result.now ≡ drop first events.now }
{
    events.get(first..).unwrap_or(&[])
}

/// Takes the next step of a run that goes on, and appends its lines: it is the step of that number.
///
/// # Errors
///
/// There is no memory for the text.
pub(crate) fn tell_step<const W: usize>(
    alloc: Global,
    program: Program,
    runner: &mut Runner<W>,
    number: u64,
    out: &mut Vec<u8>,
) -> Result<(), NoMemory>
    requires width { IsWidth W }
    requires runs { Runs W program.notes.now program.script.now runner.old }
    requires running { runner.old.ending ≡ Running }
    requires image { 0 < runner.old.image_size }
    ensures step { Steps W program.entry runner.old runner.new }
    ensures counted { runner.new.taken ≡ min (runner.old.taken + 1) (2 ^ 64 - 1) }
    ensures text { OnOk result (TellsStep W program.entry number runner.old out.old.items out.new.items) }
{
    let before = Before::of(runner, program.notes, program.script);
    runner.step(program.image, program.notes, program.script);
    let step = before.step(number, runner, program.notes);
    let events = added(runner.trace().as_slice(), before.events);
    append_step(alloc, program.notes, &step, events, out)?;
    append_pointed_to(alloc, program, runner, events, out)
}

// Takes the step behind the first so many, and appends its lines if it is the first that is told or one behind it.
fn next_step<const W: usize>(
    alloc: Global,
    program: Program,
    run: &mut TracedRun<W>,
    taken: u64,
    first: u64,
    out: &mut Vec<u8>,
) -> Result<(), NoMemory>
    requires width { IsWidth W }
    requires image { IsImage program.image.now }
    requires few { taken < 2 ^ 64 - 1 }
    requires before { IsAfter W program taken run.old }
    ensures after { OnOk result (IsAfter W program.entry (taken + 1) run.new) }
    ensures counted { run.old.runner.ending ≡ Running → run.new.runner.taken ≡ min (run.old.runner.taken + 1) (2 ^ 64 - 1) }
    ensures passed { taken + 1 < first → out.new ≡ out.old }
    ensures text { first ≤ taken + 1 → OnOk result
        (out.new.items ≡ out.old.items ++ lines_of W program.entry.image.now (world_under program.entry) (taken + 1)) }
{
    if taken + 1 < first {
        return run.step(program);
    }
    run.tell_step(alloc, program, taken, out)
}

/// Appends the lines of the state of a run that has begun, where these CALLs are open: what the machine holds, what is open and what has
/// changed.
///
/// # Errors
///
/// There is no memory for the text.
pub(crate) fn append_state<const W: usize>(
    alloc: Global,
    program: Program,
    runner: &Runner<W>,
    calls: &[InnerCall],
    out: &mut Vec<u8>,
) -> Result<(), NoMemory>
    requires width { IsWidth W }
    requires image { IsImage program.image.now }
    requires bytes { AreBytes program.image.now }
    requires notes { IsNotes program.notes.now }
    requires script { IsScript program.notes.now program.script.now }
    requires runs { RunsImage W runner.now }
    ensures { OnOk result ((world : World) (s : RunState) → world ≡ world_under program.entry → IsRunner W world runner.now s
        → out.new.items ≡ out.old.items ++ state_lines world calls.now (own_run W program.entry.image.now world 0) s) }
{
    let Program {
        image,
        notes,
        script,
    } = program;
    append_holdings(alloc, notes, &holdings(runner, notes), out)?;
    append_opened(alloc, notes, script, runner, calls, out)?;
    let before = start::<W>(alloc, image, notes, script)?;
    append_changed(alloc, notes, &before, runner, out)
}

/// Runs an image at `W` bytes an address, 4 or 8, under notes and with a script, until the run ends or its step `last` is taken.
/// Appends the lines of its steps from the step `first` on, which counts from 1, and reports what the run then shows.
///
/// # Errors
///
/// There is no memory for the run or for the text.
pub fn trace<const W: usize>(
    alloc: Global,
    image: &Image,
    notes: &Notes,
    script: &Script,
    first: u64,
    last: u64,
    out: &mut Vec<u8>,
) -> Result<RunReport, NoMemory>
    requires width { IsWidth W }
    requires image { IsImage image.now }
    requires bytes { AreBytes image.now }
    requires notes { IsNotes notes.now }
    requires script { IsScript notes.now script.now }
    requires first { 1 ≤ first }
    ensures report { IfOk result (IsReport W image.now (world_of image.now notes.now script.now) last) }
    ensures text { OnOk result
        (out.new.items ≡ out.old.items ++ trace_lines W image.now (world_of image.now notes.now script.now) first last) }
{
    let program = Program {
        image,
        notes,
        script,
    };
    let mut traced = TracedRun::<W>::start(alloc, program)?;
    let mut taken = 0;
    while taken < last && traced.goes_on() {
        next_step(alloc, program, &mut traced, taken, first, out)?;
        taken += 1;
    }
    traced.append_state(alloc, program, out)?;
    Ok(traced.runner.report())
}

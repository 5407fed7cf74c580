//! One run of an image.
ghost use Rattle.std.specs.Prelude.{◌≡◌, ◌↔◌, ℕ, IfOk, IsTrue};
ghost use Rattle.ebc_width.specs.Width.{IsWidth};
ghost use Rattle.host_model.specs.RunState.{RunState};
ghost use Rattle.host_model.specs.Runs.{world_of};
ghost use Rattle.host_model.specs.Scripts.{IsScript};
ghost use Rattle.host_model.specs.World.{World};
ghost use Rattle.note_types.specs.Records.{IsNotes};
ghost use Rattle.note_types.specs.declared.ending.Ending.TheVariants.{Running};
ghost use Rattle.pe_image.specs.Images.{IsImage};
ghost use Rattle.pe_image.specs.Mapped.{AreBytes};
ghost use Rattle.pe_image.specs.declared.image.Image.{Image};
ghost use Rattle.twin_run.specs.OnItsWay.{IsOnItsWay};
ghost use Rattle.twin_run.specs.Reported.{IsReport};
ghost use Rattle.twin_run.specs.Runner.{IsRunner, Runs};

use crate::reports::RunReport;
use crate::runner::{Runner, start};
use ebc_base::NoMemory;
use note_types::{Notes, Script};
use pe_image::Image;
use std::alloc::Global;

/// Whether the run of a runner goes on.
pub fn goes_on<const W: usize>(runner: &Runner<W>) -> bool
    ensures { (world : World) (r : RunState) → IsRunner W world runner.now r → IsTrue result ↔ (r.ending ≡ Running) }
{
    runner.is_running()
}

/// The report of a runner that goes on until its run ends or it has taken so many steps.
pub fn finish<const W: usize>(
    mut runner: Runner<W>,
    notes: &Notes,
    script: &Script,
    limit: u64,
) -> RunReport
    requires width { IsWidth W }
    requires runs { Runs W notes.now script.now runner }
    ensures report { (image : Image) (world : World) (taken : ℕ) → world.notes ≡ notes.now → world.script ≡ script.now
        → IsOnItsWay W image world limit taken runner.entry → IsReport W image world limit result }
{
    while runner.taken < limit && goes_on(&runner) {
        let left = limit - runner.taken;
        runner.steps(notes, script, left);
    }
    runner.report()
}

/// Runs an image at `W` bytes an address, 4 or 8, under notes and with a script, until the run ends or for so many steps. The image
/// needs to keep no rule of docs/RULES.md.
///
/// # Errors
///
/// There is no memory for the run.
pub fn run<const W: usize>(
    alloc: Global,
    image: &Image,
    notes: &Notes,
    script: &Script,
    steps: u64,
) -> Result<RunReport, NoMemory>
    requires width { IsWidth W }
    requires image { IsImage image.now }
    requires bytes { AreBytes image.now }
    requires notes { IsNotes notes.now }
    requires script { IsScript notes.now script.now }
    ensures report { IfOk result (IsReport W image.now (world_of image.now notes.now script.now) steps) }
{
    let runner = start::<W>(alloc, image, notes, script)?;
    Ok(finish(runner, notes, script, steps))
}

//! What the machine of a run holds between two steps.
ghost use Rattle.std.specs.Prelude.{◌≡◌, ◌^◌, ◌<◌, length};
ghost use Rattle.ebc_width.specs.Width.{IsWidth};
ghost use Rattle.object_memory.specs.Memory.{ranges};
ghost use Rattle.host_model.specs.RunState.{RunState};
ghost use Rattle.host_model.specs.World.{World};
ghost use Rattle.twin_run.specs.Runner.{IsRunner};
ghost use Rattle.run_trace.specs.Addresses.{held};
ghost use Rattle.run_trace.specs.States.{holdings_of, registers_held};
ghost use Rattle.run_trace.specs.Walks.{RunsImage};

use crate::walking::meaning_at;
use note_types::Notes;
use step_texts::{Change, Holdings};
use twin_run::Runner;

/// A number, and what it is as an address.
pub(crate) fn held<const W: usize>(runner: &Runner<W>, notes: &Notes, number: u64) -> Change
    requires width { IsWidth W }
    requires runs { RunsImage W runner.now }
    requires statics { length notes.now.statics < 2 ^ 32 }
    ensures { result ≡ held notes.now (ranges runner.now.mem) number }
{
    Change {
        number,
        meaning: meaning_at(runner, notes, number),
    }
}

// What R0 to R7 hold.
fn registers_held<const W: usize>(
    runner: &Runner<W>,
    notes: &Notes,
    registers: &[u64; 8],
) -> [Option<Change>; 8]
    requires width { IsWidth W }
    requires runs { RunsImage W runner.now }
    requires statics { length notes.now.statics < 2 ^ 32 }
    ensures { result ≡ registers_held notes.now (ranges runner.now.mem) registers.now }
{
    [
        Some(held(runner, notes, registers[0])),
        Some(held(runner, notes, registers[1])),
        Some(held(runner, notes, registers[2])),
        Some(held(runner, notes, registers[3])),
        Some(held(runner, notes, registers[4])),
        Some(held(runner, notes, registers[5])),
        Some(held(runner, notes, registers[6])),
        Some(held(runner, notes, registers[7])),
    ]
}

/// What the machine of a run holds.
pub(crate) fn holdings<const W: usize>(runner: &Runner<W>, notes: &Notes) -> Holdings
    requires width { IsWidth W }
    requires runs { RunsImage W runner.now }
    requires statics { length notes.now.statics < 2 ^ 32 }
    ensures { (world : World) (s : RunState) → IsRunner W world runner.now s → result ≡ holdings_of notes.now s }
{
    Holdings {
        registers: registers_held(runner, notes, &runner.registers()),
        ip: held(runner, notes, runner.ip()),
        has_c: runner.has_c(),
    }
}

//! Steps of the runs at both widths, taken side by side.
ghost use Rattle.std.specs.Prelude.{◌≡◌, ◌≢◌, ◌<◌, ◌≤◌, ℕ, IsTrue};
ghost use Rattle.note_types.specs.declared.ending.Ending.TheVariants.{Running};
ghost use Rattle.host_model.specs.HostSteps.{spot_of};
ghost use Rattle.host_model.specs.Placements.{own_placement};
ghost use Rattle.host_model.specs.RunState.{RunState};
ghost use Rattle.host_model.specs.Runs.{SameRun};
ghost use Rattle.host_model.specs.World.{World};
ghost use Rattle.native_host.specs.Kept.{IsOf};
ghost use Rattle.twin_run.specs.OnItsWay.{AreSameBefore};
ghost use Rattle.twin_run.specs.Runner.{HasDone, IsAt, IsFree, IsRunner, Runs, TakesSteps};

use crate::runner::Runner;
use note_types::{Notes, Script};
use pe_image::Image;

// Whether two runs stand at one place of the image.
fn is_one_place(at4: &Runner<4>, at8: &Runner<8>) -> bool
    ensures inside4 { IsTrue result → at4.now.machine.ip ≢ at4.now.machine.gate }
    ensures inside8 { IsTrue result → at8.now.machine.ip ≢ at8.now.machine.gate }
    ensures spot { (world : World) (r s : RunState) (d e : ℕ) → IsTrue result → IsAt 4 world (record at4.now { done = d }) r
        → IsAt 8 world (record at8.now { done = e }) s →
        spot_of world (own_placement 4 world) r.machine ≡ spot_of world (own_placement 8 world) s.machine }
{
    let Some(place) = at4.place() else {
        return false;
    };
    let Some(other) = at8.place() else {
        return false;
    };
    place == other
}

// Instructions of two runs, of each as many, at least one and at most so many, until one asks for something or the two don't stand at
// one place of the image. How many they were. Before that nothing but the places can differ.
fn instructions(at4: &mut Runner<4>, at8: &mut Runner<8>, notes: &Notes, most: u64) -> u64
    requires notes4 { IsOf 4 notes.now at4.old.host.places }
    requires notes8 { IsOf 8 notes.now at8.old.host.places }
    requires some { 0 < most }
    requires inside4 { at4.old.machine.ip ≢ at4.old.machine.gate }
    requires inside8 { at8.old.machine.ip ≢ at8.old.machine.gate }
    ensures done4 { HasDone 4 notes.now most at4.old at4.new result }
    ensures done8 { HasDone 8 notes.now most at8.old at8.new result }
    ensures same { (world : World) (r s : RunState) → world.notes ≡ notes.now → IsFree world.script at4.old most →
        IsFree world.script at8.old most
        → r.ending ≡ Running → IsAt 4 world at4.old r → IsAt 8 world at8.old s
        → SameRun world (own_placement 4 world) r (own_placement 8 world) s → AreSameBefore world result r s }
    ensures some { 0 < result }
    ensures most { result ≤ most }
{
    let mut left = most;
    let mut next = true;
    while next && left > 0 {
        let next4 = at4.instruction(notes);
        let next8 = at8.instruction(notes);
        next = next4 & next8 & is_one_place(at4, at8);
        left -= 1;
    }
    let taken = most - left;
    at4.done = at4.done.saturating_add(taken);
    at8.done = at8.done.saturating_add(taken);
    taken
}

/// Steps of two runs that are the same and go on, of each as many, at least one and at most so many. They are counted, and the runs are
/// the same before each of them. How many they were.
pub fn steps(
    at4: &mut Runner<4>,
    at8: &mut Runner<8>,
    image: &Image,
    notes: &Notes,
    script: &Script,
    most: u64,
) -> u64
    requires runs4 { Runs 4 notes.now script.now at4.old }
    requires runs8 { Runs 8 notes.now script.now at8.old }
    requires running4 { at4.old.ending ≡ Running }
    requires running8 { at8.old.ending ≡ Running }
    requires some { 0 < most }
    ensures steps4 { TakesSteps 4 notes.now script.now at4.old at4.new result }
    ensures steps8 { TakesSteps 8 notes.now script.now at8.old at8.new result }
    ensures same { (world : World) (r s : RunState) → world.notes ≡ notes.now → world.script ≡ script.now → IsRunner 4 world at4.old r →
        IsRunner 8 world at8.old s
        → SameRun world (own_placement 4 world) r (own_placement 8 world) s → AreSameBefore world result r s }
    ensures some { 0 < result }
    ensures most { result ≤ most }
{
    let free = at4.free().min(at8.free()).min(most);
    if free == 0 {
        at4.step(image, notes, script);
        at8.step(image, notes, script);
        return 1;
    }
    let (taken4, taken8) = (at4.taken, at8.taken);
    let steps = instructions(at4, at8, notes, free);
    at4.taken = taken4.saturating_add(steps);
    at8.taken = taken8.saturating_add(steps);
    steps
}

//! The runs of two images on one host, at both widths.
ghost use Rattle.std.specs.Prelude.{◌≡◌, ◌↔◌, IfOk, IsTrue, None};
ghost use Rattle.ebc_width.specs.Width.{IsWidth};
ghost use Rattle.host_model.specs.RunState.{RunState};
ghost use Rattle.host_model.specs.Runs.{world_of};
ghost use Rattle.host_model.specs.Scripts.{IsScript};
ghost use Rattle.note_types.specs.Records.{IsNotes};
ghost use Rattle.note_types.specs.declared.ending.Ending.TheVariants.{Running};
ghost use Rattle.pair_model.specs.Binds.{AllAgree};
ghost use Rattle.pair_model.specs.Pairs.{PairState, PairWorld};
ghost use Rattle.pe_image.specs.Images.{IsImage};
ghost use Rattle.pe_image.specs.Mapped.{AreBytes};
ghost use Rattle.invariant_laws.specs.Endings.{RaisesOnlyDivideError};
ghost use Rattle.width_checker.specs.Typed.{Typed};
ghost use Rattle.pair_host.specs.PairDiffers.{PairsDifferAt};
ghost use Rattle.pair_host.specs.PairOnItsWay.{ArePairsSameButFirst, IsPairOnItsWay};
ghost use Rattle.pair_host.specs.PairReported.{IsPairReport, both_images, pair_about};
ghost use Rattle.pair_host.specs.PairRunner.{ArePaired, IsPair, images_for, pair_world};

use crate::comparing::{same_ending, same_from, same_side, same_spot};
use crate::driver::Driver;
use crate::pair_runner::{PairRunner, start};
use crate::reports::{PairReport, PairRun};
use ebc_base::NoMemory;
use note_types::{Ending, Notes, Script};
use pair_model::Binds;
use pe_image::Image;
use std::alloc::Global;

// Whether a run goes on.
fn goes_on<const W: usize>(runner: &PairRunner<W>) -> bool
    ensures { (world : PairWorld) (p : PairState RunState) → IsPair W world runner.now p → IsTrue result ↔ (p.ending ≡ Running) }
{
    same_ending(runner.ending(), Ending::Running)
}

// Whether two runners show the same but for the first so many events: the same image runs, it stands at the same spot, and the
// events and endings are the same.
fn same_but_first(at4: &PairRunner<4>, at8: &PairRunner<8>, told: usize) -> bool
    ensures { (world : PairWorld) (p q : PairState RunState) → IsPair 4 world at4.now p → IsPair 8 world at8.now q
        → IsTrue result ↔ ArePairsSameButFirst world told p q }
{
    same_side(at4.side(), at8.side())
        && same_spot(at4.spot(), at8.spot())
        && same_ending(at4.ending(), at8.ending())
        && same_from(at4.trace(), at8.trace(), told)
}

// The report of a runner that has taken so many steps: it goes on until its run ends or up to a limit.
fn finish<const W: usize>(
    mut runner: PairRunner<W>,
    a: &Driver,
    b: &Driver,
    binds: &Binds,
    taken: u64,
    limit: u64,
) -> PairRun
    requires width { IsWidth W }
    requires paired { ArePaired a.now b.now binds.now }
    requires on { IsPairOnItsWay W (images_for a.now b.now) (pair_world a.now b.now binds.now) limit taken runner }
    ensures report { IsPairReport W (images_for a.now b.now) (pair_world a.now b.now binds.now) limit result }
{
    let mut steps = taken;
    while steps < limit && goes_on(&runner) {
        runner.step(a, b, binds);
        steps += 1;
    }
    PairRun {
        steps,
        spot: runner.spot(),
        ending: runner.ending(),
        events: runner.into_trace(),
    }
}

// How two runners went on together.
#[derive(Clone, Copy)]
struct Together {
    // The steps that both took.
    taken: u64,
    // The least number of steps, up to the limit, after which the two aren't the same.
    differ: Option<u64>,
}

// Steps two runners together, from the start of their runs while they show the same and go on, up to a limit.
fn step_together(
    at4: &mut PairRunner<4>,
    at8: &mut PairRunner<8>,
    a: &Driver,
    b: &Driver,
    binds: &Binds,
    limit: u64,
) -> Together
    requires paired { ArePaired a.now b.now binds.now }
    requires at4 { IsPairOnItsWay 4 (images_for a.now b.now) (pair_world a.now b.now binds.now) limit 0 at4.old }
    requires at8 { IsPairOnItsWay 8 (images_for a.now b.now) (pair_world a.now b.now binds.now) limit 0 at8.old }
    ensures at4 { IsPairOnItsWay 4 (images_for a.now b.now) (pair_world a.now b.now binds.now) limit result.taken at4.new }
    ensures at8 { IsPairOnItsWay 8 (images_for a.now b.now) (pair_world a.now b.now binds.now) limit result.taken at8.new }
    ensures differ { PairsDifferAt (images_for a.now b.now) (pair_world a.now b.now binds.now) limit result.differ }
{
    let mut taken = 0;
    let mut same = same_but_first(at4, at8, 0);
    while same && taken < limit && goes_on(at4) {
        let told = at4.trace().len();
        at4.step(a, b, binds);
        at8.step(a, b, binds);
        taken += 1;
        same = same_but_first(at4, at8, told);
    }
    Together {
        taken,
        differ: if same { None } else { Some(taken) },
    }
}

// The runs of the two at both widths, as `pair` has them.
fn run_pair(
    alloc: Global,
    a: &Driver,
    b: &Driver,
    binds: &Binds,
    steps: u64,
) -> Result<PairReport, NoMemory>
    requires paired { ArePaired a.now b.now binds.now }
    ensures at4 { IfOk result (λ r. IsPairReport 4 (images_for a.now b.now) (pair_world a.now b.now binds.now) steps r.at4) }
    ensures at8 { IfOk result (λ r. IsPairReport 8 (images_for a.now b.now) (pair_world a.now b.now binds.now) steps r.at8) }
    ensures differ { IfOk result (λ r. PairsDifferAt (images_for a.now b.now) (pair_world a.now b.now binds.now) steps r.differ) }
    ensures same_where_typed { Typed a.now.image.now a.now.notes.now → Typed b.now.image.now b.now.notes.now →
        IfOk result (λ r. r.differ ≡ None) }
    ensures raised_where_typed { Typed a.now.image.now a.now.notes.now → Typed b.now.image.now b.now.notes.now
        → IfOk result (λ r. RaisesOnlyDivideError r.at4.ending × RaisesOnlyDivideError r.at8.ending) }
{
    let events = steps as usize;
    let mut at4 = start::<4>(alloc, a, b, events)?;
    match start::<8>(alloc, a, b, events) {
        Ok(mut at8) => {
            let Together { taken, differ } = step_together(&mut at4, &mut at8, a, b, binds, steps);
            Ok(PairReport {
                at4: finish(at4, a, b, binds, taken, steps),
                at8: finish(at8, a, b, binds, taken, steps),
                differ,
            })
        }
        Err(error) => {
            // A value of many parts is dropped by a call: its drop at the end of an arm would be proved part by part.
            drop(at4);
            Err(error)
        }
    }
}

/// Runs image B, the provider, and then image A, whose calls of bound methods enter functions of image B, at 4 and at 8 bytes an
/// address, each until its run ends or for so many steps, and finds the least number of steps, up to the same, after which the two
/// aren't the same. Each image has its notes and its script, and the binds agree with the notes of both. The images need to keep no
/// rule of docs/RULES.md; where both keep them all there is none, and no exception is raised but a division by zero.
///
/// # Errors
///
/// There is no memory for the runs.
pub fn pair(
    alloc: Global,
    image_a: &Image,
    notes_a: &Notes,
    script_a: &Script,
    image_b: &Image,
    notes_b: &Notes,
    script_b: &Script,
    binds: &Binds,
    steps: u64,
) -> Result<PairReport, NoMemory>
    requires image_a { IsImage image_a.now }
    requires bytes_a { AreBytes image_a.now }
    requires notes_a { IsNotes notes_a.now }
    requires script_a { IsScript notes_a.now script_a.now }
    requires image_b { IsImage image_b.now }
    requires bytes_b { AreBytes image_b.now }
    requires notes_b { IsNotes notes_b.now }
    requires script_b { IsScript notes_b.now script_b.now }
    requires agree { AllAgree notes_a.now notes_b.now binds.now }
    ensures at4 { IfOk result (λ r.
        IsPairReport 4 (both_images image_a.now image_b.now)
        (pair_about (world_of image_a.now notes_a.now script_a.now) (world_of image_b.now notes_b.now script_b.now) binds.now) steps
        r.at4) }
    ensures at8 { IfOk result (λ r.
        IsPairReport 8 (both_images image_a.now image_b.now)
        (pair_about (world_of image_a.now notes_a.now script_a.now) (world_of image_b.now notes_b.now script_b.now) binds.now) steps
        r.at8) }
    ensures differ { IfOk result (λ r.
        PairsDifferAt (both_images image_a.now image_b.now)
        (pair_about (world_of image_a.now notes_a.now script_a.now) (world_of image_b.now notes_b.now script_b.now) binds.now) steps
        r.differ) }
    ensures same_where_typed { Typed image_a.now notes_a.now → Typed image_b.now notes_b.now → IfOk result (λ r. r.differ ≡ None) }
    ensures raised_where_typed { Typed image_a.now notes_a.now → Typed image_b.now notes_b.now
        → IfOk result (λ r. RaisesOnlyDivideError r.at4.ending × RaisesOnlyDivideError r.at8.ending) }
{
    let a = Driver {
        image: image_a,
        notes: notes_a,
        script: script_a,
    };
    let b = Driver {
        image: image_b,
        notes: notes_b,
        script: script_b,
    };
    run_pair(alloc, &a, &b, binds, steps)
}

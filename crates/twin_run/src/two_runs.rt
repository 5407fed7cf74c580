//! The runs of an image at both widths.
ghost use Rattle.std.specs.Prelude.{◌≡◌, ◌↔◌, IfOk, IsTrue, None};
ghost use Rattle.host_model.specs.RunState.{RunState};
ghost use Rattle.host_model.specs.Runs.{world_of};
ghost use Rattle.host_model.specs.Scripts.{IsScript};
ghost use Rattle.host_model.specs.World.{World};
ghost use Rattle.note_types.specs.Records.{IsNotes};
ghost use Rattle.pe_image.specs.Images.{IsImage};
ghost use Rattle.pe_image.specs.Mapped.{AreBytes};
ghost use Rattle.twin_run.specs.Differs.{DifferAt};
ghost use Rattle.twin_run.specs.OnItsWay.{IsSameButFirst};
ghost use Rattle.twin_run.specs.Reported.{IsReport};
ghost use Rattle.twin_run.specs.Runner.{IsRunner};
ghost use Rattle.width_checker.specs.Typed.{Typed};

use crate::comparing::{same_ending, same_from, same_spot};
use crate::in_step;
use crate::one_run::{finish, goes_on};
use crate::reports::TwinReport;
use crate::runner::{Runner, start};
use ebc_base::NoMemory;
use note_types::{Notes, Script};
use pe_image::Image;
use std::alloc::Global;

// Whether two runners show the same but for their first so many events.
fn same_but_first(at4: &Runner<4>, at8: &Runner<8>, told: usize) -> bool
    ensures { (world : World) (r s : RunState) → IsRunner 4 world at4.now r → IsRunner 8 world at8.now s
        → IsTrue result ↔ IsSameButFirst world told r s }
{
    same_spot(at4.spot(), at8.spot())
        && same_ending(at4.ending(), at8.ending())
        && same_from(at4.trace(), at8.trace(), told)
}

/// Runs an image at 4 and at 8 bytes an address under notes and with a script, each until its run ends or for so many steps, and
/// finds the least number of steps, up to the same, after which the two aren't the same. The image needs to keep no rule of
/// docs/RULES.md; where it keeps them all there is none.
///
/// # Errors
///
/// There is no memory for the runs.
pub fn twin(
    alloc: Global,
    image: &Image,
    notes: &Notes,
    script: &Script,
    steps: u64,
) -> Result<TwinReport, NoMemory>
    requires image { IsImage image.now }
    requires bytes { AreBytes image.now }
    requires notes { IsNotes notes.now }
    requires script { IsScript notes.now script.now }
    ensures at4 { IfOk result (λ t. IsReport 4 image.now (world_of image.now notes.now script.now) steps t.at4) }
    ensures at8 { IfOk result (λ t. IsReport 8 image.now (world_of image.now notes.now script.now) steps t.at8) }
    ensures differ { IfOk result (λ t. DifferAt image.now (world_of image.now notes.now script.now) steps t.differ) }
    ensures same_where_typed { Typed image.now notes.now → IfOk result (λ t. t.differ ≡ None) }
{
    let mut at4 = start::<4>(alloc, image, notes, script)?;
    let mut at8 = start::<8>(alloc, image, notes, script)?;
    let mut taken = 0;
    let mut same = same_but_first(&at4, &at8, 0);
    while same && taken < steps && goes_on(&at4) {
        let told = at4.trace().len();
        taken += in_step::steps(&mut at4, &mut at8, image, notes, script, steps - taken);
        same = same_but_first(&at4, &at8, told);
    }
    Ok(TwinReport {
        at4: finish(at4, notes, script, steps),
        at8: finish(at8, notes, script, steps),
        differ: if same { None } else { Some(taken) },
    })
}

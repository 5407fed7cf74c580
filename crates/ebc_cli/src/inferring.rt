//! What is printed of the points that are found.
ghost use Rattle.std.specs.Prelude.{◌≡◌, ◌++◌, None, IfOk};
ghost use Rattle.note_types.specs.Records.{IsNotes};
ghost use Rattle.ebc_cli.specs.Inferrings.{TellsInferred, inferred_reply, stuck_lines};
ghost use Rattle.cli_base.specs.Inputs.{IsReadImage};
ghost use Rattle.cli_base.specs.Outcomes.{IsWorkAnswer};
ghost use Rattle.cli_base.specs.Outputs.{prints, written_name};
ghost use Rattle.printed_texts.specs.Refusals.{refused_line};

use cli_base::text::{large, printed};
use cli_base::{Outcome, Reply};
use ebc_base::NoMemory;
use note_infer::{Inferred, infer};
use note_types::{Notes, State};
use pe_image::Image;
use printed_texts::{points_text, refused_line, state_text};
use std::alloc::Global;
use width_checker::RuleName;

// The answer where the search is stuck at a place by a rule, in a state if one was found.
fn stuck_reply(
    alloc: Global,
    notes: &Notes,
    place: u32,
    rule: RuleName,
    state: &Option<State>,
) -> Result<Reply, NoMemory>
    ensures { IfOk result (λ r.
        r ≡ prints (Outcome.Refused place rule) (refused_line place rule ++ stuck_lines notes.now place state.now)) }
{
    let mut text = refused_line(alloc, place, rule)?;
    if let Some(state) = state {
        let lines = state_text(alloc, notes, place, state)?;
        text.extend_from_slice(lines.as_bytes())?;
    }
    Ok(printed(Outcome::Refused { place, rule }, text))
}

// The answer that tells what was found for the image of a name.
fn inferred_reply(
    alloc: Global,
    name: &str,
    notes: &Notes,
    answer: &Inferred,
) -> Result<Reply, NoMemory>
    ensures { IfOk result (λ r. r ≡ inferred_reply name.now notes.now answer.now) }
{
    match answer {
        Inferred::Points(points) => {
            let text = points_text(alloc, notes, points.as_slice())?;
            Ok(printed(Outcome::Done, text.into_bytes()))
        }
        Inferred::Stuck { place, rule, state } => stuck_reply(alloc, notes, *place, *rule, state),
        Inferred::Many { leaders: _ } => Ok(large(alloc, 1, name)?),
    }
}

/// The answer of the search for points of the image of a name, under notes whose own points are ignored.
///
/// # Errors
///
/// Want of memory alone.
pub fn infer_reply(
    alloc: Global,
    name: &str,
    image: &Image,
    notes: &Notes,
) -> Result<Reply, NoMemory>
    requires image { IsReadImage image.now }
    requires notes { IsNotes notes.now }
    ensures tells { IfOk result (TellsInferred name.now image.now notes.now) }
    ensures answer { IfOk result (λ r. IsWorkAnswer r.outcome) }
    ensures output { IfOk result (λ r. written_name r.output ≡ None) }
{
    let answer = infer(alloc, image, notes)?;
    Ok(inferred_reply(alloc, name, notes, &answer)?)
}

//! The two runs of a program, at 4 and at 8 bytes an address: the check whose yes proves that they are the same, and
//! the laws that it rests on. docs/SIMULATION.md has it in words.
//!
//! Promises:
//!
//! - `check`: the verdict on an image under notes, as `width_checker` gives it (`verdict`, `neutral`, `refused`).
//!   `as_one`: where it is neutral, all runs of the image show one behaviour, memory and all, for every script under the
//!   notes, whatever the width, the valid placement and the number of steps, and have raised nothing but a division by
//!   zero (`RunsAsOne`). `alike`: so they are the same at both widths, and hold the same in memory (`SameAtBothWidths`).
//!   The image is one that was read: it is asked to be well formed (`IsImage`) and to have a byte at each place
//!   (`AreBytes`).
//! - `start`: the runner of a run of an image under notes and with a script, all of which were read, at the state
//!   before the first step (`IsRunner`, `run_of`). It fails only where there is no memory; no other call takes any. The
//!   image needn't be one that is checked. It has taken no step (`taken`).
//! - `Runner::step`: from the runner of a run in a state to that in the state after one step (`run_step`), under the
//!   placement that this project takes. The runner counts it, up to 2^64 - 1 (`counted`); a run that ended stays as it
//!   is, with its count (`over`). `Runner::ending`, `Runner::spot` and `Runner::trace`: exactly what that state shows.
//!   `Runner::report`: the same, and how many steps the runner counted.
//! - Between two steps: `Runner::is_hosts_turn`, whether the next one is the host's or the machine's;
//!   `Runner::registers`, `Runner::has_c`, `Runner::ip`, `Runner::bytes_from`: exactly what the machine and its memory
//!   hold in that state.
//!   `Runner::frames`: the host's frames in that state, with the native call that is asked for (`hosts_of`).
//! - What a run of two images on one host asks of a runner beside its steps (docs/PAIRS.md, "The rules"):
//!   `Runner::asked_call`, the call that the host sees asked for, or that it sees none (`place_called`);
//!   `Runner::bound_call`, the call step of a bound call, which leaves the run as it is (`bound_step`), and the frames
//!   but for the slots of the top one (`slots`); `Runner::provider_refused`; `Runner::enter_first`, which enters a
//!   function where none is entered, and `Runner::leave_first`, which leaves the first function where it has returned,
//!   with its result, or tells that the host sees something else (`IsNoFirstReturn`); between the two a runner rests
//!   (`Rests`). `Runner::answer`: the reply of a bound call (`bound_reply`), or how it is refused (`reply_refused`).
//!   `Runner::end`: the run ends so. None of them tells an event or takes memory.
//! - `run`: runs an image at a width until its run ends or for so many steps, and reports how many it took, where the
//!   run then stands, its events and its ending (`IsReport`). The image needs to keep no rule. Of errors it gives want
//!   of memory alone, which `start` may give.
//! - `twin`: runs an image at both widths so, each run to its own report (`at4`, `at8`), and finds the least number of
//!   steps, up to the same limit, after which the two aren't the same (`differ`, as `DifferAt` has it). Where the image
//!   is typed there is none (`same_where_typed`). Both runs go in step while they are the same. Where an instruction
//!   that asks for nothing leads to a place of the image, only the places are compared. After any other step it is all
//!   that the two show, but of the events only the new ones. Once the runs part each goes on by itself.
//! - `machines_follow`: in a typed image the neutral machine is never stuck, and at either width, under every valid
//!   placement, after every number of steps, the run meets the invariant beside it (`MachinesFollow`).
//! - `typed_runs_are_same`: all runs of a typed image show one behaviour (`as_one`). Those at 4 and at 8 bytes are the
//!   same after every number of steps, under all valid placements (`placed`) and so under those that this project takes
//!   (`own`); the least number of steps after which they differ, up to any limit, is none (`never`).
//! - `own_placement_is_valid`: the placement that this project takes is valid at either width, where all objects of the
//!   script take at most 8 MiB with their padding and gaps.
//! - `typed_premises_are_met`: there are an image, notes and a script such as readers give, of which the image is
//!   typed, and whose run comes to each kind of step and finishes.
//! - `cells_tell_more`: there are runs of an image that are the same and don't hold the same in memory.
#![tactic(auto)]

mod bound;
mod comparing;
mod entering;
mod hosting;
mod in_step;
mod instructions;
mod one_run;
mod reports;
mod runner;
mod two_runs;
mod watching;

ghost use Rattle.std.specs.Prelude.{◌≡◌, ◌↔◌, ℕ, IfOk};
ghost use Rattle.note_types.specs.Records.{IsNotes};
ghost use Rattle.note_types.specs.declared.rule.RuleName.{RuleName};
ghost use Rattle.pe_image.specs.Images.{IsImage};
ghost use Rattle.pe_image.specs.Mapped.{AreBytes};
ghost use Rattle.twin_run.specs.Headline.{RunsAsOne, SameAtBothWidths};
ghost use Rattle.twin_run.specs.Met.{CellsTellMore, TypedPremisesAreMet};
ghost use Rattle.twin_run.specs.OwnPlacement.{OwnPlacementIsValid};
ghost use Rattle.twin_run.specs.TypedRuns.{MachinesFollow, OwnTypedRunsAreSame, TypedNeverDiffer, TypedRunsAreSame, TypedRunsAsOne};
ghost use Rattle.width_checker.specs.Typed.{Typed};
ghost use Rattle.width_checker.specs.Verdicts.{IsRefused, IsVerdict};

pub use bound::FirstReturn;
use ebc_base::NoMemory;
use note_types::Notes;
pub use note_types::{Ending, Event, Spot};
pub use one_run::run;
use pe_image::Image;
pub use reports::{RunReport, TwinReport};
pub use runner::{AskedCall, Runner, start};
use std::alloc::Global;
pub use two_runs::twin;
use width_checker::Verdict;

/// The verdict on an image under notes, as `width_checker::check` gives it. Where it is neutral, the runs of the image on the modelled
/// host show one behaviour, memory and all, for every script that is read under the notes, whatever the width, the valid placement and the
/// number of steps. So they are the same at both widths.
///
/// # Errors
///
/// There is no memory for the order of the notes' things.
pub fn check(alloc: Global, image: &Image, notes: &Notes) -> Result<Verdict, NoMemory>
    requires image { IsImage image.now }
    requires bytes { AreBytes image.now }
    requires notes { IsNotes notes.now }
    ensures verdict { IfOk result (IsVerdict image.now notes.now) }
    ensures neutral { IfOk result (λ v. v ≡ Verdict.Neutral ↔ Typed image.now notes.now) }
    ensures refused { IfOk result (λ v. (place : ℕ) (rule : RuleName) →
        v ≡ Verdict.Refused place rule ↔ IsRefused image.now notes.now place rule) }
    ensures as_one { IfOk result (λ v. v ≡ Verdict.Neutral → RunsAsOne image.now notes.now) }
    ensures alike { IfOk result (λ v. v ≡ Verdict.Neutral → SameAtBothWidths image.now notes.now) }
{
    width_checker::check(alloc, image, notes)
}

/// At either width, both machines follow the neutral machine: in an image that meets the typing rules this is never stuck, and after
/// each number of steps the run at that width meets the invariant beside its configuration.
pub fn machines_follow()
    ensures { MachinesFollow }
{}

/// So all runs show one behaviour, memory and all, and raise nothing but a division by zero. The runs at 4 and at 8 bytes are the same
/// after every number of steps: under all valid placements, and so under those that this project takes. Up to no limit is there a number
/// of steps after which they differ.
pub fn typed_runs_are_same()
    ensures as_one { TypedRunsAsOne }
    ensures placed { TypedRunsAreSame }
    ensures own { OwnTypedRunsAreSame }
    ensures never { TypedNeverDiffer }
{}

/// The placement that this project takes is valid at either width, where the image and the notes are as they are read and the
/// objects of the script take at most 8 MiB with their padding and gaps.
pub fn own_placement_is_valid()
    ensures { OwnPlacementIsValid }
{}

/// All that is asked of a typed program holds of one, which comes to each kind of step and finishes: of the driver of docs/NOTES.md
/// with its script.
pub fn typed_premises_are_met()
    ensures { TypedPremisesAreMet }
{}

/// There are two runs of an image, at 4 and at 8 bytes, that are the same and don't hold the same in memory: those of a driver, not typed,
/// that stores the digit of how many bytes an address has into a text, and hands the text to a method.
pub fn cells_tell_more()
    ensures { CellsTellMore }
{}

//! One step of a typed program's run: the simulation of an instruction at one width, as clauses of the two calls that
//! do a step of the machine, and one law for each kind of step of a run, the host's and the machine's.
//! docs/SIMULATION.md has it in words.
//!
//! Promises:
//!
//! - `sound_data`, `sound_flow`: `Machine::step`, exactly (`step`, `objects`, `raised`). `simulated`: where
//!   `after_data`, or `after_flow`, accepts the instruction in the state, for every image, script, valid placement and
//!   configuration as `StepStands` asks, the neutral machine isn't stuck and raises nothing but a division by zero, the
//!   machine ends as it does and stands for the configuration that it gives, and that is sound as the instruction asks
//!   (`StepSimulated`).
//! - `start_meets`: a run's start meets the invariant (`Invariant`). `next_step_is_there`: where it holds of a
//!   configuration that goes on, the next step is of one of ten kinds (`NextStep`).
//! - `plain_steps_keep`, `native_calls_keep`, `thunks_keep`, `calls_keep`, `enters_keep`, `replies_keep`,
//!   `notifies_keep`, `leaving_keeps`, `resuming_keeps`, `last_keeps`: each step of that kind is there and keeps the
//!   invariant.
//! - `host_frames_fit`: each frame of the host in a sound configuration, with the functions upon it, takes at most its
//!   function's parameters, a return cell and what its function needs (`HostFramesFit`).
//! - `run_step_keeps_standing`: after a step, the host's or an instruction's, a run that stands for a configuration
//!   stands for what the neutral machine's step leaves, unless that is stuck, where the step goes well (`StepGoesWell`)
//!   and the script is as its reader gives it. Nothing is asked of the step of a run that has ended.
//! - `thunks_are_loaded`: wherever the image is loaded, each thunk cell names its function. `statics_are_shown`: at
//!   either width and under every valid placement the loaded bytes show what the cells of static objects hold at a
//!   run's start: numbers, null, and the addresses in relocated pointers of 64 bits. `read_is_decoded`: an instruction
//!   that the neutral machine reads, and that ends in a function, keeps the rule on decoding, where the image's places
//!   have bytes.
//!
//! The laws of the steps are about states that a map of places gives; their lemmas take any states (`States`).
#![tactic(auto)]

mod data;
mod flow;

ghost use Rattle.step_sound.specs.HostStack.{HostFramesFit};
ghost use Rattle.step_sound.specs.Loaded.{ReadIsDecoded, StaticsAreShown, ThunksAreLoaded};
ghost use Rattle.step_sound.specs.StepLaw.{RunStepKeepsStanding};
ghost use Rattle.step_sound.specs.StepLaws.{CallsKeep, EntersKeep, LastKeeps, LeavingKeeps, NativeCallsKeep, NextStepIsThere, NotifiesKeep};
ghost use Rattle.step_sound.specs.StepLaws.{PlainStepsKeep, RepliesKeep, ResumingKeeps, StartMeets, ThunksKeep};

pub use crate::data::sound_data;
pub use crate::flow::sound_flow;

// ---- the laws of the steps

/// A run's start meets the invariant.
pub fn start_meets()
    ensures { StartMeets }
{}

/// Where the invariant holds of a configuration that goes on, the next step is of one of the kinds that the laws below are of.
pub fn next_step_is_there()
    ensures { NextStepIsThere }
{}

/// An instruction that calls no native method and makes no thunk keeps the invariant.
pub fn plain_steps_keep()
    ensures { PlainStepsKeep }
{}

/// So does one that calls a native method.
pub fn native_calls_keep()
    ensures { NativeCallsKeep }
{}

/// So does one that makes a thunk, with what the host does to serve it.
pub fn thunks_keep()
    ensures { ThunksKeep }
{}

/// So does the host's call step, which accepts a native call or ends the run.
pub fn calls_keep()
    ensures { CallsKeep }
{}

/// So does its enter step, which enters a callback or ends the run.
pub fn enters_keep()
    ensures { EntersKeep }
{}

/// So does its reply step.
pub fn replies_keep()
    ensures { RepliesKeep }
{}

/// So does its notify step, which enters a notification or ends the run.
pub fn notifies_keep()
    ensures { NotifiesKeep }
{}

/// So does leaving a callback.
pub fn leaving_keeps()
    ensures { LeavingKeeps }
{}

/// So does leaving a notification, after which the run goes on where it was interrupted.
pub fn resuming_keeps()
    ensures { ResumingKeeps }
{}

/// So does leaving the first frame, which ends the run.
pub fn last_keeps()
    ensures { LastKeeps }
{}

/// Each frame of the host in a sound configuration, with the functions that stand upon it, takes at most its function's parameters, a
/// return cell and what its function needs.
pub fn host_frames_fit()
    ensures { HostFramesFit }
{}

// ---- what these laws rest on

/// After a step, the host's or an instruction's, a run that stands for a configuration stands for what the neutral machine's
/// step leaves, unless that is stuck.
pub fn run_step_keeps_standing()
    ensures { RunStepKeepsStanding }
{}

/// Wherever an image is loaded that keeps the rule on thunk cells, each of them names its function.
pub fn thunks_are_loaded()
    ensures { ThunksAreLoaded }
{}

/// Under a valid placement the loaded bytes show what the cells of static objects hold at a run's start, where these keep
/// their rule.
pub fn statics_are_shown()
    ensures { StaticsAreShown }
{}

/// An instruction that the neutral machine reads at a place of an image whose places hold bytes, and that ends in a function,
/// keeps the rule on decoding there.
pub fn read_is_decoded()
    ensures { ReadIsDecoded }
{}

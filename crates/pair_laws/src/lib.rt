//! Laws of two images on one host: at either width the run of a pair follows that of the neutral machine, rule by rule,
//! and the runs of a pair of typed images whose binds agree are the same at both widths. docs/PAIRS.md, "Laws", says
//! them in words. The run of a pair in the neutral machine is defined here too; in proofs/ stand whole runs of pairs that the
//! definitions compute.
//!
//! Promises:
//!
//! - `pair_step_keeps_standing`: after a step of a pair, by each of its rules, the run of a pair at a width that stands
//!   for the neutral machine's stands for what the step leaves of that, unless the neutral machine is stuck, where the
//!   step goes well. Nothing is asked of the step of a pair that has ended.
//! - `pairs_follow`: at either width and under valid placements, where the states at the places of both images meet the
//!   typing rules and each bind agrees, the run of a pair stands for the neutral pair's after every number of steps,
//!   and that isn't stuck and raises nothing but a division by zero.
//! - `pairs_are_same`: so the runs of such a pair are the same at both widths.
//!
//! The last two are about states that a map of places gives; their lemmas take any states. That a typed image has such
//! states is a law of `twin_run`; the next two put both together.
//! - `typed_pairs_are_same`: the runs of such a pair, whatever the scripts, each under valid placements of its own, are
//!   the same at both widths after every number of steps, and raise nothing but a division by zero (`always`); so they
//!   are under the placements that this project takes (`own`). The clause `pair_alike` of `ebc` is the first, of images
//!   and binds that were read.
//! - `pair_premises_are_met`: all premises can hold at once, of a pair whose run finishes once a bound call was
//!   answered: image A calls a method that is bound to a function of image B, which doubles a number.
#![tactic(auto)]

ghost use Rattle.pair_laws.specs.Laws.{PairStepKeepsStanding};
ghost use Rattle.pair_laws.specs.PairLaw.{PairsAreSame, PairsFollow};
ghost use Rattle.pair_laws.specs.Met.{PairPremisesAreMet};
ghost use Rattle.pair_laws.specs.TypedPairs.{OwnTypedPairsAreSame, TypedPairsAreSame};

/// After a step of a pair, by each of its rules, the run of a pair at a width that stands for the neutral machine's stands for
/// what the step leaves of that, unless the neutral machine is stuck.
pub fn pair_step_keeps_standing()
    ensures { PairStepKeepsStanding }
{}

/// At either width and under valid placements the run of a pair, where the states at the places of both images meet the typing rules
/// and each bind agrees, stands after every number of steps for the neutral pair's, which isn't stuck and raises nothing but a
/// division by zero.
pub fn pairs_follow()
    ensures { PairsFollow }
{}

/// So the runs of such a pair are the same at both widths after every number of steps.
pub fn pairs_are_same()
    ensures { PairsAreSame }
{}

/// The runs of a pair of typed images whose binds agree, each under valid placements of its own, are the same at both widths after
/// every number of steps, and raise nothing but a division by zero (`always`). So they are under the placements that this project
/// takes (`own`).
pub fn typed_pairs_are_same()
    ensures always { TypedPairsAreSame }
    ensures own { OwnTypedPairsAreSame }
{}

/// All that is asked of a pair holds of one: image A calls a method that is bound to a function of image B, which doubles a number, and
/// the run finishes once the call was answered.
pub fn pair_premises_are_met()
    ensures { PairPremisesAreMet }
{}

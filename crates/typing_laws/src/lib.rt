//! The typing rules are true of the neutral machine: from a sound configuration, an instruction that its rule accepts
//! isn't stuck, raises nothing but a division by zero, and goes on soundly. Widths, placements and bytes don't come
//! into it, but for the room that the stack has at either width. docs/SIMULATION.md, "The second half", has it in
//! words.
//!
//! Promises:
//!
//! - `one_rule`: so each instruction (`OneRule`). `one_data_rule`: so one on data, at the next place (`OneDataRule`).
//! - `states_fit_below`: a frame that fits a state fits each state above it (`StatesFitBelow` of `invariant_laws`).
//! - `rules_fit_stack`: the frames of a sound configuration lie on the stack at either width (`sound`), and so does
//!   what an instruction adds to them that its rule accepts (`rule`).
//!
//! - `tables_agree`: the tables of accesses of the typing rules (`rules_base`) and of the neutral machine agree. By an
//!   access of the rules, as `access_of` names it in the neutral machine,
//!   - `loads`: the rules let a cell be loaded exactly where the neutral machine reads it;
//!   - `stores`: and stored to exactly where it writes it;
//!   - `parameters`: a parameter that the rules let be loaded is read;
//!   - `forms`: a form of 32 bits, for which the rules have no access of its own, reads and writes as a move of its
//!     size.
#![tactic(auto)]

ghost use Rattle.invariant_laws.specs.LaterLaws.{StatesFitBelow};
ghost use Rattle.typing_laws.specs.AccessTables.{FormsAgree, LoadsAgree, ParametersAgree, StoresAgree};
ghost use Rattle.typing_laws.specs.DataTyped.{OneDataRule};
ghost use Rattle.typing_laws.specs.FlowTyped.{RuleFitsStack, SoundFitsStack};
ghost use Rattle.typing_laws.specs.OneRule.{OneRule};

/// A frame that fits a state fits each state above it.
pub fn states_fit_below()
    ensures { StatesFitBelow }
{}

/// An instruction on data that its rule accepts isn't stuck, raises nothing but a division by zero, and goes on at the next
/// place, soundly with the state that the rule gives.
pub fn one_data_rule()
    ensures { OneDataRule }
{}

/// From a sound configuration, an instruction that its rule accepts isn't stuck, raises nothing but a division by zero, and
/// goes on soundly: at a successor with its state, into the function that it calls, back from one, to the native method that
/// it calls, or to the thunk that it makes.
pub fn one_rule()
    ensures { OneRule }
{}

/// The frames of a sound configuration lie on the stack, and so does what an instruction adds to them that its rule accepts.
pub fn rules_fit_stack()
    ensures sound { SoundFitsStack }
    ensures rule { RuleFitsStack }
{}

/// What the rules let be loaded and stored is what the neutral machine reads and writes, by the same accesses.
pub fn tables_agree()
    ensures loads { LoadsAgree }
    ensures stores { StoresAgree }
    ensures parameters { ParametersAgree }
    ensures forms { FormsAgree }
{}

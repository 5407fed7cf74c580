//! What follows from the rows of the typing rules: the two calls answer exactly what their rows, read as relations,
//! say, and a state of a function leads only to states of that function. The crate stands above `rules_data` and
//! `rules_flow`, so that `width_checker` doesn't wait for its proofs; `typing_laws` takes its lemmas. docs/RULES.md has
//! it in words, in "The first rule" and "What the rules keep".
//!
//! Promises:
//!
//! - `data_answer` is `rules_data`'s `after_data`. `related` says that it gives a state exactly where the instruction
//!   meets its row and goes on with that state, at the next instruction; `first`, that its error is exactly the first
//!   of the rules by which the row's parts fail; `keeps`, that under notes that meet their conditions (`IsNotes`) a
//!   state of the function leads to one of that function (`IsState`).
//! - `flow_answer` is `rules_flow`'s `after_flow`. `given` says that it gives exactly the successors that the parts of
//!   the row give, so that a fall isn't told as a jump to the next place; `related`, that these are exactly the places
//!   and states with which the instruction goes on; `first` and `keeps` are as above, the latter of both successors.
//! - `fields_are_kept`: a state is kept whose written fields are fields of the function's locals, with no more thunks made
//!   than there are (`HasFields`). Under notes that meet their conditions, an instruction on data leads from such a state to
//!   one (`data`), and so does one of control or of the stack (`flow`).
#![tactic(auto)]

ghost use Rattle.ebc_insn.specs.Spelling.{WellFormed};
ghost use Rattle.rules_laws.specs.Fields.{DataKeepsFields, FlowKeepsFields};
ghost use Rattle.note_types.specs.Records.{Ascends};
ghost use Rattle.rules_laws.specs.Exact.{DataFirst, DataRelated, FlowFirst, FlowGiven, FlowRelated};
ghost use Rattle.rules_laws.specs.Keeping.{DataKeeps, FlowKeeps};
ghost use Rattle.std.specs.Prelude.{◌≡◌, ◌<◌, ◌^◌, length};

use ebc_insn::Insn;
use note_types::{Notes, RuleName, State};
use rules_base::Here;
use rules_data::after_data;
use rules_flow::{Successors, after_flow};

/// `rules_data::after_data`, with what follows from its rows: it gives exactly the state with which the instruction goes
/// on, its error is the first of the rules by which the row fails, and a state of a function leads to one of that function.
///
/// # Errors
///
/// The first rule that fails.
pub fn data_answer(notes: &Notes, here: &Here, s: &State, i: &Insn) -> Result<State, RuleName>
    requires thunks { length notes.now.thunk < 2 ^ 32 }
    requires well_formed { WellFormed i.now }
    ensures related { DataRelated notes.now here.now s.now i.now result }
    ensures first { DataFirst notes.now here.now s.now i.now result }
    ensures keeps { DataKeeps notes.now here.now s.now result }
{
    after_data(notes, here, s, i)
}

/// `rules_flow::after_flow`, with what follows from its rows: its successors are exactly those that the row gives, so that a
/// fall isn't told as a jump, and exactly the places and states with which the instruction goes on; its error is the first of
/// the rules by which the row fails, and a state of a function leads to states of that function.
///
/// # Errors
///
/// The first rule that fails.
pub fn flow_answer(notes: &Notes, here: &Here, s: &State, i: &Insn) -> Result<Successors, RuleName>
    requires thunks { length notes.now.thunk < 2 ^ 32 }
    requires ascend { Ascends notes.now }
    requires well_formed { WellFormed i.now }
    ensures given { FlowGiven notes.now here.now s.now i.now result }
    ensures related { FlowRelated notes.now here.now s.now i.now result }
    ensures first { FlowFirst notes.now here.now s.now i.now result }
    ensures keeps { FlowKeeps notes.now here.now s.now result }
{
    after_flow(notes, here, s, i)
}

/// An instruction leads from a state with such fields to states with such fields.
pub fn fields_are_kept()
    ensures data { DataKeepsFields }
    ensures flow { FlowKeepsFields }
{}

//! What an instruction does in a state, told by what changes. So a walk that keeps one state makes the change in place.

ghost use Rattle.std.specs.Prelude.{◌≡◌, ◌<◌, ◌^◌, IfOk, length};
ghost use Rattle.ebc_insn.specs.Spelling.{WellFormed};
ghost use Rattle.note_types.specs.Records.{Ascends};
ghost use Rattle.rules_base.specs.Outcomes.{gives_map};
ghost use Rattle.rules_data.specs.Data.{after_data};
ghost use Rattle.rules_flow.specs.Flow.{after_flow};
ghost use Rattle.rules_flow.specs.Successors.{falls};
ghost use Rattle.width_checker.specs.Rows.{is_flow, is_r0, row_of};
ghost use Rattle.note_infer.specs.Turns.{FitsFall, FitsTurn, after_turn, fallen};

use ebc_insn::{Insn, Operand};
use note_types::{Notes, RuleName, State};
use rules_base::{Change, Here};
use rules_data::data_change;
use rules_flow::{Step, Successors, Update, flow_step};

/// What changes before the next instruction.
#[derive(Clone, Copy)]
pub(crate) enum Fall {
    /// What an instruction on data changes.
    Data(Change),
    /// What an instruction of control or of the stack changes.
    Flow(Update),
}

impl Fall {
    /// Makes the change.
    pub fn apply(self, s: &mut State)
        requires { FitsFall s.old self }
        ensures { s.new ≡ fallen s.old self }
    {
        match self {
            Fall::Data(change) => change.apply(s),
            Fall::Flow(update) => update.apply(s),
        }
    }
}

/// What an instruction does: control falls to the next one after a change, or this step leads where it goes.
#[derive(Clone, Copy)]
pub(crate) enum Turn {
    Falls(Fall),
    Leads(Step),
}

impl Turn {
    /// The states that the instruction leads to from a state, which is copied once for each of them.
    pub fn successors(self, s: &State) -> Successors
        requires { FitsTurn s.now self }
        ensures { result ≡ after_turn s.now self }
    {
        match self {
            Turn::Falls(fall) => {
                let mut after = s.copy();
                fall.apply(&mut after);
                Successors::falls(after)
            }
            Turn::Leads(step) => step.successors(s),
        }
    }
}

// An operand that is R0 itself.
fn is_r0(op: &Operand) -> bool
    ensures { result ≡ is_r0 op.now }
{
    !op.indirect && op.reg == 0
}

// Whether an instruction is one of control or of the stack.
fn is_flow(i: &Insn) -> bool
    ensures { result ≡ is_flow i.now }
{
    match i {
        Insn::Break { .. }
        | Insn::Jump { .. }
        | Insn::Jump8 { .. }
        | Insn::Call { .. }
        | Insn::Ret
        | Insn::Push { .. }
        | Insn::Pop { .. }
        | Insn::PushNatural { .. }
        | Insn::PopNatural { .. } => true,
        Insn::Move { left, .. }
        | Insn::MoveSigned { left, .. }
        | Insn::MoveImm { left, .. }
        | Insn::MoveImmNatural { left, .. }
        | Insn::MoveRelative { left, .. } => is_r0(left),
        _ => false,
    }
}

// What an instruction of control or of the stack does.
fn flow_turn(notes: &Notes, here: &Here, s: &State, i: &Insn) -> Result<Turn, RuleName>
    requires thunks { length notes.now.thunk < 2 ^ 32 }
    requires ascend { Ascends notes.now }
    requires well_formed { WellFormed i.now }
    ensures goes { gives_map (after_turn s.now) result ≡ after_flow notes.now here.now s.now i.now }
    ensures fits { IfOk result (FitsTurn s.now) }
{
    match flow_step(notes, here, s, i)? {
        Step::Falls(update) => Ok(Turn::Falls(Fall::Flow(update))),
        step => Ok(Turn::Leads(step)),
    }
}

// What an instruction on data does.
#[tactic(auto, unfolding(rules_data::specs::Data::after_data))]
fn data_turn(notes: &Notes, here: &Here, s: &State, i: &Insn) -> Result<Turn, RuleName>
    requires thunks { length notes.now.thunk < 2 ^ 32 }
    requires well_formed { WellFormed i.now }
    ensures goes { gives_map (after_turn s.now) result ≡ gives_map falls (after_data notes.now here.now s.now i.now) }
    ensures fits { IfOk result (FitsTurn s.now) }
{
    let change = data_change(notes, here, s, i)?;
    Ok(Turn::Falls(Fall::Data(change)))
}

/// What an instruction does in a state.
///
/// # Errors
///
/// The first rule of its row that fails.
#[tactic(auto, unfolding(width_checker::specs::Rows::row_of))]
pub(crate) fn turn_of(notes: &Notes, here: &Here, s: &State, i: &Insn) -> Result<Turn, RuleName>
    requires thunks { length notes.now.thunk < 2 ^ 32 }
    requires ascend { Ascends notes.now }
    requires well_formed { WellFormed i.now }
    ensures goes { gives_map (after_turn s.now) result ≡ row_of notes.now here.now s.now i.now }
    ensures fits { IfOk result (FitsTurn s.now) }
{
    if is_flow(i) {
        return flow_turn(notes, here, s, i);
    }
    data_turn(notes, here, s, i)
}

//! The row of an instruction, made in the state that is kept; one beside it is written where control parts.

ghost use Rattle.std.specs.Prelude.{◌≡◌, ◌<◌, ◌^◌, length, not};
ghost use Rattle.ebc_insn.specs.Spelling.{WellFormed};
ghost use Rattle.note_types.specs.Records.{Ascends};
ghost use Rattle.rules_base.specs.Outcomes.{gives_map};
ghost use Rattle.rules_data.specs.Data.{after_data};
ghost use Rattle.rules_flow.specs.Flow.{after_flow};
ghost use Rattle.rules_flow.specs.Steps.{FitsStep, successors_of};
ghost use Rattle.width_checker.specs.Paths.{does_fall, successors_from};
ghost use Rattle.width_checker.specs.Rows.{is_flow, is_r0, row_of};

use ebc_insn::{Insn, Operand};
use note_types::{Notes, RuleName, State};
use rules_base::Here;
use rules_data::data_change;
use rules_flow::{Step, flow_step, narrow};

/// Where control goes on after an instruction, beside the state that is kept and the one at the place of a jump taken.
#[derive(Clone, Copy)]
pub(crate) enum Path {
    /// The next instruction, with the state that is kept.
    Falls,
    /// The instruction at a place, with the state that is kept.
    Goes { place: u32 },
    /// The next instruction, with the state that is kept, or the one at a place, with the state there.
    Parts { place: u32 },
    /// No instruction of the function.
    Ends,
}

impl Path {
    // Whether control may go on at the next instruction.
    pub fn falls(&self) -> bool
        ensures { result ≡ does_fall self.now }
    {
        match self {
            Path::Falls | Path::Parts { .. } => true,
            Path::Goes { .. } | Path::Ends => false,
        }
    }
}

// An operand that is R0 itself.
fn is_r0(op: &Operand) -> bool
    ensures { result ≡ is_r0 op.now }
{
    !op.indirect && op.reg == 0
}

// Whether an instruction is one of control or of the stack.
fn is_flow(i: &Insn) -> bool
    ensures { result ≡ is_flow i.now }
{
    match i {
        Insn::Break { .. }
        | Insn::Jump { .. }
        | Insn::Jump8 { .. }
        | Insn::Call { .. }
        | Insn::Ret
        | Insn::Push { .. }
        | Insn::Pop { .. }
        | Insn::PushNatural { .. }
        | Insn::PopNatural { .. } => true,
        Insn::Move { left, .. }
        | Insn::MoveSigned { left, .. }
        | Insn::MoveImm { left, .. }
        | Insn::MoveImmNatural { left, .. }
        | Insn::MoveRelative { left, .. } => is_r0(left),
        _ => false,
    }
}

// Makes the step of an instruction of control or of the stack: `taken` is written only where control parts.
fn follow(step: Step, s: &mut State, taken: &mut State) -> Path
    requires { FitsStep s.old step }
    ensures { successors_from s.new taken.new result ≡ successors_of s.old step }
{
    match step {
        Step::Falls(update) => {
            update.apply(s);
            Path::Falls
        }
        Step::Goes { place } => Path::Goes { place },
        Step::Parts { place, set } => {
            *taken = s.copy();
            narrow(taken, set);
            narrow(s, !set);
            Path::Parts { place }
        }
        Step::Ends => Path::Ends,
    }
}

// An instruction of control or of the stack.
fn advance_flow(
    notes: &Notes,
    here: &Here,
    s: &mut State,
    taken: &mut State,
    i: &Insn,
) -> Result<Path, RuleName>
    requires thunks { length notes.now.thunk < 2 ^ 32 }
    requires ascend { Ascends notes.now }
    requires well_formed { WellFormed i.now }
    ensures { gives_map (successors_from s.new taken.new) result ≡ after_flow notes.now here.now s.old i.now }
{
    let step = flow_step(notes, here, s, i)?;
    Ok(follow(step, s, taken))
}

// An instruction on data.
#[tactic(auto, unfolding(rules_data::specs::Data::after_data))]
fn advance_data(notes: &Notes, here: &Here, s: &mut State, i: &Insn) -> Result<(), RuleName>
    requires thunks { length notes.now.thunk < 2 ^ 32 }
    requires well_formed { WellFormed i.now }
    ensures { gives_map (λ _. s.new) result ≡ after_data notes.now here.now s.old i.now }
{
    let change = data_change(notes, here, s, i)?;
    change.apply(s);
    Ok(())
}

/// Makes the row of an instruction in a state: the state is then the one before the next instruction, where control falls
/// through to it, and else as it was. Where control parts, `taken` becomes the state at the place of the jump.
///
/// # Errors
///
/// The first rule of the row that fails. The state is then as it was.
#[tactic(auto, unfolding(crate::specs::Rows::row_of))]
pub(crate) fn advance(
    notes: &Notes,
    here: &Here,
    s: &mut State,
    taken: &mut State,
    i: &Insn,
) -> Result<Path, RuleName>
    requires thunks { length notes.now.thunk < 2 ^ 32 }
    requires ascend { Ascends notes.now }
    requires well_formed { WellFormed i.now }
    ensures { gives_map (successors_from s.new taken.new) result ≡ row_of notes.now here.now s.old i.now }
{
    if is_flow(i) {
        return advance_flow(notes, here, s, taken, i);
    }
    advance_data(notes, here, s, i)?;
    Ok(Path::Falls)
}

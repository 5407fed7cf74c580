//! All instructions of control and of the stack.

ghost use Rattle.std.specs.Prelude.{◌≡◌, ◌<◌, ◌^◌, IfOk, length};
ghost use Rattle.natural_index.specs.Index.{IsIndexSize};
ghost use Rattle.ebc_insn.specs.Spelling.{IsOperand, RightFits, WellFormed};
ghost use Rattle.note_types.specs.Records.{Ascends};
ghost use Rattle.rules_base.specs.Outcomes.{gives_map};
ghost use Rattle.rules_flow.specs.Flow.{address_rule, after_flow, flow_row, frame_move, plain_row, slot_kind, to_stack};
ghost use Rattle.rules_flow.specs.Steps.{FitsStep, successors_of};

use crate::calls::{break_row, call_native_row, call_row, return_row};
use crate::frames::{frame_row, pop_row, push_row};
use crate::jumps::{Aim, jump_row, jump8_row};
use crate::step::Step;
use crate::successors::Successors;
use ebc_insn::{Insn, Operand, Size};
use natural_index::Index;
use note_types::{FnNote, Notes, RuleName, SlotKind, State};
use rules_base::{Here, index_distance, relocated, takes_address};

/// The states after an instruction of control or of the stack: BREAK, JMP, JMP8, CALL, CALLEX, RET, the pushes and pops,
/// and the moves to R0 itself.
///
/// # Errors
///
/// The first rule that fails.
pub fn after_flow(notes: &Notes, here: &Here, s: &State, i: &Insn) -> Result<Successors, RuleName>
    requires thunks { length notes.now.thunk < 2 ^ 32 }
    requires ascend { Ascends notes.now }
    requires well_formed { WellFormed i.now }
    ensures { result ≡ after_flow notes.now here.now s.now i.now }
{
    let step = flow_step(notes, here, s, i)?;
    Ok(step.successors(s))
}

/// What an instruction of control or of the stack does, told by what changes. A checker that keeps one state makes the
/// change in place.
///
/// # Errors
///
/// The first rule that fails.
#[tactic(auto, unfolding(crate::specs::Flow::after_flow))]
pub fn flow_step(notes: &Notes, here: &Here, s: &State, i: &Insn) -> Result<Step, RuleName>
    requires thunks { length notes.now.thunk < 2 ^ 32 }
    requires ascend { Ascends notes.now }
    requires well_formed { WellFormed i.now }
    ensures goes { gives_map (successors_of s.now) result ≡ after_flow notes.now here.now s.now i.now }
    ensures fits { IfOk result (FitsStep s.now) }
{
    match notes.function.as_slice().get(here.func as usize) {
        Some(f) => flow_row(notes, f, here, s, i),
        None => Err(RuleName::Function),
    }
}

// The row of an instruction.
fn flow_row(notes: &Notes, f: &FnNote, here: &Here, s: &State, i: &Insn) -> Result<Step, RuleName>
    requires thunks { length notes.now.thunk < 2 ^ 32 }
    requires ascend { Ascends notes.now }
    requires well_formed { WellFormed i.now }
    ensures goes { gives_map (successors_of s.now) result ≡ flow_row notes.now f.now here.now s.now i.now }
    ensures fits { IfOk result (FitsStep s.now) }
{
    match i {
        Insn::Jump {
            cond,
            far,
            relative,
            op,
            extra,
        } => jump_row(
            notes,
            f,
            here,
            *cond,
            Aim {
                far: *far,
                relative: *relative,
                op,
                extra,
            },
        ),
        Insn::Jump8 { cond, words } => jump8_row(notes, f, here, *cond, *words),
        Insn::Call {
            far,
            native: false,
            relative,
            op,
            extra,
        } => call_row(
            notes,
            f,
            here,
            s,
            Aim {
                far: *far,
                relative: *relative,
                op,
                extra,
            },
        ),
        Insn::MoveImm {
            size,
            bits,
            left,
            ..
        } => Err(address_rule(
            notes,
            here.reloc,
            takes_address(*size, *bits, left.indirect),
            left,
        )),
        _ => if here.reloc.is_none() {
            plain_row(notes, f, here, s, i)
        } else {
            Err(RuleName::Relocation)
        },
    }
}

// The row of an instruction that isn't relocated, other than JMP and CALL; those on data have none here.
fn plain_row(notes: &Notes, f: &FnNote, here: &Here, s: &State, i: &Insn) -> Result<Step, RuleName>
    requires thunks { length notes.now.thunk < 2 ^ 32 }
    requires ascend { Ascends notes.now }
    requires well_formed { WellFormed i.now }
    ensures goes { gives_map (successors_of s.now) result ≡ plain_row notes.now f.now here.now s.now i.now }
    ensures fits { IfOk result (FitsStep s.now) }
{
    match i {
        Insn::Break { code } => break_row(notes, s, *code),
        Insn::Ret => return_row(f, s),
        Insn::Call {
            far,
            relative,
            op,
            extra,
            ..
        } => call_native_row(
            notes,
            f,
            here,
            s,
            Aim {
                far: *far,
                relative: *relative,
                op,
                extra,
            },
        ),
        Insn::Push { wide, op, extra } => push_row(notes, f, s, slot_kind(*wide), op, extra),
        Insn::Pop { wide, op, extra } => pop_row(notes, f, s, slot_kind(*wide), op, extra),
        Insn::PushNatural { op, extra } => push_row(notes, f, s, SlotKind::N, op, extra),
        Insn::PopNatural { op, extra } => pop_row(notes, f, s, SlotKind::N, op, extra),
        Insn::Move {
            size,
            bits,
            left,
            right,
            ridx,
            ..
        } => frame_move(
            notes,
            f,
            s,
            FrameMove {
                size: *size,
                bits: *bits,
                left,
                right,
                ridx,
            },
        ),
        Insn::MoveSigned { left, .. }
        | Insn::MoveImm { left, .. }
        | Insn::MoveImmNatural { left, .. }
        | Insn::MoveRelative { left, .. } => Err(to_stack(left)),
        _ => Err(RuleName::Form),
    }
}

// The kind of the slot that a form of 64 or of 32 bits pushes or pops.
fn slot_kind(wide: bool) -> SlotKind
    ensures { result ≡ slot_kind wide }
{
    if wide { SlotKind::Q } else { SlotKind::D }
}

/// MOVb to MOVqq or MOVn, with the first operand as it is.
#[derive(Clone, Copy)]
pub struct FrameMove<'a> {
    pub size: Size,
    pub bits: u8,
    pub left: &'a Operand,
    pub right: &'a Operand,
    pub ridx: &'a Option<Index>,
}

// A move to R0: MOVq from R0 makes locals and drops items, and no other writes R0.
fn frame_move(notes: &Notes, f: &FnNote, s: &State, it: FrameMove) -> Result<Step, RuleName>
    requires size { IsIndexSize it.bits }
    requires index { RightFits it.bits it.ridx.now }
    ensures goes { gives_map (successors_of s.now) result ≡
        frame_move notes.now f.now s.now it.entry.size it.entry.left.now it.entry.right.now it.entry.ridx.now }
    ensures fits { IfOk result (FitsStep s.now) }
{
    if it.left.indirect {
        return Err(RuleName::Form);
    }
    match it.size {
        Size::Qword if it.left.reg == 0 && !it.right.indirect && it.right.reg == 0 => {
            frame_row(notes, f, s, index_distance(it.bits, it.ridx))
        }
        _ => Err(RuleName::Stack),
    }
}

// Another move of a register other than R0 or to memory isn't one of these instructions.
fn to_stack(left: &Operand) -> RuleName
    ensures { result ≡ to_stack left.now }
{
    if left.indirect {
        RuleName::Form
    } else {
        RuleName::Stack
    }
}

// An address moved to R0: first whether its relocation is allowed.
fn address_rule(notes: &Notes, reloc: Option<u32>, takes: bool, left: &Operand) -> RuleName
    requires { length notes.now.thunk < 2 ^ 32 }
    ensures { result ≡ address_rule notes.now reloc takes left.now }
{
    match reloc {
        Some(place) => match relocated(notes, takes, place) {
            Ok(_) => to_stack(left),
            Err(rule) => rule,
        },
        None => to_stack(left),
    }
}

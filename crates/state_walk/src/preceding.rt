//! What stands before an instruction.

ghost use Rattle.std.specs.Prelude.{◌<◌, IfSome};
ghost use Rattle.note_types.specs.Records.{IsNotes};
ghost use Rattle.state_walk.specs.Standing.{HasSuccessors, LeadsToStates};

use ebc_insn::{Insn, well_formed};
use note_infer::row;
use note_types::{Notes, State, Ty};
use rules_base::Here;
use rules_flow::Successors;

/// Since when nothing is known of a register.
#[derive(Clone, Copy)]
pub enum Since {
    /// Something is known of it, or nothing was known at the function's entry.
    Entry,
    /// The instruction at this place left nothing known, or wrote what is unknown.
    Instruction(u32),
    /// The point at this place leaves it out.
    Point(u32),
}

/// What stands before the instruction at a place.
#[derive(Drop)]
pub struct Before {
    /// The number of its function.
    pub func: u32,
    /// The place.
    pub place: u32,
    /// The state with which the instruction before falls through to it, where it does. At the function's start its
    /// entry state.
    pub arrived: Option<State>,
    /// The state before it: that of the point there, and else the one that arrived.
    pub state: Option<State>,
    /// The instruction, where one decodes within the function, and the place of the next one.
    pub insn: Option<(Insn, u32)>,
    /// Where it stands, where the rule `relocation` holds of it.
    pub here: Option<Here>,
    /// Since when nothing is known of each register.
    pub since: [Since; 8],
}

impl Before {
    /// The states to which it leads. `None` where no state is before it, where it doesn't decode, and where a rule of
    /// its row fails.
    pub fn leads(&self, notes: &Notes) -> Option<Successors>
        requires { IsNotes notes.now }
        ensures leads { IfSome result (LeadsToStates notes.now self.now) }
        ensures whole { HasSuccessors notes.now self.now result }
    {
        let here = self.here?;
        let (insn, _) = self.insn?;
        let state = self.state.as_ref()?;
        if !well_formed(&insn) {
            return None;
        }
        row(notes, &here, state, &insn).ok()
    }

    // Since when nothing is known of each register before the next instruction, where this state falls to it.
    pub(crate) fn since_next(&self, fall: &Option<State>) -> [Since; 8] {
        let by = Since::Instruction(self.place);
        let mut since = since_then(&self.since, &self.state, fall, by);
        if let Some((insn, _)) = &self.insn {
            let reg = written_by(insn) as usize;
            if 0 < reg && reg < 8 && !is_known(fall, reg) {
                since[reg] = by;
            }
        }
        since
    }
}

// The register that an instruction on data writes, or else R0, of which nothing is told.
fn written_by(insn: &Insn) -> u8 {
    match insn {
        Insn::Arith { left, .. }
        | Insn::Move { left, .. }
        | Insn::MoveSigned { left, .. }
        | Insn::MoveImm { left, .. }
        | Insn::MoveImmNatural { left, .. }
        | Insn::MoveRelative { left, .. }
            if !left.indirect => left.reg,
        Insn::Pop { op, .. } | Insn::PopNatural { op, .. } if !op.indirect => op.reg,
        Insn::StoreSpecial { to, .. } => *to,
        _ => 0,
    }
}

// Whether something is known of a register, or no state is there.
fn is_known(s: &Option<State>, reg: usize) -> bool
    requires { reg < 8 }
{
    match s {
        Some(s) => s.regs[reg] != Ty::Any,
        None => true,
    }
}

/// Since when nothing is known of each register, once a state is left for another one by an instruction or a point.
pub(crate) fn since_then(
    old: &[Since; 8],
    s: &Option<State>,
    t: &Option<State>,
    by: Since,
) -> [Since; 8] {
    let mut new = *old;
    if t.is_none() {
        return new;
    }
    for reg in 1..8usize {
        if is_known(t, reg) {
            new[reg] = Since::Entry;
        } else if is_known(s, reg) {
            new[reg] = by;
        }
    }
    new
}

//! The operands of an instruction that are in memory.

ghost use Rattle.std.specs.Prelude.{◌<◌};
ghost use Rattle.ebc_insn.specs.Spelling.{IsOperand, WellFormed};

use ebc_insn::{Insn, Operand, Size};
use note_types::SlotKind;
use rules_base::{Access, Distance, extra_distance, form_access, index_distance, left_distance};

/// An operand in memory: how it is reached, from which register and how far, and whether it is loaded and stored to.
#[derive(Clone, Copy)]
pub(crate) struct Memory {
    pub access: Access,
    pub reg: u8,
    pub distance: Distance,
    pub loads: bool,
    pub stores: bool,
    ghost register: { reg < 8 },
}

// No distance.
const NOWHERE: Distance = Distance { n: 0, c: 0 };

// Whether an operand in memory is loaded, and whether it is stored to.
#[derive(Clone, Copy)]
struct Use {
    loads: bool,
    stores: bool,
}

const LOADED: Use = Use {
    loads: true,
    stores: false,
};

const STORED: Use = Use {
    loads: false,
    stores: true,
};

const CHANGED: Use = Use {
    loads: true,
    stores: true,
};

// An operand, where it is in memory.
fn in_memory(access: Access, op: &Operand, distance: Distance, used: Use) -> Option<Memory>
    requires { IsOperand op.now }
{
    if !op.indirect {
        return None;
    }
    Some(Memory {
        access,
        reg: op.reg,
        distance,
        loads: used.loads,
        stores: used.stores,
    })
}

/// How a move of a size reaches memory.
pub(crate) fn move_access(size: Size) -> Access {
    match size {
        Size::Byte => Access::Byte,
        Size::Word => Access::Word,
        Size::Dword => Access::Dword,
        Size::Qword => Access::Qword,
        Size::Natural => Access::Natural,
    }
}

/// A slot that is pushed, or popped: its kind, and the operand beside it.
#[derive(Clone, Copy)]
pub(crate) struct Slot {
    pub pops: bool,
    pub kind: SlotKind,
    pub op: Operand,
}

/// What an instruction pushes or pops.
pub(crate) fn moved_slot(i: &Insn) -> Option<Slot> {
    let (pops, kind, op) = match *i {
        Insn::Push { wide: true, op, .. } => (false, SlotKind::Q, op),
        Insn::Push { op, .. } => (false, SlotKind::D, op),
        Insn::PushNatural { op, .. } => (false, SlotKind::N, op),
        Insn::Pop { wide: true, op, .. } => (true, SlotKind::Q, op),
        Insn::Pop { op, .. } => (true, SlotKind::D, op),
        Insn::PopNatural { op, .. } => (true, SlotKind::N, op),
        _ => return None,
    };
    Some(Slot { pops, kind, op })
}

/// Operand 1, where it is in memory.
pub(crate) fn left_memory(i: &Insn) -> Option<Memory>
    requires { WellFormed i.now }
{
    match i {
        Insn::CompareImm {
            wide,
            left,
            idx,
            ..
        } => in_memory(
            form_access(*wide),
            left,
            left_distance(16, left, idx),
            LOADED,
        ),
        Insn::Arith { wide, left, .. } => in_memory(form_access(*wide), left, NOWHERE, CHANGED),
        Insn::Move {
            size,
            bits,
            left,
            lidx,
            ..
        } => in_memory(
            move_access(*size),
            left,
            left_distance(*bits, left, lidx),
            STORED,
        ),
        Insn::MoveSigned {
            bits,
            left,
            lidx,
            ..
        } => in_memory(
            Access::Signed,
            left,
            left_distance(*bits, left, lidx),
            STORED,
        ),
        Insn::MoveImm {
            size,
            left,
            lidx,
            ..
        } => in_memory(
            move_access(*size),
            left,
            left_distance(16, left, lidx),
            STORED,
        ),
        Insn::MoveImmNatural { left, lidx, .. } => {
            in_memory(Access::Natural, left, left_distance(16, left, lidx), STORED)
        }
        Insn::Pop { wide, op, extra } => {
            in_memory(
                form_access(*wide),
                op,
                extra_distance(16, op, extra),
                STORED,
            )
        }
        Insn::PopNatural { op, extra } => {
            in_memory(Access::Natural, op, extra_distance(16, op, extra), STORED)
        }
        _ => None,
    }
}

/// The operand that is only read, where it is in memory.
pub(crate) fn right_memory(i: &Insn) -> Option<Memory>
    requires { WellFormed i.now }
{
    match i {
        Insn::Compare {
            wide,
            right,
            extra,
            ..
        }
        | Insn::Arith {
            wide,
            right,
            extra,
            ..
        } => in_memory(
            form_access(*wide),
            right,
            extra_distance(16, right, extra),
            LOADED,
        ),
        Insn::Move {
            size,
            bits,
            right,
            ridx,
            ..
        } => in_memory(
            move_access(*size),
            right,
            index_distance(*bits, ridx),
            LOADED,
        ),
        Insn::MoveSigned {
            bits,
            right,
            extra,
            ..
        } => in_memory(
            Access::Signed,
            right,
            extra_distance(*bits, right, extra),
            LOADED,
        ),
        Insn::Push { wide, op, extra } => {
            in_memory(
                form_access(*wide),
                op,
                extra_distance(16, op, extra),
                LOADED,
            )
        }
        Insn::PushNatural { op, extra } => {
            in_memory(Access::Natural, op, extra_distance(16, op, extra), LOADED)
        }
        Insn::Call {
            native: true,
            far: false,
            op,
            extra,
            ..
        } => in_memory(Access::Natural, op, extra_distance(32, op, extra), LOADED),
        _ => None,
    }
}

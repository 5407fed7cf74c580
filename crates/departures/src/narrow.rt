//! Numbers of one, two or four bytes, and what lies above them.

ghost use Rattle.std.specs.Prelude.{◌≡◌};
ghost use Rattle.ebc_insn.specs.Spelling.{IsOperand, WellFormed};
ghost use Rattle.note_types.specs.BelowTests.{is_any};
ghost use Rattle.rules_data.specs.Arithmetic.{is_unary};
ghost use Rattle.departures.specs.Narrow.{cuts_to, form_takes, is_cut_to, is_unnarrowed, loaded_place, named, operation_takes};
ghost use Rattle.departures.specs.Narrow.{fits_size, narrow_most, reads_above, reads_left};

use crate::above::{Above, Uncut, takes_along};
use crate::operand::{is_r7, is_register_itself};
use ebc_insn::{ArithOp, Insn, Operand, Size};
use note_types::{FnNote, Notes, SlotKind, State, Ty};
use rules_base::{Distance, Place, extra_distance, index_distance, place_at};

// ---- what instructions read of R7

pub fn is_unary(op: ArithOp) -> bool
    ensures { result ≡ is_unary op }
{
    matches!(
        op,
        ArithOp::Not | ArithOp::Neg | ArithOp::Extb | ArithOp::Extw | ArithOp::Extd
    )
}

pub fn is_any(t: &Ty) -> bool
    ensures { result ≡ is_any t.now }
{
    matches!(t, Ty::Any)
}

// Whether a form of 64 bits, or else of 32, takes bits above a byte, a word or a double word.
fn form_takes(above: Above, wide: bool) -> bool
    ensures { result ≡ form_takes above wide }
{
    match above {
        Above::Natural | Above::Dword => wide,
        Above::Byte | Above::Word => true,
    }
}

// Whether an operation looks at them in operand 2.
fn operation_takes(above: Above, op: ArithOp, wide: bool) -> bool
    ensures { result ≡ operation_takes above op wide }
{
    match op {
        ArithOp::Extb => false,
        ArithOp::Extw => takes_along(above, Size::Word),
        ArithOp::Extd => takes_along(above, Size::Dword),
        _ => form_takes(above, wide),
    }
}

// Whether an instruction of a function reads such bits of R7, or hands them to a caller where it is called.
fn reads_above(above: Above, f: &FnNote, called: bool, insn: &Insn) -> bool
    ensures { result ≡ reads_above above f.now called insn.now }
{
    match insn {
        Insn::Compare {
            wide,
            left,
            right,
            ..
        } => form_takes(above, *wide) && (*left == 7 || is_r7(right)),
        Insn::CompareImm { wide, left, .. } => form_takes(above, *wide) && is_r7(left),
        Insn::Arith {
            op,
            wide,
            left,
            right,
            ..
        } => (is_r7(right) && operation_takes(above, *op, *wide))
            || (is_r7(left) && !is_unary(*op) && form_takes(above, *wide)),
        Insn::Move {
            size,
            left,
            right,
            ..
        } => is_r7(right) && !is_r7(left) && takes_along(above, *size),
        Insn::MoveSigned { right, .. } => is_r7(right),
        Insn::Push { wide, op, .. } => form_takes(above, *wide) && is_r7(op),
        Insn::PushNatural { op, .. } => is_r7(op),
        Insn::Ret => called && !is_any(&f.result),
        _ => false,
    }
}

/// Whether an instruction of a function reads bits of R7 that a native call may have left above a number.
pub fn reads_left(uncut: &Uncut, f: &FnNote, called: bool, insn: &Insn) -> bool
    ensures { result ≡ reads_left uncut.now f.now called insn.now }
{
    (uncut.byte && reads_above(Above::Byte, f, called, insn))
        || (uncut.word && reads_above(Above::Word, f, called, insn))
        || (uncut.dword && reads_above(Above::Dword, f, called, insn))
}

// ---- parameters

// The largest number of a parameter of a natural slot, where it has at most four bytes.
fn narrow_most(place: &Option<Place>) -> Option<u64>
    ensures { result ≡ narrow_most place.now }
{
    match place {
        Some(
            Place::Parameter {
                kind: SlotKind::N,
                ty: Ty::Int { hi, .. },
            },
        ) => if *hi < 4_294_967_296 { Some(*hi) } else { None },
        _ => None,
    }
}

// The place in memory that an operand names.
fn named(notes: &Notes, f: &FnNote, s: &State, op: &Operand, d: Distance) -> Option<Place>
    requires { IsOperand op.now }
    ensures { result ≡ named notes.now f.now s.now op.now d }
{
    if op.indirect {
        place_at(notes, f, s, op.reg, d)
    } else {
        None
    }
}

// The place from which an instruction loads a natural unit.
fn loaded_place(notes: &Notes, f: &FnNote, s: &State, insn: &Insn) -> Option<Place>
    requires { WellFormed insn.now }
    ensures { result ≡ loaded_place notes.now f.now s.now insn.now }
{
    match insn {
        Insn::Move {
            size: Size::Natural,
            bits,
            right,
            ridx,
            ..
        } => named(notes, f, s, right, index_distance(*bits, ridx)),
        Insn::PushNatural { op, extra } => named(notes, f, s, op, extra_distance(16, op, extra)),
        _ => None,
    }
}

// Whether a move of a size keeps no more than a number has bytes.
fn fits_size(most: u64, size: Size) -> bool
    ensures { result ≡ fits_size most size }
{
    match size {
        Size::Byte => true,
        Size::Word => 256 <= most,
        Size::Dword => 65_536 <= most,
        Size::Qword | Size::Natural => false,
    }
}

// Whether an instruction cuts a register so.
fn cuts_to(most: u64, reg: u8, insn: &Insn) -> bool
    ensures { result ≡ cuts_to most reg insn.now }
{
    match insn {
        Insn::Move {
            size,
            left,
            right,
            ..
        } => is_register_itself(reg, left)
            && is_register_itself(reg, right)
            && fits_size(most, *size),
        _ => false,
    }
}

// Whether the register that a move loads is cut so by the instruction behind it.
fn is_cut_to(most: u64, behind: &Option<(Insn, u32)>, insn: &Insn) -> bool
    ensures { result ≡ is_cut_to most behind.now insn.now }
{
    match (insn, behind) {
        (Insn::Move { left, .. }, Some((behind, _))) => !left.indirect
            && cuts_to(most, left.reg, behind),
        _ => false,
    }
}

/// Whether an instruction of a function that firmware enters loads all of a natural slot that has a number of at most four bytes, and
/// none behind it cuts that.
pub fn is_unnarrowed(
    notes: &Notes,
    f: &FnNote,
    s: &State,
    behind: &Option<(Insn, u32)>,
    insn: &Insn,
) -> bool
    requires { WellFormed insn.now }
    ensures { result ≡ is_unnarrowed notes.now f.now s.now behind.now insn.now }
{
    if !f.enter {
        return false;
    }
    match narrow_most(&loaded_place(notes, f, s, insn)) {
        Some(most) => !is_cut_to(most, behind, insn),
        None => false,
    }
}

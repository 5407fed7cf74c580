//! Bits of R7 that a native call may leave, and what instructions do with them.

ghost use Rattle.std.specs.Prelude.{◌≡◌, option_copied};
ghost use Rattle.departures.specs.Above.{has_size, keeps, leaves, moves_r7, takes_along, writes_r7};

use crate::operand::is_r7;
use ebc_insn::{Insn, Size};
use note_types::{Signature, Ty};

/// Bits of R7 that a native call may leave: those above the size of a pointer, or above a byte, a word or a double word.
#[derive(Clone, Copy)]
pub enum Above {
    Natural,
    Byte,
    Word,
    Dword,
}

/// Which bits of R7 may be as a native call left them.
#[derive(Clone, Copy)]
pub struct Uncut {
    /// Those above the size of a pointer, behind any native call.
    pub natural: bool,
    /// Those above a byte, behind a native call that gives a number of one byte.
    pub byte: bool,
    /// Those above two bytes, behind one that gives a number of two bytes.
    pub word: bool,
    /// Those above four bytes, behind one that gives a number of four bytes.
    pub dword: bool,
}

// Whether an instruction leaves something else in R7.
fn writes_r7(insn: &Insn) -> bool
    ensures { result ≡ writes_r7 insn.now }
{
    match insn {
        Insn::Call { .. } => true,
        Insn::Arith { left, .. }
        | Insn::Move { left, .. }
        | Insn::MoveSigned { left, .. }
        | Insn::MoveImm { left, .. }
        | Insn::MoveImmNatural { left, .. }
        | Insn::MoveRelative { left, .. } => is_r7(left),
        Insn::StoreSpecial { to, .. } => *to == 7,
        Insn::Pop { op, .. } | Insn::PopNatural { op, .. } => is_r7(op),
        _ => false,
    }
}

/// Whether a move of a size takes bits above a byte, a word or a double word along.
pub fn takes_along(above: Above, size: Size) -> bool
    ensures { result ≡ takes_along above size }
{
    match (above, size) {
        (Above::Byte, Size::Byte) => false,
        (Above::Byte, _) => true,
        (Above::Word, Size::Byte | Size::Word) => false,
        (Above::Word, _) => true,
        (Above::Dword, Size::Qword | Size::Natural) => true,
        _ => false,
    }
}

// Whether an instruction moves R7 to itself, and such bits along.
fn moves_r7(above: Above, insn: &Insn) -> bool
    ensures { result ≡ moves_r7 above insn.now }
{
    match insn {
        Insn::Move {
            size,
            left,
            right,
            ..
        } => is_r7(left) && is_r7(right) && takes_along(above, *size),
        _ => false,
    }
}

/// Whether an instruction leaves such bits of R7 as they are.
pub fn keeps(above: Above, insn: &Insn) -> bool
    ensures { result ≡ keeps above insn.now }
{
    !writes_r7(insn) || moves_r7(above, insn)
}

// Whether a number of this type has a byte, a word or a double word, and no less.
fn has_size(above: Above, t: &Option<Ty>) -> bool
    ensures { result ≡ has_size above t.now }
{
    match (above, t) {
        (Above::Byte, Some(Ty::Int { hi, .. })) => *hi < 256,
        (Above::Word, Some(Ty::Int { hi, .. })) => 256 <= *hi && *hi < 65_536,
        (Above::Dword, Some(Ty::Int { hi, .. })) => 65_536 <= *hi && *hi < 4_294_967_296,
        _ => false,
    }
}

/// Whether a native method that is called so may leave anything in such bits.
pub fn leaves(above: Above, x: Option<&Signature>) -> bool
    ensures { result ≡ leaves above (option_copied x.entry) }
{
    match (above, x) {
        (Above::Natural, _) => true,
        (_, Some(x)) => has_size(above, &x.result),
        _ => false,
    }
}

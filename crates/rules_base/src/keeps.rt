//! What the moves keep of a value that is in a register.

ghost use Rattle.std.specs.Prelude.{◌≡◌};
ghost use Rattle.rules_base.specs.Kept.{kept, kept_low, kept_natural, kept_signed};

use crate::parts::numbers_up_to;
use ebc_insn::Size;
use note_types::Ty;

// What a move of 8 bits keeps.
fn kept_byte(t: Ty) -> Ty
    ensures { result ≡ kept_low 8 t }
{
    match t {
        Ty::Int { hi, .. } => if hi < 0x100 { t } else { numbers_up_to(0xFF) },
        _ => Ty::Any,
    }
}

// What a move of 16 bits keeps.
fn kept_word(t: Ty) -> Ty
    ensures { result ≡ kept_low 16 t }
{
    match t {
        Ty::Int { hi, .. } => if hi < 0x1_0000 {
            t
        } else {
            numbers_up_to(0xFFFF)
        },
        _ => Ty::Any,
    }
}

/// What a move of 32 bits keeps: an Int where it fits.
pub fn kept_dword(t: Ty) -> Ty
    ensures { result ≡ kept_low 32 t }
{
    match t {
        Ty::Int { hi, .. } => if hi < 0x1_0000_0000 {
            t
        } else {
            numbers_up_to(0xFFFF_FFFF)
        },
        _ => Ty::Any,
    }
}

/// What MOVn keeps: what has one meaning in a natural unit.
pub fn kept_natural(t: Ty) -> Ty
    ensures { result ≡ kept_natural t }
{
    match t {
        Ty::Int { hi, .. } => if hi < 0x1_0000_0000 { t } else { Ty::Any },
        Ty::Lin { c, .. } => if 0 <= c { t } else { Ty::Any },
        Ty::Ptr { n, c, .. } => if n == 0 && c == 0 { t } else { Ty::Any },
        Ty::SignedStatus(_) | Ty::Saved(_) => Ty::Any,
        _ => t,
    }
}

/// What MOVsn keeps: a status, sign-extended, and small numbers.
pub fn kept_signed(t: Ty) -> Ty
    ensures { result ≡ kept_signed t }
{
    match t {
        Ty::Status(grants) => Ty::SignedStatus(grants),
        Ty::Int { hi, .. } => if hi < 0x8000_0000 { t } else { Ty::Any },
        _ => Ty::Any,
    }
}

/// What a move of this size keeps.
pub fn kept(size: Size, t: Ty) -> Ty
    ensures { result ≡ kept size t }
{
    match size {
        Size::Byte => kept_byte(t),
        Size::Word => kept_word(t),
        Size::Dword => kept_dword(t),
        Size::Qword => t,
        Size::Natural => kept_natural(t),
    }
}

//! Forms of instructions: what an opcode names, and what the first two bytes of each say.

ghost use Rattle.std.specs.Prelude.{◌≡◌, ◌≤◌};
ghost use Rattle.ebc_decode.specs.Reading.{has_left_index, is_direct_index, is_far_wrong, is_move_wrong, is_reserved, size1_at, size2_at};
ghost use Rattle.ebc_decode.specs.Reading.{size_if};

use crate::bits::{bits_at, flag, operand_at};
use ebc_insn::{ArithOp, CmpOp, Size};

// What an opcode names; a move's indexes have as many bits as stand in it.
#[derive(Clone, Copy)]
pub enum Form {
    Break,
    Jump,
    Jump8,
    Call,
    Ret,
    Compare(CmpOp),
    CompareImm(CmpOp),
    Arith(ArithOp),
    Move(Size, u8),
    MoveSigned(u8),
    MoveImm,
    MoveImmNatural,
    MoveRelative,
    LoadSpecial,
    StoreSpecial,
    Push,
    Pop,
    PushNatural,
    PopNatural,
}

impl Form {
    // Whether a bit is set that must be zero, or zero that must be set.
    #[tactic(auto, unfolding(crate::specs::Reading::is_reserved))]
    #[inline(always)]
    pub fn is_reserved(self, b0: u8, b1: u8) -> bool
        ensures { result ≡ is_reserved self b0 b1 }
    {
        match self {
            Form::Break => b0 / 64 != 0,
            Form::Jump => flag(b1 / 32) || b1 / 64 == 1 || is_far_wrong(b0, b1),
            Form::Jump8 => b0 / 64 == 1,
            Form::Call => b1 / 64 != 0 || is_far_wrong(b0, b1),
            Form::Ret => b0 / 64 != 0 || b1 != 0,
            Form::Compare(_) => flag(b1 / 8),
            Form::CompareImm(_) => b1 / 16 >= 2,
            Form::Arith(_) | Form::Move(..) | Form::MoveSigned(_) => false,
            Form::MoveImm => b0 / 64 == 0 || flag(b1 / 128),
            Form::MoveImmNatural | Form::MoveRelative => is_move_wrong(b0, b1),
            Form::LoadSpecial => b0 / 64 != 0 || b1 % 16 != 0 || flag(b1 / 128),
            Form::StoreSpecial => b0 / 64 != 0 || flag(b1 / 8) || b1 / 16 >= 2,
            Form::Push | Form::Pop => b1 / 16 != 0,
            Form::PushNatural | Form::PopNatural => flag(b0 / 64) || b1 / 16 != 0,
        }
    }

    // Whether operand 1 has an index and is direct.
    #[inline(always)]
    pub fn is_direct_index(self, b0: u8, b1: u8) -> bool
        ensures { result ≡ is_direct_index self b0 b1 }
    {
        self.has_left_index(b0, b1) && !operand_at(b1 % 16).indirect
    }

    #[tactic(auto, unfolding(crate::specs::Reading::has_left_index))]
    #[inline(always)]
    fn has_left_index(self, b0: u8, b1: u8) -> bool
        ensures { result ≡ has_left_index self b0 b1 }
    {
        match self {
            Form::Move(..) | Form::MoveSigned(_) => flag(b0 / 128),
            Form::CompareImm(_) => flag(b1 / 16),
            Form::MoveImm | Form::MoveImmNatural | Form::MoveRelative => flag(b1 / 64),
            _ => false,
        }
    }

    // How many bytes the first field has.
    #[tactic(auto, unfolding(crate::specs::Reading::size1_at))]
    #[inline(always)]
    pub fn size1(self, b0: u8, b1: u8) -> usize
        ensures same { result ≡ size1_at self b0 b1 }
        ensures range { result ≤ 31 }
    {
        let seven = flag(b0 / 128);
        match self {
            Form::Jump | Form::Call => size_if(seven, if flag(b0 / 64) { 64 } else { 32 }),
            Form::Compare(_)
            | Form::Arith(_)
            | Form::Push
            | Form::Pop
            | Form::PushNatural
            | Form::PopNatural => size_if(seven, 16),
            Form::Move(_, bits) | Form::MoveSigned(bits) => size_if(seven, bits),
            Form::CompareImm(_) => size_if(flag(b1 / 16), 16),
            Form::MoveImm | Form::MoveImmNatural | Form::MoveRelative => size_if(flag(b1 / 64), 16),
            Form::Break | Form::Jump8 | Form::Ret | Form::LoadSpecial | Form::StoreSpecial => 0,
        }
    }

    // How many bytes the second field has.
    #[tactic(auto, unfolding(crate::specs::Reading::size2_at))]
    #[inline(always)]
    pub fn size2(self, b0: u8) -> usize
        ensures same { result ≡ size2_at self b0 }
        ensures range { result ≤ 31 }
    {
        match self {
            Form::CompareImm(_) => if flag(b0 / 128) { 4 } else { 2 },
            Form::Move(_, bits) | Form::MoveSigned(bits) => size_if(flag(b0 / 64), bits),
            Form::MoveImm | Form::MoveImmNatural | Form::MoveRelative => bits_at(b0 / 64) as usize
                / 8,
            _ => 0,
        }
    }
}

// Whether the far form of a jump or a call has no address, or an operand 1 other than R0.
#[inline(always)]
fn is_far_wrong(b0: u8, b1: u8) -> bool
    ensures { result ≡ is_far_wrong b0 b1 }
{
    flag(b0 / 64) && (!flag(b0 / 128) || b1 % 16 != 0)
}

// Whether a move of an immediate has no width, or a bit set of 4, 5 and 7.
#[inline(always)]
fn is_move_wrong(b0: u8, b1: u8) -> bool
    ensures { result ≡ is_move_wrong b0 b1 }
{
    b0 / 64 == 0 || flag(b1 / 128) || b1 / 16 % 4 != 0
}

// How many bytes a field of so many bits has, if it is there.
#[inline(always)]
fn size_if(present: bool, bits: u8) -> usize
    ensures same { result ≡ size_if present bits }
    ensures range { result ≤ 31 }
{
    if present { bits as usize / 8 } else { 0 }
}

//! The instruction of each form by its parts: none where the tag of an index has no room.

ghost use Rattle.std.specs.Prelude.{◌≡◌};
ghost use Rattle.ebc_decode.specs.Reading.{insn_at, left_at, right_at};
ghost use Rattle.ebc_decode.specs.declared.form.Form.TheVariants as forms;

use crate::bits::{bits_at, cond_at, flag, operand_at, size_at};
use crate::field::{extra_at, index_at, int_at, int32_at, optional_at};
use ebc_insn::{ArithOp, CmpOp, Code, Insn, Operand, Size};

// Operand 1.
#[inline(always)]
fn left_at(code: Code) -> Operand
    ensures { result ≡ left_at code.second }
{
    operand_at(code.second % 16)
}

// Operand 2.
#[inline(always)]
fn right_at(code: Code) -> Operand
    ensures { result ≡ right_at code.second }
{
    operand_at(code.second / 16)
}

#[inline(always)]
#[tactic(auto, unfolding(crate::specs::Reading::insn_at))]
pub fn break_at(code: Code) -> Option<Insn>
    ensures { result ≡ insn_at forms.Break code }
{
    Some(Insn::Break { code: code.second })
}

#[tactic(auto, unfolding(crate::specs::Reading::insn_at))]
#[inline(always)]
pub fn jump_at(code: Code) -> Option<Insn>
    ensures { result ≡ insn_at forms.Jump code }
{
    let op = left_at(code);
    Some(Insn::Jump {
        cond: cond_at(code.second / 64),
        far: flag(code.first / 64),
        relative: flag(code.second / 16),
        op,
        extra: extra_at(op, code.one)?,
    })
}

#[inline(always)]
#[tactic(auto, unfolding(crate::specs::Reading::insn_at))]
pub fn jump8_at(code: Code) -> Option<Insn>
    ensures { result ≡ insn_at forms.Jump8 code }
{
    Some(Insn::Jump8 {
        cond: cond_at(code.first / 64),
        words: code.second.cast_signed(),
    })
}

#[tactic(auto, unfolding(crate::specs::Reading::insn_at))]
#[inline(always)]
pub fn call_at(code: Code) -> Option<Insn>
    ensures { result ≡ insn_at forms.Call code }
{
    let op = left_at(code);
    Some(Insn::Call {
        far: flag(code.first / 64),
        native: flag(code.second / 32),
        relative: flag(code.second / 16),
        op,
        extra: extra_at(op, code.one)?,
    })
}

#[inline(always)]
#[tactic(auto, unfolding(crate::specs::Reading::insn_at))]
pub fn ret_at(code: Code) -> Option<Insn>
    ensures { result ≡ insn_at forms.Ret code }
{
    Some(Insn::Ret)
}

#[inline(always)]
#[tactic(auto, unfolding(crate::specs::Reading::insn_at))]
pub fn compare_at(op: CmpOp, code: Code) -> Option<Insn>
    ensures { result ≡ insn_at (forms.Compare op) code }
{
    let right = right_at(code);
    Some(Insn::Compare {
        op,
        wide: flag(code.first / 64),
        left: code.second % 8,
        right,
        extra: extra_at(right, code.one)?,
    })
}

#[inline(always)]
#[tactic(auto, unfolding(crate::specs::Reading::insn_at))]
pub fn arith_at(op: ArithOp, code: Code) -> Option<Insn>
    ensures { result ≡ insn_at (forms.Arith op) code }
{
    let right = right_at(code);
    Some(Insn::Arith {
        op,
        wide: flag(code.first / 64),
        left: left_at(code),
        right,
        extra: extra_at(right, code.one)?,
    })
}

#[tactic(auto, unfolding(crate::specs::Reading::insn_at))]
#[inline(always)]
pub fn compare_imm_at(op: CmpOp, code: Code) -> Option<Insn>
    ensures { result ≡ insn_at (forms.CompareImm op) code }
{
    Some(Insn::CompareImm {
        op,
        wide: flag(code.first / 64),
        left: left_at(code),
        idx: optional_at(code.one)?,
        long: flag(code.first / 128),
        imm: int32_at(code.two),
    })
}

#[tactic(auto, unfolding(crate::specs::Reading::insn_at))]
#[inline(always)]
pub fn move_at(size: Size, bits: u8, code: Code) -> Option<Insn>
    ensures { result ≡ insn_at (forms.Move size bits) code }
{
    Some(Insn::Move {
        size,
        bits,
        left: left_at(code),
        right: right_at(code),
        lidx: optional_at(code.one)?,
        ridx: optional_at(code.two)?,
    })
}

#[tactic(auto, unfolding(crate::specs::Reading::insn_at))]
#[inline(always)]
pub fn move_signed_at(bits: u8, code: Code) -> Option<Insn>
    ensures { result ≡ insn_at (forms.MoveSigned bits) code }
{
    let right = right_at(code);
    Some(Insn::MoveSigned {
        bits,
        left: left_at(code),
        right,
        lidx: optional_at(code.one)?,
        extra: extra_at(right, code.two)?,
    })
}

#[tactic(auto, unfolding(crate::specs::Reading::insn_at))]
#[inline(always)]
pub fn move_imm_at(code: Code) -> Option<Insn>
    ensures { result ≡ insn_at forms.MoveImm code }
{
    Some(Insn::MoveImm {
        size: size_at(code.second / 16 % 4),
        bits: bits_at(code.first / 64),
        left: left_at(code),
        lidx: optional_at(code.one)?,
        imm: int_at(code.two),
    })
}

#[tactic(auto, unfolding(crate::specs::Reading::insn_at))]
#[inline(always)]
pub fn move_imm_natural_at(code: Code) -> Option<Insn>
    ensures { result ≡ insn_at forms.MoveImmNatural code }
{
    Some(Insn::MoveImmNatural {
        bits: bits_at(code.first / 64),
        left: left_at(code),
        lidx: optional_at(code.one)?,
        idx: index_at(code.two)?,
    })
}

#[tactic(auto, unfolding(crate::specs::Reading::insn_at))]
#[inline(always)]
pub fn move_relative_at(code: Code) -> Option<Insn>
    ensures { result ≡ insn_at forms.MoveRelative code }
{
    Some(Insn::MoveRelative {
        bits: bits_at(code.first / 64),
        left: left_at(code),
        lidx: optional_at(code.one)?,
        imm: int_at(code.two),
    })
}

#[inline(always)]
#[tactic(auto, unfolding(crate::specs::Reading::insn_at))]
pub fn load_special_at(code: Code) -> Option<Insn>
    ensures { result ≡ insn_at forms.LoadSpecial code }
{
    Some(Insn::LoadSpecial {
        from: code.second / 16,
    })
}

#[inline(always)]
#[tactic(auto, unfolding(crate::specs::Reading::insn_at))]
pub fn store_special_at(code: Code) -> Option<Insn>
    ensures { result ≡ insn_at forms.StoreSpecial code }
{
    Some(Insn::StoreSpecial {
        to: code.second % 8,
        special: code.second / 16,
    })
}

#[inline(always)]
#[tactic(auto, unfolding(crate::specs::Reading::insn_at))]
pub fn push_at(code: Code) -> Option<Insn>
    ensures { result ≡ insn_at forms.Push code }
{
    let op = left_at(code);
    Some(Insn::Push {
        wide: flag(code.first / 64),
        op,
        extra: extra_at(op, code.one)?,
    })
}

#[inline(always)]
#[tactic(auto, unfolding(crate::specs::Reading::insn_at))]
pub fn pop_at(code: Code) -> Option<Insn>
    ensures { result ≡ insn_at forms.Pop code }
{
    let op = left_at(code);
    Some(Insn::Pop {
        wide: flag(code.first / 64),
        op,
        extra: extra_at(op, code.one)?,
    })
}

#[inline(always)]
#[tactic(auto, unfolding(crate::specs::Reading::insn_at))]
pub fn push_natural_at(code: Code) -> Option<Insn>
    ensures { result ≡ insn_at forms.PushNatural code }
{
    let op = left_at(code);
    Some(Insn::PushNatural {
        op,
        extra: extra_at(op, code.one)?,
    })
}

#[inline(always)]
#[tactic(auto, unfolding(crate::specs::Reading::insn_at))]
pub fn pop_natural_at(code: Code) -> Option<Insn>
    ensures { result ≡ insn_at forms.PopNatural code }
{
    let op = left_at(code);
    Some(Insn::PopNatural {
        op,
        extra: extra_at(op, code.one)?,
    })
}

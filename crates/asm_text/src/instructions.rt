//! Instructions as they are read.

ghost use Rattle.std.specs.Prelude.{◌≡◌, ◌⊎◌, IfOk};
ghost use Rattle.natural_index.specs.Index.{IsIndexSize};
ghost use Rattle.ebc_insn.specs.Spelling.{IsWordOrDword, MoveFits};
ghost use Rattle.ebc_base.specs.Steps.{or_else};
ghost use Rattle.asm_text.specs.declared.fault.AsmFault.TheVariants as faults;
ghost use Rattle.asm_text.specs.declared.form.Form.TheVariants as forms;
ghost use Rattle.asm_text.specs.Faults.{made};
ghost use Rattle.asm_text.specs.Numbers.{number};
ghost use Rattle.asm_text.specs.Splits.{halves, sole};
ghost use Rattle.asm_text.specs.Operands.{extra};
ghost use Rattle.asm_text.specs.Mnemonics.{FormFits};
ghost use Rattle.asm_text.specs.Instructions.{InsnFits, immediate, insn_in, insn_of, one, unnamed};
ghost use Rattle.asm_text.specs.Texts.{seen_insn, seen_value};

use crate::fault::{AsmFault, both};
use crate::form::Form;
use crate::indexes::index;
use crate::mnemonics::form_of;
use crate::numbers::number;
use crate::operands::{bare, extra, flags_special, left, register, right, special, target, value};
use crate::splits::{halves, sole, word_part};
use ebc_insn::{ArithOp, CmpOp, Cond, Extra, Insn, Operand, Size};

// An instruction, and the name in place of its immediate.
pub(crate) type Named<'a> = (Insn, Option<&'a str>);

fn one(text: &[u8]) -> Result<&[u8], AsmFault>
    ensures { made (λ t. t.now) result ≡ or_else faults.Operand (sole text.now) }
{
    sole(text).ok_or(AsmFault::Operand)
}

fn two(text: &[u8]) -> Result<(&[u8], &[u8]), AsmFault>
    ensures { made (λ p. (p.0.now, p.1.now)) result ≡ or_else faults.Operand (halves text.now) }
{
    halves(text).ok_or(AsmFault::Operand)
}

#[tactic(auto, unfolding(crate::specs::Instructions::insn_of))]
fn break_of(text: &[u8]) -> Result<Insn, AsmFault>
    ensures { made unnamed result ≡ insn_of forms.Break text.now }
{
    let code = number(8, one(text)?)? as i8;
    Ok(Insn::Break {
        code: code.cast_unsigned(),
    })
}

#[tactic(auto, unfolding(crate::specs::Instructions::insn_of))]
fn jump_of(cond: Cond, far: bool, relative: bool, text: &[u8]) -> Result<Named<'_>, AsmFault>
    ensures { made seen_insn result ≡ insn_of (forms.Jump cond far relative) text.now }
{
    let (op, extra, name) = target(far, relative, one(text)?)?;
    let insn = Insn::Jump {
        cond,
        far,
        relative,
        op,
        extra,
    };
    Ok((insn, name))
}

#[tactic(auto, unfolding(crate::specs::Instructions::insn_of))]
fn jump8_of(cond: Cond, text: &[u8]) -> Result<Named<'_>, AsmFault>
    ensures { made seen_insn result ≡ insn_of (forms.Jump8 cond) text.now }
{
    let (words, name) = value(8, one(text)?)?;
    let words = words as i8;
    Ok((Insn::Jump8 { cond, words }, name))
}

#[tactic(auto, unfolding(crate::specs::Instructions::insn_of))]
fn call_of(far: bool, native: bool, relative: bool, text: &[u8]) -> Result<Named<'_>, AsmFault>
    ensures { made seen_insn result ≡ insn_of (forms.Call far native relative) text.now }
{
    let (op, extra, name) = target(far, relative, one(text)?)?;
    let insn = Insn::Call {
        far,
        native,
        relative,
        op,
        extra,
    };
    Ok((insn, name))
}

#[tactic(auto, unfolding(crate::specs::Instructions::insn_of))]
fn ret_of(text: &[u8]) -> Result<Insn, AsmFault>
    ensures { made unnamed result ≡ insn_of forms.Ret text.now }
{
    if text.is_empty() {
        Ok(Insn::Ret)
    } else {
        Err(AsmFault::Operand)
    }
}

#[tactic(auto, unfolding(crate::specs::Instructions::insn_of))]
fn compare_of(op: CmpOp, wide: bool, text: &[u8]) -> Result<Insn, AsmFault>
    ensures { made unnamed result ≡ insn_of (forms.Compare op wide) text.now }
{
    let (first, second) = two(text)?;
    let (left, (right, extra)) = both(register(first), extra(16, second))?;
    Ok(Insn::Compare {
        op,
        wide,
        left,
        right,
        extra,
    })
}

#[tactic(auto, unfolding(crate::specs::Instructions::insn_of))]
fn compare_imm_of(op: CmpOp, wide: bool, long: bool, text: &[u8]) -> Result<Insn, AsmFault>
    ensures { made unnamed result ≡ insn_of (forms.CompareImm op wide long) text.now }
{
    let (first, second) = two(text)?;
    let bits = if long { 32 } else { 16 };
    let ((left, idx), imm) = both(left(16, first), short_number(bits, second))?;
    Ok(Insn::CompareImm {
        op,
        wide,
        left,
        idx,
        long,
        imm,
    })
}

fn short_number(bits: u8, text: &[u8]) -> Result<i32, AsmFault>
    requires { (bits ≡ 16) ⊎ (bits ≡ 32) }
    ensures { result ≡ number bits text.now }
{
    let value = number(bits, text)?;
    Ok(value as i32)
}

#[tactic(auto, unfolding(crate::specs::Instructions::insn_of))]
fn arith_of(op: ArithOp, wide: bool, text: &[u8]) -> Result<Insn, AsmFault>
    ensures { made unnamed result ≡ insn_of (forms.Arith op wide) text.now }
{
    let (first, second) = two(text)?;
    let (left, (right, extra)) = both(bare(first), extra(16, second))?;
    Ok(Insn::Arith {
        op,
        wide,
        left,
        right,
        extra,
    })
}

#[tactic(auto, unfolding(crate::specs::Instructions::insn_of))]
fn move_of(size: Size, bits: u8, text: &[u8]) -> Result<Insn, AsmFault>
    requires { MoveFits size bits }
    ensures { made unnamed result ≡ insn_of (forms.Move size bits) text.now }
{
    let (first, second) = two(text)?;
    let ((left, lidx), (right, ridx)) = both(left(bits, first), right(bits, second))?;
    Ok(Insn::Move {
        size,
        bits,
        left,
        right,
        lidx,
        ridx,
    })
}

#[tactic(auto, unfolding(crate::specs::Instructions::insn_of))]
fn move_signed_of(bits: u8, text: &[u8]) -> Result<Insn, AsmFault>
    requires { IsWordOrDword bits }
    ensures { made unnamed result ≡ insn_of (forms.MoveSigned bits) text.now }
{
    let (first, second) = two(text)?;
    let ((left, lidx), (right, extra)) = both(left(bits, first), extra(bits, second))?;
    Ok(Insn::MoveSigned {
        bits,
        left,
        right,
        lidx,
        extra,
    })
}

fn immediate(size: Size, bits: u8, text: &[u8]) -> Result<(i64, Option<&str>), AsmFault>
    requires { IsIndexSize bits }
    ensures { made seen_value result ≡ immediate size bits text.now }
{
    if size == Size::Qword && bits == 64 {
        value(bits, text)
    } else {
        Ok((number(bits, text)?, None))
    }
}

#[tactic(auto, unfolding(crate::specs::Instructions::insn_of))]
fn move_imm_of(size: Size, bits: u8, text: &[u8]) -> Result<Named<'_>, AsmFault>
    requires { IsIndexSize bits }
    ensures { made seen_insn result ≡ insn_of (forms.MoveImm size bits) text.now }
{
    let (first, second) = two(text)?;
    let ((left, lidx), (imm, name)) = both(left(16, first), immediate(size, bits, second))?;
    let insn = Insn::MoveImm {
        size,
        bits,
        left,
        lidx,
        imm,
    };
    Ok((insn, name))
}

#[tactic(auto, unfolding(crate::specs::Instructions::insn_of))]
fn move_imm_natural_of(bits: u8, text: &[u8]) -> Result<Insn, AsmFault>
    requires { IsIndexSize bits }
    ensures { made unnamed result ≡ insn_of (forms.MoveImmNatural bits) text.now }
{
    let (first, second) = two(text)?;
    let ((left, lidx), idx) = both(left(16, first), index(bits, second))?;
    Ok(Insn::MoveImmNatural {
        bits,
        left,
        lidx,
        idx,
    })
}

#[tactic(auto, unfolding(crate::specs::Instructions::insn_of))]
fn move_relative_of(bits: u8, text: &[u8]) -> Result<Named<'_>, AsmFault>
    requires { IsIndexSize bits }
    ensures { made seen_insn result ≡ insn_of (forms.MoveRelative bits) text.now }
{
    let (first, second) = two(text)?;
    let ((left, lidx), (imm, name)) = both(left(16, first), value(bits, second))?;
    let insn = Insn::MoveRelative {
        bits,
        left,
        lidx,
        imm,
    };
    Ok((insn, name))
}

#[tactic(auto, unfolding(crate::specs::Instructions::insn_of))]
fn load_special_of(text: &[u8]) -> Result<Insn, AsmFault>
    ensures { made unnamed result ≡ insn_of forms.LoadSpecial text.now }
{
    let (first, second) = two(text)?;
    let (_, from) = both(flags_special(first), register(second))?;
    Ok(Insn::LoadSpecial { from })
}

#[tactic(auto, unfolding(crate::specs::Instructions::insn_of))]
fn store_special_of(text: &[u8]) -> Result<Insn, AsmFault>
    ensures { made unnamed result ≡ insn_of forms.StoreSpecial text.now }
{
    let (first, second) = two(text)?;
    let (to, special) = both(register(first), special(second))?;
    Ok(Insn::StoreSpecial { to, special })
}

fn stacked(text: &[u8]) -> Result<(Operand, Extra), AsmFault>
    ensures { result ≡ one (extra 16) text.now }
{
    extra(16, one(text)?)
}

#[tactic(auto, unfolding(crate::specs::Instructions::insn_of))]
fn push_of(wide: bool, text: &[u8]) -> Result<Insn, AsmFault>
    ensures { made unnamed result ≡ insn_of (forms.Push wide) text.now }
{
    let (op, extra) = stacked(text)?;
    Ok(Insn::Push { wide, op, extra })
}

#[tactic(auto, unfolding(crate::specs::Instructions::insn_of))]
fn pop_of(wide: bool, text: &[u8]) -> Result<Insn, AsmFault>
    ensures { made unnamed result ≡ insn_of (forms.Pop wide) text.now }
{
    let (op, extra) = stacked(text)?;
    Ok(Insn::Pop { wide, op, extra })
}

#[tactic(auto, unfolding(crate::specs::Instructions::insn_of))]
fn push_natural_of(text: &[u8]) -> Result<Insn, AsmFault>
    ensures { made unnamed result ≡ insn_of forms.PushNatural text.now }
{
    let (op, extra) = stacked(text)?;
    Ok(Insn::PushNatural { op, extra })
}

#[tactic(auto, unfolding(crate::specs::Instructions::insn_of))]
fn pop_natural_of(text: &[u8]) -> Result<Insn, AsmFault>
    ensures { made unnamed result ≡ insn_of forms.PopNatural text.now }
{
    let (op, extra) = stacked(text)?;
    Ok(Insn::PopNatural { op, extra })
}

// The instruction of a form with these operands.
#[tactic(auto, unfolding(crate::specs::Instructions::insn_of))]
fn insn_of(form: Form, text: &[u8]) -> Result<Named<'_>, AsmFault>
    requires { FormFits form }
    ensures { made seen_insn result ≡ insn_of form text.now }
{
    let insn = match form {
        Form::Jump {
            cond,
            far,
            relative,
        } => return jump_of(cond, far, relative, text),
        Form::Jump8(cond) => return jump8_of(cond, text),
        Form::Call {
            far,
            native,
            relative,
        } => return call_of(far, native, relative, text),
        Form::MoveImm { size, bits } => return move_imm_of(size, bits, text),
        Form::MoveRelative { bits } => return move_relative_of(bits, text),
        Form::Break => break_of(text)?,
        Form::Ret => ret_of(text)?,
        Form::Compare { op, wide } => compare_of(op, wide, text)?,
        Form::CompareImm { op, wide, long } => compare_imm_of(op, wide, long, text)?,
        Form::Arith { op, wide } => arith_of(op, wide, text)?,
        Form::Move { size, bits } => move_of(size, bits, text)?,
        Form::MoveSigned { bits } => move_signed_of(bits, text)?,
        Form::MoveImmNatural { bits } => move_imm_natural_of(bits, text)?,
        Form::LoadSpecial => load_special_of(text)?,
        Form::StoreSpecial => store_special_of(text)?,
        Form::Push { wide } => push_of(wide, text)?,
        Form::Pop { wide } => pop_of(wide, text)?,
        Form::PushNatural => push_natural_of(text)?,
        Form::PopNatural => pop_natural_of(text)?,
    };
    Ok((insn, None))
}

// The instruction that a text is.
#[tactic(auto, unfolding(crate::specs::Instructions::insn_in))]
pub(crate) fn insn_in(text: &[u8]) -> Result<Named<'_>, AsmFault>
    ensures same { made seen_insn result ≡ insn_in text.now }
    ensures fits { IfOk result (λ i. InsnFits (seen_insn i)) }
{
    let (word, operands) = word_part(text);
    let form = form_of(word).ok_or(AsmFault::Word)?;
    insn_of(form, operands)
}

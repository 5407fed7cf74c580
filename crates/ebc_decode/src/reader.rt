//! The reader of each form: what two bytes with its opcode, and what follows them, read as.

ghost use Rattle.std.specs.Prelude.{◌≡◌, ◌≤◌, length, Some, Err, IfOk, IfErr};
ghost use Rattle.ebc_decode.specs.Reading.{insn_at, parts_at, read_form, result_of, size1_at, size2_at, tail_at, with_length};
ghost use Rattle.ebc_decode.specs.declared.form.Form.TheVariants as forms;

use crate::field::field_at;
use crate::form::Form;
use crate::insn::{
    arith_at, break_at, call_at, compare_at, compare_imm_at, jump_at, jump8_at, load_special_at,
    move_at, move_imm_at, move_imm_natural_at, move_relative_at, move_signed_at, pop_at,
    pop_natural_at, push_at, push_natural_at, ret_at, store_special_at,
};
use crate::{DecodeFault, Decoded};
use ebc_insn::{ArithOp, CmpOp, Code, Insn, Size};

// The parts of two bytes and of the fields that follow them, whose sizes are `one` and `two`.
#[inline(always)]
#[tactic(auto, unfolding(crate::specs::Reading::parts_at))]
fn parts_at(form: Form, b0: u8, b1: u8, one: usize, two: usize, rest: &[u8]) -> Code
    requires first { one ≡ size1_at form b0 b1 }
    requires second { two ≡ size2_at form b0 }
    requires room { tail_at form b0 b1 ≤ length rest.now }
    ensures { result ≡ parts_at form b0 b1 rest.now }
{
    let (front, back) = rest.split_at(one);
    Code {
        first: b0,
        second: b1,
        one: field_at(front),
        two: field_at(&back[..two]),
    }
}

// The parts of a form and the instruction's length, or the first fault but that of a tag.
#[inline(always)]
fn parts(form: Form, b0: u8, b1: u8, rest: &[u8]) -> Result<(Code, usize), DecodeFault>
    ensures found { IfOk result (λ (code, n). read_form (Some form) b0 b1 rest.now ≡ with_length n (insn_at form code)) }
    ensures fault { IfErr result (λ e. read_form (Some form) b0 b1 rest.now ≡ Err e) }
{
    if form.is_reserved(b0, b1) {
        return Err(DecodeFault::Reserved);
    }
    if form.is_direct_index(b0, b1) {
        return Err(DecodeFault::DirectIndex);
    }
    let (one, two) = (form.size1(b0, b1), form.size2(b0));
    let tail = one + two;
    if rest.len() < tail {
        return Err(DecodeFault::Short);
    }
    Ok((parts_at(form, b0, b1, one, two, rest), 2 + tail))
}

// An instruction with its length, if its indexes have tags with room.
#[inline(always)]
fn with_length(length: usize, insn: Option<Insn>) -> Decoded
    ensures { result_of result ≡ with_length length insn }
{
    match insn {
        Some(insn) => Decoded::Found(insn, length),
        None => Decoded::Fault(DecodeFault::IndexTag),
    }
}

#[inline(always)]
pub fn read_break(b0: u8, b1: u8, rest: &[u8]) -> Decoded
    ensures { result_of result ≡ read_form (Some forms.Break) b0 b1 rest.now }
{
    match parts(Form::Break, b0, b1, rest) {
        Ok((code, length)) => with_length(length, break_at(code)),
        Err(fault) => Decoded::Fault(fault),
    }
}

#[inline(always)]
pub fn read_jump(b0: u8, b1: u8, rest: &[u8]) -> Decoded
    ensures { result_of result ≡ read_form (Some forms.Jump) b0 b1 rest.now }
{
    match parts(Form::Jump, b0, b1, rest) {
        Ok((code, length)) => with_length(length, jump_at(code)),
        Err(fault) => Decoded::Fault(fault),
    }
}

#[inline(always)]
pub fn read_jump8(b0: u8, b1: u8, rest: &[u8]) -> Decoded
    ensures { result_of result ≡ read_form (Some forms.Jump8) b0 b1 rest.now }
{
    match parts(Form::Jump8, b0, b1, rest) {
        Ok((code, length)) => with_length(length, jump8_at(code)),
        Err(fault) => Decoded::Fault(fault),
    }
}

#[inline(always)]
pub fn read_call(b0: u8, b1: u8, rest: &[u8]) -> Decoded
    ensures { result_of result ≡ read_form (Some forms.Call) b0 b1 rest.now }
{
    match parts(Form::Call, b0, b1, rest) {
        Ok((code, length)) => with_length(length, call_at(code)),
        Err(fault) => Decoded::Fault(fault),
    }
}

#[inline(always)]
pub fn read_ret(b0: u8, b1: u8, rest: &[u8]) -> Decoded
    ensures { result_of result ≡ read_form (Some forms.Ret) b0 b1 rest.now }
{
    match parts(Form::Ret, b0, b1, rest) {
        Ok((code, length)) => with_length(length, ret_at(code)),
        Err(fault) => Decoded::Fault(fault),
    }
}

#[inline(always)]
pub fn read_compare(op: CmpOp, b0: u8, b1: u8, rest: &[u8]) -> Decoded
    ensures { result_of result ≡ read_form (Some (forms.Compare op)) b0 b1 rest.now }
{
    match parts(Form::Compare(op), b0, b1, rest) {
        Ok((code, length)) => with_length(length, compare_at(op, code)),
        Err(fault) => Decoded::Fault(fault),
    }
}

#[inline(always)]
pub fn read_compare_imm(op: CmpOp, b0: u8, b1: u8, rest: &[u8]) -> Decoded
    ensures { result_of result ≡ read_form (Some (forms.CompareImm op)) b0 b1 rest.now }
{
    match parts(Form::CompareImm(op), b0, b1, rest) {
        Ok((code, length)) => with_length(length, compare_imm_at(op, code)),
        Err(fault) => Decoded::Fault(fault),
    }
}

#[inline(always)]
pub fn read_arith(op: ArithOp, b0: u8, b1: u8, rest: &[u8]) -> Decoded
    ensures { result_of result ≡ read_form (Some (forms.Arith op)) b0 b1 rest.now }
{
    match parts(Form::Arith(op), b0, b1, rest) {
        Ok((code, length)) => with_length(length, arith_at(op, code)),
        Err(fault) => Decoded::Fault(fault),
    }
}

#[inline(always)]
pub fn read_move(size: Size, bits: u8, b0: u8, b1: u8, rest: &[u8]) -> Decoded
    ensures { result_of result ≡ read_form (Some (forms.Move size bits)) b0 b1 rest.now }
{
    match parts(Form::Move(size, bits), b0, b1, rest) {
        Ok((code, length)) => with_length(length, move_at(size, bits, code)),
        Err(fault) => Decoded::Fault(fault),
    }
}

#[inline(always)]
pub fn read_move_signed(bits: u8, b0: u8, b1: u8, rest: &[u8]) -> Decoded
    ensures { result_of result ≡ read_form (Some (forms.MoveSigned bits)) b0 b1 rest.now }
{
    match parts(Form::MoveSigned(bits), b0, b1, rest) {
        Ok((code, length)) => with_length(length, move_signed_at(bits, code)),
        Err(fault) => Decoded::Fault(fault),
    }
}

#[inline(always)]
pub fn read_move_imm(b0: u8, b1: u8, rest: &[u8]) -> Decoded
    ensures { result_of result ≡ read_form (Some forms.MoveImm) b0 b1 rest.now }
{
    match parts(Form::MoveImm, b0, b1, rest) {
        Ok((code, length)) => with_length(length, move_imm_at(code)),
        Err(fault) => Decoded::Fault(fault),
    }
}

#[inline(always)]
pub fn read_move_imm_natural(b0: u8, b1: u8, rest: &[u8]) -> Decoded
    ensures { result_of result ≡ read_form (Some forms.MoveImmNatural) b0 b1 rest.now }
{
    match parts(Form::MoveImmNatural, b0, b1, rest) {
        Ok((code, length)) => with_length(length, move_imm_natural_at(code)),
        Err(fault) => Decoded::Fault(fault),
    }
}

#[inline(always)]
pub fn read_move_relative(b0: u8, b1: u8, rest: &[u8]) -> Decoded
    ensures { result_of result ≡ read_form (Some forms.MoveRelative) b0 b1 rest.now }
{
    match parts(Form::MoveRelative, b0, b1, rest) {
        Ok((code, length)) => with_length(length, move_relative_at(code)),
        Err(fault) => Decoded::Fault(fault),
    }
}

#[inline(always)]
pub fn read_load_special(b0: u8, b1: u8, rest: &[u8]) -> Decoded
    ensures { result_of result ≡ read_form (Some forms.LoadSpecial) b0 b1 rest.now }
{
    match parts(Form::LoadSpecial, b0, b1, rest) {
        Ok((code, length)) => with_length(length, load_special_at(code)),
        Err(fault) => Decoded::Fault(fault),
    }
}

#[inline(always)]
pub fn read_store_special(b0: u8, b1: u8, rest: &[u8]) -> Decoded
    ensures { result_of result ≡ read_form (Some forms.StoreSpecial) b0 b1 rest.now }
{
    match parts(Form::StoreSpecial, b0, b1, rest) {
        Ok((code, length)) => with_length(length, store_special_at(code)),
        Err(fault) => Decoded::Fault(fault),
    }
}

#[inline(always)]
pub fn read_push(b0: u8, b1: u8, rest: &[u8]) -> Decoded
    ensures { result_of result ≡ read_form (Some forms.Push) b0 b1 rest.now }
{
    match parts(Form::Push, b0, b1, rest) {
        Ok((code, length)) => with_length(length, push_at(code)),
        Err(fault) => Decoded::Fault(fault),
    }
}

#[inline(always)]
pub fn read_pop(b0: u8, b1: u8, rest: &[u8]) -> Decoded
    ensures { result_of result ≡ read_form (Some forms.Pop) b0 b1 rest.now }
{
    match parts(Form::Pop, b0, b1, rest) {
        Ok((code, length)) => with_length(length, pop_at(code)),
        Err(fault) => Decoded::Fault(fault),
    }
}

#[inline(always)]
pub fn read_push_natural(b0: u8, b1: u8, rest: &[u8]) -> Decoded
    ensures { result_of result ≡ read_form (Some forms.PushNatural) b0 b1 rest.now }
{
    match parts(Form::PushNatural, b0, b1, rest) {
        Ok((code, length)) => with_length(length, push_natural_at(code)),
        Err(fault) => Decoded::Fault(fault),
    }
}

#[inline(always)]
pub fn read_pop_natural(b0: u8, b1: u8, rest: &[u8]) -> Decoded
    ensures { result_of result ≡ read_form (Some forms.PopNatural) b0 b1 rest.now }
{
    match parts(Form::PopNatural, b0, b1, rest) {
        Ok((code, length)) => with_length(length, pop_natural_at(code)),
        Err(fault) => Decoded::Fault(fault),
    }
}

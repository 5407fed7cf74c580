//! Instructions made into what is written of them.

ghost use Rattle.std.specs.Prelude.{◌≡◌, ◌<◌, Some};
ghost use Rattle.natural_index.specs.Index.{IsIndex, IsIndexSize, raw_of};
ghost use Rattle.ebc_insn.specs.Spelling.{ExtraFits, IsOperand, LeftFits, RightFits, TargetFits, WellFormed};
ghost use Rattle.asm_text.specs.Indexes.{index_text, raw_text};
ghost use Rattle.asm_text.specs.Operands.{beside, extra_text, idx_text, indexed_text, special_text, target_text, value_text};
ghost use Rattle.asm_text.specs.Instructions.{form_of_insn, insn_text, operands_of_insn, pair, register_text};
ghost use Rattle.asm_text.specs.Writing.{beside_shown, index_shown, insn_shown, operands_shown, place_name, slot_shown};

use crate::form::Form;
use crate::indexes::smallest_of;
use crate::texts::{Beside, IndexText, InsnText, OperandText, OperandTexts, Slot};
use ebc_insn::{Extra, Insn, Operand};
use natural_index::{Index, write16, write32, write64};

fn raw_text(bits: u8, i: &Index) -> IndexText
    requires size { IsIndexSize bits }
    requires fits { IsIndex bits i.now }
    ensures { index_shown result ≡ raw_text bits (raw_of bits i.now) }
{
    match bits {
        16 => IndexText::Word(write16(i)),
        32 => IndexText::Dword(write32(i)),
        _ => IndexText::Qword(write64(i)),
    }
}

// An index, by its numbers where they spell it.
#[tactic(auto, unfolding(crate::specs::Indexes::index_text))]
fn index_text(bits: u8, i: &Index) -> IndexText
    requires size { IsIndexSize bits }
    requires fits { IsIndex bits i.now }
    ensures { index_shown result ≡ index_text bits i.now }
{
    let (neg, units, bytes) = (i.neg, i.units, i.bytes);
    if neg && units == 0 && bytes == 0 {
        return raw_text(bits, i);
    }
    match smallest_of(bits, neg, units, bytes) {
        Some(least) if least.tag == i.tag => IndexText::Pair { neg, units, bytes },
        _ => raw_text(bits, i),
    }
}

fn beside_index(bits: u8, idx: &Option<Index>) -> Beside
    requires size { IsIndexSize bits }
    requires fits { RightFits bits idx.now }
    ensures { beside_shown result ≡ idx_text bits idx.now }
{
    match idx {
        None => Beside::Nothing,
        Some(i) => Beside::Idx(index_text(bits, i)),
    }
}

// An operand with its index.
#[tactic(auto, using(crate::proofs::HexLaws::operand_is))]
fn indexed(bits: u8, operand: &Operand, idx: &Option<Index>) -> Slot
    requires size { IsIndexSize bits }
    requires operand { IsOperand operand.now }
    requires fits { RightFits bits idx.now }
    ensures { slot_shown result ≡ indexed_text bits operand.now idx.now }
{
    Slot::Operand(OperandText {
        reg: operand.reg,
        indirect: operand.indirect,
        beside: beside_index(bits, idx),
    })
}

fn beside_extra(bits: u8, operand: &Operand, extra: &Extra) -> Beside
    requires size { IsIndexSize bits }
    requires fits { ExtraFits bits operand.now extra.now }
    ensures { beside_shown result ≡ beside bits extra.now }
{
    match extra {
        Extra::Nothing => Beside::Nothing,
        Extra::Imm(v) => Beside::Imm(*v),
        Extra::Idx(i) => Beside::Idx(index_text(bits, i)),
    }
}

// An operand with its immediate or its index.
#[tactic(auto, using(crate::proofs::HexLaws::operand_is))]
fn extra(bits: u8, operand: &Operand, extra: &Extra) -> Slot
    requires size { IsIndexSize bits }
    requires operand { IsOperand operand.now }
    requires fits { ExtraFits bits operand.now extra.now }
    ensures { slot_shown result ≡ extra_text bits operand.now extra.now }
{
    Slot::Operand(OperandText {
        reg: operand.reg,
        indirect: operand.indirect,
        beside: beside_extra(bits, operand, extra),
    })
}

fn register(reg: u8) -> Slot
    requires { reg < 8 }
    ensures { slot_shown result ≡ register_text reg }
{
    let operand = Operand {
        reg,
        indirect: false,
    };
    indexed(16, &operand, &None)
}

fn special(which: u8) -> Slot
    ensures { slot_shown result ≡ special_text which }
{
    if which == 0 {
        Slot::Flags
    } else {
        Slot::Pointer
    }
}

// A number, or the label in its place.
fn value(number: i64, place: Option<u32>) -> Slot
    ensures { slot_shown result ≡ value_text number (place_name place) }
{
    match place {
        Some(place) => Slot::Label(place),
        None => Slot::Number(number),
    }
}

fn target(far: bool, operand: &Operand, beside: &Extra, place: Option<u32>) -> Slot
    requires { TargetFits far operand.now beside.now }
    ensures { slot_shown result ≡ target_text operand.now beside.now (place_name place) }
{
    match beside {
        Extra::Imm(v) if operand.reg == 0 && !operand.indirect => value(*v, place),
        _ => extra(32, operand, beside),
    }
}

// The operands of a move.
fn moved(bits: u8, left: &Operand, lidx: &Option<Index>, right: Slot) -> OperandTexts
    requires size { IsIndexSize bits }
    requires left { IsOperand left.now }
    requires lidx { LeftFits bits left.now lidx.now }
    ensures { operands_shown result ≡ Some (pair (indexed_text bits left.now lidx.now) (slot_shown right)) }
{
    OperandTexts::Two(indexed(bits, left, lidx), right)
}

fn operands(i: &Insn, place: Option<u32>) -> OperandTexts
    requires { WellFormed i.now }
    ensures { operands_shown result ≡ operands_of_insn i.now (place_name place) }
{
    use OperandTexts::{Nothing, One, Two};
    match i {
        Insn::Break { code } => One(Slot::Code(*code)),
        Insn::Jump {
            far,
            op,
            extra: beside,
            ..
        }
        | Insn::Call {
            far,
            op,
            extra: beside,
            ..
        } => One(target(*far, op, beside, place)),
        Insn::Jump8 { words, .. } => One(value((*words).into(), place)),
        Insn::Ret => Nothing,
        Insn::Compare {
            left,
            right,
            extra: beside,
            ..
        } => Two(register(*left), extra(16, right, beside)),
        Insn::CompareImm { left, idx, imm, .. } => moved(
            16,
            left,
            idx,
            Slot::Number((*imm).into()),
        ),
        Insn::Arith {
            left,
            right,
            extra: beside,
            ..
        } => moved(16, left, &None, extra(16, right, beside)),
        Insn::Move {
            bits,
            left,
            right,
            lidx,
            ridx,
            ..
        } => moved(*bits, left, lidx, indexed(*bits, right, ridx)),
        Insn::MoveSigned {
            bits,
            left,
            right,
            lidx,
            extra: beside,
        } => moved(*bits, left, lidx, extra(*bits, right, beside)),
        Insn::MoveImm {
            left,
            lidx,
            imm,
            ..
        }
        | Insn::MoveRelative {
            left,
            lidx,
            imm,
            ..
        } => moved(16, left, lidx, value(*imm, place)),
        Insn::MoveImmNatural {
            bits,
            left,
            lidx,
            idx,
        } => moved(16, left, lidx, Slot::Index(index_text(*bits, idx))),
        Insn::LoadSpecial { from } => Two(Slot::Flags, register(*from)),
        Insn::StoreSpecial { to, special: which } => Two(register(*to), special(*which)),
        Insn::Push {
            op,
            extra: beside,
            ..
        }
        | Insn::Pop {
            op,
            extra: beside,
            ..
        }
        | Insn::PushNatural { op, extra: beside }
        | Insn::PopNatural { op, extra: beside } => One(extra(16, op, beside)),
    }
}

fn form(i: &Insn) -> Form
    ensures { result ≡ form_of_insn i.now }
{
    match *i {
        Insn::Break { .. } => Form::Break,
        Insn::Jump {
            cond,
            far,
            relative,
            ..
        } => Form::Jump {
            cond,
            far,
            relative,
        },
        Insn::Jump8 { cond, .. } => Form::Jump8(cond),
        Insn::Call {
            far,
            native,
            relative,
            ..
        } => Form::Call {
            far,
            native,
            relative,
        },
        Insn::Ret => Form::Ret,
        Insn::Compare { op, wide, .. } => Form::Compare { op, wide },
        Insn::CompareImm { op, wide, long, .. } => Form::CompareImm { op, wide, long },
        Insn::Arith { op, wide, .. } => Form::Arith { op, wide },
        Insn::Move { size, bits, .. } => Form::Move { size, bits },
        Insn::MoveSigned { bits, .. } => Form::MoveSigned { bits },
        Insn::MoveImm { size, bits, .. } => Form::MoveImm { size, bits },
        Insn::MoveImmNatural { bits, .. } => Form::MoveImmNatural { bits },
        Insn::MoveRelative { bits, .. } => Form::MoveRelative { bits },
        Insn::LoadSpecial { .. } => Form::LoadSpecial,
        Insn::StoreSpecial { .. } => Form::StoreSpecial,
        Insn::Push { wide, .. } => Form::Push { wide },
        Insn::Pop { wide, .. } => Form::Pop { wide },
        Insn::PushNatural { .. } => Form::PushNatural,
        Insn::PopNatural { .. } => Form::PopNatural,
    }
}

// An instruction as it is written, with the label, if any, in place of its immediate.
pub(crate) fn insn_text(i: &Insn, place: Option<u32>) -> InsnText
    requires { WellFormed i.now }
    ensures { insn_shown result ≡ insn_text i.now (place_name place) }
{
    InsnText {
        form: form(i),
        operands: operands(i, place),
    }
}

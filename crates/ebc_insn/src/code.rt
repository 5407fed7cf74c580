//! The parts that spell an instruction: two bytes and two fields.

ghost use Rattle.std.specs.Prelude.{◌≡◌, ◌⊎◌, ◌<◌, ◌≤◌};
ghost use Rattle.natural_index.specs.Index.{IsIndex, IsIndexSize, bit};
ghost use Rattle.ebc_insn.specs.Spelling.{ExtraFits, FitsInt, IsOperand, MoveFits, RightFits, TargetFits, WellFormed, arith_number};
ghost use Rattle.ebc_insn.specs.Spelling.{cmp_number, code_of, condition, extra_field, field_size, has_extra, head, immediate_bits};
ghost use Rattle.ebc_insn.specs.Spelling.{index_field, int_field, move_opcode, operand, operands, optional_field, signed_opcode};
ghost use Rattle.ebc_insn.specs.Spelling.{size_number, target_bits, width_number};

use crate::{ArithOp, CmpOp, Cond, Extra, Insn, Operand, Size};
use natural_index::{Index, write16, write32, write64};

/// The parts of a spelling (UEFI specification, "Instruction Encoding"): two bytes and two fields that follow them.
#[derive(Clone, Copy)]
pub struct Code {
    /// The opcode byte ("Instruction Opcode Byte Encoding").
    pub first: u8,
    /// The operands byte ("Instruction Operands Byte Encoding").
    pub second: u8,
    /// The first field ("Index/Immediate Data Encoding").
    pub one: Field,
    /// The field after it.
    pub two: Field,
}

/// A field of a spelling (UEFI specification, "Index/Immediate Data Encoding"): no bytes, or the number in 2, 4 or 8
/// bytes, the lowest byte first.
#[derive(Clone, Copy)]
pub enum Field {
    Nothing,
    Word(u16),
    Dword(u32),
    Qword(u64),
}

impl Field {
    /// How many bytes the field has: 0, 2, 4 or 8.
    pub fn size(self) -> usize
        ensures same { result ≡ field_size self }
        ensures range { result ≤ 8 }
    {
        match self {
            Field::Nothing => 0,
            Field::Word(_) => 2,
            Field::Dword(_) => 4,
            Field::Qword(_) => 8,
        }
    }
}

/// The parts of the spelling of an instruction (UEFI specification, "EBC Instruction Set").
pub fn parts(i: &Insn) -> Code
    requires { WellFormed i.now }
    ensures { result ≡ code_of i.now }
{
    Code {
        first: opcode_byte(i),
        second: operands_byte(i),
        one: first_field(i),
        two: second_field(i),
    }
}

fn opcode_byte(i: &Insn) -> u8
    requires { WellFormed i.now }
    ensures { result ≡ (code_of i.now).first }
{
    match i {
        Insn::Break { .. } => 0x00,
        Insn::Jump { far, extra, .. } => head(0x01, *far, has_extra(extra)),
        Insn::Jump8 { cond, .. } => 0x02 + 64 * condition(*cond),
        Insn::Call { far, extra, .. } => head(0x03, *far, has_extra(extra)),
        Insn::Ret => 0x04,
        Insn::Compare {
            op,
            wide,
            extra,
            ..
        } => head(0x05 + cmp_number(*op), *wide, has_extra(extra)),
        Insn::Arith {
            op,
            wide,
            extra,
            ..
        } => head(0x0A + arith_number(*op), *wide, has_extra(extra)),
        Insn::Move {
            size,
            bits,
            lidx,
            ridx,
            ..
        } => head(move_opcode(*size, *bits), ridx.is_some(), lidx.is_some()),
        Insn::MoveSigned {
            bits,
            lidx,
            extra,
            ..
        } => head(signed_opcode(*bits), has_extra(extra), lidx.is_some()),
        Insn::LoadSpecial { .. } => 0x29,
        Insn::StoreSpecial { .. } => 0x2A,
        Insn::Push { wide, extra, .. } => head(0x2B, *wide, has_extra(extra)),
        Insn::Pop { wide, extra, .. } => head(0x2C, *wide, has_extra(extra)),
        Insn::CompareImm { op, wide, long, .. } => head(0x2D + cmp_number(*op), *wide, *long),
        Insn::PushNatural { extra, .. } => head(0x35, false, has_extra(extra)),
        Insn::PopNatural { extra, .. } => head(0x36, false, has_extra(extra)),
        Insn::MoveImm { bits, .. } => 0x37 + 64 * width_number(*bits),
        Insn::MoveImmNatural { bits, .. } => 0x38 + 64 * width_number(*bits),
        Insn::MoveRelative { bits, .. } => 0x39 + 64 * width_number(*bits),
    }
}

fn operands_byte(i: &Insn) -> u8
    requires { WellFormed i.now }
    ensures { result ≡ (code_of i.now).second }
{
    match i {
        Insn::Break { code } => *code,
        Insn::Jump {
            cond,
            relative,
            op,
            ..
        } => operand(op) + 16 * bit(*relative) + 64 * condition(*cond),
        Insn::Jump8 { words, .. } => words.cast_unsigned(),
        Insn::Call {
            native,
            relative,
            op,
            ..
        } => operand(op) + 16 * bit(*relative) + 32 * bit(*native),
        Insn::Ret => 0,
        Insn::Compare { left, right, .. } => *left + 16 * operand(right),
        Insn::Arith { left, right, .. }
        | Insn::Move { left, right, .. }
        | Insn::MoveSigned { left, right, .. } => operand(left) + 16 * operand(right),
        Insn::LoadSpecial { from } => 16 * *from,
        Insn::StoreSpecial { to, special } => *to + 16 * *special,
        Insn::Push { op, .. }
        | Insn::Pop { op, .. }
        | Insn::PushNatural { op, .. }
        | Insn::PopNatural { op, .. } => operand(op),
        Insn::CompareImm { left, idx, .. } => operand(left) + 16 * bit(idx.is_some()),
        Insn::MoveImm {
            size,
            left,
            lidx,
            ..
        } => operand(left) + 16 * size_number(*size) + 64 * bit(lidx.is_some()),
        Insn::MoveImmNatural { left, lidx, .. } | Insn::MoveRelative { left, lidx, .. } => operand(
            left,
        ) + 64 * bit(lidx.is_some()),
    }
}

fn first_field(i: &Insn) -> Field
    requires { WellFormed i.now }
    ensures { result ≡ (code_of i.now).one }
{
    match i {
        Insn::Break { .. }
        | Insn::Jump8 { .. }
        | Insn::Ret
        | Insn::LoadSpecial { .. }
        | Insn::StoreSpecial { .. } => Field::Nothing,
        Insn::Jump { far, op, extra, .. } | Insn::Call { far, op, extra, .. } => target_field(
            *far, op, extra,
        ),
        Insn::Compare { right, extra, .. } | Insn::Arith { right, extra, .. } => extra_field(
            16, right, extra,
        ),
        Insn::Push { op, extra, .. }
        | Insn::Pop { op, extra, .. }
        | Insn::PushNatural { op, extra }
        | Insn::PopNatural { op, extra } => extra_field(16, op, extra),
        Insn::Move { bits, lidx, .. } | Insn::MoveSigned { bits, lidx, .. } => optional_field(
            *bits, lidx,
        ),
        Insn::CompareImm { idx, .. } => optional_field(16, idx),
        Insn::MoveImm { lidx, .. }
        | Insn::MoveImmNatural { lidx, .. }
        | Insn::MoveRelative { lidx, .. } => optional_field(16, lidx),
    }
}

fn second_field(i: &Insn) -> Field
    requires { WellFormed i.now }
    ensures { result ≡ (code_of i.now).two }
{
    match i {
        Insn::Move { bits, ridx, .. } => optional_field(*bits, ridx),
        Insn::MoveSigned {
            bits,
            right,
            extra,
            ..
        } => extra_field(*bits, right, extra),
        Insn::CompareImm { long, imm, .. } => int_field(if *long { 32 } else { 16 }, (*imm).into()),
        Insn::MoveImm { bits, imm, .. } | Insn::MoveRelative { bits, imm, .. } => int_field(
            *bits, *imm,
        ),
        Insn::MoveImmNatural { bits, idx, .. } => index_field(*bits, idx),
        _ => Field::Nothing,
    }
}

// An opcode in bits 0 to 5, below bits 6 and 7.
fn head(opcode: u8, six: bool, seven: bool) -> u8
    requires { opcode < 64 }
    ensures { result ≡ head opcode six seven }
{
    opcode + 64 * bit(six) + 128 * bit(seven)
}

fn bit(set: bool) -> u8
    ensures same { result ≡ bit set }
    ensures below { result < 2 }
{
    set as u8
}

// A register in three bits, below the bit that makes it indirect.
fn operand(o: &Operand) -> u8
    requires { IsOperand o.now }
    ensures same { result ≡ operand o.now }
    ensures below { result < 16 }
{
    o.reg + 8 * bit(o.indirect)
}

fn has_extra(extra: &Extra) -> bool
    ensures { result ≡ has_extra extra.now }
{
    !matches!(extra, Extra::Nothing)
}

// C set in bit 0 and conditional in bit 1.
fn condition(cond: Cond) -> u8
    ensures same { result ≡ condition cond }
    ensures below { result < 4 }
{
    match cond {
        Cond::Always => 0,
        Cond::Set => 3,
        Cond::Clear => 2,
    }
}

// How far an opcode is past that of the comparison for equality.
fn cmp_number(op: CmpOp) -> u8
    ensures same { result ≡ cmp_number op }
    ensures below { result < 5 }
{
    op as u8
}

// How far an opcode is past that of NOT.
fn arith_number(op: ArithOp) -> u8
    ensures same { result ≡ arith_number op }
    ensures below { result < 19 }
{
    op as u8
}

fn size_number(size: Size) -> u8
    ensures same { result ≡ size_number size }
    ensures below { result < 5 }
{
    size as u8
}

// 1, 2 or 3 for 16, 32 or 64 bits.
fn width_number(bits: u8) -> u8
    ensures same { result ≡ width_number bits }
    ensures below { result < 4 }
{
    match bits {
        16 => 1,
        32 => 2,
        _ => 3,
    }
}

fn move_opcode(size: Size, bits: u8) -> u8
    requires { MoveFits size bits }
    ensures same { result ≡ move_opcode size bits }
    ensures below { result < 64 }
{
    match (size, bits) {
        (Size::Natural, 16) => 0x32,
        (Size::Natural, _) => 0x33,
        (_, 16) => 0x1D + size_number(size),
        (_, 32) => 0x21 + size_number(size),
        _ => 0x28,
    }
}

fn signed_opcode(bits: u8) -> u8
    ensures same { result ≡ signed_opcode bits }
    ensures below { result < 64 }
{
    if bits == 16 { 0x25 } else { 0x26 }
}

fn int_field(bits: u8, v: i64) -> Field
    requires size { IsIndexSize bits }
    requires fits { FitsInt bits v }
    ensures { result ≡ int_field bits v }
{
    match bits {
        16 => Field::Word((v as i16).cast_unsigned()),
        32 => Field::Dword((v as i32).cast_unsigned()),
        _ => Field::Qword(v.cast_unsigned()),
    }
}

fn index_field(bits: u8, i: &Index) -> Field
    requires size { IsIndexSize bits }
    requires fits { IsIndex bits i.now }
    ensures { result ≡ index_field bits i.now }
{
    match bits {
        16 => Field::Word(write16(i)),
        32 => Field::Dword(write32(i)),
        _ => Field::Qword(write64(i)),
    }
}

fn optional_field(bits: u8, idx: &Option<Index>) -> Field
    requires size { IsIndexSize bits }
    requires fits { RightFits bits idx.now }
    ensures { result ≡ optional_field bits idx.now }
{
    match idx {
        None => Field::Nothing,
        Some(i) => index_field(bits, i),
    }
}

// What stands beside an operand.
fn extra_field(bits: u8, o: &Operand, extra: &Extra) -> Field
    requires size { IsIndexSize bits }
    requires fits { ExtraFits bits o.now extra.now }
    ensures { result ≡ extra_field bits extra.now }
{
    match extra {
        Extra::Nothing => Field::Nothing,
        Extra::Imm(v) => int_field(bits, *v),
        Extra::Idx(i) => index_field(bits, i),
    }
}

// What stands beside the operand of a jump or a call.
fn target_field(far: bool, o: &Operand, extra: &Extra) -> Field
    requires { TargetFits far o.now extra.now }
    ensures { result ≡ extra_field (target_bits far) extra.now }
{
    extra_field(if far { 64 } else { 32 }, o, extra)
}

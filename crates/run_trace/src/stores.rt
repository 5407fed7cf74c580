//! The bytes that an instruction stores, by its form (docs/MACHINE.md).
ghost use Rattle.std.specs.Prelude.{◌≡◌, ◌≤◌, ◌<◌, IfSome};
ghost use Rattle.ebc_width.specs.Width.{IsWidth};
ghost use Rattle.ebc_insn.specs.Spelling.{ExtraFits, LeftFits, WellFormed};
ghost use Rattle.ebc_machine.specs.Operands.{extra_offset, form_bytes, index_offset, optional_offset, size_bytes, with_extra, with_index};
ghost use Rattle.natural_index.specs.Index.{IsIndex, IsIndexSize};
ghost use Rattle.run_trace.specs.Stores.{operand_bytes, popped_bytes, pushed_bytes, stored_by, thunk_bytes};

use ebc_insn::{Extra, Insn, Operand, Size};
use ebc_machine::Side;
use ebc_width::{cut, linear};
use natural_index::Index;
use rules_base::counted;

/// Bytes that an instruction stores.
#[derive(Clone, Copy)]
pub struct StoreRange {
    /// The address of the first one.
    pub address: u64,
    /// How many they are, at most 16.
    pub size: usize,
}

// What an index counts.
fn index_offset<const W: usize>(bits: u8, i: &Index) -> u64
    requires width { IsWidth W }
    requires size { IsIndexSize bits }
    requires fits { IsIndex bits i.now }
    ensures { result ≡ index_offset W i.now }
{
    let distance = counted(bits, i);
    linear::<W>(distance.n, distance.c)
}

// What an index beside operand 1 counts.
fn left_offset<const W: usize>(bits: u8, o: &Operand, index: &Option<Index>) -> u64
    requires width { IsWidth W }
    requires size { IsIndexSize bits }
    requires fits { LeftFits bits o.now index.now }
    ensures { result ≡ optional_offset W index.now }
{
    match index {
        None => 0,
        Some(i) => index_offset::<W>(bits, i),
    }
}

// Operand 1 of a move.
fn left_side<const W: usize>(bits: u8, o: &Operand, index: &Option<Index>) -> Side
    requires width { IsWidth W }
    requires size { IsIndexSize bits }
    requires fits { LeftFits bits o.now index.now }
    ensures side { result ≡ with_index W o.now index.now }
    ensures register { result.reg ≡ o.now.reg }
{
    Side {
        reg: o.reg,
        indirect: o.indirect,
        offset: left_offset::<W>(bits, o, index),
    }
}

// What stands beside the operand of POP.
fn popped_offset<const W: usize>(o: &Operand, extra: &Extra) -> u64
    requires width { IsWidth W }
    requires fits { ExtraFits 16 o.now extra.now }
    ensures { result ≡ extra_offset W extra.now }
{
    match extra {
        Extra::Nothing => 0,
        Extra::Imm(v) => v.cast_unsigned(),
        Extra::Idx(i) => index_offset::<W>(16, i),
    }
}

// The operand of POP.
fn popped_side<const W: usize>(o: &Operand, extra: &Extra) -> Side
    requires width { IsWidth W }
    requires fits { ExtraFits 16 o.now extra.now }
    ensures side { result ≡ with_extra W o.now extra.now }
    ensures register { result.reg ≡ o.now.reg }
{
    Side {
        reg: o.reg,
        indirect: o.indirect,
        offset: popped_offset::<W>(o, extra),
    }
}

// How many bytes a move stores.
fn size_bytes<const W: usize>(size: Size) -> usize
    requires { IsWidth W }
    ensures same { result ≡ size_bytes W size }
    ensures few { result ≤ 16 }
{
    match size {
        Size::Byte => 1,
        Size::Word => 2,
        Size::Dword => 4,
        Size::Qword => 8,
        Size::Natural => W,
    }
}

// How many bytes a form of 64 or of 32 bits stores.
fn form_bytes(wide: bool) -> usize
    ensures same { result ≡ form_bytes wide }
    ensures few { result ≤ 16 }
{
    if wide { 8 } else { 4 }
}

// The bytes of an operand that is in memory.
fn operand_bytes<const W: usize>(registers: &[u64; 8], size: usize, o: Side) -> Option<StoreRange>
    requires width { IsWidth W }
    requires register { o.reg < 8 }
    requires few { size ≤ 16 }
    ensures bytes { result ≡ operand_bytes W registers.now size o }
    ensures few { IfSome result (λ range. range.size ≤ 16) }
{
    if !o.indirect {
        return None;
    }
    let address = cut::<W>(registers[o.reg as usize].wrapping_add(o.offset));
    Some(StoreRange { address, size })
}

// The bytes that are put on top of the stack.
fn pushed_bytes<const W: usize>(registers: &[u64; 8], size: usize) -> Option<StoreRange>
    requires width { IsWidth W }
    requires few { size ≤ 16 }
    ensures bytes { result ≡ pushed_bytes W registers.now size }
    ensures few { IfSome result (λ range. range.size ≤ 16) }
{
    let address = cut::<W>(registers[0].wrapping_sub(size as u64));
    Some(StoreRange { address, size })
}

// The bytes of an operand of POP that is in memory.
fn popped_bytes<const W: usize>(registers: &[u64; 8], size: usize, o: Side) -> Option<StoreRange>
    requires width { IsWidth W }
    requires register { o.reg < 8 }
    requires few { size ≤ 16 }
    ensures bytes { result ≡ popped_bytes W registers.now size o }
    ensures few { IfSome result (λ range. range.size ≤ 16) }
{
    let mut after = *registers;
    after[0] = registers[0].wrapping_add(size as u64);
    operand_bytes::<W>(&after, size, o)
}

// The thunk cell that BREAK 5 has filled in.
fn thunk_bytes<const W: usize>(registers: &[u64; 8], code: u8) -> Option<StoreRange>
    requires { IsWidth W }
    ensures bytes { result ≡ thunk_bytes W registers.now code }
    ensures few { IfSome result (λ range. range.size ≤ 16) }
{
    if code == 5 {
        Some(StoreRange {
            address: registers[7],
            size: W,
        })
    } else {
        None
    }
}

/// The bytes that an instruction stores where the registers R0 to R7 hold these numbers; none if it stores none.
#[tactic(auto, unfolding(crate::specs::Stores::stored_by))]
pub fn stored_by<const W: usize>(registers: &[u64; 8], insn: &Insn) -> Option<StoreRange>
    requires width { IsWidth W }
    requires well_formed { WellFormed insn.now }
    ensures bytes { result ≡ stored_by W registers.now insn.now }
    ensures few { IfSome result (λ range. range.size ≤ 16) }
{
    match insn {
        Insn::Break { code } => thunk_bytes::<W>(registers, *code),
        Insn::Call { native: false, .. } => pushed_bytes::<W>(registers, 16),
        Insn::Arith { wide, left, .. } => {
            let left = Side {
                reg: left.reg,
                indirect: left.indirect,
                offset: 0,
            };
            operand_bytes::<W>(registers, form_bytes(*wide), left)
        }
        Insn::Move {
            size,
            bits,
            left,
            lidx,
            ..
        } => {
            let left = left_side::<W>(*bits, left, lidx);
            operand_bytes::<W>(registers, size_bytes::<W>(*size), left)
        }
        Insn::MoveSigned {
            bits,
            left,
            lidx,
            ..
        } => operand_bytes::<W>(registers, W, left_side::<W>(*bits, left, lidx)),
        Insn::MoveImm {
            size,
            left,
            lidx,
            ..
        } => {
            let left = left_side::<W>(16, left, lidx);
            operand_bytes::<W>(registers, size_bytes::<W>(*size), left)
        }
        Insn::MoveImmNatural { left, lidx, .. } | Insn::MoveRelative { left, lidx, .. } => {
            operand_bytes::<W>(registers, W, left_side::<W>(16, left, lidx))
        }
        Insn::Push { wide, .. } => pushed_bytes::<W>(registers, form_bytes(*wide)),
        Insn::Pop { wide, op, extra } => {
            popped_bytes::<W>(registers, form_bytes(*wide), popped_side::<W>(op, extra))
        }
        Insn::PushNatural { .. } => pushed_bytes::<W>(registers, W),
        Insn::PopNatural { op, extra } => {
            popped_bytes::<W>(registers, W, popped_side::<W>(op, extra))
        }
        _ => None,
    }
}

//! Tests of the parts of an instruction, of which `well_formed` is made.

ghost use Rattle.std.specs.Prelude.{◌≡◌, ◌⊎◌, ◌<◌, ◌↔◌, IsTrue};
ghost use Rattle.natural_index.specs.Index.{IsIndexSize};
ghost use Rattle.ebc_insn.specs.Spelling.{ExtraFits, FitsInt, IsOperand, IsWordOrDword, LeftFits, MoveFits, RightFits, TargetFits};

use crate::{Extra, Operand, Size};
use natural_index::Index;

// One of R0 to R7.
pub fn is_operand(o: &Operand) -> bool
    ensures { IsTrue result ↔ IsOperand o.now }
{
    o.reg < 8
}

// 16 or 32 bits.
pub fn is_word_or_dword(bits: u8) -> bool
    ensures { IsTrue result ↔ IsWordOrDword bits }
{
    bits == 16 || bits == 32
}

// 16, 32 or 64 bits.
pub fn is_index_size(bits: u8) -> bool
    ensures { IsTrue result ↔ IsIndexSize bits }
{
    is_word_or_dword(bits) || bits == 64
}

// Whether indexes of so many bits stand in a move of this size.
pub fn move_fits(size: Size, bits: u8) -> bool
    ensures { IsTrue result ↔ MoveFits size bits }
{
    match size {
        Size::Qword => is_index_size(bits),
        Size::Byte | Size::Word | Size::Dword | Size::Natural => is_word_or_dword(bits),
    }
}

// Whether what stands beside an operand has a spelling of so many bits there.
pub fn extra_fits(bits: u8, o: &Operand, extra: &Extra) -> bool
    requires { IsIndexSize bits }
    ensures { IsTrue result ↔ ExtraFits bits o.now extra.now }
{
    match extra {
        Extra::Nothing => true,
        Extra::Imm(v) => !o.indirect && fits(bits, *v),
        Extra::Idx(i) => o.indirect && i.fits(bits),
    }
}

// Whether the index of operand 1 has a spelling of so many bits there.
pub fn left_fits(bits: u8, o: &Operand, idx: &Option<Index>) -> bool
    requires { IsIndexSize bits }
    ensures { IsTrue result ↔ LeftFits bits o.now idx.now }
{
    match idx {
        None => true,
        Some(i) => o.indirect && i.fits(bits),
    }
}

// Whether the index of operand 2 has a spelling of so many bits.
pub fn right_fits(bits: u8, idx: &Option<Index>) -> bool
    requires { IsIndexSize bits }
    ensures { IsTrue result ↔ RightFits bits idx.now }
{
    match idx {
        None => true,
        Some(i) => i.fits(bits),
    }
}

// Whether an operand and what stands beside it give a target.
pub fn target_fits(far: bool, o: &Operand, extra: &Extra) -> bool
    ensures { IsTrue result ↔ TargetFits far o.now extra.now }
{
    if far {
        match extra {
            Extra::Imm(v) => o.reg == 0 && !o.indirect && fits(64, *v),
            Extra::Nothing | Extra::Idx(_) => false,
        }
    } else {
        is_operand(o) && extra_fits(32, o, extra)
    }
}

// Whether a code is one byte, as its type says.
pub fn fits_byte(code: u8) -> bool
    ensures { IsTrue result ↔ (code < 256) }
{
    u32::from(code) < 0x100
}

// Whether a signed number of so many bits is v.
pub fn fits(bits: u8, v: i64) -> bool
    requires { (bits ≡ 8) ⊎ IsIndexSize bits }
    ensures { IsTrue result ↔ FitsInt bits v }
{
    match bits {
        8 => (-0x80..0x80).contains(&v),
        16 => (-0x8000..0x8000).contains(&v),
        32 => (-0x8000_0000..0x8000_0000).contains(&v),
        _ => true,
    }
}

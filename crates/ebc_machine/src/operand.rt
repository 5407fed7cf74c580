//! Operands of an instruction: the value of operand 2, and where operand 1 is.

ghost use Rattle.std.specs.Prelude.{◌≡◌, ◌+◌, ◌%◌, ◌^◌, ◌<◌, slice_index};
ghost use Rattle.ebc_width.specs.Width.{IsWidth, cut_at};
ghost use Rattle.natural_index.specs.Index.{IsIndex, IsIndexSize};
ghost use Rattle.ebc_insn.specs.Spelling.{ExtraFits, RightFits, TargetFits};
ghost use Rattle.ebc_width.specs.Bytes.{IsAccess};
ghost use Rattle.ebc_machine.specs.Operands.{size_bytes, low_bytes, index_offset, optional_offset, extra_offset, form_bytes, plain};
ghost use Rattle.ebc_machine.specs.Operands.{with_index, with_extra, loaded_at, value, written};
ghost use Rattle.ebc_machine.specs.States.{concrete_of, Does};

use crate::Machine;
use crate::access::store;
use ebc_insn::{Extra, Operand, Size};
use ebc_width::{cut, linear};
use natural_index::Index;
use note_types::Exception;
use object_memory::ObjMem;

/// An operand with what stands beside it as a number, modulo 2^64.
#[derive(Clone, Copy)]
pub struct Side {
    /// The number of the register, 0 to 7.
    pub reg: u8,
    /// Whether the operand is in memory.
    pub indirect: bool,
    /// What stands beside it.
    pub offset: u64,
}

impl Side {
    // An operand with nothing beside it.
    pub(crate) fn plain(o: &Operand) -> Side
        ensures { result ≡ plain o.now }
    {
        Side {
            reg: o.reg,
            indirect: o.indirect,
            offset: 0,
        }
    }
}

impl<const W: usize> Machine<W> {
    // A register and what stands beside it.
    pub(crate) fn sum(&self, reg: u8, offset: u64) -> u64
        requires { reg < 8 }
        ensures { result ≡ (slice_index self.now.regs reg + offset) % 2 ^ 64 }
    {
        self.regs[reg as usize].wrapping_add(offset)
    }

    // The address of the data at a register and an offset.
    pub(crate) fn address(&self, reg: u8, offset: u64) -> u64
        requires width { IsWidth W }
        requires register { reg < 8 }
        ensures { result ≡ cut_at W ((slice_index self.now.regs reg + offset) % 2 ^ 64) }
    {
        cut::<W>(self.sum(reg, offset))
    }

    // The number in the `count` bytes at a register and an offset.
    #[tactic(auto, unfolding(crate::specs::Operands::loaded_at, crate::specs::Operands::address, crate::specs::Operands::sum_at))]
    pub(crate) fn load_at(
        &self,
        mem: &ObjMem<W>,
        fault: Exception,
        count: usize,
        reg: u8,
        offset: u64,
    ) -> Result<u64, Exception>
        requires width { IsWidth W }
        requires access { IsAccess count }
        requires register { reg < 8 }
        ensures { result ≡ loaded_at W (concrete_of self.now mem.now) fault count reg offset }
    {
        self.load(mem, self.address(reg, offset), count)
            .ok_or(fault)
    }

    // The value of an operand of `count` bytes.
    #[tactic(auto, unfolding(crate::specs::Operands::value, crate::specs::Operands::sum_at))]
    pub(crate) fn value(
        &self,
        mem: &ObjMem<W>,
        fault: Exception,
        count: usize,
        o: Side,
    ) -> Result<u64, Exception>
        requires width { IsWidth W }
        requires access { IsAccess count }
        requires register { o.reg < 8 }
        ensures { result ≡ value W (concrete_of self.now mem.now) fault count o }
    {
        if o.indirect {
            self.load_at(mem, fault, count, o.reg, o.offset)
        } else {
            Ok(self.sum(o.reg, o.offset))
        }
    }

    // Puts a result in an operand of `count` bytes.
    #[tactic(auto, unfolding(crate::specs::Operands::written, crate::specs::Operands::stored_at, crate::specs::Operands::address, crate::specs::Operands::sum_at, note_types::specs::Concrete::stored, note_types::specs::Concrete::with_register))]
    pub(crate) fn write(
        &mut self,
        mem: &mut ObjMem<W>,
        count: usize,
        o: Side,
        value: u64,
    ) -> Result<(), Exception>
        requires width { IsWidth W }
        requires access { IsAccess count }
        requires register { o.reg < 8 }
        ensures { Does self.old mem.old self.new mem.new result (written W (concrete_of self.old mem.old) count o value) }
    {
        if !o.indirect {
            self.regs[o.reg as usize] = value;
            Ok(())
        } else if store(mem, self.address(o.reg, o.offset), count, value) {
            Ok(())
        } else {
            Err(Exception::MemoryFault)
        }
    }

    // What an index counts.
    #[tactic(auto, using(crate::proofs::Indexes::units_below, crate::proofs::Indexes::bytes_below))]
    pub(crate) fn index_offset(bits: u8, i: &Index) -> u64
        requires width { IsWidth W }
        requires size { IsIndexSize bits }
        requires fits { IsIndex bits i.now }
        ensures { result ≡ index_offset W i.now }
    {
        let (n, c) = i.pair();
        linear::<W>(n, c)
    }

    // What an index that may be left out counts.
    fn optional_offset(bits: u8, idx: &Option<Index>) -> u64
        requires width { IsWidth W }
        requires size { IsIndexSize bits }
        requires fits { RightFits bits idx.now }
        ensures { result ≡ optional_offset W idx.now }
    {
        match idx {
            None => 0,
            Some(i) => Self::index_offset(bits, i),
        }
    }

    // What stands beside an operand.
    fn extra_offset(bits: u8, o: &Operand, extra: &Extra) -> u64
        requires width { IsWidth W }
        requires size { IsIndexSize bits }
        requires fits { ExtraFits bits o.now extra.now }
        ensures { result ≡ extra_offset W extra.now }
    {
        match extra {
            Extra::Nothing => 0,
            Extra::Imm(v) => v.cast_unsigned(),
            Extra::Idx(i) => Self::index_offset(bits, i),
        }
    }

    // An operand with an index that may be left out.
    pub(crate) fn with_index(bits: u8, o: &Operand, idx: &Option<Index>) -> Side
        requires width { IsWidth W }
        requires size { IsIndexSize bits }
        requires fits { RightFits bits idx.now }
        ensures side { result ≡ with_index W o.now idx.now }
        ensures register { result.reg ≡ o.now.reg }
    {
        Side {
            reg: o.reg,
            indirect: o.indirect,
            offset: Self::optional_offset(bits, idx),
        }
    }

    // An operand with an immediate or an index that may be left out.
    pub(crate) fn with_extra(bits: u8, o: &Operand, extra: &Extra) -> Side
        requires width { IsWidth W }
        requires size { IsIndexSize bits }
        requires fits { ExtraFits bits o.now extra.now }
        ensures side { result ≡ with_extra W o.now extra.now }
        ensures register { result.reg ≡ o.now.reg }
    {
        Side {
            reg: o.reg,
            indirect: o.indirect,
            offset: Self::extra_offset(bits, o, extra),
        }
    }

    // The operand of a jump or a call, which has 64 bits where it is far.
    #[tactic(auto, using(crate::proofs::Fits::target_register, crate::proofs::Fits::target_extra))]
    pub(crate) fn with_target(far: bool, o: &Operand, extra: &Extra) -> Side
        requires width { IsWidth W }
        requires fits { TargetFits far o.now extra.now }
        ensures side { result ≡ with_extra W o.now extra.now }
        ensures register { result.reg < 8 }
    {
        let bits = if far { 64 } else { 32 };
        Self::with_extra(bits, o, extra)
    }

    // How many bytes a move reads and writes.
    pub(crate) fn size_bytes(size: Size) -> usize
        requires { IsWidth W }
        ensures same { result ≡ size_bytes W size }
        ensures access { IsAccess result }
    {
        match size {
            Size::Byte => 1,
            Size::Word => 2,
            Size::Dword => 4,
            Size::Qword => 8,
            Size::Natural => W,
        }
    }
}

// How many bytes a form of 64 or of 32 bits reads or writes.
pub(crate) fn form_bytes(wide: bool) -> usize
    ensures same { result ≡ form_bytes wide }
    ensures access { IsAccess result }
    ensures stack { IsWidth result }
{
    if wide { 8 } else { 4 }
}

// The low `count` bytes of a number.
pub(crate) fn low_bytes(count: usize, value: u64) -> u64
    requires { IsAccess count }
    ensures { result ≡ low_bytes count value }
{
    match count {
        1 => value % 0x100,
        2 => value % 0x1_0000,
        4 => value % 0x1_0000_0000,
        _ => value,
    }
}

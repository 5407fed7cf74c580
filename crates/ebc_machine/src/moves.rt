//! Moves.

ghost use Rattle.std.specs.Prelude.{◌≡◌, ◌<◌};
ghost use Rattle.ebc_width.specs.Width.{IsWidth};
ghost use Rattle.natural_index.specs.Index.{IsIndex, IsIndexSize};
ghost use Rattle.ebc_machine.specs.Moves.{move_row, move_signed_row, move_imm_row, move_imm_natural_row, move_relative_row};
ghost use Rattle.ebc_machine.specs.Moves.{load_special_row, store_special_row};
ghost use Rattle.ebc_machine.specs.States.{concrete_of, Ends};

use crate::operand::{Side, low_bytes};
use crate::{Machine, StepEnd};
use ebc_insn::Size;
use ebc_width::extend;
use natural_index::Index;
use note_types::Exception;
use object_memory::ObjMem;

impl<const W: usize> Machine<W> {
    // MOVb, MOVw, MOVd, MOVq, MOVqq and MOVn.
    #[tactic(auto, unfolding(crate::specs::Moves::move_row, crate::specs::Results::goes, note_types::specs::Concrete::at_ip))]
    pub(crate) fn move_value(
        &mut self,
        mem: &mut ObjMem<W>,
        next: u64,
        size: Size,
        left: Side,
        right: Side,
    ) -> Result<StepEnd, Exception>
        requires width { IsWidth W }
        requires left { left.reg < 8 }
        requires right { right.reg < 8 }
        ensures { Ends self.old mem.old self.new mem.new result (move_row W (concrete_of self.old mem.old) next size left right) }
    {
        let count = Self::size_bytes(size);
        let v = self.value(mem, Exception::MemoryFault, count, right)?;
        self.write(mem, count, left, low_bytes(count, v))?;
        self.ip = next;
        Ok(StepEnd::Next)
    }

    // MOVsn: a value of natural size, with its sign.
    #[tactic(auto, unfolding(crate::specs::Moves::move_signed_row, crate::specs::Results::goes, note_types::specs::Concrete::at_ip))]
    pub(crate) fn move_signed(
        &mut self,
        mem: &mut ObjMem<W>,
        next: u64,
        left: Side,
        right: Side,
    ) -> Result<StepEnd, Exception>
        requires width { IsWidth W }
        requires left { left.reg < 8 }
        requires right { right.reg < 8 }
        ensures { Ends self.old mem.old self.new mem.new result (move_signed_row W (concrete_of self.old mem.old) next left right) }
    {
        let v = self.value(mem, Exception::MemoryFault, W, right)?;
        self.write(mem, W, left, extend::<W>(v))?;
        self.ip = next;
        Ok(StepEnd::Next)
    }

    // MOVI: an immediate, cut to the size of the move.
    #[tactic(auto, unfolding(crate::specs::Moves::move_imm_row, crate::specs::Results::goes, note_types::specs::Concrete::at_ip))]
    pub(crate) fn move_imm(
        &mut self,
        mem: &mut ObjMem<W>,
        next: u64,
        size: Size,
        left: Side,
        imm: i64,
    ) -> Result<StepEnd, Exception>
        requires width { IsWidth W }
        requires left { left.reg < 8 }
        ensures { Ends self.old mem.old self.new mem.new result (move_imm_row W (concrete_of self.old mem.old) next size left imm) }
    {
        let count = Self::size_bytes(size);
        self.write(mem, count, left, low_bytes(count, imm.cast_unsigned()))?;
        self.ip = next;
        Ok(StepEnd::Next)
    }

    // MOVIn: what an index counts.
    #[tactic(auto, unfolding(crate::specs::Moves::move_imm_natural_row, crate::specs::Results::goes, note_types::specs::Concrete::at_ip))]
    pub(crate) fn move_imm_natural(
        &mut self,
        mem: &mut ObjMem<W>,
        next: u64,
        left: Side,
        bits: u8,
        idx: &Index,
    ) -> Result<StepEnd, Exception>
        requires width { IsWidth W }
        requires bits { IsIndexSize bits }
        requires left { left.reg < 8 }
        requires index { IsIndex bits idx.now }
        ensures { Ends self.old mem.old self.new mem.new result (move_imm_natural_row W (concrete_of self.old mem.old) next left idx.now) }
    {
        self.write(mem, W, left, Self::index_offset(bits, idx))?;
        self.ip = next;
        Ok(StepEnd::Next)
    }

    // MOVREL: an address past the next instruction.
    #[tactic(auto, unfolding(crate::specs::Moves::move_relative_row, crate::specs::Results::goes, note_types::specs::Concrete::at_ip))]
    pub(crate) fn move_relative(
        &mut self,
        mem: &mut ObjMem<W>,
        next: u64,
        left: Side,
        imm: i64,
    ) -> Result<StepEnd, Exception>
        requires width { IsWidth W }
        requires left { left.reg < 8 }
        ensures { Ends self.old mem.old self.new mem.new result (move_relative_row W (concrete_of self.old mem.old) next left imm) }
    {
        self.write(mem, W, left, next.wrapping_add(imm.cast_unsigned()))?;
        self.ip = next;
        Ok(StepEnd::Next)
    }

    // LOADSP: the two bits of the flags that have a meaning.
    #[tactic(auto, unfolding(crate::specs::Moves::load_special_row, crate::specs::Results::goes, note_types::specs::Concrete::at_ip, note_types::specs::Concrete::with_flags))]
    pub(crate) fn load_special(
        &mut self,
        mem: &ObjMem<W>,
        next: u64,
        from: u8,
    ) -> Result<StepEnd, Exception>
        requires { from < 8 }
        ensures { Ends self.old mem.now self.new mem.now result (load_special_row (concrete_of self.old mem.now) next from) }
    {
        self.flags = self.flags / 4 * 4 + self.regs[from as usize] % 4;
        self.ip = next;
        Ok(StepEnd::Next)
    }

    // STORESP: the flags for 0, and the address of the next instruction for 1.
    #[tactic(auto, unfolding(crate::specs::Moves::store_special_row, crate::specs::Results::goes, note_types::specs::Concrete::at_ip, note_types::specs::Concrete::with_register))]
    pub(crate) fn store_special(
        &mut self,
        mem: &ObjMem<W>,
        next: u64,
        to: u8,
        special: u8,
    ) -> Result<StepEnd, Exception>
        requires { to < 8 }
        ensures { Ends self.old mem.now self.new mem.now result (store_special_row (concrete_of self.old mem.now) next to special) }
    {
        self.regs[to as usize] = if special == 0 { self.flags } else { next };
        self.ip = next;
        Ok(StepEnd::Next)
    }
}

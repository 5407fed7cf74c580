//! Arithmetic and comparisons.

ghost use Rattle.std.specs.Prelude.{◌≡◌, ◌<◌};
ghost use Rattle.ebc_width.specs.Width.{IsWidth};
ghost use Rattle.ebc_machine.specs.Data.{with_c, arith_row, compare_row, compare_imm_row};
ghost use Rattle.ebc_machine.specs.States.{concrete_of, Ends};

use crate::operand::{Side, form_bytes};
use crate::{Machine, StepEnd};
use ebc_insn::{ArithOp, CmpOp};
use machine_alu::{compare, compute};
use note_types::Exception;
use object_memory::ObjMem;

// The flags with C set or clear.
fn with_c(flags: u64, c: bool) -> u64
    ensures { result ≡ with_c flags c }
{
    flags / 2 * 2 + u64::from(c)
}

impl<const W: usize> Machine<W> {
    // NOT to EXTNDD: operand 2, then operand 1, then the result.
    #[tactic(auto, unfolding(crate::specs::Data::arith_row, crate::specs::Results::goes, note_types::specs::Concrete::at_ip))]
    pub(crate) fn arith(
        &mut self,
        mem: &mut ObjMem<W>,
        next: u64,
        op: ArithOp,
        wide: bool,
        left: Side,
        right: Side,
    ) -> Result<StepEnd, Exception>
        requires width { IsWidth W }
        requires left { left.reg < 8 }
        requires right { right.reg < 8 }
        ensures { Ends self.old mem.old self.new mem.new result (arith_row W (concrete_of self.old mem.old) next op wide left right) }
    {
        let count = form_bytes(wide);
        let b = self.value(mem, Exception::MemoryFault, count, right)?;
        let a = self.value(mem, Exception::MemoryFault, count, left)?;
        let Ok(v) = compute(op, wide, a, b) else {
            return Err(Exception::DivideError);
        };
        self.write(mem, count, left, v)?;
        self.ip = next;
        Ok(StepEnd::Next)
    }

    // CMP: C by the comparison of a register with operand 2.
    #[tactic(auto, unfolding(crate::specs::Data::compare_row, crate::specs::Results::goes, note_types::specs::Concrete::at_ip, note_types::specs::Concrete::with_flags))]
    pub(crate) fn compare(
        &mut self,
        mem: &ObjMem<W>,
        next: u64,
        op: CmpOp,
        wide: bool,
        left: u8,
        right: Side,
    ) -> Result<StepEnd, Exception>
        requires width { IsWidth W }
        requires left { left < 8 }
        requires right { right.reg < 8 }
        ensures { Ends self.old mem.now self.new mem.now result (compare_row W (concrete_of self.old mem.now) next op wide left right) }
    {
        let b = self.value(mem, Exception::MemoryFault, form_bytes(wide), right)?;
        let c = compare(op, wide, self.regs[left as usize], b);
        self.flags = with_c(self.flags, c);
        self.ip = next;
        Ok(StepEnd::Next)
    }

    // CMPI: C by the comparison of operand 1 with an immediate.
    #[tactic(auto, unfolding(crate::specs::Data::compare_imm_row, crate::specs::Results::goes, note_types::specs::Concrete::at_ip, note_types::specs::Concrete::with_flags))]
    pub(crate) fn compare_imm(
        &mut self,
        mem: &ObjMem<W>,
        next: u64,
        op: CmpOp,
        wide: bool,
        left: Side,
        imm: i64,
    ) -> Result<StepEnd, Exception>
        requires width { IsWidth W }
        requires left { left.reg < 8 }
        ensures { Ends self.old mem.now self.new mem.now result (compare_imm_row W (concrete_of self.old mem.now) next op wide left imm) }
    {
        let a = self.value(mem, Exception::MemoryFault, form_bytes(wide), left)?;
        let c = compare(op, wide, a, imm.cast_unsigned());
        self.flags = with_c(self.flags, c);
        self.ip = next;
        Ok(StepEnd::Next)
    }
}

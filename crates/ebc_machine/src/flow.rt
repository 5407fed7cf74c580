//! Jumps, calls, returns and BREAK.

ghost use Rattle.std.specs.Prelude.{◌≡◌, ◌<◌};
ghost use Rattle.ebc_width.specs.Width.{IsWidth};
ghost use Rattle.ebc_machine.specs.Flow.{is_taken, aligned, target_number, target_at, called, jump_row, jump8_row, call_row};
ghost use Rattle.ebc_machine.specs.Flow.{call_native_row, return_row, break_row};
ghost use Rattle.ebc_machine.specs.States.{concrete_of, Does, Ends};

use crate::access::{holds, store};
use crate::operand::Side;
use crate::{Machine, StepEnd};
use ebc_insn::Cond;
use ebc_width::cut;
use note_types::Exception;
use object_memory::ObjMem;

// The version of the machine that BREAK 1 tells, 1.0.
const VERSION: u64 = 0x1_0000;

// Whether a jump is taken, by C in bit 0 of the flags.
fn is_taken(cond: Cond, flags: u64) -> bool
    ensures { result ≡ is_taken cond flags }
{
    match cond {
        Cond::Always => true,
        Cond::Set => flags % 2 == 1,
        Cond::Clear => flags % 2 == 0,
    }
}

// An address that control may go to.
fn aligned(target: u64) -> Result<u64, Exception>
    ensures { result ≡ aligned target }
{
    if target % 2 == 0 {
        Ok(target)
    } else {
        Err(Exception::AlignmentCheck)
    }
}

impl<const W: usize> Machine<W> {
    // The number in the operand of a jump or a call, where R0 counts as 0.
    #[tactic(auto, unfolding(crate::specs::Flow::target_number))]
    fn target_number(&self, mem: &ObjMem<W>, op: Side) -> Result<u64, Exception>
        requires width { IsWidth W }
        requires register { op.reg < 8 }
        ensures { result ≡ target_number W (concrete_of self.now mem.now) op }
    {
        let base = if op.reg == 0 {
            0
        } else {
            self.regs[op.reg as usize]
        };
        let sum = base.wrapping_add(op.offset);
        if op.indirect {
            self.load(mem, cut::<W>(sum), W)
                .ok_or(Exception::MemoryFault)
        } else {
            Ok(sum)
        }
    }

    // The target of a jump or a call.
    #[tactic(auto, unfolding(crate::specs::Flow::target_at))]
    fn target(&self, mem: &ObjMem<W>, next: u64, relative: bool, op: Side) -> Result<u64, Exception>
        requires width { IsWidth W }
        requires register { op.reg < 8 }
        ensures { result ≡ target_at W (concrete_of self.now mem.now) next relative op }
    {
        let t = self.target_number(mem, op)?;
        if relative {
            Ok(cut::<W>(next.wrapping_add(t)))
        } else {
            Ok(cut::<W>(t))
        }
    }

    // JMP. Nothing is read where it isn't taken.
    #[tactic(auto, unfolding(crate::specs::Flow::jump_row, crate::specs::Results::goes, note_types::specs::Concrete::at_ip))]
    pub(crate) fn jump(
        &mut self,
        mem: &ObjMem<W>,
        next: u64,
        cond: Cond,
        relative: bool,
        op: Side,
    ) -> Result<StepEnd, Exception>
        requires width { IsWidth W }
        requires register { op.reg < 8 }
        ensures { Ends self.old mem.now self.new mem.now result (jump_row W (concrete_of self.old mem.now) next cond relative op) }
    {
        if !is_taken(cond, self.flags) {
            self.ip = next;
            return Ok(StepEnd::Next);
        }
        let target = self.target(mem, next, relative, op)?;
        self.ip = aligned(target)?;
        Ok(StepEnd::Next)
    }

    // JMP8.
    #[tactic(auto, unfolding(crate::specs::Flow::jump8_row, crate::specs::Results::goes, note_types::specs::Concrete::at_ip))]
    pub(crate) fn jump8(
        &mut self,
        mem: &ObjMem<W>,
        next: u64,
        cond: Cond,
        words: i8,
    ) -> Result<StepEnd, Exception>
        ensures { Ends self.old mem.now self.new mem.now result (jump8_row (concrete_of self.old mem.now) next cond words) }
    {
        let taken = is_taken(cond, self.flags);
        if !taken {
            self.ip = next;
            return Ok(StepEnd::Next);
        }
        let bytes = i64::from(words) * 2;
        self.ip = aligned(next.wrapping_add(bytes.cast_unsigned()))?;
        Ok(StepEnd::Next)
    }

    // Puts a return address on the stack, and zeros in the eight bytes above it.
    #[tactic(auto, unfolding(crate::specs::Flow::called, crate::specs::Stack::lowered_by, crate::specs::Operands::stored_at, crate::specs::Operands::address, crate::specs::Operands::sum_at, note_types::specs::Concrete::stored, note_types::specs::Concrete::with_register))]
    fn push_return(&mut self, mem: &mut ObjMem<W>, next: u64) -> Result<(), Exception>
        requires { IsWidth W }
        ensures { Does self.old mem.old self.new mem.new result (called W (concrete_of self.old mem.old) next) }
    {
        let top = self.regs[0].wrapping_sub(16);
        let low = cut::<W>(top);
        let high = cut::<W>(top.wrapping_add(8));
        if !holds(mem, low, 8) || !holds(mem, high, 8) {
            return Err(Exception::StackFault);
        }
        let _ = store(mem, low, 8, next);
        let _ = store(mem, high, 8, 0);
        self.regs[0] = top;
        Ok(())
    }

    // CALL.
    #[tactic(auto, unfolding(crate::specs::Flow::call_row, crate::specs::Results::goes, note_types::specs::Concrete::at_ip))]
    pub(crate) fn call(
        &mut self,
        mem: &mut ObjMem<W>,
        next: u64,
        relative: bool,
        op: Side,
    ) -> Result<StepEnd, Exception>
        requires width { IsWidth W }
        requires register { op.reg < 8 }
        ensures { Ends self.old mem.old self.new mem.new result (call_row W (concrete_of self.old mem.old) next relative op) }
    {
        let target = self.target(mem, next, relative, op)?;
        let to = aligned(target)?;
        self.push_return(mem, next)?;
        self.ip = to;
        Ok(StepEnd::Next)
    }

    // CALLEX: the target is the host's.
    #[tactic(auto, unfolding(crate::specs::Flow::call_native_row, note_types::specs::Concrete::at_ip))]
    pub(crate) fn call_native(
        &mut self,
        mem: &ObjMem<W>,
        next: u64,
        relative: bool,
        op: Side,
    ) -> Result<StepEnd, Exception>
        requires width { IsWidth W }
        requires register { op.reg < 8 }
        ensures { Ends self.old mem.now self.new mem.now result (call_native_row W (concrete_of self.old mem.now) next relative op) }
    {
        let target = self.target(mem, next, relative, op)?;
        self.ip = next;
        Ok(StepEnd::Native(target))
    }

    // RET.
    #[tactic(auto, unfolding(crate::specs::Flow::return_row, crate::specs::Stack::raised_by, crate::specs::Results::goes, note_types::specs::Concrete::at_ip, note_types::specs::Concrete::with_register))]
    pub(crate) fn return_from(&mut self, mem: &ObjMem<W>) -> Result<StepEnd, Exception>
        requires { IsWidth W }
        ensures { Ends self.old mem.now self.new mem.now result (return_row W (concrete_of self.old mem.now)) }
    {
        let back = self.load_at(mem, Exception::StackFault, 8, 0, 0)?;
        self.ip = aligned(back)?;
        self.regs[0] = self.regs[0].wrapping_add(16);
        Ok(StepEnd::Next)
    }

    // BREAK.
    #[tactic(auto, unfolding(crate::specs::Flow::break_row, crate::specs::Results::goes, note_types::specs::Concrete::at_ip, note_types::specs::Concrete::with_register))]
    pub(crate) fn break_with(
        &mut self,
        mem: &ObjMem<W>,
        next: u64,
        code: u8,
    ) -> Result<StepEnd, Exception>
        ensures { Ends self.old mem.now self.new mem.now result (break_row (concrete_of self.old mem.now) next code) }
    {
        match code {
            1 => {
                self.regs[7] = VERSION;
                self.ip = next;
                Ok(StepEnd::Next)
            }
            3 => Err(Exception::Breakpoint),
            4 | 6 => {
                self.ip = next;
                Ok(StepEnd::Next)
            }
            5 => {
                self.ip = next;
                Ok(StepEnd::MakeThunk(self.regs[7]))
            }
            _ => Err(Exception::BadBreak),
        }
    }
}

//! PUSH and POP. R0 is the address of the top of the stack.

ghost use Rattle.std.specs.Prelude.{◌≡◌, ◌<◌};
ghost use Rattle.ebc_width.specs.Width.{IsWidth};
ghost use Rattle.ebc_width.specs.Bytes.{IsAccess};
ghost use Rattle.ebc_machine.specs.Stack.{stack_fault, pushed, raised_by, popped, popped_number, push_row, pop_row};
ghost use Rattle.ebc_machine.specs.States.{concrete_of, Does, Ends};

use crate::access::store;
use crate::operand::Side;
use crate::{Machine, StepEnd};
use ebc_width::{cut, extend};
use note_types::Exception;
use object_memory::ObjMem;

// What an access through a register raises.
fn stack_fault(reg: u8) -> Exception
    ensures { result ≡ stack_fault reg }
{
    if reg == 0 {
        Exception::StackFault
    } else {
        Exception::MemoryFault
    }
}

impl<const W: usize> Machine<W> {
    // Puts the low `count` bytes of a number on top of the stack.
    #[tactic(auto, unfolding(crate::specs::Stack::pushed, crate::specs::Stack::lowered_by, crate::specs::Operands::stored_at, crate::specs::Operands::address, crate::specs::Operands::sum_at, note_types::specs::Concrete::stored, note_types::specs::Concrete::with_register))]
    pub(crate) fn push_value(
        &mut self,
        mem: &mut ObjMem<W>,
        count: usize,
        value: u64,
    ) -> Result<(), Exception>
        requires width { IsWidth W }
        requires access { IsAccess count }
        ensures { Does self.old mem.old self.new mem.new result (pushed W (concrete_of self.old mem.old) count value) }
    {
        let top = self.regs[0].wrapping_sub(count as u64);
        if store(mem, cut::<W>(top), count, value) {
            self.regs[0] = top;
            Ok(())
        } else {
            Err(Exception::StackFault)
        }
    }

    // PUSH32, PUSH64 and PUSHn of `count` bytes.
    #[tactic(auto, unfolding(crate::specs::Stack::push_row, crate::specs::Results::goes, note_types::specs::Concrete::at_ip))]
    pub(crate) fn push(
        &mut self,
        mem: &mut ObjMem<W>,
        next: u64,
        count: usize,
        op: Side,
    ) -> Result<StepEnd, Exception>
        requires width { IsWidth W }
        requires access { IsWidth count }
        requires register { op.reg < 8 }
        ensures { Ends self.old mem.old self.new mem.new result (push_row W (concrete_of self.old mem.old) next count op) }
    {
        let v = self.value(mem, stack_fault(op.reg), count, op)?;
        self.push_value(mem, count, v)?;
        self.ip = next;
        Ok(StepEnd::Next)
    }

    // Puts a value from the stack in an operand, and raises R0 by `count`. An operand at R0 has it raised.
    #[tactic(auto, unfolding(crate::specs::Stack::popped, crate::specs::Stack::raised_by, crate::specs::Operands::stored_at, crate::specs::Operands::address, crate::specs::Operands::sum_at, note_types::specs::Concrete::stored, note_types::specs::Concrete::with_register))]
    fn pop_to(
        &mut self,
        mem: &mut ObjMem<W>,
        count: usize,
        op: Side,
        value: u64,
    ) -> Result<(), Exception>
        requires width { IsWidth W }
        requires access { IsAccess count }
        requires register { op.reg < 8 }
        ensures { Does self.old mem.old self.new mem.new result (popped W (raised_by (concrete_of self.old mem.old) count) count op value) }
    {
        let mut after = *self;
        after.regs[0] = self.regs[0].wrapping_add(count as u64);
        if !op.indirect {
            after.regs[op.reg as usize] = value.wrapping_add(op.offset);
        } else if !store(mem, after.address(op.reg, op.offset), count, value) {
            return Err(stack_fault(op.reg));
        }
        *self = after;
        Ok(())
    }

    // POP32, POP64 and POPn of `count` bytes: the value has its sign, or zeros above it.
    #[tactic(auto, unfolding(crate::specs::Stack::pop_row, crate::specs::Results::goes, note_types::specs::Concrete::at_ip))]
    pub(crate) fn pop(
        &mut self,
        mem: &mut ObjMem<W>,
        next: u64,
        count: usize,
        signed: bool,
        op: Side,
    ) -> Result<StepEnd, Exception>
        requires width { IsWidth W }
        requires access { IsWidth count }
        requires register { op.reg < 8 }
        ensures { Ends self.old mem.old self.new mem.new result (pop_row W (concrete_of self.old mem.old) next count signed op) }
    {
        let v = self.load_at(mem, Exception::StackFault, count, 0, 0)?;
        self.pop_to(mem, count, op, popped_number(signed, count, v))?;
        self.ip = next;
        Ok(StepEnd::Next)
    }
}

// The number in the low `count` bytes, with its sign or with zeros above it.
fn popped_number(signed: bool, count: usize, value: u64) -> u64
    requires { IsWidth count }
    ensures { result ≡ popped_number signed count value }
{
    if !signed {
        value
    } else if count == 4 {
        extend::<4>(value)
    } else {
        extend::<8>(value)
    }
}

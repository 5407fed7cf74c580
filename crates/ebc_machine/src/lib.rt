//! The machine of EFI Byte Code at a pointer width of 4 or 8 bytes, one step at a time (UEFI specification, chapter
//! "EFI Byte Code Virtual Machine"). docs/MACHINE.md has the step in words.
//!
//! Promises:
//!
//! - `Machine::step`: `step` says that how the step ends, and the machine and its memory after it, are those of the
//!   definition's step on them; `objects`, that the objects of the memory and its limits are as they were; `raised`,
//!   that a step that raises leaves machine and memory as they were.
//! - `machine_is_concrete`: a memory of the width and a machine whose registers, ip and gate are numbers of 64 bits,
//!   with no flag set but C and the single step, are in numbers a state that a machine of that width can be in
//!   (`IsConcrete` of `note_types`). `step_keeps_concrete`: from each such state a step leads to such a state, wherever
//!   its objects lie.
//! - `Side`: an operand with what stands beside it as a number, of which the definitions of the rows speak.
#![tactic(auto)]

mod access;
mod data;
mod flow;
mod laws;
mod moves;
mod operand;
mod stack;

ghost use Rattle.std.specs.Prelude.{◌≡◌, ◌+◌, ◌%◌, ◌^◌};
ghost use Rattle.ebc_width.specs.Width.{IsWidth};
ghost use Rattle.ebc_insn.specs.Spelling.{WellFormed};
ghost use Rattle.ebc_machine.specs.Fetch.{exception_of};

pub use crate::laws::{machine_is_concrete, step_keeps_concrete};
pub use crate::operand::Side;
use crate::operand::form_bytes;
use ebc_decode::{DecodeFault, Decoded, decode_first};
use ebc_insn::Insn;
use note_types::Exception;
use object_memory::ObjMem;

/// How a step ends.
#[derive(Clone, Copy, PartialEq, Eq)]
pub enum StepEnd {
    /// The instruction at ip is done.
    Next,
    /// The instruction was CALLEX: the host is to be called at this address. ip stands at the next instruction.
    Native(u64),
    /// ip is the gate address. Nothing was done.
    Gate,
    /// The instruction was BREAK 5: the thunk cell at this address, R7, is to be filled in. ip stands at the next
    /// instruction.
    MakeThunk(u64),
    /// The instruction can't be done. Machine and memory are as they were.
    Raised(Exception),
}

/// The registers of a machine whose pointers have `W` bytes, 4 or 8.
#[derive(Clone, Copy, PartialEq, Eq)]
pub struct Machine<const W: usize> {
    /// R0 to R7. R0 is the address of the top of the stack.
    pub regs: [u64; 8],
    /// The address of the next instruction.
    pub ip: u64,
    /// C in bit 0, and the single step in bit 1, which has no effect.
    pub flags: u64,
    /// The address at which a step ends as `Gate`.
    pub gate: u64,
}

impl<const W: usize> Machine<W> {
    ghost use Rattle.ebc_machine.specs.States.{KeepsObjects, concrete_of, Ends, LeavesAll};
    ghost use Rattle.ebc_machine.specs.Forms.{IsMove, IsPushOrPop};
    ghost use Rattle.ebc_machine.specs.Step.{executed, machine_step};

    /// One step: the instruction at ip, or nothing where ip is the gate address.
    ///
    /// The instruction is read from the bytes between ip and the end of the object that holds ip. Operand 2 is read
    /// before operand 1, and the result is written last.
    #[tactic(auto, unfolding(crate::specs::Step::machine_step, crate::specs::Step::instruction_done, crate::specs::Fetch::fetched), using(crate::proofs::Ends::leaves_done))]
    pub fn step(&mut self, mem: &mut ObjMem<W>) -> StepEnd
        requires { IsWidth W }
        ensures step { (result, concrete_of self.new mem.new) ≡ machine_step W (concrete_of self.old mem.old) }
        ensures objects { KeepsObjects mem.old mem.new }
        ensures raised { LeavesAll self.old mem.old self.new mem.new result }
    {
        if self.ip == self.gate {
            return StepEnd::Gate;
        }
        let Some(bytes) = self.code(mem) else {
            return StepEnd::Raised(Exception::MemoryFault);
        };
        // The instruction is used where it was read, and not copied.
        let found = decode_first::<W>(bytes);
        let (insn, len) = match &found {
            Decoded::Found(insn, len) => (insn, *len),
            Decoded::Fault(fault) => return StepEnd::Raised(exception_of(*fault)),
        };
        match self.execute(mem, self.ip.wrapping_add(len as u64), insn) {
            Ok(end) => end,
            Err(exception) => StepEnd::Raised(exception),
        }
    }

    // Does an instruction. The one after it is at `next`.
    #[tactic(auto, unfolding(crate::specs::Step::executed))]
    fn execute(&mut self, mem: &mut ObjMem<W>, next: u64, insn: &Insn) -> Result<StepEnd, Exception>
        requires width { IsWidth W }
        requires well_formed { WellFormed insn.now }
        ensures { Ends self.old mem.old self.new mem.new result (executed W (concrete_of self.old mem.old) next insn.now) }
    {
        match insn {
            Insn::Break { code } => self.break_with(mem, next, *code),
            Insn::Jump {
                cond,
                far,
                relative,
                op,
                extra,
            } => self.jump(
                mem,
                next,
                *cond,
                *relative,
                Self::with_target(*far, op, extra),
            ),
            Insn::Jump8 { cond, words } => self.jump8(mem, next, *cond, *words),
            Insn::Call {
                far,
                native,
                relative,
                op,
                extra,
            } => {
                let op = Self::with_target(*far, op, extra);
                if *native {
                    self.call_native(mem, next, *relative, op)
                } else {
                    self.call(mem, next, *relative, op)
                }
            }
            Insn::Ret => self.return_from(mem),
            Insn::Compare {
                op,
                wide,
                left,
                right,
                extra,
            } => {
                let right = Self::with_extra(16, right, extra);
                self.compare(mem, next, *op, *wide, *left, right)
            }
            Insn::CompareImm {
                op,
                wide,
                left,
                idx,
                imm,
                ..
            } => {
                let left = Self::with_index(16, left, idx);
                self.compare_imm(mem, next, *op, *wide, left, (*imm).into())
            }
            Insn::Arith {
                op,
                wide,
                left,
                right,
                extra,
            } => {
                let right = Self::with_extra(16, right, extra);
                self.arith(mem, next, *op, *wide, Side::plain(left), right)
            }
            Insn::Move { .. }
            | Insn::MoveSigned { .. }
            | Insn::MoveImm { .. }
            | Insn::MoveImmNatural { .. }
            | Insn::MoveRelative { .. }
            | Insn::LoadSpecial { .. }
            | Insn::StoreSpecial { .. } => self.execute_move(mem, next, insn),
            Insn::Push { .. }
            | Insn::Pop { .. }
            | Insn::PushNatural { .. }
            | Insn::PopNatural { .. } => self.execute_stack(mem, next, insn),
        }
    }

    // Does an instruction that moves, or that loads or stores a special register.
    #[inline(always)]
    #[tactic(auto, unfolding(crate::specs::Step::executed))]
    fn execute_move(
        &mut self,
        mem: &mut ObjMem<W>,
        next: u64,
        insn: &Insn,
    ) -> Result<StepEnd, Exception>
        requires width { IsWidth W }
        requires well_formed { WellFormed insn.now }
        requires form { IsMove insn.now }
        ensures { Ends self.old mem.old self.new mem.new result (executed W (concrete_of self.old mem.old) next insn.now) }
    {
        match insn {
            Insn::Move {
                size,
                bits,
                left,
                right,
                lidx,
                ridx,
            } => {
                // The index that was read last is looked at first, while it is known whether there is one.
                let right = Self::with_index(*bits, right, ridx);
                let left = Self::with_index(*bits, left, lidx);
                self.move_value(mem, next, *size, left, right)
            }
            Insn::MoveSigned {
                bits,
                left,
                right,
                lidx,
                extra,
            } => {
                let right = Self::with_extra(*bits, right, extra);
                let left = Self::with_index(*bits, left, lidx);
                self.move_signed(mem, next, left, right)
            }
            Insn::MoveImm {
                size,
                left,
                lidx,
                imm,
                ..
            } => self.move_imm(mem, next, *size, Self::with_index(16, left, lidx), *imm),
            Insn::MoveImmNatural {
                bits,
                left,
                lidx,
                idx,
            } => {
                let left = Self::with_index(16, left, lidx);
                self.move_imm_natural(mem, next, left, *bits, idx)
            }
            Insn::MoveRelative {
                left,
                lidx,
                imm,
                ..
            } => self.move_relative(mem, next, Self::with_index(16, left, lidx), *imm),
            Insn::LoadSpecial { from } => self.load_special(mem, next, *from),
            Insn::StoreSpecial { to, special } => self.store_special(mem, next, *to, *special),
            _ => unreachable!(),
        }
    }

    // Does an instruction that pushes or pops.
    #[inline(always)]
    #[tactic(auto, unfolding(crate::specs::Step::executed))]
    fn execute_stack(
        &mut self,
        mem: &mut ObjMem<W>,
        next: u64,
        insn: &Insn,
    ) -> Result<StepEnd, Exception>
        requires width { IsWidth W }
        requires well_formed { WellFormed insn.now }
        requires form { IsPushOrPop insn.now }
        ensures { Ends self.old mem.old self.new mem.new result (executed W (concrete_of self.old mem.old) next insn.now) }
    {
        match insn {
            Insn::Push { wide, op, extra } => {
                self.push(
                    mem,
                    next,
                    form_bytes(*wide),
                    Self::with_extra(16, op, extra),
                )
            }
            Insn::Pop { wide, op, extra } => {
                self.pop(
                    mem,
                    next,
                    form_bytes(*wide),
                    true,
                    Self::with_extra(16, op, extra),
                )
            }
            Insn::PushNatural { op, extra } => {
                self.push(mem, next, W, Self::with_extra(16, op, extra))
            }
            Insn::PopNatural { op, extra } => {
                self.pop(mem, next, W, false, Self::with_extra(16, op, extra))
            }
            _ => unreachable!(),
        }
    }
}

// What bytes raise that begin with no spelling.
fn exception_of(fault: DecodeFault) -> Exception
    ensures { result ≡ exception_of fault }
{
    match fault {
        DecodeFault::Short => Exception::MemoryFault,
        DecodeFault::Opcode => Exception::InvalidOpcode,
        DecodeFault::Reserved | DecodeFault::IndexTag | DecodeFault::DirectIndex => {
            Exception::InstructionEncoding
        }
    }
}

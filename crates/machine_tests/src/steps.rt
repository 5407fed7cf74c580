//! Steps of the machine at both widths: what they leave in registers and memory, where they go and what they raise.

ghost use Rattle.ebc_width.specs.Width.{IsWidth};

use ebc_machine::{Machine, StepEnd};
use note_types::Exception;
use object_memory::ObjMem;
use std::alloc::Global;
use std::process::Abort;
use std::test::Fail;

const LEAST: u64 = 0x8000_0000_0000_0000;

const ONES: u64 = 0xFFFF_FFFF_FFFF_FFFF;
// An address that no object holds.
const NOWHERE: u64 = 0x20;

// A machine at its code, in the first object. The second object has eight words of eight bytes: 0x1_0000_0020, and
// then -2, -3 and so on to -8. R0 is at its fifth word, -5, and R3 at its start.
#[derive(Drop)]
struct World<const W: usize> {
    mem: ObjMem<W>,
    machine: Machine<W>,
    code: u64,
    data: u64,
}

fn set_up<const W: usize>(alloc: Global, code: &[u8], r1: u64, r2: u64) -> Result<World<W>, Fail>
    requires { IsWidth W }
{
    let mut mem = ObjMem::<W>::new(alloc, 4096, 4)?;
    let first = mem.place(64, 1)?.base;
    let data = mem.place(8, 8)?.base;
    for (i, byte) in code.iter().enumerate() {
        mem.store(first.wrapping_add(i as u64), 1, u64::from(*byte));
    }
    mem.store(data, 8, 0x1_0000_0020);
    for i in 1..8u64 {
        mem.store(data.wrapping_add(8 * i), 8, ONES - i);
    }
    let machine = Machine {
        regs: [data.wrapping_add(32), r1, r2, data, 0, 0, 0, 0x77],
        ip: first,
        flags: 0,
        gate: 0,
    };
    Ok(World {
        mem,
        machine,
        code: first,
        data,
    })
}

// The greatest number of natural size.
fn natural_ones(width: usize) -> u64 {
    if width == 4 { 0xFFFF_FFFF } else { ONES }
}

// What an instruction leaves in a register: its code, R1, R2, the number of the register and what it holds after.
fn registers<const W: usize>(rt: &impl Abort, alloc: Global) -> Result<(), Fail>
    requires { IsWidth W }
{
    let n = W as u64;
    let at = set_up::<W>(alloc, &[], 0, 0)?;
    let (code, data) = (at.code, at.data);
    let stack = data.wrapping_add(32);
    let rows: [(&[u8], u64, u64, usize, u64); 27] = [
        // A natural index counts units of W bytes.
        (&[0x78, 0x04, 0x01, 0x10], 0, 0, 4, n),
        (
            &[0x60, 0x00, 0x22, 0x90],
            0,
            0,
            0,
            stack.wrapping_sub(2 * n + 8),
        ),
        // A result of 32 bits clears the upper half.
        (&[0x0C, 0x21], 0xFFFF_FFFF_0000_0001, 0xFFFF_FFFF, 1, 0),
        // Counts past the width, and the smallest number by -1.
        (&[0x17, 0x21], 1, 32, 1, 0),
        (&[0x59, 0x21], LEAST, 200, 1, ONES),
        (&[0x50, 0x21], LEAST, ONES, 1, LEAST),
        // Operand 2 with an immediate, and in memory.
        (&[0xCC, 0x21, 0xFE, 0xFF], 5, 1, 1, 4),
        (&[0x0C, 0xB1], 5, 0, 1, 0x25),
        // Moves cut to their size and extend by zeros; MOVsn extends by the sign.
        (&[0x1F, 0x14], 0x1_8765_4321, 0, 4, 0x8765_4321),
        (
            &[0x32, 0x14],
            0x1_8765_4321,
            0,
            4,
            0x1_8765_4321 & natural_ones(W),
        ),
        (
            &[0x25, 0x14],
            0x8000_000E,
            0,
            4,
            if W == 4 {
                0xFFFF_FFFF_8000_000E
            } else {
                0x8000_000E
            },
        ),
        (&[0x77, 0x24, 0xFF, 0xFF], 0, 0, 4, 0xFFFF_FFFF),
        (&[0x77, 0x34, 0xFF, 0xFF], 0, 0, 4, ONES),
        // No alignment is asked of data.
        (&[0x60, 0xB4, 0x01, 0x00], 0, 0, 4, 0xFE00_0000_0100_0000),
        // MOVREL to a register.
        (&[0x79, 0x04, 0x10, 0x00], 0, 0, 4, code.wrapping_add(0x14)),
        // POP32 extends by the sign and POPn by zeros; then the immediate is added.
        (&[0xAC, 0x04, 0x06, 0x00], 0, 0, 4, 1),
        (
            &[0xB6, 0x04, 0x06, 0x00],
            0,
            0,
            4,
            natural_ones(W).wrapping_add(2),
        ),
        (&[0x2C, 0x04], 0, 0, 0, stack.wrapping_add(4)),
        (&[0x36, 0x04], 0, 0, 0, stack.wrapping_add(n)),
        // POP64 into R0 leaves the value there, whatever R0 rose to.
        (&[0xEC, 0x00, 0x08, 0x00], 0, 0, 0, 3),
        (&[0x2B, 0x01], 0, 0, 0, stack.wrapping_sub(4)),
        (&[0x35, 0x01], 0, 0, 0, stack.wrapping_sub(n)),
        // BREAK 1 tells the version, and 4 and 6 do nothing.
        (&[0x00, 0x01], 0, 0, 7, 0x1_0000),
        (&[0x00, 0x04], 0, 0, 7, 0x77),
        (&[0x00, 0x06], 0, 0, 7, 0x77),
        // STORESP of the address of the next instruction, and of the flags.
        (&[0x2A, 0x14], 0, 0, 4, code.wrapping_add(2)),
        (&[0x2A, 0x01], 9, 0, 1, 0),
    ];
    for (bytes, r1, r2, reg, want) in rows {
        let mut w = set_up::<W>(alloc, bytes, r1, r2)?;
        assert!(rt; w.machine.step(&mut w.mem) == StepEnd::Next);
        assert!(rt; w.machine.regs.get(reg).copied() == Some(want));
        assert!(rt; w.machine.ip == code.wrapping_add(bytes.len() as u64));
    }
    Ok(())
}

#[test]
fn registers_at_both_widths(rt: HostRuntime) -> Result<(), Fail> {
    registers::<4>(&rt, rt.alloc())?;
    registers::<8>(&rt, rt.alloc())
}

// What an instruction leaves in memory: its code, R1, a place in the second object and the eight bytes there after.
fn bytes<const W: usize>(rt: &impl Abort, alloc: Global) -> Result<(), Fail>
    requires { IsWidth W }
{
    let at = set_up::<W>(alloc, &[], 0, 0)?;
    let (code, data) = (at.code, at.data);
    let rows: [(&[u8], u64, u64, u64); 9] = [
        (&[0x1D, 0x1B], 0x1234, 0, 0x1_0000_0034),
        (&[0x2B, 0x01], 0x1_2345_6789, 24, 0x2345_6789_FFFF_FFFC),
        // MOVIn and MOVREL store in natural size, and so does MOVsn.
        (
            &[0x78, 0x0B, 0x01, 0x10],
            0,
            0,
            if W == 4 { 0x1_0000_0004 } else { 8 },
        ),
        (
            &[0x79, 0x0B, 0x10, 0x00],
            0,
            0,
            if W == 4 { 0x1_0010_0014 } else { 0x2_0000_0014 },
        ),
        (
            &[0x25, 0x1B],
            ONES - 1,
            0,
            if W == 4 { 0x1_FFFF_FFFE } else { ONES - 1 },
        ),
        // The eight bytes above a return address are zero.
        (&[0x03, 0x01], code, 16, code.wrapping_add(2)),
        (&[0x03, 0x01], code, 24, 0),
        (&[0x03, 0x01], code, 32, ONES - 4),
        // POP64 to memory at R0 once it has risen.
        (&[0x6C, 0x08], 0, 40, ONES - 4),
    ];
    for (bytes, r1, place, want) in rows {
        let mut w = set_up::<W>(alloc, bytes, r1, 0)?;
        assert!(rt; w.machine.step(&mut w.mem) == StepEnd::Next);
        assert!(rt; w.mem.load(data.wrapping_add(place), 8) == Some(want));
    }
    Ok(())
}

#[test]
fn bytes_at_both_widths(rt: HostRuntime) -> Result<(), Fail> {
    bytes::<4>(&rt, rt.alloc())?;
    bytes::<8>(&rt, rt.alloc())
}

// Where control goes: the code, R1, the flags, ip after and the flags after.
fn control<const W: usize>(rt: &impl Abort, alloc: Global) -> Result<(), Fail>
    requires { IsWidth W }
{
    let at = set_up::<W>(alloc, &[], 0, 0)?;
    let (code, data) = (at.code, at.data);
    let rows: [(&[u8], u64, u64, u64, u64); 15] = [
        // A jump that isn't taken reads nothing.
        (&[0x01, 0xC9], NOWHERE, 2, code.wrapping_add(2), 2),
        (&[0x01, 0x89], NOWHERE, 1, code.wrapping_add(2), 1),
        // R0 counts as 0.
        (&[0x81, 0x00, 0x00, 0x20, 0x10, 0x00], 0, 0, 0x10_2000, 0),
        (&[0x83, 0x00, 0x00, 0x20, 0x10, 0x00], 0, 0, 0x10_2000, 0),
        // A target is cut to the width, and one in memory has natural size.
        (
            &[0x01, 0x01],
            0x1_0000_0020,
            0,
            0x1_0000_0020 & natural_ones(W),
            0,
        ),
        (&[0x01, 0x09], data, 0, 0x1_0000_0020 & natural_ones(W), 0),
        (&[0x81, 0x10, 0xFA, 0xFF, 0xFF, 0xFF], 0, 0, code, 0),
        (
            &[0xC1, 0x00, 0x10, 0, 0, 0, 0, 0, 0, 0x80],
            0,
            0,
            if W == 4 { 0x10 } else { LEAST + 0x10 },
            0,
        ),
        (&[0x02, 0xFF], 0, 0, code, 0),
        (&[0xC2, 0x02], 0, 1, code.wrapping_add(6), 1),
        // Comparisons set C and keep the single step.
        (&[0x6D, 0x01, 0x05, 0x00], 5, 2, code.wrapping_add(4), 3),
        (&[0x6D, 0x01, 0x05, 0x00], 6, 3, code.wrapping_add(4), 2),
        (&[0x46, 0x21], ONES, 0, code.wrapping_add(2), 1),
        (&[0x48, 0x21], ONES, 1, code.wrapping_add(2), 0),
        // LOADSP loads two bits.
        (&[0x29, 0x10], 0xFE, 1, code.wrapping_add(2), 2),
    ];
    for (bytes, r1, flags, ip, after) in rows {
        let mut w = set_up::<W>(alloc, bytes, r1, 0)?;
        w.machine.flags = flags;
        assert!(rt; w.machine.step(&mut w.mem) == StepEnd::Next);
        assert!(rt; w.machine.ip == ip);
        assert!(rt; w.machine.flags == after);
    }
    // A return reads eight bytes at either width, and takes sixteen from the stack.
    let mut w = set_up::<W>(alloc, &[0x04, 0x00], 0, 0)?;
    w.machine.regs[0] = data;
    assert!(rt; w.machine.step(&mut w.mem) == StepEnd::Next);
    assert!(rt; w.machine.ip == 0x1_0000_0020);
    assert!(rt; w.machine.regs[0] == data.wrapping_add(16));
    Ok(())
}

#[test]
fn control_at_both_widths(rt: HostRuntime) -> Result<(), Fail> {
    control::<4>(&rt, rt.alloc())?;
    control::<8>(&rt, rt.alloc())
}

// What is raised: the code, R0, R1 and the exception. The machine is as it was.
fn raised<const W: usize>(rt: &impl Abort, alloc: Global) -> Result<(), Fail>
    requires { IsWidth W }
{
    let at = set_up::<W>(alloc, &[], 0, 0)?;
    let (code, stack) = (at.code, at.data.wrapping_add(32));
    let rows: [(&[u8], u64, u64, Exception); 22] = [
        (&[0x50, 0x21], stack, 7, Exception::DivideError),
        (&[0x00, 0x00], stack, 0, Exception::BadBreak),
        (&[0x00, 0x02], stack, 0, Exception::BadBreak),
        (&[0x00, 0x03], stack, 0, Exception::Breakpoint),
        (&[0x27, 0x00], stack, 0, Exception::InvalidOpcode),
        // A reserved bit, tag 7, and an index on a direct operand 1.
        (&[0x04, 0x01], stack, 0, Exception::InstructionEncoding),
        (
            &[0x78, 0x04, 0x00, 0x70],
            stack,
            0,
            Exception::InstructionEncoding,
        ),
        (
            &[0xA0, 0x12, 0x00, 0x00],
            stack,
            0,
            Exception::InstructionEncoding,
        ),
        // Operands in no object, of which those through R0 are the stack's.
        (&[0x20, 0x94], stack, NOWHERE, Exception::MemoryFault),
        (&[0x20, 0x49], stack, NOWHERE, Exception::MemoryFault),
        (&[0x2B, 0x09], stack, NOWHERE, Exception::MemoryFault),
        (&[0x2B, 0x08], NOWHERE, 0, Exception::StackFault),
        (&[0x2B, 0x01], NOWHERE, 0, Exception::StackFault),
        (&[0x2C, 0x01], NOWHERE, 0, Exception::StackFault),
        (&[0x2C, 0x09], stack, NOWHERE, Exception::MemoryFault),
        (&[0x04, 0x00], NOWHERE, 0, Exception::StackFault),
        (&[0x03, 0x08], stack, 0, Exception::MemoryFault),
        (&[0x01, 0xC9], stack, NOWHERE, Exception::MemoryFault),
        // The alignment of a target, before the stack is touched.
        (&[0x03, 0x01], NOWHERE, code, Exception::StackFault),
        (&[0x03, 0x01], NOWHERE, 7, Exception::AlignmentCheck),
        (&[0x01, 0x01], stack, 7, Exception::AlignmentCheck),
        (&[0x04, 0x00], stack, 0, Exception::AlignmentCheck),
    ];
    for (bytes, r0, r1, exception) in rows {
        let mut w = set_up::<W>(alloc, bytes, r1, 0)?;
        w.machine.regs[0] = r0;
        w.machine.flags = 1;
        let before = w.machine;
        assert!(rt; w.machine.step(&mut w.mem) == StepEnd::Raised(exception));
        assert!(rt; w.machine == before);
    }
    // Code that ends too early, and ip in no object.
    for ip in [code.wrapping_add(63), code.wrapping_add(64), NOWHERE] {
        let mut w = set_up::<W>(alloc, &[], 0, 0)?;
        w.machine.ip = ip;
        assert!(rt;
            w.machine.step(&mut w.mem) == StepEnd::Raised(Exception::MemoryFault),
            "{ip}"
        );
    }
    Ok(())
}

#[test]
fn raised_at_both_widths(rt: HostRuntime) -> Result<(), Fail> {
    raised::<4>(&rt, rt.alloc())?;
    raised::<8>(&rt, rt.alloc())
}

// The other ends: a native call has no alignment, and BREAK 5 carries R7 whole.
#[test]
fn ends(rt: HostRuntime) -> Result<(), Fail> {
    let mut w = set_up::<4>(rt.alloc(), &[0x83, 0x20, 0x35, 0x12, 0x00, 0x00], 0, 0)?;
    assert!(rt; w.machine.step(&mut w.mem) == StepEnd::Native(0x1235));
    assert!(rt; w.machine.ip == w.code.wrapping_add(6));

    let mut w = set_up::<4>(rt.alloc(), &[0x00, 0x05], 0, 0)?;
    w.machine.regs[7] = 0x1_0000_0000;
    assert!(rt; w.machine.step(&mut w.mem) == StepEnd::MakeThunk(0x1_0000_0000));
    assert!(rt; w.machine.ip == w.code.wrapping_add(2));

    let mut w = set_up::<8>(rt.alloc(), &[0x00, 0x01], 0, 0)?;
    w.machine.gate = w.code;
    let before = w.machine;
    assert!(rt; w.machine.step(&mut w.mem) == StepEnd::Gate);
    assert!(rt; w.machine == before);
    Ok(())
}

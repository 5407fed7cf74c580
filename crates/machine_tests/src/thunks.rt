//! Functions that the host enters and leaves, and the arguments of native calls, at both widths.

ghost use Rattle.std.specs.Prelude.{◌≤◌, ◌<◌, ◌^◌};
ghost use Rattle.ebc_width.specs.Width.{IsWidth};

use callex_thunk::{NO_ENTRY, ThunkFault, gather};
use ebc_machine::Machine;
use entry_thunk::{EnterEnd, LeftEntry, enter, leave, notify};
use frame_stack::{Frame, FrameStack};
use note_types::{Name, Sequence, Signature, SlotKind, Want, WantParam};
use object_memory::ObjMem;
use std::alloc::Global;
use std::process::Abort;
use std::test::Fail;

const GATE: u64 = 0x100;

// A machine at the end of a stack of so many zeros, the one object, and the address of its end.
fn at_stack<const W: usize>(alloc: Global, bytes: u32) -> Result<(Machine<W>, ObjMem<W>, u64), Fail>
    requires width { IsWidth W }
    requires some { 1 ≤ bytes }
{
    let mut mem = ObjMem::<W>::new(alloc, 4096, 1)?;
    let end = mem.place(bytes, 1)?.base.wrapping_add(u64::from(bytes));
    let machine = Machine {
        regs: [end, 1, 2, 3, 4, 5, 6, 7],
        ip: 0x500,
        flags: 3,
        gate: GATE,
    };
    Ok((machine, mem, end))
}

// The number in some bytes of memory, and 0 where they aren't mapped.
fn number<const W: usize>(mem: &ObjMem<W>, addr: u64, wide: bool) -> u64 {
    let found = if wide {
        mem.load(addr, 8)
    } else {
        mem.load(addr, 4)
    };
    found.unwrap_or(0)
}

// A function of three parameters is entered and left: `below` says how far below the stack's end each argument lies.
fn enters_and_leaves<const W: usize>(
    rt: &impl Abort,
    alloc: Global,
    below: [u64; 3],
) -> Result<(), Fail>
    requires { IsWidth W }
{
    let (mut m, mut mem, end) = at_stack::<W>(alloc, 64)?;
    let mut frames = FrameStack::new(alloc)?;
    let kinds = [SlotKind::N, SlotKind::Q, SlotKind::D];
    let args = [0x0000_0001, 0x1122_3344_5566_7788, 0xFFFF_FFFF_0000_0002];
    let done = enter(&mut m, &mut mem, &mut frames, 3, 0x2000, &kinds, &args);
    assert_eq!(rt; done, EnterEnd::Done);
    let first = end.wrapping_sub(below[0]);
    assert_eq!(rt; number(&mem, first, false), 1);
    assert_eq!(rt;
        number(&mem, end.wrapping_sub(below[1]), true),
        0x1122_3344_5566_7788
    );
    assert_eq!(rt; number(&mem, end.wrapping_sub(below[2]), false), 2);

    // The return cell lies below the arguments.
    let top = first.wrapping_sub(16);
    assert_eq!(rt; number(&mem, top, true), GATE);
    assert_eq!(rt; mem.load(first.wrapping_sub(8), 8), Some(0));
    assert_eq!(rt; m.regs.as_slice(), [top, 1, 2, 3, 4, 5, 6, 7].as_slice());
    assert_eq!(rt; (m.ip, m.flags, m.gate), (0x2000, 0, GATE));
    assert_eq!(rt; frames.mark(), (NO_ENTRY, 0, 0));

    m.regs = [8, 9, 10, 11, 12, 13, 14, 15];
    m.ip = GATE;
    m.flags = 1;
    let left = leave(&mut m, &mut frames);
    let told = LeftEntry {
        func: 3,
        r7: 15,
        notified: false,
    };
    assert_eq!(rt; left, Some(told));
    assert_eq!(rt; m.regs.as_slice(), [end, 1, 2, 3, 4, 5, 6, 15].as_slice());
    assert_eq!(rt; (m.ip, m.flags, m.gate), (0x500, 3, GATE));
    assert_eq!(rt; leave(&mut m, &mut frames), None);
    Ok(())
}

#[test]
fn a_function_is_entered_and_left(rt: HostRuntime) -> Result<(), Fail> {
    enters_and_leaves::<4>(&rt, rt.alloc(), [16, 12, 4])?;
    enters_and_leaves::<8>(&rt, rt.alloc(), [20, 12, 4])
}

// A function is entered as a notification and left: R7 and the flags are given back too.
fn notifies_and_leaves<const W: usize>(rt: &impl Abort, alloc: Global) -> Result<(), Fail>
    requires { IsWidth W }
{
    let (mut m, mut mem, end) = at_stack::<W>(alloc, 64)?;
    let mut frames = FrameStack::new(alloc)?;
    let before = m;
    let kinds = [SlotKind::Q];
    let done = notify(&mut m, &mut mem, &mut frames, 3, 0x2000, &kinds, &[5]);
    assert_eq!(rt; done, EnterEnd::Done);
    let top = end.wrapping_sub(24);
    assert_eq!(rt; m.regs.as_slice(), [top, 1, 2, 3, 4, 5, 6, 7].as_slice());
    assert_eq!(rt; (m.ip, m.flags, m.gate), (0x2000, 0, GATE));
    assert_eq!(rt; number(&mem, end.wrapping_sub(8), true), 5);
    assert_eq!(rt; number(&mem, top, true), GATE);

    m.regs = [8, 9, 10, 11, 12, 13, 14, 15];
    m.ip = GATE;
    m.flags = 1;
    let told = LeftEntry {
        func: 3,
        r7: 15,
        notified: true,
    };
    assert_eq!(rt; leave(&mut m, &mut frames), Some(told));
    assert!(rt; m == before);
    assert_eq!(rt; leave(&mut m, &mut frames), None);
    Ok(())
}

#[test]
fn a_notification_is_entered_and_left(rt: HostRuntime) -> Result<(), Fail> {
    notifies_and_leaves::<4>(&rt, rt.alloc())?;
    notifies_and_leaves::<8>(&rt, rt.alloc())
}

// Nine functions of one wide parameter are entered one in the other, each with 24 bytes of the stack, and no tenth.
fn enters_nine<const W: usize>(rt: &impl Abort, alloc: Global, bytes: u32) -> Result<(), Fail>
    requires width { IsWidth W }
    requires some { 1 ≤ bytes }
{
    let (mut m, mut mem, end) = at_stack::<W>(alloc, bytes)?;
    let mut frames = FrameStack::new(alloc)?;
    let kinds = [SlotKind::Q];
    for func in 0..9 {
        let done = enter(&mut m, &mut mem, &mut frames, func, 0x2000, &kinds, &[5]);
        assert_eq!(rt; done, EnterEnd::Done);
        assert_eq!(rt; m.regs[0], end.wrapping_sub(24 * (u64::from(func) + 1)));
    }
    let before = m;
    let done = enter(&mut m, &mut mem, &mut frames, 9, 0x2000, &kinds, &[5]);
    assert_eq!(rt; done, EnterEnd::TooDeep);
    let done = notify(&mut m, &mut mem, &mut frames, 9, 0x2000, &kinds, &[5]);
    assert_eq!(rt; done, EnterEnd::TooDeep);
    assert!(rt; m == before);
    for above in 0..9 {
        let left = leave(&mut m, &mut frames);
        assert_eq!(rt; left.map(|it| it.func), Some(8 - above));
    }
    assert_eq!(rt; m.regs[0], end);
    Ok(())
}

#[test]
fn nine_functions_and_no_tenth(rt: HostRuntime) -> Result<(), Fail> {
    // With room for more, and with room for nine alone: the number of frames is tried first.
    enters_nine::<4>(&rt, rt.alloc(), 512)?;
    enters_nine::<8>(&rt, rt.alloc(), 512)?;
    enters_nine::<4>(&rt, rt.alloc(), 216)?;
    enters_nine::<8>(&rt, rt.alloc(), 216)
}

// Where the stack has a byte too few, nothing changes.
fn has_no_room<const W: usize>(rt: &impl Abort, alloc: Global, bytes: u32) -> Result<(), Fail>
    requires width { IsWidth W }
    requires some { 1 ≤ bytes }
{
    let (mut m, mut mem, _) = at_stack::<W>(alloc, bytes)?;
    let mut frames = FrameStack::new(alloc)?;
    let before = m;
    let kinds = [SlotKind::N, SlotKind::Q];
    let done = enter(&mut m, &mut mem, &mut frames, 0, 0x2000, &kinds, &[5, 6]);
    assert_eq!(rt; done, EnterEnd::StackFault);
    assert!(rt; m == before);
    assert_eq!(rt; frames.depth(), 0);
    assert_eq!(rt; number(&mem, m.regs[0].wrapping_sub(8), true), 0);
    Ok(())
}

#[test]
fn a_stack_without_room(rt: HostRuntime) -> Result<(), Fail> {
    has_no_room::<4>(&rt, rt.alloc(), 27)?;
    has_no_room::<8>(&rt, rt.alloc(), 31)
}

// A signature of a natural, a wide and a natural parameter.
fn signature(alloc: Global) -> Result<Signature, Fail> {
    let params = [
        WantParam {
            kind: SlotKind::N,
            want: Want::Ptr,
        },
        WantParam {
            kind: SlotKind::Q,
            want: Want::Int {
                lo: 0,
                hi: u64::MAX,
            },
        },
        WantParam {
            kind: SlotKind::N,
            want: Want::Any,
        },
    ];
    Ok(Signature {
        name: Name::new(String::from_str(alloc, "locate")?),
        method: 0,
        params: Sequence::new(Vec::from_array(alloc, params)?),
        result: None,
    })
}

const FRAME: Frame = Frame {
    regs: [0; 8],
    ip: 0,
    flags: 0,
    entry: NO_ENTRY,
    callback: 0,
    func: 0,
    count: 0,
    slots: [0x77; 16],
};

// Takes the arguments of a call whose frame is there.
fn gathered<const W: usize>(
    rt: &impl Abort,
    mem: &ObjMem<W>,
    r0: u64,
    signature: &Signature,
    frames: &mut FrameStack,
) -> Result<(), ThunkFault>
    requires { IsWidth W }
{
    assert!(rt; 0 < frames.depth());
    assert!(rt; signature.params.len() <= 16);
    gather(mem, r0, signature, frames)
}

// Whether a slot of a frame holds a number.
fn holds(rt: &impl Abort, frames: &FrameStack, below: usize, slot: usize, number: u64) -> bool
    requires { slot < 16 }
{
    assert!(rt; below < frames.depth());
    frames.slot(below, slot) == number
}

// The slots of three arguments, 4 bytes above the stack's begin, go into the top frame of two, and nowhere else.
fn gathers<const W: usize>(rt: &impl Abort, alloc: Global, bytes: u32) -> Result<(), Fail>
    requires width { IsWidth W }
    requires some { 1 ≤ bytes }
    requires below { bytes < 2 ^ 10 }
{
    let (m, mut mem, end) = at_stack::<W>(alloc, bytes + 4)?;
    let first = end.wrapping_sub(u64::from(bytes));
    assert!(rt; mem.store(first, 4, 0x8000_0001));
    assert!(rt; mem.store(first.wrapping_add(W as u64), 8, 0x1122_3344_5566_7788));
    assert!(rt; mem.store(first.wrapping_add(W as u64 + 8), 4, 0x8000_0003));
    let mut frames = FrameStack::new(alloc)?;
    assert!(rt; frames.push(&FRAME));
    assert!(rt; frames.push(&FRAME));
    let locate = signature(alloc)?;
    assert!(rt; gathered(rt, &mem, first, &locate, &mut frames) == Ok(()));
    assert!(rt; holds(rt, &frames, 1, 0, 0x8000_0001));
    assert!(rt; holds(rt, &frames, 1, 1, 0x1122_3344_5566_7788));
    assert!(rt; holds(rt, &frames, 1, 2, 0x8000_0003));
    assert!(rt; holds(rt, &frames, 1, 3, 0x77));
    assert!(rt; holds(rt, &frames, 0, 0, 0x77));

    // The last of them has no bytes any more.
    let past = first.wrapping_add(1);
    assert!(rt; gathered(rt, &mem, past, &locate, &mut frames) == Err(ThunkFault::Stack));
    assert!(rt; holds(rt, &frames, 1, 0, 0x8000_0001));
    assert!(rt; m.regs[0] == end);
    Ok(())
}

#[test]
fn arguments_of_a_native_call(rt: HostRuntime) -> Result<(), Fail> {
    gathers::<4>(&rt, rt.alloc(), 16)?;
    gathers::<8>(&rt, rt.alloc(), 24)
}

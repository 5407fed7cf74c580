//! Tests of frames.

use frame_stack::{Frame, FrameStack};
use std::test::Fail;

// A frame of a function whose fields all differ.
fn frame(func: u32) -> Frame {
    Frame {
        regs: [0x1122_3344_5566_7788, 1, 2, 3, 4, 5, 6, 7],
        ip: 8,
        flags: 9,
        entry: 10,
        callback: 11,
        func,
        count: 12,
        slots: [
            13, 14, 15, 16, 17, 18, 19, 20, 21, 22, 23, 24, 25, 26, 27, 28,
        ],
    }
}

#[test]
fn nine_frames(rt: HostRuntime) -> Result<(), Fail> {
    let mut frames = FrameStack::new(rt.alloc())?;
    for func in 0..9 {
        assert!(rt; frames.push(&frame(func)));
    }
    assert!(rt; !frames.push(&frame(9)));
    assert!(rt; frames.depth() == 9);
    for above in 0..9 {
        assert!(rt; frames.pop().map(|f| f.func) == Some(8 - above));
    }
    assert!(rt; frames.pop().is_none());
    Ok(())
}

#[test]
fn a_frame_comes_back(rt: HostRuntime) -> Result<(), Fail> {
    let mut frames = FrameStack::new(rt.alloc())?;
    assert!(rt; frames.push(&frame(5)));
    let back = frames.pop().ok_or("no frame")?;
    assert!(rt; back.regs.as_slice() == [0x1122_3344_5566_7788, 1, 2, 3, 4, 5, 6, 7].as_slice());
    assert!(rt; (back.ip, back.flags) == (8, 9));
    assert!(rt; (back.entry, back.callback, back.func, back.count) == (10, 11, 5, 12));
    assert!(rt; back.slots.as_slice() == frame(5).slots.as_slice());
    Ok(())
}

#[test]
fn the_bytes_of_frames(rt: HostRuntime) -> Result<(), Fail> {
    let mut frames = FrameStack::new(rt.alloc())?;
    assert!(rt; frames.push(&frame(5)));
    assert!(rt; frames.region().load(0, 8) == 0x1122_3344_5566_7788);
    assert!(rt; frames.region().load(88, 4) == 5);
    assert!(rt; frames.push(&frame(6)));
    assert!(rt; frames.region().load(224 + 88, 4) == 6);
    let _ = frames.pop();
    assert!(rt; frames.region().load(0, 8) == 0x1122_3344_5566_7788);
    assert!(rt; frames.region().load(88, 4) == 5);
    Ok(())
}

#[test]
fn slots_and_a_mark(rt: HostRuntime) -> Result<(), Fail> {
    let mut frames = FrameStack::new(rt.alloc())?;
    assert!(rt; frames.push(&frame(5)));
    assert!(rt; frames.push(&frame(6)));
    frames.set_slot(3, 77);
    frames.set_mark(1, 2, 3);
    assert!(rt; frames.mark() == (1, 2, 3));
    assert!(rt; frames.slot(1, 3) == 77);
    assert!(rt; frames.slot(1, 4) == 17);
    assert!(rt; frames.slot(0, 3) == 16);
    Ok(())
}

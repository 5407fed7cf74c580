//! Entering a function for the host, and leaving it: what goes between a machine, the cells below its R0 and the frames
//! of the host. No call takes memory. docs/HOST.md, "The start", has both in words. The crate stands on `ebc_machine`,
//! `frame_stack` and `host_model`, whose words its contracts cite, and on `callex_thunk`, which says what a frame
//! stands for.
//!
//! Promises:
//!
//! - `enter`: the machine is inside the function, with the arguments and a return cell below R0 (`inside`), and on top
//!   of the frames is one that keeps what the machine held (`frame`), which stands for the frame of the host that the
//!   definitions have (`saved`). `TooDeep` comes exactly where there are nine frames (`deep`); `StackFault` exactly
//!   where there are fewer and the cells below R0 aren't mapped (`fault`). After either, machine, memory and frames are
//!   as they were (`machine`, `memory`, `frames`). The memory has the same objects and limits (`objects`). It needs a
//!   kind of slot for each argument, at most 16 of them, and a number of a function below 2^31. The parameters in the
//!   definitions have types too, which don't count here.
//! - `notify`: the same, under the same conditions, but that the frame is one of a notification: its number for the
//!   function is greater by 2^31 (`frame`, `saved`).
//! - `leave`: the machine is outside the function of the top frame, or, where that was entered as a notification, as it
//!   was before, R7 too (`machine`); the frame is taken away (`frames`). The function's number, R7 as it was where the
//!   function returned, and whether it was a notification are told (`func`, `r7`, `notified`). None exactly where there
//!   is no frame (`none`), and then the machine is as it was (`same`).
#![tactic(auto)]

mod cells;

ghost use Rattle.std.specs.Prelude.{◌≡◌, ℕ, ◌+◌, ◌<◌, ◌≤◌, ◌^◌, ◌↔◌, [], ◌∷◌, true, false, length, drop, slice_get, slice_index, replicate};
ghost use Rattle.std.specs.Prelude.{Some, None, IsNone, IfSome, IfNone};
ghost use Rattle.ebc_width.specs.Width.{IsWidth};
ghost use Rattle.object_memory.specs.Memory.{Memory};
ghost use Rattle.frame_stack.specs.declared.Frame.{Frame};
ghost use Rattle.ebc_machine.specs.States.{concrete_of, KeepsObjects};
ghost use Rattle.host_model.specs.Placements.{frame_limit};
ghost use Rattle.host_model.specs.HostSteps.{inside, frame_for};
ghost use Rattle.callex_thunk.specs.HostFrames.{saved_of};
ghost use Rattle.entry_thunk.specs.Cells.{params_of};
ghost use Rattle.entry_thunk.specs.Entering.{OnDone, OnRefused, frame_of, once_left, registers_left};

use crate::cells::{cells_mapped, params_bytes, store_cells};
use callex_thunk::NO_ENTRY;
use ebc_machine::Machine;
use frame_stack::{FRAMES, Frame, FrameStack};
use note_types::SlotKind;
use object_memory::ObjMem;

// The bytes of a return cell.
const RETURN_CELL: u64 = 16;

// What is added to the number of a function that is entered as a notification.
const NOTIFIED: u32 = 0x8000_0000;

/// How entering a function ends.
#[derive(Clone, Copy, PartialEq, Eq, Debug)]
pub enum EnterEnd {
    /// The machine is inside the function, and its frame on top.
    Done,
    /// There are nine frames.
    TooDeep,
    /// The cells below R0 aren't mapped.
    StackFault,
}

/// What is told of a function that was left.
#[derive(Clone, Copy, PartialEq, Eq, Debug)]
pub struct LeftEntry {
    /// The function, by its number in the notes' order.
    pub func: u32,
    /// R7 as it was where the function returned.
    pub r7: u64,
    /// Whether the function was entered as a notification.
    pub notified: bool,
}

/// Enters a function for the host. What the machine holds is kept in a frame on top of the others; below R0 the arguments,
/// the first one lowest, and below them a return cell with the gate's address are stored; the flags are cleared, and
/// control goes to `target`. There is a kind of slot for each argument, of which there are at most 16, and the function's
/// number is below 2^31.
///
/// `TooDeep` comes exactly where there are nine frames, and `StackFault`, where there are fewer, exactly where the cells
/// below R0 aren't mapped; nothing changes then.
pub fn enter<const W: usize>(
    m: &mut Machine<W>,
    mem: &mut ObjMem<W>,
    frames: &mut FrameStack,
    func: u32,
    target: u64,
    kinds: &[SlotKind],
    args: &[u64],
) -> EnterEnd
    requires width { IsWidth W }
    requires each { length kinds.now ≡ length args.now }
    requires few { length kinds.now ≤ 16 }
    requires func { func < 2 ^ 31 }
    ensures deep { (result ≡ EnterEnd.TooDeep) ↔ (length frames.old ≡ frame_limit) }
    ensures fault { (result ≡ EnterEnd.StackFault) ↔
        ((length frames.old < frame_limit) × (inside W (concrete_of m.old mem.old) target (params_of kinds.now) args.now ≡ None)) }
    ensures inside { OnDone result (inside W (concrete_of m.old mem.old) target (params_of kinds.now) args.now ≡
        Some (concrete_of m.new mem.new)) }
    ensures frame { OnDone result (frames.new ≡ frame_of m.old func ∷ frames.old) }
    ensures saved { saved_of (frame_of m.old func) ≡ frame_for false (concrete_of m.old mem.old) func }
    ensures objects { KeepsObjects mem.old mem.new }
    ensures machine { OnRefused result (m.new ≡ m.old) }
    ensures memory { OnRefused result (mem.new ≡ mem.old) }
    ensures frames { OnRefused result (frames.new ≡ frames.old) }
{
    enter_by(m, mem, frames, func, target, kinds, args)
}

/// Enters a function as a notification: what `enter` does, under the same conditions, but that the frame is marked. `leave`
/// takes back R7 too then.
pub fn notify<const W: usize>(
    m: &mut Machine<W>,
    mem: &mut ObjMem<W>,
    frames: &mut FrameStack,
    func: u32,
    target: u64,
    kinds: &[SlotKind],
    args: &[u64],
) -> EnterEnd
    requires width { IsWidth W }
    requires each { length kinds.now ≡ length args.now }
    requires few { length kinds.now ≤ 16 }
    requires func { func < 2 ^ 31 }
    ensures deep { (result ≡ EnterEnd.TooDeep) ↔ (length frames.old ≡ frame_limit) }
    ensures fault { (result ≡ EnterEnd.StackFault) ↔
        ((length frames.old < frame_limit) × (inside W (concrete_of m.old mem.old) target (params_of kinds.now) args.now ≡ None)) }
    ensures inside { OnDone result (inside W (concrete_of m.old mem.old) target (params_of kinds.now) args.now ≡
        Some (concrete_of m.new mem.new)) }
    ensures frame { OnDone result (frames.new ≡ frame_of m.old (func + 2 ^ 31) ∷ frames.old) }
    ensures saved { saved_of (frame_of m.old (func + 2 ^ 31)) ≡ frame_for true (concrete_of m.old mem.old) func }
    ensures objects { KeepsObjects mem.old mem.new }
    ensures machine { OnRefused result (m.new ≡ m.old) }
    ensures memory { OnRefused result (mem.new ≡ mem.old) }
    ensures frames { OnRefused result (frames.new ≡ frames.old) }
{
    enter_by(m, mem, frames, func + NOTIFIED, target, kinds, args)
}

// Enters a function, in a frame that has this number for it.
fn enter_by<const W: usize>(
    m: &mut Machine<W>,
    mem: &mut ObjMem<W>,
    frames: &mut FrameStack,
    number: u32,
    target: u64,
    kinds: &[SlotKind],
    args: &[u64],
) -> EnterEnd
    requires width { IsWidth W }
    requires each { length kinds.now ≡ length args.now }
    requires few { length kinds.now ≤ 16 }
    ensures deep { (result ≡ EnterEnd.TooDeep) ↔ (length frames.old ≡ frame_limit) }
    ensures fault { (result ≡ EnterEnd.StackFault) ↔
        ((length frames.old < frame_limit) × (inside W (concrete_of m.old mem.old) target (params_of kinds.now) args.now ≡ None)) }
    ensures inside { OnDone result (inside W (concrete_of m.old mem.old) target (params_of kinds.now) args.now ≡
        Some (concrete_of m.new mem.new)) }
    ensures frame { OnDone result (frames.new ≡ frame_of m.old number ∷ frames.old) }
    ensures objects { KeepsObjects mem.old mem.new }
    ensures machine { OnRefused result (m.new ≡ m.old) }
    ensures memory { OnRefused result (mem.new ≡ mem.old) }
    ensures frames { OnRefused result (frames.new ≡ frames.old) }
{
    if frames.depth() == FRAMES {
        return EnterEnd::TooDeep;
    }
    let top = m.regs[0].wrapping_sub(RETURN_CELL + params_bytes::<W>(kinds));
    if !cells_mapped(mem, top, kinds) {
        return EnterEnd::StackFault;
    }
    store_cells(mem, top, m.gate, kinds, args);
    let _ = frames.push(&frame_of(m, number));
    m.regs[0] = top;
    m.ip = target;
    m.flags = 0;
    EnterEnd::Done
}

// The frame that keeps what a machine holds.
#[tactic(auto, unfolding(crate::specs::Entering::frame_of))]
fn frame_of<const W: usize>(m: &Machine<W>, func: u32) -> Frame
    ensures { result ≡ frame_of m.now func }
{
    Frame {
        regs: m.regs,
        ip: m.ip,
        flags: m.flags,
        entry: NO_ENTRY,
        callback: 0,
        func,
        count: 0,
        slots: [0; 16],
    }
}

// The registers once a frame is left in which R7 is this: a frame of a notification gives R7 back too.
fn registers_left(frame: &Frame, r7: u64) -> [u64; 8]
    ensures { result ≡ registers_left frame.now r7 }
{
    let mut regs = frame.regs;
    if frame.func < NOTIFIED {
        regs[7] = r7;
    }
    regs
}

/// Leaves the function of the top frame: R0 to R6, ip and the flags are as they were where it was entered, R7 too where it
/// was entered as a notification, and the frame is taken away. None exactly where there is no frame, and then nothing
/// changes.
#[tactic(auto, unfolding(callex_thunk::specs::HostFrames::saved_of))]
pub fn leave<const W: usize>(m: &mut Machine<W>, frames: &mut FrameStack) -> Option<LeftEntry>
    ensures none { IsNone result ↔ (frames.old ≡ []) }
    ensures frames { frames.new ≡ drop 1 frames.old }
    ensures machine { (f : Frame) (n : Memory) → slice_get frames.old 0 ≡ Some f →
        concrete_of m.new n ≡ once_left (concrete_of m.old n) (saved_of f) }
    ensures func { (f : Frame) → slice_get frames.old 0 ≡ Some f → IfSome result (λ e. e.func ≡ (saved_of f).func) }
    ensures r7 { IfSome result (λ e. e.r7 ≡ slice_index m.old.regs 7) }
    ensures notified { (f : Frame) → slice_get frames.old 0 ≡ Some f → IfSome result (λ e. e.notified ≡ (saved_of f).notified) }
    ensures same { IfNone result (m.new ≡ m.old) }
{
    let frame = frames.pop()?;
    let r7 = m.regs[7];
    m.regs = registers_left(&frame, r7);
    m.ip = frame.ip;
    m.flags = frame.flags;
    Some(LeftEntry {
        func: frame.func % NOTIFIED,
        r7,
        notified: NOTIFIED <= frame.func,
    })
}

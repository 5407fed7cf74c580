//! The functions that the firmware entered, the CALLs in them and the native calls: those that haven't returned.
ghost use Rattle.std.specs.Prelude.{◌≡◌, ◌^◌, ◌<◌, ◌++◌, None, OnOk, Some, false, length, nat_eq, true};
ghost use Rattle.ebc_width.specs.Width.{IsWidth};
ghost use Rattle.object_memory.specs.Memory.{ranges};
ghost use Rattle.callex_thunk.specs.HostFrames.{saved_of};
ghost use Rattle.frame_stack.specs.Frames.{from_bottom};
ghost use Rattle.frame_stack.specs.declared.Frame.{Frame};
ghost use Rattle.host_model.specs.RunState.{RunState};
ghost use Rattle.host_model.specs.World.{World};
ghost use Rattle.twin_run.specs.Runner.{IsRunner};
ghost use Rattle.step_texts.specs.StateTexts.{back_line};
ghost use Rattle.run_trace.specs.Addresses.{held};
ghost use Rattle.run_trace.specs.States.{accepted_of, back_lines, open_of, opened_lines, saved_with, under_way};
ghost use Rattle.run_trace.specs.Walks.{RunsImage};

use crate::calls::InnerCall;
use crate::holding::held;
use callex_thunk::NO_ENTRY;
use frame_stack::{FRAME_BYTES, FRAMES, FrameStack};
use note_types::{NoMemory, Notes, Script};
use std::alloc::Global;
use step_texts::{OpenCall, OpenFunction, append_back, append_open_call, append_open_function};
use twin_run::{AskedCall, Runner};

// Where fields lie from the first byte of a frame on (docs/crates/frame_stack.md).
const IP: usize = 64;

const ENTRY: usize = 80;

const FUNC: usize = 88;

// What is added to the number of a function that was entered as a notification.
const NOTIFIED: u32 = 0x8000_0000;

// The address at which the machine stood before the function of a frame was entered.
fn saved_ip(frames: &FrameStack, below: usize) -> u64
    requires { below < FRAMES }
    ensures { (f : Frame) → from_bottom frames.now below ≡ Some f → result ≡ f.ip }
{
    frames.region().load(FRAME_BYTES * below + IP, 8)
}

// The entry of the script that answers the native call above a frame, or none.
fn entry_of(frames: &FrameStack, below: usize) -> u32
    requires { below < FRAMES }
    ensures { (f : Frame) → from_bottom frames.now below ≡ Some f → result ≡ f.entry }
{
    frames.region().load(FRAME_BYTES * below + ENTRY, 4) as u32
}

// The function of a frame.
fn function_of(frames: &FrameStack, below: usize) -> u32
    requires { below < FRAMES }
    ensures { (f : Frame) → from_bottom frames.now below ≡ Some f → result ≡ f.func }
{
    frames.region().load(FRAME_BYTES * below + FUNC, 4) as u32
}

// The call of the script by which a native call is answered.
fn accepted(script: &Script, entry: u32) -> OpenCall
    ensures { result ≡ accepted_of script.now entry }
{
    let signature = match script.call.as_slice().get(entry as usize) {
        Some(call) => Some(call.signature),
        None => None,
    };
    OpenCall::Accepted { entry, signature }
}

// The native call that the host accepted above a frame, where one is under way.
fn answered(script: &Script, entry: u32) -> Option<OpenCall>
    ensures { (f : Frame) → f.entry ≡ entry → result ≡ under_way script.now (saved_of f).call }
{
    if entry == NO_ENTRY {
        None
    } else {
        Some(accepted(script, entry))
    }
}

// The native call that is under way above a frame.
fn under_way(script: &Script, asked: Option<AskedCall>, entry: u32) -> Option<OpenCall>
    ensures { (f : Frame) → f.entry ≡ entry → result ≡ under_way script.now (saved_with asked f).call }
{
    match asked {
        Some(asked) => Some(OpenCall::Asked(asked.place)),
        None => answered(script, entry),
    }
}

// The native call that is asked for above a frame: none but above the top one.
fn asked_above(asked: Option<AskedCall>, above: usize) -> Option<AskedCall>
    ensures top { above ≡ 0 → result ≡ asked }
    ensures lower { 0 < above → result ≡ None }
{
    if above == 0 { asked } else { None }
}

// The function of a frame, which has so many frames below it.
fn opened<const W: usize>(
    runner: &Runner<W>,
    notes: &Notes,
    frames: &FrameStack,
    below: usize,
) -> OpenFunction
    requires width { IsWidth W }
    requires runs { RunsImage W runner.now }
    requires statics { length notes.now.statics < 2 ^ 32 }
    requires frame { below < FRAMES }
    ensures { (f : Frame) → from_bottom frames.now below ≡ Some f → result ≡ open_of notes.now (ranges runner.now.mem) (saved_of f) }
{
    let function = function_of(frames, below);
    OpenFunction {
        function: u64::from(function % NOTIFIED),
        notified: NOTIFIED <= function,
        back: held(runner, notes, saved_ip(frames, below)),
    }
}

// Appends the line of a CALL, if it was done while so many functions of the host were open.
fn append_back_in<const W: usize>(
    alloc: Global,
    notes: &Notes,
    runner: &Runner<W>,
    call: InnerCall,
    depth: usize,
    out: &mut Vec<u8>,
) -> Result<(), NoMemory>
    requires width { IsWidth W }
    requires runs { RunsImage W runner.now }
    requires statics { length notes.now.statics < 2 ^ 32 }
    ensures there { nat_eq call.entered depth ≡ true → OnOk result
        (out.new.items ≡ out.old.items ++ back_line notes.now (held notes.now (ranges runner.now.mem) call.back)) }
    ensures elsewhere { nat_eq call.entered depth ≡ false → out.new ≡ out.old }
{
    if call.entered == depth {
        return append_back(alloc, notes, held(runner, notes, call.back), out);
    }
    Ok(())
}

// Appends the lines of the CALLs that were done while so many functions of the host were open, the last one first.
fn append_backs<const W: usize>(
    alloc: Global,
    notes: &Notes,
    runner: &Runner<W>,
    calls: &[InnerCall],
    depth: usize,
    out: &mut Vec<u8>,
) -> Result<(), NoMemory>
    requires width { IsWidth W }
    requires runs { RunsImage W runner.now }
    requires statics { length notes.now.statics < 2 ^ 32 }
    ensures { OnOk result (out.new.items ≡ out.old.items ++ back_lines notes.now (ranges runner.now.mem) calls.now depth) }
{
    let count = calls.len();
    for above in 0..count {
        let call = calls[count - 1 - above];
        append_back_in(alloc, notes, runner, call, depth, out)?;
    }
    Ok(())
}

/// Appends the lines of what the firmware entered and the image called and what hasn't returned, the last one first.
///
/// # Errors
///
/// There is no memory for the text.
pub(crate) fn append_opened<const W: usize>(
    alloc: Global,
    notes: &Notes,
    script: &Script,
    runner: &Runner<W>,
    calls: &[InnerCall],
    out: &mut Vec<u8>,
) -> Result<(), NoMemory>
    requires width { IsWidth W }
    requires runs { RunsImage W runner.now }
    requires statics { length notes.now.statics < 2 ^ 32 }
    ensures { OnOk result ((world : World) (s : RunState) → IsRunner W world runner.now s
        → out.new.items ≡ out.old.items ++ opened_lines notes.now script.now calls.now s) }
{
    let (asked, frames) = runner.frames();
    let depth = frames.depth();
    for above in 0..depth {
        let below = depth - 1 - above;
        let call = under_way(script, asked_above(asked, above), entry_of(frames, below));
        append_open_call(alloc, notes, call, out)?;
        append_backs(alloc, notes, runner, calls, depth - above, out)?;
        append_open_function(alloc, notes, &opened(runner, notes, frames, below), out)?;
    }
    Ok(())
}

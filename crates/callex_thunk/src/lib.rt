//! The arguments of a native call: out of the stack of a machine, into the top frame of the host. It also says what a
//! frame of the region is as a frame of the host in a run's state. No call takes memory. The crate stands on
//! `host_model`, whose words its contracts cite, on `object_memory` and on `frame_stack`.
//!
//! Promises:
//!
//! - `gather`: the numbers of the argument slots, which lie from R0 on, stand in the first slots of the top frame, and
//!   nothing else of the frames changes (`copied`). `Stack` comes exactly where a slot isn't mapped (`stack`), and then
//!   the frames are as they were (`same`). It reads each slot twice, once before the first is written. It needs a frame
//!   and a signature of at most 16 parameters.
//! - `slot_bytes`: how many bytes a slot of a kind takes at a width (`bytes`): 4 or 8 (`access`, `most`).
//! - `NO_ENTRY`: the entry in a frame above which no call is under way that the script answers.
#![tactic(auto)]

mod slots;

ghost use Rattle.std.specs.Prelude.{◌≡◌, ◌<◌, ◌≤◌, ◌↔◌, length, Err, None, OnOk, OnErr, IsSomeAnd};
ghost use Rattle.ebc_width.specs.Width.{IsWidth};
ghost use Rattle.host_model.specs.Readings.{slots_from};
ghost use Rattle.callex_thunk.specs.Slots.{memory_state, with_arguments};

pub use crate::slots::slot_bytes;
use crate::slots::{are_mapped, copy_slots};
use frame_stack::FrameStack;
use note_types::Signature;
use object_memory::ObjMem;

/// The entry of a frame above which no call is under way that the script answers: a script has fewer calls.
pub const NO_ENTRY: u32 = 0xFFFF_FFFF;

/// Why no argument is taken.
#[derive(Clone, Copy, PartialEq, Eq, Debug)]
pub enum ThunkFault {
    /// The slot of an argument isn't mapped.
    Stack,
}

/// Copies the argument slots of a call by a signature of at most 16 parameters into the top frame, which has to be
/// there. They lie from `r0` on, the first one lowest.
///
/// `Stack` comes exactly where a slot isn't mapped, and then nothing changes.
pub fn gather<const W: usize>(
    mem: &ObjMem<W>,
    r0: u64,
    signature: &Signature,
    frames: &mut FrameStack,
) -> Result<(), ThunkFault>
    requires width { IsWidth W }
    requires frame { 0 < length frames.old }
    requires few { length signature.now.params ≤ 16 }
    ensures copied { OnOk result (IsSomeAnd (slots_from W (memory_state mem.now) r0 signature.now.params)
        (λ numbers. frames.new ≡ with_arguments numbers frames.old)) }
    ensures stack { (result ≡ Err ThunkFault.Stack) ↔ (slots_from W (memory_state mem.now) r0 signature.now.params ≡ None) }
    ensures same { OnErr result (frames.new ≡ frames.old) }
{
    let params = signature.params.as_slice();
    if !are_mapped(mem, r0, params) {
        return Err(ThunkFault::Stack);
    }
    copy_slots(mem, r0, params, frames);
    Ok(())
}

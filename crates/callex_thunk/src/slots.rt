//! The slots of a native call's arguments.

ghost use Rattle.std.specs.Prelude.{◌≡◌, ◌<◌, ◌≤◌, length, is_some, IsSome, IsSomeAnd};
ghost use Rattle.ebc_width.specs.Width.{IsWidth};
ghost use Rattle.ebc_width.specs.Bytes.{IsAccess};
ghost use Rattle.host_model.specs.Placements.{slot_bytes};
ghost use Rattle.host_model.specs.Readings.{slots_from};
ghost use Rattle.callex_thunk.specs.Slots.{memory_state, with_arguments};

use ebc_width::cut;
use frame_stack::FrameStack;
use note_types::{SlotKind, WantParam};
use object_memory::ObjMem;

/// How many bytes a stack slot takes.
pub fn slot_bytes<const W: usize>(kind: SlotKind) -> usize
    requires { IsWidth W }
    ensures bytes { result ≡ slot_bytes W kind }
    ensures access { IsAccess result }
    ensures most { result ≤ 8 }
{
    match kind {
        SlotKind::N => W,
        SlotKind::Q => 8,
        SlotKind::D => 4,
    }
}

// Whether each slot is mapped, the first one at an address.
pub(crate) fn are_mapped<const W: usize>(mem: &ObjMem<W>, first: u64, params: &[WantParam]) -> bool
    requires { IsWidth W }
    ensures { result ≡ is_some (slots_from W (memory_state mem.now) first params.now) }
{
    let mut addr = first;
    for param in params {
        let bytes = slot_bytes::<W>(param.kind);
        if !mem.holds(cut::<W>(addr), bytes) {
            return false;
        }
        addr = addr.wrapping_add(bytes as u64);
    }
    true
}

// Copies the slots, which are mapped, into the top frame.
pub(crate) fn copy_slots<const W: usize>(
    mem: &ObjMem<W>,
    first: u64,
    params: &[WantParam],
    frames: &mut FrameStack,
)
    requires width { IsWidth W }
    requires frame { 0 < length frames.old }
    requires few { length params.now ≤ 16 }
    requires mapped { IsSome (slots_from W (memory_state mem.now) first params.now) }
    ensures { IsSomeAnd (slots_from W (memory_state mem.now) first params.now) (λ numbers. frames.new ≡ with_arguments numbers frames.old) }
{
    // The region tells that each frame has 16 slots.
    let _ = frames.region();
    let mut addr = first;
    for (k, param) in params.iter().enumerate() {
        let bytes = slot_bytes::<W>(param.kind);
        let Some(number) = mem.load(cut::<W>(addr), bytes) else {
            unreachable!();
        };
        frames.set_slot(k, number);
        addr = addr.wrapping_add(bytes as u64);
    }
}

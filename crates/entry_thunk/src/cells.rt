//! The cells below R0 of a function that is entered: a return cell, and the arguments above it.

ghost use Rattle.std.specs.Prelude.{◌≡◌, ◌≤◌, true, length, Some};
ghost use Rattle.ebc_width.specs.Width.{IsWidth};
ghost use Rattle.ebc_width.specs.Bytes.{IsAccess};
ghost use Rattle.ebc_width.specs.Ranges.{holds};
ghost use Rattle.object_memory.specs.Memory.{ranges};
ghost use Rattle.note_types.specs.Concrete.{Concrete, stored};
ghost use Rattle.ebc_machine.specs.States.{KeepsObjects};
ghost use Rattle.host_model.specs.Placements.{params_bytes};
ghost use Rattle.host_model.specs.HostSteps.{with_slots};
ghost use Rattle.entry_thunk.specs.Cells.{params_of, with_memory, with_cells, slots_mapped, cells_mapped};

use callex_thunk::slot_bytes;
use ebc_width::cut;
use note_types::SlotKind;
use object_memory::ObjMem;

// How many bytes the arguments take.
pub(crate) fn params_bytes<const W: usize>(kinds: &[SlotKind]) -> u64
    requires width { IsWidth W }
    requires few { length kinds.now ≤ 16 }
    ensures bytes { result ≡ params_bytes W (params_of kinds.now) }
    ensures most { result ≤ 128 }
{
    let mut bytes = 0;
    for kind in kinds {
        bytes += slot_bytes::<W>(*kind) as u64;
    }
    bytes
}

// Whether slots of these kinds are mapped, the first one at an address.
fn slots_mapped<const W: usize>(mem: &ObjMem<W>, first: u64, kinds: &[SlotKind]) -> bool
    requires { IsWidth W }
    ensures { result ≡ slots_mapped W (ranges mem.now) first kinds.now }
{
    let mut addr = first;
    for kind in kinds {
        let bytes = slot_bytes::<W>(*kind);
        if !mem.holds(cut::<W>(addr), bytes) {
            return false;
        }
        addr = addr.wrapping_add(bytes as u64);
    }
    true
}

// Whether a return cell at an address and slots above it are mapped.
pub(crate) fn cells_mapped<const W: usize>(mem: &ObjMem<W>, top: u64, kinds: &[SlotKind]) -> bool
    requires { IsWidth W }
    ensures { result ≡ cells_mapped W (ranges mem.now) top kinds.now }
{
    mem.holds(cut::<W>(top), 8)
        && mem.holds(cut::<W>(top.wrapping_add(8)), 8)
        && slots_mapped(mem, top.wrapping_add(16), kinds)
}

// Stores the low `count` bytes of a number, which one object holds.
fn store<const W: usize>(mem: &mut ObjMem<W>, addr: u64, count: usize, value: u64)
    requires access { IsAccess count }
    requires held { holds (ranges mem.old) addr count ≡ true }
    ensures stored { (s : Concrete) → stored (with_memory s mem.old) addr count value ≡ Some (with_memory s mem.new) }
    ensures objects { KeepsObjects mem.old mem.new }
{
    let _ = mem.store(addr, count, value);
}

// Stores arguments in slots of these kinds, which are mapped, the first one at an address.
fn store_slots<const W: usize>(mem: &mut ObjMem<W>, first: u64, kinds: &[SlotKind], args: &[u64])
    requires width { IsWidth W }
    requires each { length kinds.now ≡ length args.now }
    requires mapped { slots_mapped W (ranges mem.old) first kinds.now ≡ true }
    ensures stored { (s : Concrete) → with_slots W first (params_of kinds.now) args.now (with_memory s mem.old) ≡
        Some (with_memory s mem.new) }
    ensures objects { KeepsObjects mem.old mem.new }
{
    let mut addr = first;
    for (k, kind) in kinds.iter().enumerate() {
        let bytes = slot_bytes::<W>(*kind);
        store(mem, cut::<W>(addr), bytes, args[k]);
        addr = addr.wrapping_add(bytes as u64);
    }
}

// Stores a return cell with the gate's address, and the arguments above it, where they are mapped.
pub(crate) fn store_cells<const W: usize>(
    mem: &mut ObjMem<W>,
    top: u64,
    gate: u64,
    kinds: &[SlotKind],
    args: &[u64],
)
    requires width { IsWidth W }
    requires each { length kinds.now ≡ length args.now }
    requires mapped { cells_mapped W (ranges mem.old) top kinds.now ≡ true }
    ensures stored { (s : Concrete) → s.gate ≡ gate →
        with_cells W top (params_of kinds.now) args.now (with_memory s mem.old) ≡ Some (with_memory s mem.new) }
    ensures objects { KeepsObjects mem.old mem.new }
{
    store(mem, cut::<W>(top), 8, gate);
    store(mem, cut::<W>(top.wrapping_add(8)), 8, 0);
    store_slots(mem, top.wrapping_add(16), kinds, args);
}

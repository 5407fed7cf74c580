//! Thunk cells that the host serves (docs/HOST.md, "Steps", on thunks).
ghost use Rattle.std.specs.Prelude.{◌≡◌, ℕ, ◌+◌, ◌-◌, ◌<◌, ◌^◌, length, min, Some, IfSome, nat_eq, ◌&&◌};
ghost use Rattle.std.specs.List.{position};
ghost use Rattle.ebc_width.specs.Width.{IsWidth};
ghost use Rattle.note_types.specs.Concrete.{Concrete, stored};
ghost use Rattle.note_types.specs.declared.notes.FnNote.{FnNote};
ghost use Rattle.ebc_machine.specs.States.{KeepsObjects};
ghost use Rattle.host_model.specs.HostPlans.{Names};
ghost use Rattle.host_model.specs.HostSteps.{entered_at, thunk_place, thunk_view};
ghost use Rattle.host_model.specs.Placements.{Placement, thunk_at};
ghost use Rattle.host_model.specs.World.{World};
ghost use Rattle.callex_thunk.specs.Slots.{memory_state};
ghost use Rattle.entry_thunk.specs.Cells.{with_memory};
ghost use Rattle.note_types.specs.declared.script.Script.{Script};
ghost use Rattle.native_host.specs.Hosts.{IsServing};
ghost use Rattle.native_host.specs.Kept.{IsOf, placement_of};
ghost use Rattle.native_host.specs.Steps.{OnAccepted, OnEnd, thunk_step};

use crate::host::Host;
use crate::step::HostStep;
use ebc_width::extend;
use note_types::{Exception, FnNote, Functions, Notes, Reason};
use object_memory::ObjMem;

// Which of the functions is marked as entered by the firmware and begins at a place. Functions begin at places of their own,
// so the others at the place are looked through only where the notes have been refused.
fn entered_position(functions: &Functions, place: u64) -> Option<usize>
    ensures position { result ≡ position (λ (f : FnNote). nat_eq f.place place && f.enter) functions.now }
    ensures within { IfSome result (λ k. k < length functions.now) }
{
    let first = functions.first_at(i128::from(place))?;
    let all = functions.as_slice();
    if all[first].enter {
        return Some(first);
    }
    all.iter().position(|function| u64::from(function.place) == place && function.enter)
}

// The function that is marked as entered by the firmware and begins at a place.
#[tactic(auto, unfolding(host_model::specs::HostSteps::entered_at))]
fn entered_at(notes: &Notes, place: u64) -> Option<u32>
    requires { length notes.now.function < 2 ^ 32 }
    ensures { result ≡ entered_at notes.now place }
{
    let number = entered_position(&notes.function, place)?;
    Some(number as u32)
}

// The place that the offset of a thunk cell at an address names, in an image that lies at a base.
fn thunk_place(image: u64, addr: u64, offset: u64) -> u64
    requires { image < 2 ^ 63 }
    ensures { (P : Placement) → P.image ≡ image → result ≡ thunk_place P addr offset }
{
    extend::<4>(offset)
        .wrapping_add(addr)
        .wrapping_add(4)
        .wrapping_sub(image)
}

impl<const W: usize> Host<W> {
    /// Serves BREAK 5: the first `W` bytes of the thunk cell at an address get the address of the thunk of the function that
    /// the cell names, and one thunk more is served. The host is one of these notes.
    ///
    /// The run ends as raised `MemoryFault` exactly where the eight bytes of the cell aren't mapped in one object, and else
    /// as mismatch `Thunk` exactly where they name no function that the firmware may enter. Nothing changes then.
    pub fn make_thunk(&mut self, notes: &Notes, mem: &mut ObjMem<W>, addr: u64) -> HostStep
        requires width { IsWidth W }
        requires notes { IsOf W notes.now self.old.places }
        ensures step { (world : World) → world.notes ≡ notes.now →
            result ≡ thunk_step addr (thunk_view world (placement_of self.old.places) (memory_state mem.old) addr) }
        ensures cell { (world : World) (s : Concrete) (f : ℕ) → world.notes ≡ notes.now →
            thunk_view world (placement_of self.old.places) (memory_state mem.old) addr ≡ Names f →
            stored (with_memory s mem.old) addr W (thunk_at notes.now (placement_of self.old.places) f) ≡ Some (with_memory s mem.new) }
        ensures objects { KeepsObjects mem.old mem.new }
        ensures memory { OnEnd result (mem.new ≡ mem.old) }
        ensures same { OnEnd result (self.new ≡ self.old) }
        ensures serving { (script : Script) → IsServing W notes.now script self.old → IsServing W notes.now script self.new }
        ensures served { self.new ≡ record self.old { thunks = self.new.thunks } }
        ensures count { OnAccepted result (self.new.thunks ≡ min (self.old.thunks + 1) (2 ^ 64 - 1)) }
    {
        if !mem.holds(addr, 8) {
            return HostStep::Raised(Exception::MemoryFault);
        }
        let Some(offset) = mem.load(addr, 4) else {
            unreachable!();
        };
        let place = thunk_place(self.places.image, addr, offset);
        let Some(function) = entered_at(notes, place) else {
            return HostStep::Mismatch(Reason::Thunk { address: addr });
        };
        let _ = mem.store(addr, W, self.places.thunk_at(function));
        self.thunks = self.thunks.saturating_add(1);
        HostStep::Accepted
    }
}

//! The call step of the modelled host (docs/HOST.md, "Steps", on the call step).
ghost use Rattle.std.specs.Prelude.{◌≡◌, ℕ, ◌+◌, ◌<◌, ◌≤◌, false, [], length, map, slice_get, IsSome, Some, vec_capacity};
ghost use Rattle.ebc_width.specs.Width.{IsWidth};
ghost use Rattle.object_memory.specs.Memory.{byte_at, ranges};
ghost use Rattle.frame_stack.specs.Frames.{with_mark};
ghost use Rattle.note_types.specs.Concrete.{Concrete, register};
ghost use Rattle.host_model.specs.HostPlans.{objects_made_by};
ghost use Rattle.host_model.specs.HostSteps.{performed, slots_asked, written_number};
ghost use Rattle.host_model.specs.Objects.{made_objects};
ghost use Rattle.host_model.specs.Progress.{Asked};
ghost use Rattle.host_model.specs.RunState.{RunState};
ghost use Rattle.host_model.specs.World.{World};
ghost use Rattle.callex_thunk.specs.Slots.{with_arguments};
ghost use Rattle.entry_thunk.specs.Cells.{with_memory};
ghost use Rattle.native_host.specs.Hosts.{HasRoom, IsMemoryOf, IsServing, host_world};
ghost use Rattle.native_host.specs.Kept.{placement_of};
ghost use Rattle.native_host.specs.Placing.{with_made};
ghost use Rattle.native_host.specs.Steps.{IsSettled, OnEnd, asked, asked_plan, entry_count, settled, step_of, taken};

use crate::asking::{call_event, refused};
use crate::host::Host;
use crate::items::item_at;
use crate::step::{HostStep, end_step};
use crate::values::tell;
use frame_stack::FrameStack;
use note_types::{Notes, Script};
use object_memory::ObjMem;

impl<const W: usize> Host<W> {
    /// What the host does where the call instruction at a place of the image, 0xFFFFFFFF outside it, asks for a native call of the
    /// target, an address; R0 is the address of the argument slots, the first one lowest. The call is accepted, or the run ends. Its
    /// event is added, for which there is room, before any check. Where the call is accepted its objects are placed and filled, it is
    /// the one that is under way above the top frame, and it goes on with `Host::next`; else nothing changes but the slots of the top
    /// frame.
    pub fn call(
        &mut self,
        notes: &Notes,
        script: &Script,
        mem: &mut ObjMem<W>,
        frames: &mut FrameStack,
        r0: u64,
        place: u32,
        target: u64,
    ) -> HostStep
        requires width { IsWidth W }
        requires serving { IsServing W notes.now script.now self.old }
        requires memory { IsMemoryOf W (host_world notes.now script.now self.old) (placement_of self.old.places) self.old.entries mem.old }
        requires room { HasRoom self.old 1 }
        requires frame { 0 < length frames.old }
        ensures step { (r : RunState) → register r.machine 0 ≡ r0 →
            Some result ≡ step_of (written_number W notes.now (placement_of self.old.places) self.old.made.items)
            (asked_plan W (host_world notes.now script.now self.old) (placement_of self.old.places)
            (asked self.old mem.old frames.old place target r) place target) }
        ensures after { (r : RunState) → register r.machine 0 ≡ r0 →
            performed W (host_world notes.now script.now self.old) (placement_of self.old.places)
            (asked self.old mem.old frames.old place target r)
            (asked_plan W (host_world notes.now script.now self.old) (placement_of self.old.places)
            (asked self.old mem.old frames.old place target r) place target) ≡
            taken false W (host_world notes.now script.now self.old) (placement_of self.old.places)
            (settled self.new mem.new frames.new place target result r) result }
        ensures settled { IsSettled result }
        ensures serving { IsServing W notes.now script.now self.new }
        ensures memory { IsMemoryOf W (host_world notes.now script.now self.new) (placement_of self.new.places) self.new.entries mem.new }
        ensures same { OnEnd result (mem.new ≡ mem.old) }
        ensures frames { (world : World) (r : RunState) → world.notes ≡ notes.now → register r.machine 0 ≡ r0 →
            r.machine.objects ≡ ranges mem.old → r.machine.byte ≡ byte_at mem.old →
            OnEnd result (frames.new ≡ with_arguments (slots_asked W world r (Asked place target)) frames.old) }
        ensures kept { self.new ≡ record self.old { made = self.new.made; entries = self.new.entries; trace = self.new.trace } }
        ensures len { length frames.new ≡ length frames.old }
        ensures room { (n : ℕ) → HasRoom self.old (n + 1) → HasRoom self.new n }
        ensures capacity { vec_capacity self.old.trace ≤ vec_capacity self.new.trace }
    {
        let asking = self.asking(notes, mem, frames, r0, place, target);
        tell(&mut self.trace, call_event(place, &asking));
        match refused(script, self.entries, place, &asking) {
            Some(ending) => end_step(&ending),
            None => {
                self.accept(notes, script, mem, frames);
                HostStep::Accepted
            }
        }
    }

    // Accepts the next call of the script, which there is: its objects are made, and it is under way above the top frame.
    fn accept(
        &mut self,
        notes: &Notes,
        script: &Script,
        mem: &mut ObjMem<W>,
        frames: &mut FrameStack,
    )
        requires width { IsWidth W }
        requires serving { IsServing W notes.now script.now self.old }
        requires memory { IsMemoryOf W (host_world notes.now script.now self.old) (placement_of self.old.places) self.old.entries mem.old }
        requires frame { 0 < length frames.old }
        requires left { IsSome (slice_get script.now.call self.old.entries) }
        ensures after { (s : Concrete) → with_made W notes.now (placement_of self.old.places)
            (made_objects notes.now script.now self.old.entries) (objects_made_by (slice_get script.now.call self.old.entries)) []
            (with_memory s mem.old) ≡ with_memory s mem.new }
        ensures mark { frames.new ≡ with_mark self.old.entries 0 (entry_count script.now self.old.entries) frames.old }
        ensures len { length frames.new ≡ length frames.old }
        ensures serving { IsServing W notes.now script.now self.new }
        ensures memory { IsMemoryOf W (host_world notes.now script.now self.new) (placement_of self.new.places) self.new.entries mem.new }
        ensures kept { self.new ≡ record self.old { made = self.new.made; entries = self.old.entries + 1 } }
    {
        let entry = self.entries;
        let Some(call) = item_at(&script.call, entry as usize) else {
            unreachable!();
        };
        self.make_objects(notes, mem, call.make.as_slice());
        frames.set_mark(entry, 0, call.args.len() as u32);
        self.entries = entry + 1;
    }
}

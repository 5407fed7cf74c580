//! A native call that goes on: its callbacks, and its reply (docs/HOST.md, "Steps").
ghost use Rattle.std.specs.Prelude.{◌≡◌, ℕ, ◌+◌, ◌<◌, ◌≤◌, ◌^◌, false, length, map, slice_get, slice_index, Some, vec_capacity};
ghost use Rattle.std.specs.List.{flat_map};
ghost use Rattle.ebc_width.specs.Width.{IsWidth};
ghost use Rattle.frame_stack.specs.declared.Frame.{Frame};
ghost use Rattle.object_memory.specs.Memory.{Memory, ranges};
ghost use Rattle.note_types.specs.declared.script.Script.{Script};
ghost use Rattle.host_model.specs.Objects.{made_objects};
ghost use Rattle.note_types.specs.Concrete.{Concrete};
ghost use Rattle.note_types.specs.Records.{IsNotes};
ghost use Rattle.note_types.specs.declared.value.Value.{Value};
ghost use Rattle.ebc_machine.specs.States.{KeepsObjects};
ghost use Rattle.host_model.specs.HostPlans.{View, enter_plan, function_params, host_plan, out_store, reply_plan};
ghost use Rattle.host_model.specs.HostSteps.{after_stores, call_seen, call_under_way, performed, written_number};
ghost use Rattle.host_model.specs.Placements.{frame_limit};
ghost use Rattle.host_model.specs.RunState.{RunState};
ghost use Rattle.callex_thunk.specs.HostFrames.{saved_of};
ghost use Rattle.entry_thunk.specs.Cells.{with_memory};
ghost use Rattle.native_host.specs.Hosts.{HasRoom, IsCalled, IsServing, host_world, shown, top_slots};
ghost use Rattle.native_host.specs.Kept.{IsOf, placement_of};
ghost use Rattle.native_host.specs.Steps.{OnEnd, OnEnter, step_of, taken};
ghost use Rattle.native_host.specs.Stores.{are_mapped, is_mapped};

use crate::cells::{cell_bytes, field_at};
use crate::entering::{can_enter, given_args};
use crate::host::Host;
use crate::items::item_at;
use crate::replying::{lent_at, reply_fits};
use crate::step::HostStep;
use crate::values::tell;
use callex_thunk::NO_ENTRY;
use frame_stack::{FRAMES, FrameStack};
use note_types::{
    Callback, Event, Notes, OutValue, Reason, Script, ScriptCall, Signature, WantParam, WriteValue,
};
use object_memory::ObjMem;

impl<const W: usize> Host<W> {
    /// What the host does where a native call that was accepted goes on: its next callback is to be entered by
    /// `entry_thunk::enter`, or after the last one it gets its reply, or the run ends. Where a function is to be entered the
    /// callback counts as entered, in the frame's mark; with the reply the cells are stored and no call is under way any
    /// more. In both cases the event is added, for which there is room; else nothing changes.
    pub fn next(
        &mut self,
        notes: &Notes,
        script: &Script,
        mem: &mut ObjMem<W>,
        frames: &mut FrameStack,
    ) -> HostStep
        requires width { IsWidth W }
        requires serving { IsServing W notes.now script.now self.old }
        requires room { HasRoom self.old 1 }
        requires called { IsCalled frames.old }
        ensures step { (r : RunState) (v : View) →
            call_seen W (host_world notes.now script.now self.old) (placement_of self.old.places)
            (shown self.old mem.old (map saved_of frames.old) r) (call_under_way (map saved_of frames.old)) ≡ Some v →
            Some result ≡ step_of (written_number W notes.now (placement_of self.old.places) self.old.made.items)
            (host_plan (host_world notes.now script.now self.old) (shown self.old mem.old (map saved_of frames.old) r).script v) }
        ensures after { (r : RunState) (v : View) →
            call_seen W (host_world notes.now script.now self.old) (placement_of self.old.places)
            (shown self.old mem.old (map saved_of frames.old) r) (call_under_way (map saved_of frames.old)) ≡ Some v →
            performed W (host_world notes.now script.now self.old) (placement_of self.old.places)
            (shown self.old mem.old (map saved_of frames.old) r)
            (host_plan (host_world notes.now script.now self.old) (shown self.old mem.old (map saved_of frames.old) r).script v) ≡
            taken false W (host_world notes.now script.now self.old) (placement_of self.old.places)
            (shown self.new mem.new (map saved_of frames.new) r) result }
        ensures entered { OnEnter result (λ func args.
            (func < length notes.now.function) × (length args ≡ length (function_params notes.now func))) }
        ensures serving { IsServing W notes.now script.now self.new }
        ensures objects { KeepsObjects mem.old mem.new }
        ensures same { OnEnd result (self.new ≡ self.old) }
        ensures memory { OnEnd result (mem.new ≡ mem.old) }
        ensures frames { OnEnd result (frames.new ≡ frames.old) }
        ensures kept { self.new ≡ record self.old { trace = self.new.trace } }
        ensures len { length frames.new ≡ length frames.old }
        ensures room { (n : ℕ) → HasRoom self.old (n + 1) → HasRoom self.new n }
        ensures capacity { vec_capacity self.old.trace ≤ vec_capacity self.new.trace }
        ensures depth { OnEnter result (λ func args. length frames.new < frame_limit) }
    {
        let (entry, callback, _) = frames.mark();
        let Some(call) = item_at(&script.call, entry as usize) else {
            return HostStep::ScriptEnd;
        };
        match item_at(&call.enter, callback as usize) {
            Some(next) => self.enter_next(notes, frames, entry, callback, next),
            None => self.reply(notes, mem, frames, entry, call),
        }
    }

    // The next callback of a native call.
    fn enter_next(
        &mut self,
        notes: &Notes,
        frames: &mut FrameStack,
        entry: u32,
        callback: u32,
        next: &Callback,
    ) -> HostStep
        requires read { IsNotes notes.now }
        requires room { HasRoom self.old 1 }
        requires called { IsCalled frames.old }
        requires entry { (f : Frame) → slice_get frames.old 0 ≡ Some f → entry ≡ f.entry }
        requires callback { (f : Frame) → slice_get frames.old 0 ≡ Some f → callback ≡ f.callback }
        requires few { callback + 1 < 2 ^ 32 }
        ensures step { (number : Value → ℕ) →
            Some result ≡ step_of number (enter_plan notes.now self.old.made.items entry callback (length frames.old) next.now) }
        ensures after { (script : Script) (r : RunState) (m : Memory) →
            self.old.made.items ≡ made_objects notes.now script self.old.entries →
            performed W (host_world notes.now script self.old) (placement_of self.old.places) (shown self.old m (map saved_of frames.old) r)
            (enter_plan notes.now self.old.made.items entry callback (length frames.old) next.now) ≡
            taken false W (host_world notes.now script self.old) (placement_of self.old.places)
            (shown self.new m (map saved_of frames.new) r) result }
        ensures entered { OnEnter result (λ func args.
            (func < length notes.now.function) × (length args ≡ length (function_params notes.now func))) }
        ensures same { OnEnd result (self.new ≡ self.old) }
        ensures frames { OnEnd result (frames.new ≡ frames.old) }
        ensures kept { self.new ≡ record self.old { trace = self.new.trace } }
        ensures len { length frames.new ≡ length frames.old }
        ensures room { (n : ℕ) → HasRoom self.old (n + 1) → HasRoom self.new n }
        ensures capacity { vec_capacity self.old.trace ≤ vec_capacity self.new.trace }
        ensures depth { OnEnter result (λ func args. length frames.new < frame_limit) }
    {
        if !can_enter(notes, self.made.as_slice(), next.function, &next.values) {
            return HostStep::Mismatch(Reason::Enter { entry, callback });
        }
        if frames.depth() >= FRAMES {
            return HostStep::Mismatch(Reason::Depth);
        }
        let (_, _, count) = frames.mark();
        frames.set_mark(entry, callback + 1, count);
        let func = next.function;
        let args = given_args(&next.values);
        tell(
            &mut self.trace,
            Event::Entered {
                func,
                args: args.copy(),
            },
        );
        HostStep::Enter { func, args }
    }

    // The reply of a native call.
    fn reply(
        &mut self,
        notes: &Notes,
        mem: &mut ObjMem<W>,
        frames: &mut FrameStack,
        entry: u32,
        call: &ScriptCall,
    ) -> HostStep
        requires width { IsWidth W }
        requires notes { IsOf W notes.now self.old.places }
        requires known { call.now.signature < length notes.now.signature }
        requires room { HasRoom self.old 1 }
        requires called { IsCalled frames.old }
        ensures step { Some result ≡ step_of (written_number W notes.now (placement_of self.old.places) self.old.made.items)
            (reply_plan notes.now self.old.made.items entry
            (are_mapped W notes.now (placement_of self.old.places) self.old.made.items (ranges mem.old) call.now.write) call.now) }
        ensures after { (script : Script) (r : RunState) → self.old.made.items ≡ made_objects notes.now script self.old.entries →
            performed W (host_world notes.now script self.old) (placement_of self.old.places)
            (shown self.old mem.old (map saved_of frames.old) r)
            (reply_plan notes.now self.old.made.items entry
            (are_mapped W notes.now (placement_of self.old.places) self.old.made.items (ranges mem.old) call.now.write) call.now) ≡
            taken false W (host_world notes.now script self.old) (placement_of self.old.places)
            (shown self.new mem.new (map saved_of frames.new) r) result }
        ensures entered { OnEnter result (λ func args.
            (func < length notes.now.function) × (length args ≡ length (function_params notes.now func))) }
        ensures objects { KeepsObjects mem.old mem.new }
        ensures same { OnEnd result (self.new ≡ self.old) }
        ensures memory { OnEnd result (mem.new ≡ mem.old) }
        ensures frames { OnEnd result (frames.new ≡ frames.old) }
        ensures kept { self.new ≡ record self.old { trace = self.new.trace } }
        ensures len { length frames.new ≡ length frames.old }
        ensures room { (n : ℕ) → HasRoom self.old (n + 1) → HasRoom self.new n }
        ensures capacity { vec_capacity self.old.trace ≤ vec_capacity self.new.trace }
        ensures depth { OnEnter result (λ func args. length frames.new < frame_limit) }
    {
        let Some(signature) = item_at(&notes.signature, call.signature as usize) else {
            unreachable!();
        };
        if !reply_fits(notes, self.made.as_slice(), signature, call) {
            return HostStep::Mismatch(Reason::Reply { entry });
        }
        if !self.are_mapped(notes, mem, call.write.as_slice()) {
            return HostStep::Mismatch(Reason::Reply { entry });
        }
        self.write_all(notes, mem, call.write.as_slice());
        self.write_outs(
            notes,
            mem,
            frames,
            signature.params.as_slice(),
            call.out.as_slice(),
        );
        frames.set_mark(NO_ENTRY, 0, 0);
        tell(
            &mut self.trace,
            Event::Replied {
                entry,
                value: call.result,
            },
        );
        HostStep::Reply(self.number_of(&call.result))
    }

    // Whether a cell of an object that is there is mapped.
    fn is_mapped(&self, notes: &Notes, mem: &ObjMem<W>, write: &WriteValue) -> bool
        requires width { IsWidth W }
        requires notes { IsOf W notes.now self.now.places }
        ensures { result ≡ is_mapped W notes.now (placement_of self.now.places) self.now.made.items (ranges mem.now) write.now }
    {
        // Nothing is mapped past 2^64.
        let _ = mem.holds(0, 1);
        let found = field_at(
            notes,
            self.made.as_slice(),
            write.object,
            write.instance,
            write.field,
        );
        let Some(field) = found else {
            return false;
        };
        match self.cell_address(notes, write.object, write.instance, field) {
            Some(at) => mem.holds(at, cell_bytes::<W>(&field.cell)),
            None => false,
        }
    }

    // Whether all of them are.
    fn are_mapped(&self, notes: &Notes, mem: &ObjMem<W>, writes: &[WriteValue]) -> bool
        requires width { IsWidth W }
        requires notes { IsOf W notes.now self.now.places }
        ensures { result ≡ are_mapped W notes.now (placement_of self.now.places) self.now.made.items (ranges mem.now) writes.now }
    {
        for write in writes {
            if !self.is_mapped(notes, mem, write) {
                return false;
            }
        }
        true
    }

    // Stores a value in the cell that an argument is the address of: nothing changes where it isn't one or isn't mapped.
    fn write_out(
        &self,
        notes: &Notes,
        mem: &mut ObjMem<W>,
        frames: &FrameStack,
        params: &[WantParam],
        out: &OutValue,
    )
        requires width { IsWidth W }
        requires notes { IsOf W notes.now self.now.places }
        requires frame { 0 < length frames.now }
        ensures after { (s : Concrete) → after_stores W notes.now (placement_of self.now.places) self.now.made.items (top_slots frames.now)
            (out_store params.now out.now) (with_memory s mem.old) ≡ with_memory s mem.new }
        ensures objects { KeepsObjects mem.old mem.new }
    {
        if let Some(cell) = lent_at(params, out.argument) {
            self.store_number(
                notes,
                mem,
                argument_slot(frames, out.argument),
                &cell,
                &out.value,
            );
        }
    }

    // Stores values in cells that arguments are the addresses of, one after the other.
    fn write_outs(
        &self,
        notes: &Notes,
        mem: &mut ObjMem<W>,
        frames: &FrameStack,
        params: &[WantParam],
        outs: &[OutValue],
    )
        requires width { IsWidth W }
        requires notes { IsOf W notes.now self.now.places }
        requires frame { 0 < length frames.now }
        ensures after { (s : Concrete) → after_stores W notes.now (placement_of self.now.places) self.now.made.items (top_slots frames.now)
            (flat_map (out_store params.now) outs.now) (with_memory s mem.old) ≡ with_memory s mem.new }
        ensures objects { KeepsObjects mem.old mem.new }
    {
        for out in outs {
            self.write_out(notes, mem, frames, params, out);
        }
    }
}

// The number in the slot of an argument of the native call that is under way above the top frame, and 0 where it has fewer.
fn argument_slot(frames: &FrameStack, number: u64) -> u64
    requires { 0 < length frames.now }
    ensures { result ≡ slice_index (top_slots frames.now) number }
{
    // The region tells that each frame has 16 slots.
    let _ = frames.region();
    let (_, _, count) = frames.mark();
    if u64::from(count) <= number {
        return 0;
    }
    if number >= 16 {
        return 0;
    }
    frames.slot(frames.depth() - 1, number as usize)
}

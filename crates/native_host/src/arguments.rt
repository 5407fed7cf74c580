//! The arguments of a native call, as it sees them (docs/HOST.md, "Readings").
ghost use Rattle.std.specs.Prelude.{◌≡◌, ℕ, ◌<◌, ◌≤◌, true, length, slice_get, nat_eq, if◌then◌else◌, Some, None};
ghost use Rattle.ebc_width.specs.Bytes.{little_endian};
ghost use Rattle.ebc_width.specs.Width.{IsWidth};
ghost use Rattle.frame_stack.specs.declared.Frame.{Frame};
ghost use Rattle.note_types.specs.Cells.{cell_size};
ghost use Rattle.note_types.specs.Concrete.{register};
ghost use Rattle.note_types.specs.Records.{IsNotes};
ghost use Rattle.object_memory.specs.Memory.{byte_at, ranges};
ghost use Rattle.callex_thunk.specs.Slots.{with_arguments};
ghost use Rattle.host_model.specs.Placements.{method_at};
ghost use Rattle.host_model.specs.HostSteps.{asking_at, objects_at, slots_asked};
ghost use Rattle.host_model.specs.World.{World};
ghost use Rattle.host_model.specs.Progress.{Asked};
ghost use Rattle.host_model.specs.Readings.{InoutCell, OutCell, argument_read, arguments_read, in_stack, reading_of, role_of, sort_of_cell};
ghost use Rattle.host_model.specs.RunState.{RunState};
ghost use Rattle.host_model.specs.ScriptValues.{given};
ghost use Rattle.native_host.specs.Askings.{asking_of};
ghost use Rattle.native_host.specs.Hosts.{HasStack};
ghost use Rattle.native_host.specs.Kept.{IsOf, placement_of};
ghost use Rattle.native_host.specs.Sorts.{sort_of};

use crate::asking::{Asking, site_of};
use crate::cells::cell_bytes;
use crate::host::Host;
use crate::items::item_at;
use crate::sort::{Sort, sort_of_cell};
use callex_thunk::{ThunkFault, gather};
use frame_stack::FrameStack;
use note_types::{Args, Cell, Notes, Seen, Value, Want, WantParam};
use object_memory::ObjMem;

// A value that isn't lent.
fn given(value: Value) -> Seen
    ensures { result ≡ given value }
{
    Seen { lent: false, value }
}

impl<const W: usize> Host<W> {
    // Whether a cell at an address lies in the stack.
    fn in_stack(&self, notes: &Notes, cell: &Cell, x: u64) -> bool
        requires width { IsWidth W }
        requires notes { IsOf W notes.now self.now.places }
        ensures { result ≡ in_stack W notes.now (placement_of self.now.places) cell.now x }
    {
        let size = cell_bytes::<W>(cell) as u64;
        let end = self.places.stack + self.places.stack_bytes;
        self.places.stack <= x && x < end && size <= end - x
    }

    // The reading of a number of a sort.
    fn read(&self, notes: &Notes, sort: Sort, x: u64) -> Value
        requires width { IsWidth W }
        requires notes { IsOf W notes.now self.now.places }
        ensures { result ≡ reading_of W notes.now (placement_of self.now.places) self.now.made.items (sort_of sort) x }
    {
        self.places.reading::<W>(self.made.as_slice(), sort, x)
    }

    // What the cell at an address holds that lies in the stack, as the cell's kind is read.
    fn content(&self, notes: &Notes, mem: &ObjMem<W>, cell: &Cell, x: u64) -> Value
        requires width { IsWidth W }
        requires notes { IsOf W notes.now self.now.places }
        requires stack { HasStack W notes.now (placement_of self.now.places) mem.now }
        requires within { in_stack W notes.now (placement_of self.now.places) cell.now x ≡ true }
        ensures { result ≡ reading_of W notes.now (placement_of self.now.places) self.now.made.items (sort_of_cell cell.now)
            (little_endian (byte_at mem.now) x (cell_size W cell.now)) }
    {
        let Some(number) = mem.load(x, cell_bytes::<W>(cell)) else {
            unreachable!();
        };
        self.read(notes, sort_of_cell(cell), number)
    }

    // An argument as the native call sees it.
    #[tactic(auto, unfolding(host_model::specs::Readings::argument_read))]
    fn argument(&self, notes: &Notes, mem: &ObjMem<W>, want: &Want, x: u64) -> Seen
        requires width { IsWidth W }
        requires notes { IsOf W notes.now self.now.places }
        requires stack { HasStack W notes.now (placement_of self.now.places) mem.now }
        ensures { result ≡ argument_read W notes.now (placement_of self.now.places) self.now.made.items (byte_at mem.now) (role_of want.now)
            x }
    {
        match *want {
            Want::Any => given(self.read(notes, Sort::Anything, x)),
            Want::Int { .. } => given(self.read(notes, Sort::Number, x)),
            Want::Size { n, c } => given(self.read(notes, Sort::Size { n, c }, x)),
            Want::Ptr => given(self.read(notes, Sort::Pointer, x)),
            Want::Handle => given(self.read(notes, Sort::Handle, x)),
            Want::Status => given(self.read(notes, Sort::Status, x)),
            Want::Entry => given(self.read(notes, Sort::Entry, x)),
            Want::Out(cell) => self.out_argument(notes, &cell, x),
            Want::Inout(cell) => self.inout_argument(notes, mem, &cell, x),
        }
    }

    // The address of a cell that the method writes.
    #[tactic(auto, unfolding(host_model::specs::Readings::argument_read))]
    fn out_argument(&self, notes: &Notes, cell: &Cell, x: u64) -> Seen
        requires width { IsWidth W }
        requires notes { IsOf W notes.now self.now.places }
        ensures { (byte : ℕ → ℕ) → result ≡
            argument_read W notes.now (placement_of self.now.places) self.now.made.items byte (OutCell cell.now) x }
    {
        if self.in_stack(notes, cell, x) {
            given(Value::Out)
        } else {
            given(Value::Wild(x))
        }
    }

    // The address of a cell that the method reads and may write.
    #[tactic(auto, unfolding(host_model::specs::Readings::argument_read))]
    fn inout_argument(&self, notes: &Notes, mem: &ObjMem<W>, cell: &Cell, x: u64) -> Seen
        requires width { IsWidth W }
        requires notes { IsOf W notes.now self.now.places }
        requires stack { HasStack W notes.now (placement_of self.now.places) mem.now }
        ensures { result ≡ argument_read W notes.now (placement_of self.now.places) self.now.made.items (byte_at mem.now)
            (InoutCell cell.now) x }
    {
        if self.in_stack(notes, cell, x) {
            Seen {
                lent: true,
                value: self.content(notes, mem, cell, x),
            }
        } else {
            given(Value::Wild(x))
        }
    }

    // The arguments, whose numbers the first slots of the top frame hold.
    fn arguments(
        &self,
        notes: &Notes,
        mem: &ObjMem<W>,
        frames: &FrameStack,
        params: &[WantParam],
    ) -> Args
        requires width { IsWidth W }
        requires notes { IsOf W notes.now self.now.places }
        requires stack { HasStack W notes.now (placement_of self.now.places) mem.now }
        requires frame { 0 < length frames.now }
        requires few { length params.now ≤ 16 }
        ensures { (f : Frame) → slice_get frames.now 0 ≡ Some f →
            result ≡ arguments_read W notes.now (placement_of self.now.places) self.now.made.items (byte_at mem.now) params.now f.slots }
    {
        // The region tells that each frame has 16 slots.
        let _ = frames.region();
        let below = frames.depth() - 1;
        let mut args = Args::new();
        for (k, param) in params.iter().enumerate() {
            let number = frames.slot(below, k);
            args.push(self.argument(notes, mem, &param.want, number));
        }
        args
    }

    // The target of a call, where it isn't the method.
    fn elsewhere(&self, target: u64, method: u32) -> Option<u64>
        ensures { result ≡ (if nat_eq target (method_at (placement_of self.now.places) method) then None else Some target) }
    {
        if target == self.places.method_at(method) {
            None
        } else {
            Some(target)
        }
    }

    /// What the call instruction at a place asks for, with its argument slots from `r0` on, which are copied into the top
    /// frame where all of them are mapped.
    pub(crate) fn asking(
        &self,
        notes: &Notes,
        mem: &ObjMem<W>,
        frames: &mut FrameStack,
        r0: u64,
        place: u32,
        target: u64,
    ) -> Asking
        requires width { IsWidth W }
        requires read { IsNotes notes.now }
        requires notes { IsOf W notes.now self.now.places }
        requires stack { HasStack W notes.now (placement_of self.now.places) mem.now }
        requires frame { 0 < length frames.old }
        ensures asks { (world : World) (r : RunState) → world.notes ≡ notes.now → register r.machine 0 ≡ r0 →
            r.machine.objects ≡ ranges mem.now → r.machine.byte ≡ byte_at mem.now → objects_at world r ≡ self.now.made.items →
            asking_of result ≡ asking_at W world (placement_of self.now.places) r place target }
        ensures slots { (world : World) (r : RunState) → world.notes ≡ notes.now → register r.machine 0 ≡ r0 →
            r.machine.objects ≡ ranges mem.now → r.machine.byte ≡ byte_at mem.now →
            frames.new ≡ with_arguments (slots_asked W world r (Asked place target)) frames.old }
        ensures len { length frames.new ≡ length frames.old }
    {
        let Some(number) = site_of(notes, place) else {
            return Asking::NoSite;
        };
        let Some(signature) = item_at(&notes.signature, number as usize) else {
            unreachable!();
        };
        match gather(mem, r0, signature, frames) {
            Ok(()) => Asking::Asks {
                signature: number,
                elsewhere: self.elsewhere(target, signature.method),
                args: self.arguments(notes, mem, frames, signature.params.as_slice()),
            },
            Err(ThunkFault::Stack) => Asking::Unmapped(number),
        }
    }
}

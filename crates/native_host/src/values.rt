//! Numbers of written values, and results of functions as the host reads them.
ghost use Rattle.std.specs.Prelude.{◌≡◌, ℕ, ◌+◌, ◌<◌, ◌≤◌, ◌∷◌, [], ◌++◌, length, slice_get, vec_capacity, vec_len};
ghost use Rattle.std.specs.Option.{option_map_or};
ghost use Rattle.ebc_width.specs.Width.{IsWidth, cut_at};
ghost use Rattle.note_types.specs.Concrete.{register};
ghost use Rattle.note_types.specs.declared.notes.FnNote.{FnNote};
ghost use Rattle.note_types.specs.declared.notes.Notes.{Notes};
ghost use Rattle.host_model.specs.declared.object.TypedObject.{TypedObject};
ghost use Rattle.host_model.specs.HostSteps.{result_of, written_number};
ghost use Rattle.host_model.specs.Placements.{instance_address};
ghost use Rattle.host_model.specs.Readings.{reading_of, sort_of_type};
ghost use Rattle.host_model.specs.RunState.{RunState};
ghost use Rattle.host_model.specs.Values.{word};
ghost use Rattle.host_model.specs.World.{World};
ghost use Rattle.note_types.specs.declared.script.Script.{Script};
ghost use Rattle.native_host.specs.Hosts.{HasRoom, IsHost, IsServing, Tells, result_sort};
ghost use Rattle.native_host.specs.Kept.{IsOf, instance_bytes, placement_of};
ghost use Rattle.native_host.specs.Sorts.{sort_of};

use crate::host::Host;
use crate::reading::{error_bit, pair_number};
use crate::sort::{Sort, sort_of_type};
use ebc_width::cut;
use note_types::{Event, Notes, Value};

// Adds an event after the others, for which there is room.
pub(crate) fn tell(trace: &mut Vec<Event>, event: Event)
    requires { vec_len trace.old < vec_capacity trace.old }
    ensures items { trace.new.items ≡ trace.old.items ++ event ∷ [] }
    ensures capacity { vec_capacity trace.old ≤ vec_capacity trace.new }
{
    let Ok(()) = trace.push(event) else {
        unreachable!();
    };
}

// What the result of the function of that number is read as.
fn result_sort(notes: &Notes, func: u32) -> Sort
    ensures { sort_of result ≡ result_sort notes.now func }
{
    match notes.function.as_slice().get(func as usize) {
        Some(function) => sort_of_type(&function.result),
        None => Sort::Anything,
    }
}

impl<const W: usize> Host<W> {
    // The bytes of an instance of a typed object, none where it isn't made.
    pub(crate) fn size_of(&self, object: u64) -> u64
        ensures { result ≡ option_map_or (λ (o : TypedObject). instance_bytes self.now.places o.shape)
            (slice_get self.now.made.items object) 0 }
    {
        match self.made.as_slice().get(object as usize) {
            Some(object) => self.places.instance_bytes(object.shape),
            None => 0,
        }
    }

    // The address of an instance of a typed object, modulo 2^64.
    fn instance_address(&self, object: u64, instance: u64) -> u64
        ensures { (w : ℕ) (notes : Notes) → IsOf w notes self.now.places →
            result ≡ word (instance_address w notes (placement_of self.now.places) self.now.made.items object instance) }
    {
        let size = self.size_of(object);
        let base = self.places.object_base(object);
        base.wrapping_add(instance.wrapping_mul(size))
    }

    /// The number of a value that a script writes (docs/HOST.md, "Values"), 0 for `any`, where it says nothing.
    pub fn number_of(&self, value: &Value) -> u64
        requires { IsWidth W }
        ensures { (notes : Notes) → IsOf W notes self.now.places →
            result ≡ written_number W notes (placement_of self.now.places) self.now.made.items value.now }
    {
        match *value {
            Value::Int(n) => n,
            Value::Size { n, c } => pair_number::<W>(n, c),
            Value::Ptr { object, instance } => self.instance_address(object, instance),
            Value::Null => 0,
            Value::Any => 0,
            Value::Out => 0,
            Value::StatusOk(code) => u64::from(code),
            Value::StatusError(code) => error_bit::<W>() + u64::from(code),
            Value::Handle(handle) => self.places.handle_at(handle),
            Value::Entry(function) => self.places.thunk_at(function),
            Value::Method(method) => self.places.method_at(method),
            Value::Wild(x) => x,
        }
    }

    /// The result of a function of the notes, by its number, as it is read from R7, of which the low `W` bytes count. The
    /// host is one of these notes.
    pub fn result_of(&self, notes: &Notes, func: u32, r7: u64) -> Value
        requires width { IsWidth W }
        requires notes { IsOf W notes.now self.now.places }
        ensures read { result ≡ reading_of W notes.now (placement_of self.now.places) self.now.made.items (result_sort notes.now func)
            (cut_at W r7) }

        // That is what the host sees in each state of its run in which R7 holds the number.
        ensures run { (world : World) (r : RunState) → world.notes ≡ notes.now → IsHost W world self.now → Tells self.now r →
            register r.machine 7 ≡ r7 → result ≡ result_of W world (placement_of self.now.places) r func }
    {
        let sort = result_sort(notes, func);
        self.places
            .reading::<W>(self.made.as_slice(), sort, cut::<W>(r7))
    }

    /// The same value as that of `result_of`, and the event that the function returned it. There is room for the event.
    pub fn returned(&mut self, notes: &Notes, func: u32, r7: u64) -> Value
        requires width { IsWidth W }
        requires notes { IsOf W notes.now self.old.places }
        requires room { HasRoom self.old 1 }
        ensures read { result ≡ reading_of W notes.now (placement_of self.old.places) self.old.made.items (result_sort notes.now func)
            (cut_at W r7) }
        ensures run { (world : World) (r : RunState) → world.notes ≡ notes.now → IsHost W world self.old → Tells self.old r →
            register r.machine 7 ≡ r7 → result ≡ result_of W world (placement_of self.old.places) r func }
        ensures event { self.new.trace.items ≡ self.old.trace.items ++ Event.Returned func result ∷ [] }
        ensures same { self.new ≡ record self.old { trace = self.new.trace } }
        ensures serving { (script : Script) → IsServing W notes.now script self.old → IsServing W notes.now script self.new }
        ensures room { (n : ℕ) → HasRoom self.old (n + 1) → HasRoom self.new n }
        ensures capacity { vec_capacity self.old.trace ≤ vec_capacity self.new.trace }
    {
        let value = self.result_of(notes, func, r7);
        tell(&mut self.trace, Event::Returned { func, value });
        value
    }

    /// The same value as that of `result_of`, and the event that the function, which was entered as a notification, returned
    /// it. There is room for the event.
    pub fn resumed(&mut self, notes: &Notes, func: u32, r7: u64) -> Value
        requires width { IsWidth W }
        requires notes { IsOf W notes.now self.old.places }
        requires room { HasRoom self.old 1 }
        ensures read { result ≡ reading_of W notes.now (placement_of self.old.places) self.old.made.items (result_sort notes.now func)
            (cut_at W r7) }
        ensures run { (world : World) (r : RunState) → world.notes ≡ notes.now → IsHost W world self.old → Tells self.old r →
            register r.machine 7 ≡ r7 → result ≡ result_of W world (placement_of self.old.places) r func }
        ensures event { self.new.trace.items ≡ self.old.trace.items ++ Event.Resumed func result ∷ [] }
        ensures same { self.new ≡ record self.old { trace = self.new.trace } }
        ensures serving { (script : Script) → IsServing W notes.now script self.old → IsServing W notes.now script self.new }
        ensures room { (n : ℕ) → HasRoom self.old (n + 1) → HasRoom self.new n }
        ensures capacity { vec_capacity self.old.trace ≤ vec_capacity self.new.trace }
    {
        let value = self.result_of(notes, func, r7);
        tell(&mut self.trace, Event::Resumed { func, value });
        value
    }
}

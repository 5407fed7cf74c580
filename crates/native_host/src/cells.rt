//! Cells of typed objects: where they lie, and what is stored in them (docs/HOST.md, "Steps", on the reply).
ghost use Rattle.std.specs.Prelude.{◌≡◌, ℕ, ◌≤◌, ◌^◌, List, Some, option_copied, IfSome, IfNone};
ghost use Rattle.std.specs.List.{flat_map};
ghost use Rattle.ebc_width.specs.Bytes.{IsAccess};
ghost use Rattle.ebc_width.specs.Width.{IsWidth};
ghost use Rattle.note_types.specs.Cells.{cell_size};
ghost use Rattle.note_types.specs.Concrete.{Concrete};
ghost use Rattle.note_types.specs.Shapes.{start_at};
ghost use Rattle.ebc_machine.specs.States.{KeepsObjects};
ghost use Rattle.host_model.specs.HostPlans.{field_at, field_of, write_store};
ghost use Rattle.host_model.specs.HostSteps.{after_stores, cell_address};
ghost use Rattle.entry_thunk.specs.Cells.{with_memory};
ghost use Rattle.native_host.specs.Kept.{IsOf, placement_of};
ghost use Rattle.native_host.specs.Stores.{after_number};

use crate::host::Host;
use crate::reading::pair_at;
use host_model::TypedObject;
use note_types::{Cell, Field, Notes, Value, WriteValue};
use object_memory::ObjMem;

/// How many bytes a cell takes.
pub(crate) fn cell_bytes<const W: usize>(cell: &Cell) -> usize
    requires { IsWidth W }
    ensures bytes { result ≡ cell_size W cell.now }
    ensures access { IsAccess result }
{
    match cell {
        Cell::I8 => 1,
        Cell::I16 => 2,
        Cell::I32 => 4,
        Cell::I64 | Cell::P64 { .. } => 8,
        Cell::N | Cell::Stat | Cell::Handle | Cell::Entry | Cell::Ptr { .. } | Cell::Method(_) => W,
    }
}

/// The field of a shape of the notes.
pub(crate) fn field_of(notes: &Notes, shape: u32, field: u32) -> Option<&Field>
    ensures { option_copied result ≡ field_of notes.now shape field }
{
    match notes.shape.as_slice().get(shape as usize) {
        Some(shape) => shape.fields.as_slice().get(field as usize),
        None => None,
    }
}

/// The field that a cell of a typed object is, where the object, the instance and the field are there.
#[tactic(auto, unfolding(host_model::specs::HostPlans::field_at))]
pub(crate) fn field_at<'a>(
    notes: &'a Notes,
    made: &[TypedObject],
    object: u64,
    instance: u64,
    field: u32,
) -> Option<&'a Field>
    ensures { option_copied result ≡ field_at notes.now made.now object instance field }
{
    let object = made.get(object as usize)?;
    if instance < object.count {
        field_of(notes, object.shape, field)
    } else {
        None
    }
}

impl<const W: usize> Host<W> {
    // The address of a field of an instance of a typed object, where it is below 2^64.
    pub(crate) fn cell_address(
        &self,
        notes: &Notes,
        object: u64,
        instance: u64,
        field: &Field,
    ) -> Option<u64>
        requires width { IsWidth W }
        requires notes { IsOf W notes.now self.now.places }
        ensures at { IfSome result (λ x.
            x ≡ cell_address W notes.now (placement_of self.now.places) self.now.made.items object instance field.now) }
        ensures past { IfNone result (2 ^ 64 ≤
            cell_address W notes.now (placement_of self.now.places) self.now.made.items object instance field.now) }
    {
        let offset = instance.checked_mul(self.size_of(object))?;
        let start = self.places.object_base(object).checked_add(offset)?;
        let at = start.checked_add(pair_at::<W>(field.n, field.c))?;
        Some(at)
    }

    /// Stores the number of a value in a cell at an address: nothing changes where it isn't mapped.
    pub(crate) fn store_number(
        &self,
        notes: &Notes,
        mem: &mut ObjMem<W>,
        at: u64,
        cell: &Cell,
        value: &Value,
    )
        requires width { IsWidth W }
        requires notes { IsOf W notes.now self.now.places }
        ensures after { (s : Concrete) → after_number W notes.now (placement_of self.now.places) self.now.made.items (with_memory s mem.old)
            at cell.now value.now ≡ with_memory s mem.new }
        ensures objects { KeepsObjects mem.old mem.new }
    {
        let _ = mem.store(at, cell_bytes::<W>(cell), self.number_of(value));
    }

    /// Stores a value in a field of an instance of a typed object: nothing changes where the cell isn't there or isn't
    /// mapped.
    pub(crate) fn write(&self, notes: &Notes, mem: &mut ObjMem<W>, write: &WriteValue)
        requires width { IsWidth W }
        requires notes { IsOf W notes.now self.now.places }
        ensures after { (s : Concrete) (slots : List ℕ) →
            after_stores W notes.now (placement_of self.now.places) self.now.made.items slots
            (write_store notes.now self.now.made.items write.now) (with_memory s mem.old) ≡ with_memory s mem.new }
        ensures objects { KeepsObjects mem.old mem.new }
    {
        let found = field_at(
            notes,
            self.made.as_slice(),
            write.object,
            write.instance,
            write.field,
        );
        if let Some(field) = found {
            self.write_field(notes, mem, write, field);
        }
    }

    // Stores a value in this field, which is that of the cell.
    fn write_field(&self, notes: &Notes, mem: &mut ObjMem<W>, write: &WriteValue, field: &Field)
        requires width { IsWidth W }
        requires notes { IsOf W notes.now self.now.places }
        requires field { field_at notes.now self.now.made.items write.now.object write.now.instance write.now.field ≡ Some field.now }
        ensures after { (s : Concrete) (slots : List ℕ) →
            after_stores W notes.now (placement_of self.now.places) self.now.made.items slots
            (write_store notes.now self.now.made.items write.now) (with_memory s mem.old) ≡ with_memory s mem.new }
        ensures objects { KeepsObjects mem.old mem.new }
    {
        // Nothing is mapped past 2^64.
        let _ = mem.holds(0, 1);
        if let Some(at) = self.cell_address(notes, write.object, write.instance, field) {
            self.store_number(notes, mem, at, &field.cell, &write.value);
        }
    }

    /// Stores values in cells of typed objects, one after the other.
    pub(crate) fn write_all(&self, notes: &Notes, mem: &mut ObjMem<W>, writes: &[WriteValue])
        requires width { IsWidth W }
        requires notes { IsOf W notes.now self.now.places }
        ensures after { (s : Concrete) (slots : List ℕ) →
            after_stores W notes.now (placement_of self.now.places) self.now.made.items slots
            (flat_map (write_store notes.now self.now.made.items) writes.now) (with_memory s mem.old) ≡ with_memory s mem.new }
        ensures objects { KeepsObjects mem.old mem.new }
    {
        for write in writes {
            self.write(notes, mem, write);
        }
    }
}

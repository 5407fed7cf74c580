//! Placing the objects of a script, and filling them (docs/HOST.md, "Objects" and "Steps", on the call step).
ghost use Rattle.std.specs.Prelude.{◌≡◌, ℕ, ◌+◌, ◌*◌, ◌<◌, ◌≤◌, ◌^◌, ◌∷◌, [], ◌++◌, List, length, map, slice_get, Some, vec_capacity};
ghost use Rattle.std.specs.List.{flat_map};
ghost use Rattle.ebc_width.specs.Width.{IsWidth};
ghost use Rattle.object_memory.specs.Memory.{placed, ranges};
ghost use Rattle.note_types.specs.Concrete.{Concrete};
ghost use Rattle.note_types.specs.declared.script.ScriptObject.{ScriptObject};
ghost use Rattle.ebc_machine.specs.States.{KeepsObjects};
ghost use Rattle.host_model.specs.HostPlans.{cell_store, filling, object_stores};
ghost use Rattle.host_model.specs.HostSteps.{after_stores, with_object, with_objects};
ghost use Rattle.host_model.specs.Objects.{script_object};
ghost use Rattle.host_model.specs.Placements.{object_bytes, object_range};
ghost use Rattle.entry_thunk.specs.Cells.{with_memory};
ghost use Rattle.native_host.specs.Placing.{AreComing, IsNext, with_made};
ghost use Rattle.native_host.specs.Kept.{IsOf, placement_of};

use crate::host::Host;
use host_model::TypedObject;
use note_types::{CellValue, Notes, ScriptObject, WriteValue};
use object_memory::ObjMem;

impl<const W: usize> Host<W> {
    // Places an object of a script, for which there is room, at its base.
    fn place_object(&mut self, notes: &Notes, mem: &mut ObjMem<W>, object: &ScriptObject)
        requires notes { IsOf W notes.now self.old.places }
        requires next { IsNext W notes.now (placement_of self.old.places) (length self.old.made.items) mem.old object.now }
        requires reserved { length self.old.made.items < vec_capacity self.old.made }
        ensures placed { (s : Concrete) → with_object (with_memory s mem.old)
            (object_range W notes.now (placement_of self.old.places) (length self.old.made.items) (script_object object.now)) ≡
            with_memory s mem.new }
        ensures memory { mem.new ≡ placed W mem.old (object_bytes W notes.now (script_object object.now)) }
        ensures made { self.new.made.items ≡ self.old.made.items ++ script_object object.now ∷ [] }
        ensures same { self.new ≡ record self.old { made = self.new.made } }
        ensures reserved { vec_capacity self.old.made ≤ vec_capacity self.new.made }
    {
        let bytes = object.count * self.places.instance_bytes(object.shape);
        let Ok(_) = mem.place(1, bytes as u32) else {
            unreachable!();
        };
        let Ok(()) = self.made.push(TypedObject {
            shape: object.shape,
            count: object.count,
        })
        else {
            unreachable!();
        };
    }

    // Places the objects of a script that come next.
    fn place_objects(&mut self, notes: &Notes, mem: &mut ObjMem<W>, objects: &[ScriptObject])
        requires notes { IsOf W notes.now self.old.places }
        requires coming { AreComing W notes.now (placement_of self.old.places) (length self.old.made.items) mem.old objects.now }
        requires reserved { length self.old.made.items + length objects.now ≤ vec_capacity self.old.made }
        ensures placed { (s : Concrete) → with_objects W notes.now (placement_of self.old.places) (length self.old.made.items)
            (map script_object objects.now) (with_memory s mem.old) ≡ with_memory s mem.new }
        ensures made { self.new.made.items ≡ self.old.made.items ++ map script_object objects.now }
        ensures same { self.new ≡ record self.old { made = self.new.made } }
        ensures reserved { vec_capacity self.old.made ≤ vec_capacity self.new.made }
        ensures limits { (mem.new.byte_limit ≡ mem.old.byte_limit) × (mem.new.object_limit ≡ mem.old.object_limit) }
    {
        for object in objects {
            self.place_object(notes, mem, object);
        }
    }

    // Stores what a cell of an object of a script holds at first, which is made with that number.
    fn fill_cell(
        &self,
        notes: &Notes,
        mem: &mut ObjMem<W>,
        number: u64,
        object: &ScriptObject,
        cell: &CellValue,
    )
        requires width { IsWidth W }
        requires notes { IsOf W notes.now self.now.places }
        requires made { slice_get self.now.made.items number ≡ Some (script_object object.now) }
        ensures after { (s : Concrete) (slots : List ℕ) →
            after_stores W notes.now (placement_of self.now.places) self.now.made.items slots
            (cell_store notes.now number object.now cell.now) (with_memory s mem.old) ≡ with_memory s mem.new }
        ensures objects { KeepsObjects mem.old mem.new }
    {
        // No object has address 0.
        let _ = mem.holds(0, 1);
        let write = WriteValue {
            object: number,
            instance: cell.instance,
            field: cell.field,
            value: cell.value,
        };
        self.write(notes, mem, &write);
    }

    // Stores what these cells of an object of a script hold at first, which is made with that number.
    fn fill_cells(
        &self,
        notes: &Notes,
        mem: &mut ObjMem<W>,
        number: u64,
        object: &ScriptObject,
        cells: &[CellValue],
    )
        requires width { IsWidth W }
        requires notes { IsOf W notes.now self.now.places }
        requires made { slice_get self.now.made.items number ≡ Some (script_object object.now) }
        ensures after { (s : Concrete) (slots : List ℕ) →
            after_stores W notes.now (placement_of self.now.places) self.now.made.items slots
            (flat_map (cell_store notes.now number object.now) cells.now) (with_memory s mem.old) ≡ with_memory s mem.new }
        ensures objects { KeepsObjects mem.old mem.new }
    {
        for cell in cells {
            self.fill_cell(notes, mem, number, object, cell);
        }
    }

    // Stores what the cells of an object of a script hold at first, which is made with that number.
    fn fill_object(&self, notes: &Notes, mem: &mut ObjMem<W>, number: u64, object: &ScriptObject)
        requires width { IsWidth W }
        requires notes { IsOf W notes.now self.now.places }
        requires made { slice_get self.now.made.items number ≡ Some (script_object object.now) }
        ensures after { (s : Concrete) (slots : List ℕ) →
            after_stores W notes.now (placement_of self.now.places) self.now.made.items slots (object_stores notes.now (number, object.now))
            (with_memory s mem.old) ≡ with_memory s mem.new }
        ensures objects { KeepsObjects mem.old mem.new }
    {
        self.fill_cells(notes, mem, number, object, object.cells.as_slice());
    }

    // Stores what the cells of objects of a script hold at first, which are made with the numbers from `first` on.
    fn fill_objects(&self, notes: &Notes, mem: &mut ObjMem<W>, first: u64, objects: &[ScriptObject])
        requires width { IsWidth W }
        requires notes { IsOf W notes.now self.now.places }
        requires made { (k : ℕ) (o : ScriptObject) → slice_get objects.now k ≡ Some o →
            slice_get self.now.made.items (first + k) ≡ Some (script_object o) }
        requires few { first + length objects.now < 2 ^ 63 }
        ensures after { (s : Concrete) (slots : List ℕ) →
            after_stores W notes.now (placement_of self.now.places) self.now.made.items slots (filling notes.now first objects.now)
            (with_memory s mem.old) ≡ with_memory s mem.new }
        ensures objects { KeepsObjects mem.old mem.new }
    {
        for (k, object) in objects.iter().enumerate() {
            self.fill_object(notes, mem, first + k as u64, object);
        }
    }

    // How many typed objects are made.
    fn count_made(&self) -> u64
        ensures { result ≡ length self.now.made.items }
    {
        self.made.len() as u64
    }

    /// Places the objects of a script that come next, and stores what their cells hold at first.
    pub(crate) fn make_objects(
        &mut self,
        notes: &Notes,
        mem: &mut ObjMem<W>,
        objects: &[ScriptObject],
    )
        requires width { IsWidth W }
        requires notes { IsOf W notes.now self.old.places }
        requires coming { AreComing W notes.now (placement_of self.old.places) (length self.old.made.items) mem.old objects.now }
        requires reserved { length self.old.made.items + length objects.now ≤ vec_capacity self.old.made }
        requires few { length self.old.made.items + length objects.now < 2 ^ 63 }
        ensures after { (s : Concrete) (slots : List ℕ) →
            with_made W notes.now (placement_of self.old.places) self.old.made.items objects.now slots (with_memory s mem.old) ≡
            with_memory s mem.new }
        ensures made { self.new.made.items ≡ self.old.made.items ++ map script_object objects.now }
        ensures same { self.new ≡ record self.old { made = self.new.made } }
        ensures reserved { vec_capacity self.old.made ≤ vec_capacity self.new.made }
        ensures ranges { (s : Concrete) → ranges mem.new ≡
            (with_objects W notes.now (placement_of self.old.places) (length self.old.made.items) (map script_object objects.now)
            (with_memory s mem.old)).objects }
        ensures limits { (mem.new.byte_limit ≡ mem.old.byte_limit) × (mem.new.object_limit ≡ mem.old.object_limit) }
    {
        let first = self.count_made();
        self.place_objects(notes, mem, objects);
        self.fill_objects(notes, mem, first, objects);
    }
}

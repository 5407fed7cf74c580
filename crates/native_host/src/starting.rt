//! The start of a host (docs/HOST.md, "Memory" and "The start").
ghost use Rattle.std.specs.Prelude.{◌≡◌, ℕ, ◌+◌, ◌*◌, ◌-◌, ◌%◌, ◌⊎◌, ◌<◌, ◌≤◌, ◌^◌, [], ◌++◌, IfOk, OnOk, List, length, map, nat_eq, ◌||◌};
ghost use Rattle.std.specs.Prelude.{if◌then◌else◌, Some, slice_get, vec_capacity};
ghost use Rattle.std.specs.List.{sum_by};
ghost use Rattle.ebc_width.specs.Ranges.{Range};
ghost use Rattle.ebc_width.specs.Width.{IsWidth};
ghost use Rattle.object_memory.specs.Memory.{IsFull, byte_at, first_base, next_base, padded, placed};
ghost use Rattle.reloc_loader.specs.Loads.{IsPlacedAt, loaded_at};
ghost use Rattle.pe_image.specs.Images.{IsImage};
ghost use Rattle.pe_image.specs.Mapped.{mapped};
ghost use Rattle.note_types.specs.Records.{CanBeEntered, IsNotes};
ghost use Rattle.note_types.specs.Shapes.{size_at};
ghost use Rattle.note_types.specs.declared.notes.Notes.{Notes};
ghost use Rattle.note_types.specs.declared.notes.Static.{Static};
ghost use Rattle.host_model.specs.Objects.{made_objects, placed_objects, static_object};
ghost use Rattle.host_model.specs.Placements.{all_ranges, area_bytes, frame_bytes, own_placement, stack_bytes};
ghost use Rattle.host_model.specs.Runs.{world_of};
ghost use Rattle.host_model.specs.Scripts.{IsScript};
ghost use Rattle.host_model.specs.Start.{bare_machine, start_machine};
ghost use Rattle.host_model.specs.World.{World};
ghost use Rattle.entry_thunk.specs.Cells.{with_memory};
ghost use Rattle.native_host.specs.Hosts.{HasRoom, IsHost, IsMemoryOf, IsServing, all_events};
ghost use Rattle.native_host.specs.Placing.{fixed_room};
ghost use Rattle.native_host.specs.Starting.{IsFresh, bases_in, rooms_in};
ghost use Rattle.native_host.specs.Kept.{IsOf, placement_of};

use crate::host::Host;
use crate::places::{AREA_STEP, HANDLES, Places};
use ebc_base::Sequence;
use host_model::TypedObject;
use note_types::{Event, FnNote, NoMemory, Notes, Script, ScriptObject, SlotKind};
use object_memory::{ObjId, ObjMem};
use pe_image::Image;
use reloc_loader::load;
use std::alloc::Global;

/// Starts the host of a run of an image, under notes and with a script, all of which were read: everything is placed that is
/// there from the start, the image is loaded at its base, the script's objects are filled, and room for all events is
/// reserved. It fails only where there is no memory for that; no other call of the host takes any.
pub fn start<const W: usize>(
    alloc: Global,
    image: &Image,
    notes: &Notes,
    script: &Script,
) -> Result<(Host<W>, ObjMem<W>), NoMemory>
    requires width { IsWidth W }
    requires image { IsImage image.now }
    requires notes { IsNotes notes.now }
    requires script { IsScript notes.now script.now }
    ensures serving { IfOk result (λ t. IsServing W notes.now script.now t.0) }
    ensures host { IfOk result (λ t. IsHost W (world_of image.now notes.now script.now) t.0) }
    ensures entries { IfOk result (λ t. t.0.entries ≡ 0) }
    ensures notifications { IfOk result (λ t. t.0.notifications ≡ 0) }
    ensures thunks { IfOk result (λ t. t.0.thunks ≡ 0) }
    ensures trace { IfOk result (λ t. t.0.trace.items ≡ []) }
    ensures memory { IfOk result (λ t.
        IsMemoryOf W (world_of image.now notes.now script.now) (own_placement W (world_of image.now notes.now script.now)) 0 t.1) }
    ensures state { IfOk result (λ t.
        with_memory (start_machine W (world_of image.now notes.now script.now) (own_placement W (world_of image.now notes.now script.now))
        (mapped image.now (own_placement W (world_of image.now notes.now script.now)).image)) t.1 ≡
        start_machine W (world_of image.now notes.now script.now) (own_placement W (world_of image.now notes.now script.now))
        (mapped image.now (own_placement W (world_of image.now notes.now script.now)).image)) }
    ensures room { IfOk result (λ t. HasRoom t.0 (all_events script.now)) }
{
    let (mut host, mut mem) = fresh_host::<W>(alloc, image, notes, script)?;
    host.place_all(notes, &mut mem, image, script);
    Ok((host, mem))
}

// A host that has placed nothing, and its memory; room for all events is reserved.
fn fresh_host<const W: usize>(
    alloc: Global,
    image: &Image,
    notes: &Notes,
    script: &Script,
) -> Result<(Host<W>, ObjMem<W>), NoMemory>
    requires width { IsWidth W }
    requires image { IsImage image.now }
    requires notes { IsNotes notes.now }
    requires script { IsScript notes.now script.now }
    ensures fresh { IfOk result (λ t. IsFresh W (world_of image.now notes.now script.now) t.0 t.1) }
    ensures entries { IfOk result (λ t. t.0.entries ≡ 0) }
    ensures notifications { IfOk result (λ t. t.0.notifications ≡ 0) }
    ensures thunks { IfOk result (λ t. t.0.thunks ≡ 0) }
    ensures trace { IfOk result (λ t. t.0.trace.items ≡ []) }
    ensures room { IfOk result (λ t. HasRoom t.0 (all_events script.now)) }
{
    let (places, limit) = places_of::<W>(alloc, image, notes, script)?;
    let objects = count_objects(script);
    let made = statics_made(alloc, notes, objects)?;
    let trace = Vec::with_capacity(alloc, count_events(script))?;
    let mem = ObjMem::<W>::new(alloc, limit, objects as u32 + 3)?;
    let host = Host {
        places,
        made,
        entries: 0,
        notifications: 0,
        thunks: 0,
        trace,
    };
    Ok((host, mem))
}

// How many objects a script has and makes.
#[tactic(auto, using(crate::proofs::StartLaws::all_rest_made), unfolding(crate::specs::Starting::rest_made))]
fn count_objects(script: &Script) -> usize
    requires { length (placed_objects script.now (length script.now.call)) ≤ 4096 }
    ensures { result ≡ length (placed_objects script.now (length script.now.call)) }
{
    let mut count = script.object.len();
    for call in script.call.as_slice() {
        count += call.make.len();
    }
    count
}

// The most events that a script can give.
#[tactic(auto, using(crate::proofs::StartLaws::all_rest_events), unfolding(crate::specs::Starting::rest_events))]
fn count_events(script: &Script) -> usize
    requires { all_events script.now < 2 ^ 32 }
    ensures { result ≡ all_events script.now }
{
    let mut count = 1 + 2 * script.notify.len();
    for call in script.call.as_slice() {
        count += 2 + 2 * call.enter.len();
    }
    count
}

// The static objects of the notes as typed objects, with room for so many more.
fn statics_made(alloc: Global, notes: &Notes, more: usize) -> Result<Vec<TypedObject>, NoMemory>
    requires notes { length notes.now.statics < 2 ^ 32 }
    requires more { more ≤ 4096 }
    ensures made { IfOk result (λ v. v.items ≡ map static_object notes.now.statics) }
    ensures room { IfOk result (λ v. length notes.now.statics + more ≤ vec_capacity v) }
{
    let statics = notes.statics.as_slice();
    let mut made = Vec::with_capacity(alloc, statics.len() + more)?;
    for object in statics {
        let Ok(()) = made.push(TypedObject {
            shape: object.shape,
            count: object.count,
        }) else {
            unreachable!();
        };
    }
    Ok(made)
}

// What an object of so many bytes takes of memory.
fn padded_size(size: u64) -> u64
    requires { size < 2 ^ 32 }
    ensures { result ≡ padded size }
{
    size.next_multiple_of(16) + 16
}

// How many bytes a function takes of the stack that the firmware enters.
#[tactic(auto, using(crate::proofs::StartLaws::frame_small))]
fn frame_bytes<const W: usize>(function: &FnNote) -> u64
    requires width { IsWidth W }
    requires entered { CanBeEntered function.now }
    ensures bytes { result ≡ frame_bytes W function.now }
    ensures small { 9 * result ≤ 2 ^ 20 }
{
    let mut bytes = 16 + function.need.n * W as u64 + function.need.c;
    for param in function.params.as_slice() {
        bytes += match param.kind {
            SlotKind::N => W as u64,
            SlotKind::Q => 8,
            SlotKind::D => 4,
        };
    }
    bytes
}

// The same of the function of that number, and nothing where the firmware doesn't enter it.
#[tactic(auto, using(crate::proofs::StartLaws::is_entry))]
fn entered_bytes<const W: usize>(notes: &Notes, number: u32, function: &FnNote) -> u64
    requires width { IsWidth W }
    requires notes { IsNotes notes.now }
    requires there { slice_get notes.now.function number ≡ Some function.now }
    ensures bytes { result ≡ (if nat_eq number notes.now.entry || function.now.enter then frame_bytes W function.now else 0) }
    ensures small { 9 * result ≤ 2 ^ 20 }
{
    if number == notes.entry {
        return frame_bytes::<W>(function);
    }
    if function.enter {
        return frame_bytes::<W>(function);
    }
    0
}

// The bytes of the stack: nine times the most that a function takes which the firmware enters, the entry function among them.
#[tactic(auto, unfolding(host_model::specs::Placements::most_bytes))]
fn stack_bytes<const W: usize>(notes: &Notes) -> u64
    requires width { IsWidth W }
    requires notes { IsNotes notes.now }
    ensures bytes { result ≡ stack_bytes W notes.now }
    ensures small { result ≤ 2 ^ 20 }
{
    let mut most = 0;
    for (k, function) in notes.function.as_slice().iter().enumerate() {
        most = entered_bytes::<W>(notes, k as u32, function).max(most);
    }
    9 * most
}

// The bytes of an instance of each shape.
fn sizes_of<const W: usize>(alloc: Global, notes: &Notes) -> Result<Sequence<u64>, NoMemory>
    requires width { IsWidth W }
    ensures { IfOk result (λ sizes. sizes ≡ map (size_at W) notes.now.shape) }
{
    let mut sizes = Vec::new(alloc);
    for shape in notes.shape.as_slice() {
        sizes.push(crate::reading::pair_at::<W>(shape.n, shape.c))?;
    }
    Ok(Sequence::new(sizes))
}

// The places of the static objects.
fn statics_of(alloc: Global, notes: &Notes) -> Result<Sequence<u32>, NoMemory>
    ensures { IfOk result (λ places. places ≡ map (λ (s : Static). s.place) notes.now.statics) }
{
    let mut places = Vec::new(alloc);
    for object in notes.statics.as_slice() {
        places.push(object.place)?;
    }
    Ok(Sequence::new(places))
}

// Adds the bases of objects that are placed one after the other from an address on; the address past the last one, with its
// padding and gap.
#[tactic(auto, unfolding(crate::specs::Starting::rooms_in, crate::specs::Starting::bases_in))]
fn add_bases(
    bases: &mut Vec<u64>,
    sizes: &[u64],
    first: u64,
    objects: &[ScriptObject],
) -> Result<u64, NoMemory>
    requires low { first < 2 ^ 62 }
    requires small { rooms_in sizes.now objects.now < 2 ^ 32 }
    ensures bases { OnOk result (bases.new.items ≡ bases.old.items ++ bases_in sizes.now first objects.now) }
    ensures past { IfOk result (λ past. past ≡ first + rooms_in sizes.now objects.now) }
{
    let mut next = first;
    for object in objects {
        bases.push(next)?;
        let size = match sizes.get(object.shape as usize) {
            Some(size) => *size,
            None => 0,
        };
        next += padded_size(object.count * size);
    }
    Ok(next)
}

// The bases of all objects of a script, which are placed one after the other from an address on; the address past the last one.
#[tactic(auto, using(crate::proofs::StartLaws::all_rooms, crate::proofs::StartLaws::all_bases), unfolding(crate::specs::Starting::rooms_made, crate::specs::Starting::bases_made))]
fn bases_of(
    alloc: Global,
    sizes: &[u64],
    first: u64,
    script: &Script,
) -> Result<(Sequence<u64>, u64), NoMemory>
    requires low { first < 2 ^ 40 }
    requires small { rooms_in sizes.now (placed_objects script.now (length script.now.call)) < 2 ^ 32 }
    ensures bases { IfOk result (λ t. t.0 ≡ bases_in sizes.now first (placed_objects script.now (length script.now.call))) }
    ensures past { IfOk result (λ t. t.1 ≡ first + rooms_in sizes.now (placed_objects script.now (length script.now.call))) }
{
    let mut bases = Vec::new(alloc);
    let mut next = add_bases(&mut bases, sizes, first, script.object.as_slice())?;
    for call in script.call.as_slice() {
        next = add_bases(&mut bases, sizes, next, call.make.as_slice())?;
    }
    Ok((Sequence::new(bases), next))
}

// Where the first object of a memory lies.
fn memory_start<const W: usize>() -> u64
    ensures start { result ≡ first_base W }
    ensures small { result ≤ 2 ^ 33 }
{
    if W == 4 { 0x10_0000 } else { 0x2_0000_0000 }
}

// Where everything lies, and how many bytes of memory all of it takes.
#[tactic(auto, using(crate::proofs::StartLaws::rooms_small, crate::proofs::StartLaws::bases_same, crate::proofs::StartLaws::all_sum), unfolding(host_model::specs::Placements::own_placement))]
fn places_of<const W: usize>(
    alloc: Global,
    image: &Image,
    notes: &Notes,
    script: &Script,
) -> Result<(Places, u64), NoMemory>
    requires width { IsWidth W }
    requires image { IsImage image.now }
    requires notes { IsNotes notes.now }
    requires script { IsScript notes.now script.now }
    ensures placement { IfOk result (λ t. placement_of t.0 ≡ own_placement W (world_of image.now notes.now script.now)) }
    ensures size { IfOk result (λ t. t.0.image_size ≡ image.now.size) }
    ensures kept { IfOk result (λ t. IsOf W notes.now t.0) }
    ensures limit { IfOk result (λ t.
        t.1 ≡ sum_by (λ (r : Range). padded r.size)
        (all_ranges W (world_of image.now notes.now script.now) (own_placement W (world_of image.now notes.now script.now)))) }
    ensures small { IfOk result (λ t. t.1 ≤ 14 * 2 ^ 20) }
    ensures stack { IfOk result (λ t. t.0.stack_bytes ≤ 2 ^ 20) }
{
    let first = memory_start::<W>();
    let sizes = sizes_of::<W>(alloc, notes)?;
    let methods = notes.methods.len() as u32;
    let functions = notes.function.len() as u32;
    let things = 1 + u64::from(methods) + u64::from(functions) + u64::from(HANDLES);
    let stack = first + padded_size(AREA_STEP * things);
    let stack_bytes = stack_bytes::<W>(notes);
    let image_base = stack + padded_size(stack_bytes);
    let past_image = image_base + padded_size(u64::from(image.size));
    let (objects, past) = bases_of(alloc, sizes.as_slice(), past_image, script)?;
    let places = Places {
        native: first,
        stack,
        stack_bytes,
        image: image_base,
        image_size: image.size,
        objects,
        methods,
        functions,
        statics: statics_of(alloc, notes)?,
        sizes,
    };
    Ok((places, past - first))
}

// Places an object for which there is room.
fn place_next<const W: usize>(mem: &mut ObjMem<W>, size: u32, count: u32) -> ObjId
    requires some { 1 ≤ size * count }
    requires below { size * count < 2 ^ 32 }
    requires room { IsFull mem.old (size * count) → ⊥ }
    ensures placed { mem.new ≡ placed W mem.old (size * count) }
    ensures id { result ≡ record { number = length mem.old.objects; base = next_base W mem.old } }
{
    let Ok(id) = mem.place(size, count) else {
        unreachable!();
    };
    id
}

// Loads an image in a memory of zeros, into the object at an even base that was placed for it.
fn load_image<const W: usize>(image: &Image, base: u64, id: ObjId, mem: &mut ObjMem<W>)
    requires image { IsImage image.now }
    requires even { base % 2 ≡ 0 }
    requires object { IsPlacedAt mem.old id base image.now.size }
    requires zeros { (x : ℕ) → byte_at mem.old x ≡ 0 }
    ensures loaded { mem.new ≡ loaded_at mem.old image.now base }
    ensures mapped { (x : ℕ) → x < image.now.size → byte_at mem.new (base + x) ≡ mapped image.now base x }
    ensures others { (x : ℕ) → (x < base) ⊎ (base + image.now.size ≤ x) → byte_at mem.new x ≡ byte_at mem.old x }
{
    let Ok(()) = load(image, base, id, mem) else {
        unreachable!();
    };
}

impl<const W: usize> Host<W> {
    // Places the native area, the stack and the image in an empty memory, and loads the image.
    fn place_image(&self, notes: &Notes, mem: &mut ObjMem<W>, image: &Image)
        requires width { IsWidth W }
        requires image { IsImage image.now }
        requires read { IsNotes notes.now }
        requires notes { IsOf W notes.now self.now.places }
        requires size { self.now.places.image_size ≡ image.now.size }
        requires empty { mem.old.objects ≡ [] }
        requires limit { fixed_room W notes.now image.now ≤ mem.old.byte_limit }
        requires count { 3 ≤ mem.old.object_limit }
        requires small { self.now.places.stack_bytes ≤ 2 ^ 20 }
        requires native { self.now.places.native ≡ first_base W }
        requires stack { self.now.places.stack ≡ self.now.places.native + padded (area_bytes notes.now) }
        requires base { self.now.places.image ≡ self.now.places.stack + padded (stack_bytes W notes.now) }
        ensures state { (script : Script) → with_memory
            (bare_machine W (world_of image.now notes.now script) (placement_of self.now.places) (mapped image.now self.now.places.image))
            mem.new ≡ bare_machine W (world_of image.now notes.now script) (placement_of self.now.places)
            (mapped image.now self.now.places.image) }
        ensures limits { (mem.new.byte_limit ≡ mem.old.byte_limit) × (mem.new.object_limit ≡ mem.old.object_limit) }
    {
        let things = 1 + self.places.methods + self.places.functions + HANDLES;
        let _ = place_next(mem, AREA_STEP as u32, things);
        let _ = place_next(mem, 1, self.places.stack_bytes as u32);
        let id = place_next(mem, 1, image.size);
        load_image(image, self.places.image, id, mem);
    }

    // Places all that is there from the start, and fills it.
    fn place_all(&mut self, notes: &Notes, mem: &mut ObjMem<W>, image: &Image, script: &Script)
        requires width { IsWidth W }
        requires image { IsImage image.now }
        requires notes { IsNotes notes.now }
        requires script { IsScript notes.now script.now }
        requires fresh { IsFresh W (world_of image.now notes.now script.now) self.old mem.old }
        ensures state { with_memory (start_machine W (world_of image.now notes.now script.now)
            (own_placement W (world_of image.now notes.now script.now))
            (mapped image.now (own_placement W (world_of image.now notes.now script.now)).image)) mem.new ≡
            start_machine W (world_of image.now notes.now script.now) (own_placement W (world_of image.now notes.now script.now))
            (mapped image.now (own_placement W (world_of image.now notes.now script.now)).image) }
        ensures memory { IsMemoryOf W (world_of image.now notes.now script.now) (own_placement W (world_of image.now notes.now script.now))
            0 mem.new }
        ensures made { self.new.made.items ≡ made_objects notes.now script.now 0 }
        ensures same { self.new ≡ record self.old { made = self.new.made } }
        ensures reserved { vec_capacity self.old.made ≤ vec_capacity self.new.made }
    {
        self.place_image(notes, mem, image);
        self.make_objects(notes, mem, script.object.as_slice());
    }
}

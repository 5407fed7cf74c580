//! What the arguments of a native call point to.
ghost use Rattle.std.specs.Prelude.{◌≡◌, ◌+◌, ◌*◌, ◌++◌, OnOk, Some, length, option_map, slice_get, take};
ghost use Rattle.std.specs.List.{flat_map};
ghost use Rattle.ebc_width.specs.Width.{IsWidth};
ghost use Rattle.host_model.specs.RunState.{RunState};
ghost use Rattle.host_model.specs.World.{World};
ghost use Rattle.twin_run.specs.Runner.{IsRunner};
ghost use Rattle.host_model.specs.Objects.{made_objects, objects_of, placed_objects, script_object};
ghost use Rattle.note_types.specs.Concrete.{rest_from};
ghost use Rattle.pe_image.specs.Images.{IsImage};
ghost use Rattle.pe_image.specs.declared.image.Image.{Image};
ghost use Rattle.run_trace.specs.Pointed.{argument_line, arguments_lines, base_of, bytes_of, cells_of, event_lines, instance_line};
ghost use Rattle.run_trace.specs.Pointed.{object_at, of_64_bits, pointed_lines, size_of};
ghost use Rattle.run_trace.specs.Walks.{RunsImage};

use crate::telling::Program;
use crate::walking::{first_base, next_base};
use host_model::TypedObject;
use note_types::{
    Cell, Event, NoMemory, Notes, Script, ScriptCall, ScriptObject, Seen, Shape, Value,
};
use std::alloc::Global;
use step_texts::{Cells, append_pointed};
use twin_run::Runner;

// The number of the image among the objects of a memory. Those of the script come behind it.
const IMAGE: u64 = 2;

// What the instances of a shape hold: a text's cells are the only field of their shape.
fn cells_of(shape: &Shape) -> Cells
    ensures { result ≡ cells_of shape.now }
{
    match shape.fields.as_slice() {
        [field] if field.n == 0 && field.c == 0 && shape.n == 0 => match field.cell {
            Cell::I16 if shape.c == 2 => Cells::Words,
            Cell::I8 if shape.c == 1 => Cells::Bytes,
            _ => Cells::Others,
        },
        _ => Cells::Others,
    }
}

// How many bytes a pair of natural units and bytes takes.
#[tactic(auto, using(note_types::proofs::ShapeLaws::pair_is_small))]
fn pair_bytes<const W: usize>(n: u32, c: u32) -> u64
    requires { IsWidth W }
    ensures { result ≡ n * W + c }
{
    u64::from(n) * W as u64 + u64::from(c)
}

// How many bytes an instance of a shape takes.
fn size_of<const W: usize>(shape: &Shape) -> u64
    requires { IsWidth W }
    ensures { result ≡ size_of W shape.now }
{
    pair_bytes::<W>(shape.n, shape.c)
}

// An object of the script as a typed object.
fn typed(object: &ScriptObject) -> TypedObject
    ensures { result ≡ script_object object.now }
{
    TypedObject {
        shape: object.shape,
        count: object.count,
    }
}

// The object of that number of those that calls make.
fn object_of_calls(calls: &[ScriptCall], number: usize) -> Option<TypedObject>
    ensures { result ≡ option_map script_object (slice_get (flat_map objects_of calls.now) number) }
{
    let mut rest = calls;
    let mut left = number;
    while let [call, later @ ..] = rest {
        let made = call.make.as_slice();
        if left < made.len() {
            return Some(typed(&made[left]));
        }
        left -= made.len();
        rest = later;
    }
    None
}

// The script's object of that number: of those from the start, and then of those of its calls.
fn object_of_script(script: &Script, number: usize) -> Option<TypedObject>
    ensures { result ≡ option_map script_object (slice_get (placed_objects script.now (length script.now.call)) number) }
{
    let first = script.object.as_slice();
    if number < first.len() {
        return Some(typed(&first[number]));
    }
    object_of_calls(script.call.as_slice(), number - first.len())
}

// A typed object.
fn typed_object(notes: &Notes, script: &Script, object: u64) -> Option<TypedObject>
    ensures { result ≡ slice_get (made_objects notes.now script.now (length script.now.call)) object }
{
    let statics = notes.statics.as_slice();
    match statics.get(object as usize) {
        Some(it) => Some(TypedObject {
            shape: it.shape,
            count: it.count,
        }),
        None => object_of_script(script, object as usize - statics.len()),
    }
}

// Where the object of that number in a memory begins.
fn base_of<const W: usize>(runner: &Runner<W>, number: u64) -> Option<u64>
    requires width { IsWidth W }
    requires runs { RunsImage W runner.now }
    ensures { (image : Image) (world : World) (s : RunState) → IsImage image → world.image_size ≡ image.size
        → IsRunner W world runner.now s → result ≡ base_of s.machine number }
{
    let mut base = first_base::<W>();
    let mut reached = 0;
    while reached <= number {
        let Some(bytes) = runner.bytes_from(base) else {
            return None;
        };
        if reached == number {
            return Some(base);
        }
        let Some(next) = next_base(base, bytes.len()) else {
            return None;
        };
        base = next;
        reached += 1;
    }
    None
}

// Where a static object begins, by its place in the image.
fn static_at<const W: usize>(runner: &Runner<W>, place: u32) -> Option<u64>
    requires width { IsWidth W }
    requires runs { RunsImage W runner.now }
    ensures { (image : Image) (world : World) (s : RunState) → IsImage image → world.image_size ≡ image.size
        → IsRunner W world runner.now s → result ≡ of_64_bits (option_map (λ base. base + place) (base_of s.machine 2)) }
{
    match base_of(runner, IMAGE) {
        Some(base) => base.checked_add(u64::from(place)),
        None => None,
    }
}

// Where the script's object of that number begins.
fn script_at<const W: usize>(runner: &Runner<W>, number: u64) -> Option<u64>
    requires width { IsWidth W }
    requires runs { RunsImage W runner.now }
    ensures { (image : Image) (world : World) (s : RunState) → IsImage image → world.image_size ≡ image.size
        → IsRunner W world runner.now s → result ≡ of_64_bits (base_of s.machine (3 + number)) }
{
    match number.checked_add(IMAGE + 1) {
        Some(number) => base_of(runner, number),
        None => None,
    }
}

// Where a typed object begins.
fn object_at<const W: usize>(runner: &Runner<W>, notes: &Notes, object: u64) -> Option<u64>
    requires width { IsWidth W }
    requires runs { RunsImage W runner.now }
    ensures { (image : Image) (world : World) (s : RunState) → IsImage image → world.image_size ≡ image.size
        → IsRunner W world runner.now s → result ≡ of_64_bits (object_at notes.now s.machine object) }
{
    let statics = notes.statics.as_slice();
    match statics.get(object as usize) {
        Some(it) => static_at(runner, it.place),
        None => script_at(runner, object - statics.len() as u64),
    }
}

// What lies so many bytes past an address, to the end of the object there.
fn bytes_past<'a, const W: usize>(runner: &'a Runner<W>, at: u64, past: u64) -> Option<&'a [u8]>
    requires width { IsWidth W }
    ensures { (image : Image) (world : World) (s : RunState) → IsImage image → world.image_size ≡ image.size
        → IsRunner W world runner.now s → option_map (λ bytes. bytes.now) result ≡ rest_from s.machine (at + past) }
{
    match at.checked_add(past) {
        Some(address) => runner.bytes_from(address),
        None => None,
    }
}

// What lies so many instances of a size past an address, to the end of the object there.
fn instance_past<'a, const W: usize>(
    runner: &'a Runner<W>,
    at: u64,
    instance: u64,
    size: u64,
) -> Option<&'a [u8]>
    requires width { IsWidth W }
    ensures { (image : Image) (world : World) (s : RunState) → IsImage image → world.image_size ≡ image.size
        → IsRunner W world runner.now s → option_map (λ bytes. bytes.now) result ≡ rest_from s.machine (at + instance * size) }
{
    match instance.checked_mul(size) {
        Some(past) => bytes_past(runner, at, past),
        None => None,
    }
}

// The first bytes, so many of them, or all if they are fewer.
fn front(bytes: &[u8], count: u64) -> &[u8]
    ensures { result.now ≡ take count bytes.now }
{
    bytes.get(..count as usize).unwrap_or(bytes)
}

// The bytes of the first instances of a size, so many of them, or all if they are fewer.
fn instances(bytes: &[u8], count: u64, size: u64) -> &[u8]
    ensures { result.now ≡ take (count * size) bytes.now }
{
    match count.checked_mul(size) {
        Some(most) => front(bytes, most),
        None => bytes,
    }
}

// The bytes from an instance of a typed object of a shape to its end, as far as they are there.
fn bytes_of<'a, const W: usize>(
    runner: &'a Runner<W>,
    notes: &Notes,
    shape: &Shape,
    count: u64,
    object: u64,
    instance: u64,
) -> Option<&'a [u8]>
    requires width { IsWidth W }
    requires runs { RunsImage W runner.now }
    ensures { (image : Image) (world : World) (s : RunState) → IsImage image → world.image_size ≡ image.size
        → IsRunner W world runner.now s
        → option_map (λ bytes. bytes.now) result ≡ bytes_of W notes.now s.machine shape.now count object instance }
{
    let size = size_of::<W>(shape);
    let Some(at) = object_at(runner, notes, object) else {
        return None;
    };
    match instance_past(runner, at, instance, size) {
        Some(bytes) => Some(instances(bytes, count.saturating_sub(instance), size)),
        None => None,
    }
}

// Appends the line of an argument that is this address of an instance of a typed object.
fn append_instance<const W: usize>(
    alloc: Global,
    program: Program,
    runner: &Runner<W>,
    argument: u64,
    object: u64,
    instance: u64,
    out: &mut Vec<u8>,
) -> Result<(), NoMemory>
    requires width { IsWidth W }
    requires runs { RunsImage W runner.now }
    ensures { OnOk result ((image : Image) (world : World) (s : RunState)
        → world.notes ≡ program.entry.notes.now → world.script ≡ program.entry.script.now
        → IsImage image → world.image_size ≡ image.size → IsRunner W world runner.now s
        → out.new.items ≡ out.old.items ++ instance_line W world s.machine argument object instance) }
{
    let notes = program.notes;
    let Some(typed) = typed_object(notes, program.script, object) else {
        return Ok(());
    };
    let Some(shape) = notes.shape.as_slice().get(typed.shape as usize) else {
        return Ok(());
    };
    match bytes_of(runner, notes, shape, typed.count, object, instance) {
        Some(bytes) => append_pointed(alloc, argument, cells_of(shape), bytes, out),
        None => Ok(()),
    }
}

// Appends the line of an argument, if it points to an instance of a typed object.
fn append_argument<const W: usize>(
    alloc: Global,
    program: Program,
    runner: &Runner<W>,
    argument: u64,
    seen: Seen,
    out: &mut Vec<u8>,
) -> Result<(), NoMemory>
    requires width { IsWidth W }
    requires runs { RunsImage W runner.now }
    ensures { OnOk result ((image : Image) (world : World) (s : RunState)
        → world.notes ≡ program.entry.notes.now → world.script ≡ program.entry.script.now
        → IsImage image → world.image_size ≡ image.size → IsRunner W world runner.now s
        → out.new.items ≡ out.old.items ++ argument_line W world s.machine argument seen) }
{
    if seen.lent {
        return Ok(());
    }
    match seen.value {
        Value::Ptr { object, instance } => {
            append_instance(alloc, program, runner, argument, object, instance, out)
        }
        _ => Ok(()),
    }
}

// Appends the lines of the arguments of a native call.
fn append_arguments<const W: usize>(
    alloc: Global,
    program: Program,
    runner: &Runner<W>,
    args: &[Seen],
    out: &mut Vec<u8>,
) -> Result<(), NoMemory>
    requires width { IsWidth W }
    requires runs { RunsImage W runner.now }
    ensures { OnOk result ((image : Image) (world : World) (s : RunState)
        → world.notes ≡ program.entry.notes.now → world.script ≡ program.entry.script.now
        → IsImage image → world.image_size ≡ image.size → IsRunner W world runner.now s
        → out.new.items ≡ out.old.items ++ arguments_lines W world s.machine args.now) }
{
    for argument in 0..args.len() {
        append_argument(alloc, program, runner, argument as u64, args[argument], out)?;
    }
    Ok(())
}

// Appends the lines of an event, if it is a native call.
fn append_event<const W: usize>(
    alloc: Global,
    program: Program,
    runner: &Runner<W>,
    event: &Event,
    out: &mut Vec<u8>,
) -> Result<(), NoMemory>
    requires width { IsWidth W }
    requires runs { RunsImage W runner.now }
    ensures { OnOk result ((image : Image) (world : World) (s : RunState)
        → world.notes ≡ program.entry.notes.now → world.script ≡ program.entry.script.now
        → IsImage image → world.image_size ≡ image.size → IsRunner W world runner.now s
        → out.new.items ≡ out.old.items ++ event_lines W world s.machine event.now) }
{
    match event {
        Event::Called { args, .. } => {
            append_arguments(alloc, program, runner, args.as_slice(), out)
        }
        _ => Ok(()),
    }
}

/// Appends the lines of what the arguments point to of the native calls among these events.
///
/// # Errors
///
/// There is no memory for the text.
pub(crate) fn append_pointed_to<const W: usize>(
    alloc: Global,
    program: Program,
    runner: &Runner<W>,
    events: &[Event],
    out: &mut Vec<u8>,
) -> Result<(), NoMemory>
    requires width { IsWidth W }
    requires runs { RunsImage W runner.now }
    ensures { OnOk result ((image : Image) (world : World) (s : RunState)
        → world.notes ≡ program.entry.notes.now → world.script ≡ program.entry.script.now
        → IsImage image → world.image_size ≡ image.size → IsRunner W world runner.now s
        → out.new.items ≡ out.old.items ++ pointed_lines W world s.machine events.now) }
{
    for event in events {
        append_event(alloc, program, runner, event, out)?;
    }
    Ok(())
}

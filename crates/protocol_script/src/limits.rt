//! The limits of scripts.
ghost use Rattle.std.specs.Prelude.{◌≡◌, ◌⊎◌, ◌+◌, ◌*◌, ◌≤◌, ◌<◌, ◌^◌, ◌++◌, ◌&&◌, nat_le, length, take, IfOk, IfNone, IfSome, codes};
ghost use Rattle.std.specs.List.{sum_by};
ghost use Rattle.object_memory.specs.Memory.{padded};
ghost use Rattle.ebc_base.specs.Steps.{passes};
ghost use Rattle.note_texts.specs.Keys.{row_prefix};
ghost use Rattle.note_texts.specs.Outcome.{Gives, GivesBy};
ghost use Rattle.note_types.specs.declared.fault.TomlFault.TheVariants.{Range};
ghost use Rattle.host_model.specs.Objects.{placed_objects};
ghost use Rattle.host_model.specs.Placements.{shape_bytes};
ghost use Rattle.protocol_script.specs.Limits.{IsLoad, IsTally, call_limit, calls_limit, limits, object_limit, objects_limit};
ghost use Rattle.host_model.specs.Scripts.{have_room, room_of};

use crate::tables::{met_at, refused_at};
use note_types::{Notes, NotesEnd, Script, ScriptCall, ScriptObject};
use std::alloc::Global;

/// The bytes that all objects of a script may take where an address has 8 bytes.
const OBJECT_ROOM: u128 = 8 * 1024 * 1024;

/// Objects of a script.
const MAX_OBJECTS: usize = 4096;

/// Calls of a script.
const MAX_CALLS: usize = 16_384;

/// Callbacks of all calls.
const MAX_CALLBACKS: u128 = 16_384;

// Natural units and bytes, as bytes where an address has 8.
fn wide_bytes(n: u32, c: u32) -> u128
    ensures value { result ≡ n * 8 + c }
    ensures bound { result < 2 ^ 36 }
{
    8 * u128::from(n) + u128::from(c)
}

// The bytes that an instance of the shape of that number takes where an address has 8 bytes.
fn instance_bytes(notes: &Notes, shape: u32) -> u128
    ensures value { result ≡ shape_bytes 8 notes.now shape }
    ensures bound { result < 2 ^ 36 }
{
    match notes.shape.as_slice().get(shape as usize) {
        Some(shape) => wide_bytes(shape.n, shape.c),
        None => 0,
    }
}

// A number of bytes rounded up to 16, and a gap of 16.
fn padded(bytes: u128) -> u128
    requires { bytes < 2 ^ 101 }
    ensures value { result ≡ padded bytes }
    ensures bound { result < 2 ^ 102 }
{
    (bytes + 15) / 16 * 16 + 16
}

fn room_of(notes: &Notes, object: &ScriptObject) -> u128
    ensures value { result ≡ room_of notes.now object.now }
    ensures bound { result < 2 ^ 102 }
{
    let bytes = u128::from(object.count) * instance_bytes(notes, object.shape);
    padded(bytes)
}

/// What objects of a script take in bytes where an address has 8, with their padding and gaps, and how many they are.
#[derive(Clone, Copy)]
pub struct Load {
    pub room: u128,
    pub objects: usize,
}

/// What a script has up to one of its calls: objects, and callbacks.
#[derive(Clone, Copy)]
pub struct Tally {
    pub load: Load,
    pub callbacks: u128,
}

impl Load {
    fn is_kept(self) -> bool
        ensures { result ≡ (nat_le self.room (2 ^ 23) && nat_le self.objects 4096) }
    {
        self.room <= OBJECT_ROOM && self.objects <= MAX_OBJECTS
    }

    // With one object more.
    fn with(self, notes: &Notes, object: &ScriptObject) -> Load
        requires { (self.room ≤ 2 ^ 23) × (self.objects ≤ 4096) }
        ensures room { result.room ≡ self.room + room_of notes.now object.now }
        ensures objects { result.objects ≡ self.objects + 1 }
    {
        Load {
            room: self.room + room_of(notes, object),
            objects: self.objects + 1,
        }
    }

    // With these objects more, where all keep the limits.
    fn with_all(self, notes: &Notes, objects: &[ScriptObject]) -> Option<Load>
        requires { (self.room ≤ 2 ^ 23) × (self.objects ≤ 4096) }
        ensures room { IfSome result (λ load. load.room ≡ self.room + sum_by (room_of notes.now) objects.now) }
        ensures objects { IfSome result (λ load. load.objects ≡ self.objects + length objects.now) }
        ensures within { IfSome result (λ load. (load.room ≤ 2 ^ 23) × (load.objects ≤ 4096)) }
        ensures past { IfNone result ((2 ^ 23 < self.room + sum_by (room_of notes.now) objects.now) ⊎
            (4096 < self.objects + length objects.now)) }
    {
        let mut load = self;
        for object in objects {
            load = load.with(notes, object);
            if !load.is_kept() {
                return None;
            }
        }
        Some(load)
    }
}

// What the objects up to the one of that number take, where they keep the limits.
fn object_limit(
    alloc: Global,
    notes: &Notes,
    objects: &[ScriptObject],
    load: Load,
    index: usize,
) -> Result<Load, NotesEnd>
    requires within { index < length objects.now }
    requires load { IsLoad notes.now (take index objects.now) load }
    ensures limit { GivesBy (λ _. tt) result (object_limit notes.now objects.now index) }
    ensures load { IfOk result (IsLoad notes.now (take (index + 1) objects.now)) }
{
    let load = load.with(notes, &objects[index]);
    met_at(alloc, load.is_kept(), "object", index, "count")?;
    Ok(load)
}

// What the objects at the start take, where they keep the limits.
#[tactic(auto, unfolding(crate::specs::Limits::objects_limit))]
fn objects_limit(alloc: Global, notes: &Notes, objects: &[ScriptObject]) -> Result<Load, NotesEnd>
    ensures limit { GivesBy (λ _. tt) result (objects_limit notes.now objects.now) }
    ensures load { IfOk result (IsLoad notes.now objects.now) }
{
    let mut load = Load {
        room: 0,
        objects: 0,
    };
    for i in 0..objects.len() {
        load = object_limit(alloc, notes, objects, load, i)?;
    }
    Ok(load)
}

// What the objects take up to those that the call of that number makes, where they keep the limits.
fn made_limit(
    alloc: Global,
    notes: &Notes,
    script: &Script,
    load: Load,
    index: usize,
) -> Result<Load, NotesEnd>
    requires within { index < length script.now.call }
    requires load { IsLoad notes.now (placed_objects script.now index) load }
    ensures limit { GivesBy (λ _. tt) result
        (passes (have_room notes.now (placed_objects script.now (index + 1))) (Range (row_prefix (codes "call") index ++ codes "make"))) }
    ensures load { IfOk result (IsLoad notes.now (placed_objects script.now (index + 1))) }
{
    let call = &script.call.as_slice()[index];
    match load.with_all(notes, call.make.as_slice()) {
        Some(load) => Ok(load),
        None => Err(refused_at(alloc, "call", index, "make")?),
    }
}

// What a script has up to the call of that number, where it keeps the limits.
#[tactic(auto, unfolding(crate::specs::Limits::call_limit))]
fn call_limit(
    alloc: Global,
    notes: &Notes,
    script: &Script,
    tally: Tally,
    index: usize,
) -> Result<Tally, NotesEnd>
    requires within { index < length script.now.call }
    requires tally { IsTally notes.now script.now index tally }
    ensures limit { GivesBy (λ _. tt) result (call_limit notes.now script.now index) }
    ensures tally { IfOk result (IsTally notes.now script.now (index + 1)) }
{
    let call = &script.call.as_slice()[index];
    met_at(alloc, index < MAX_CALLS, "call", index, "signature")?;
    let load = made_limit(alloc, notes, script, tally.load, index)?;
    let callbacks = tally.callbacks + call.enter.len() as u128;
    met_at(alloc, callbacks <= MAX_CALLBACKS, "call", index, "enter")?;
    Ok(Tally { load, callbacks })
}

// The calls keep the limits, after objects at the start that take this.
#[tactic(auto, unfolding(crate::specs::Limits::calls_limit))]
fn calls_limit(alloc: Global, notes: &Notes, script: &Script, load: Load) -> Result<(), NotesEnd>
    requires { IsLoad notes.now script.now.object load }
    ensures { Gives result (calls_limit notes.now script.now) }
{
    let mut tally = Tally { load, callbacks: 0 };
    for i in 0..script.call.len() {
        tally = call_limit(alloc, notes, script, tally, i)?;
    }
    Ok(())
}

/// Nothing where a script keeps its limits.
///
/// # Errors
///
/// `TomlFault::Range` with the path of the key with which it first passes one; no memory.
#[tactic(auto, unfolding(crate::specs::Limits::limits))]
pub fn keep_limits(alloc: Global, notes: &Notes, script: &Script) -> Result<(), NotesEnd>
    ensures { Gives result (limits notes.now script.now) }
{
    let load = objects_limit(alloc, notes, script.object.as_slice())?;
    calls_limit(alloc, notes, script, load)
}

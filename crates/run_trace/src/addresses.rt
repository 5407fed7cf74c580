//! What a number is as an address of a run (docs/HOST.md, "Memory").
ghost use Rattle.std.specs.Prelude.{◌≡◌, ◌^◌, ◌<◌, length};
ghost use Rattle.run_trace.specs.Addresses.{image_place, meaning_of, native_thing, thing_past_gate};

use note_types::Notes;
use step_texts::{Meaning, Thing};

/// Where an address lies: in the object of that number, in the order in which they were placed, and how far past its beginning.
#[derive(Clone, Copy)]
pub struct Located {
    pub object: u64,
    pub offset: u64,
}

// The thing of the native area past the gate that has a number.
fn thing_past_gate(notes: &Notes, k: u64) -> Thing
    ensures { result ≡ thing_past_gate notes.now k }
{
    let methods = notes.methods.len() as u64;
    let functions = notes.function.len() as u64;
    if k < methods {
        Thing::Method(k)
    } else if k - methods < functions {
        Thing::Entry(k - methods)
    } else {
        Thing::Handle(k - methods - functions)
    }
}

// The thing of the native area that has a number.
fn native_thing(notes: &Notes, k: u64) -> Thing
    ensures { result ≡ native_thing notes.now k }
{
    if k == 0 {
        Thing::Gate
    } else {
        thing_past_gate(notes, k - 1)
    }
}

// A place of the image, which has 32 bits.
fn image_place(offset: u64) -> Option<Meaning>
    ensures { result ≡ image_place offset }
{
    match u32::try_from(offset) {
        Ok(place) => Some(Meaning::Place(place)),
        Err(_) => None,
    }
}

/// What lies there, under the notes of the run.
#[tactic(auto, unfolding(crate::specs::Addresses::meaning_of))]
pub(crate) fn meaning_of(notes: &Notes, located: Located) -> Option<Meaning>
    requires few { located.object < 2 ^ 60 }
    requires statics { length notes.now.statics < 2 ^ 32 }
    ensures { result ≡ meaning_of notes.now located }
{
    let Located { object, offset } = located;
    let (thing, bytes) = match object {
        0 => (native_thing(notes, offset / 16), offset % 16),
        1 => (Thing::Stack, offset),
        2 => return image_place(offset),
        _ => (
            Thing::Object(notes.statics.len() as u64 + (object - 3)),
            offset,
        ),
    };
    Some(Meaning::Past { thing, bytes })
}

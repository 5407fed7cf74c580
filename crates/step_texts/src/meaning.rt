//! What a number is as an address of a run.
ghost use Rattle.std.specs.Prelude.{◌≡◌, ◌++◌, [], Some, option_map};
ghost use Rattle.std.specs.Option.{option_map_or};
ghost use Rattle.script_draft.specs.Printed.{function_name, method_name};
ghost use Rattle.step_texts.specs.StepTexts.{image_text, meaning_part, number_part, past_text, thing_text};

use crate::numbers::Number;
use crate::step::Change;
use note_types::Notes;
use printed_texts::function_at;
use std::fmt::{self, Display};

/// What a number is as an address of a run.
#[derive(Clone, Copy)]
pub enum Meaning {
    /// A place of the image.
    Place(u32),
    /// So many bytes past the beginning of a thing.
    Past { thing: Thing, bytes: u64 },
}

/// A thing outside the image that has an address in a run. Methods, functions, handles and typed objects have numbers.
#[derive(Clone, Copy)]
pub enum Thing {
    /// The address to which the functions return that the host enters.
    Gate,
    /// A native method.
    Method(u64),
    /// The thunk of a function.
    Entry(u64),
    /// A handle.
    Handle(u64),
    /// The stack.
    Stack,
    /// A typed object that the script has, or that one of its calls made.
    Object(u64),
}

/// A word, and a name behind it; nothing where there is no name.
#[derive(Clone, Copy)]
pub(crate) struct Named<'a>(pub &'static str, pub Option<&'a str>);

impl fmt::Display for Named<'_> {
    ghost output = { λ n. Some (option_map_or (λ name. n.0.now ++ name.now) n.1 []) };

    fn fmt<W: fmt::Write>(&self, f: &mut fmt::Formatter<W>) -> fmt::Result {
        let word = self.0;
        match self.1 {
            Some(name) => write!(f, "{word}{name}"),
            None => Ok(()),
        }
    }
}

// The name of a method.
fn method_name(notes: &Notes, method: u64) -> Option<&str>
    ensures { option_map (λ name. name.now) result ≡ method_name notes.now method }
{
    match notes.methods.as_slice().get(method as usize) {
        Some(name) => Some(name.as_str()),
        None => None,
    }
}

/// The name of a function.
pub(crate) fn function_name(notes: &Notes, function: u64) -> Option<&str>
    ensures { option_map (λ name. name.now) result ≡ function_name notes.now function }
{
    match notes.function.as_slice().get(function as usize) {
        Some(function) => Some(function.name.as_str()),
        None => None,
    }
}

// A thing by its name, as scripts have it.
#[derive(Clone, Copy)]
struct ShownThing<'a> {
    notes: &'a Notes,
    thing: Thing,
}

impl fmt::Display for ShownThing<'_> {
    ghost output = { λ s. Some (thing_text s.notes.now s.thing) };

    #[tactic(auto, unfolding(script_draft::specs::Printed::named_value, script_draft::specs::Printed::value_text))]
    fn fmt<W: fmt::Write>(&self, f: &mut fmt::Formatter<W>) -> fmt::Result {
        match self.thing {
            Thing::Gate => f.write_str("gate"),
            Thing::Method(method) => Named("method ", method_name(self.notes, method)).fmt(f),
            Thing::Entry(function) => Named("entry ", function_name(self.notes, function)).fmt(f),
            Thing::Handle(k) => write!(f, "handle {k}"),
            Thing::Stack => f.write_str("stack"),
            Thing::Object(k) => write!(f, "ptr {k} 0"),
        }
    }
}

// How far past something, if at all.
#[derive(Clone, Copy)]
struct PastText(u64);

impl fmt::Display for PastText {
    ghost output = { λ p. Some (past_text p.0) };

    fn fmt<W: fmt::Write>(&self, f: &mut fmt::Formatter<W>) -> fmt::Result {
        let bytes = self.0;
        if bytes == 0 {
            Ok(())
        } else {
            write!(f, "+0x{bytes:x}")
        }
    }
}

// A place of the image by the function that it belongs to, if it belongs to one.
#[derive(Clone, Copy)]
struct ImagePlace<'a> {
    notes: &'a Notes,
    place: u32,
}

impl fmt::Display for ImagePlace<'_> {
    ghost output = { λ p. Some (image_text p.notes.now p.place) };

    fn fmt<W: fmt::Write>(&self, f: &mut fmt::Formatter<W>) -> fmt::Result {
        let place = self.place;
        match function_at(self.notes, place) {
            None => write!(f, "image+0x{place:x}"),
            Some(function) => {
                let name = function.name.as_str();
                let offset = place.saturating_sub(function.place);
                write!(f, "{name}+0x{offset:x}")
            }
        }
    }
}

// What a number is as an address of a run, behind a space; nothing if it is none.
#[derive(Clone, Copy)]
struct MeaningPart<'a> {
    notes: &'a Notes,
    meaning: Option<Meaning>,
}

impl fmt::Display for MeaningPart<'_> {
    ghost output = { λ m. Some (meaning_part m.notes.now m.meaning) };

    fn fmt<W: fmt::Write>(&self, f: &mut fmt::Formatter<W>) -> fmt::Result {
        let notes = self.notes;
        match self.meaning {
            None => Ok(()),
            Some(Meaning::Place(place)) => {
                let place = ImagePlace { notes, place };
                write!(f, " {place}")
            }
            Some(Meaning::Past { thing, bytes }) => {
                let thing = ShownThing { notes, thing };
                let past = PastText(bytes);
                write!(f, " {thing}{past}")
            }
        }
    }
}

/// A number, and what it is as an address of a run.
#[derive(Clone, Copy)]
pub(crate) struct NumberPart<'a>(pub &'a Notes, pub Change);

impl fmt::Display for NumberPart<'_> {
    ghost output = { λ x. Some (number_part x.0.now x.1) };

    fn fmt<W: fmt::Write>(&self, f: &mut fmt::Formatter<W>) -> fmt::Result {
        let number = Number(self.1.number);
        let meaning = MeaningPart {
            notes: self.0,
            meaning: self.1.meaning,
        };
        write!(f, "{number}{meaning}")
    }
}

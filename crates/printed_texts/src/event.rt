//! Events of runs.
ghost use Rattle.std.specs.Prelude.{◌≡◌, ◌++◌, ◌∷◌, [], OnOk, codes, string_bytes};
ghost use Rattle.note_types.specs.declared.event.Event.TheVariants.{Called, Replied};
ghost use Rattle.printed_texts.specs.RunTexts.{argument_text, arguments_text, event_line, function_text};
ghost use Rattle.script_draft.specs.Printed.{value_text};

use crate::number::Place;
use crate::value::{ShownArgument, ShownValue, function_text, signature_text};
use ebc_base::NoMemory;
use note_types::{Event, Notes, Seen, Value};
use std::alloc::Global;

/// Appends a text.
pub(crate) fn append(text: &str, out: &mut Vec<u8>) -> Result<(), NoMemory>
    ensures { OnOk result (out.new.items ≡ out.old.items ++ text.now) }
{
    out.extend_from_slice(text.as_bytes())?;
    Ok(())
}

// Appends an argument, after a space.
fn append_argument(
    alloc: Global,
    notes: &Notes,
    seen: Seen,
    out: &mut Vec<u8>,
) -> Result<(), NoMemory>
    ensures { OnOk result (out.new.items ≡ out.old.items ++ argument_text notes.now seen) }
{
    let seen = ShownArgument { notes, seen };
    let text = format!(in alloc; " {seen}")?;
    append(text.as_str(), out)
}

// Appends the arguments in their order.
fn append_arguments(
    alloc: Global,
    notes: &Notes,
    args: &[Seen],
    out: &mut Vec<u8>,
) -> Result<(), NoMemory>
    ensures { OnOk result (out.new.items ≡ out.old.items ++ arguments_text notes.now args.now) }
{
    for seen in args {
        append_argument(alloc, notes, *seen, out)?;
    }
    Ok(())
}

// Appends a line that ends with arguments.
fn append_line(
    alloc: Global,
    notes: &Notes,
    head: &str,
    args: &[Seen],
    out: &mut Vec<u8>,
) -> Result<(), NoMemory>
    ensures { OnOk result (out.new.items ≡ out.old.items ++ (head.now ++ (arguments_text notes.now args.now ++ codes "\n"))) }
{
    append(head, out)?;
    append_arguments(alloc, notes, args, out)?;
    append("\n", out)
}

fn append_called(
    alloc: Global,
    notes: &Notes,
    place: u32,
    signature: Option<u32>,
    args: &[Seen],
    out: &mut Vec<u8>,
) -> Result<(), NoMemory>
    ensures { OnOk result (out.new.items ≡ out.old.items ++ event_line notes.now (Called place signature args.now)) }
{
    let place = Place(place);
    let name = signature_text(notes, signature);
    let head = format!(in alloc; "call {place} {name}")?;
    append_line(alloc, notes, head.as_str(), args, out)
}

// Appends the line of a function that is entered, by its first word.
fn append_entered(
    alloc: Global,
    notes: &Notes,
    word: &str,
    func: u32,
    args: &[Seen],
    out: &mut Vec<u8>,
) -> Result<(), NoMemory>
    ensures { OnOk result (out.new.items ≡ out.old.items
        ++ (word.now ++ (codes " " ++ (function_text notes.now func ++ (arguments_text notes.now args.now ++ codes "\n"))))) }
{
    let name = function_text(notes, func);
    let head = format!(in alloc; "{word} {name}")?;
    append_line(alloc, notes, head.as_str(), args, out)
}

// Appends the line of a function that returned, by its first word.
fn append_returned(
    alloc: Global,
    notes: &Notes,
    word: &str,
    func: u32,
    value: Value,
    out: &mut Vec<u8>,
) -> Result<(), NoMemory>
    ensures { OnOk result (out.new.items ≡ out.old.items
        ++ (word.now ++ (codes " " ++ (function_text notes.now func ++ (codes " " ++ (value_text notes.now value ++ codes "\n")))))) }
{
    let name = function_text(notes, func);
    let value = ShownValue { notes, value };
    let line = format!(in alloc; "{word} {name} {value}\n")?;
    append(line.as_str(), out)
}

fn append_replied(
    alloc: Global,
    notes: &Notes,
    entry: u32,
    value: Value,
    out: &mut Vec<u8>,
) -> Result<(), NoMemory>
    ensures { OnOk result (out.new.items ≡ out.old.items ++ event_line notes.now (Replied entry value)) }
{
    let value = ShownValue { notes, value };
    let line = format!(in alloc; "reply {entry} {value}\n")?;
    append(line.as_str(), out)
}

/// Appends the line of an event, with the things of the notes by their names.
///
/// # Errors
///
/// Want of memory alone.
pub fn append_event(
    alloc: Global,
    notes: &Notes,
    event: &Event,
    out: &mut Vec<u8>,
) -> Result<(), NoMemory>
    ensures { OnOk result (out.new.items ≡ out.old.items ++ event_line notes.now event.now) }
{
    match event {
        Event::Called {
            place,
            signature,
            args,
        } => append_called(alloc, notes, *place, *signature, args.as_slice(), out),
        Event::Entered { func, args } => {
            append_entered(alloc, notes, "enter", *func, args.as_slice(), out)
        }
        Event::Returned { func, value } => {
            append_returned(alloc, notes, "return", *func, *value, out)
        }
        Event::Replied { entry, value } => append_replied(alloc, notes, *entry, *value, out),
        Event::Notified { func, args } => {
            append_entered(alloc, notes, "notify", *func, args.as_slice(), out)
        }
        Event::Resumed { func, value } => {
            append_returned(alloc, notes, "resume", *func, *value, out)
        }
    }
}

//! The lines of what a run holds between two steps.
ghost use Rattle.std.specs.Prelude.{◌≡◌, ◌++◌, OnOk, option_map};
ghost use Rattle.step_texts.specs.StateTexts.{address_line, back_line, call_line, function_line, holdings_text, signature_name};

use crate::changes::{append_registers, flag_line};
use crate::meaning::{Named, NumberPart, function_name};
use crate::step::Change;
use crate::text::LINE_ROOM;
use note_types::{NoMemory, Notes};
use printed_texts::Place;
use std::alloc::Global;

/// What the machine of a run holds between two steps.
#[derive(Clone, Copy)]
pub struct Holdings {
    /// R0 to R7, each of which is told.
    pub registers: [Option<Change>; 8],
    /// The address of the next instruction.
    pub ip: Change,
    /// Whether C is set.
    pub has_c: bool,
}

/// A native call that is under way.
#[derive(Clone, Copy)]
pub enum OpenCall {
    /// The call instruction at this place asks for it, and the firmware hasn't taken it yet.
    Asked(u32),
    /// The firmware answers it by the script's call of that number, from 0, which has that signature.
    Accepted { entry: u32, signature: Option<u32> },
}

/// A function that the firmware entered and that hasn't returned. Its number is that of the notes.
#[derive(Clone, Copy)]
pub struct OpenFunction {
    pub function: u64,
    /// Whether it was entered as a notification.
    pub notified: bool,
    /// Where the run goes on once it has returned.
    pub back: Change,
}

// Appends the line of an address behind a word.
fn append_address(
    alloc: Global,
    notes: &Notes,
    word: &str,
    address: Change,
    out: &mut Vec<u8>,
) -> Result<(), NoMemory>
    ensures { OnOk result (out.new.items ≡ out.old.items ++ address_line notes.now word.now address) }
{
    let address = NumberPart(notes, address);
    let mut line = String::with_capacity(alloc, LINE_ROOM)?;
    write!(line, "  {word} {address}\n")?;
    out.extend_from_slice(line.as_bytes())?;
    Ok(())
}

/// Appends the lines of what the machine holds.
///
/// # Errors
///
/// Want of memory alone.
pub fn append_holdings(
    alloc: Global,
    notes: &Notes,
    holdings: &Holdings,
    out: &mut Vec<u8>,
) -> Result<(), NoMemory>
    ensures { OnOk result (out.new.items ≡ out.old.items ++ holdings_text notes.now holdings.now) }
{
    out.extend_from_slice(b"state\n")?;
    append_registers(alloc, notes, &holdings.registers, out)?;
    append_address(alloc, notes, "ip", holdings.ip, out)?;
    out.extend_from_slice(flag_line(Some(holdings.has_c)).as_bytes())?;
    Ok(())
}

// The name of a signature.
fn signature_name(notes: &Notes, signature: Option<u32>) -> Option<&str>
    ensures { option_map (λ name. name.now) result ≡ signature_name notes.now signature }
{
    match signature {
        None => None,
        Some(number) => match notes.signature.as_slice().get(number as usize) {
            Some(signature) => Some(signature.name.as_str()),
            None => None,
        },
    }
}

/// Appends the line of a native call that is under way, if one is.
///
/// # Errors
///
/// Want of memory alone.
pub fn append_open_call(
    alloc: Global,
    notes: &Notes,
    call: Option<OpenCall>,
    out: &mut Vec<u8>,
) -> Result<(), NoMemory>
    ensures { OnOk result (out.new.items ≡ out.old.items ++ call_line notes.now call) }
{
    let line = match call {
        None => return Ok(()),
        Some(OpenCall::Asked(place)) => {
            let place = Place(place);
            format!(in alloc; "  asked {place}\n")?
        }
        Some(OpenCall::Accepted { entry, signature }) => {
            let name = Named(" ", signature_name(notes, signature));
            format!(in alloc; "  called {entry}{name}\n")?
        }
    };
    out.extend_from_slice(line.as_bytes())?;
    Ok(())
}

/// Appends the line of a CALL of the image that hasn't returned, by the address to which it returns.
///
/// # Errors
///
/// Want of memory alone.
pub fn append_back(
    alloc: Global,
    notes: &Notes,
    back: Change,
    out: &mut Vec<u8>,
) -> Result<(), NoMemory>
    ensures { OnOk result (out.new.items ≡ out.old.items ++ back_line notes.now back) }
{
    append_address(alloc, notes, "back", back, out)
}

/// Appends the line of a function that the firmware entered and that hasn't returned.
///
/// # Errors
///
/// Want of memory alone.
pub fn append_open_function(
    alloc: Global,
    notes: &Notes,
    opened: &OpenFunction,
    out: &mut Vec<u8>,
) -> Result<(), NoMemory>
    ensures { OnOk result (out.new.items ≡ out.old.items ++ function_line notes.now opened.now) }
{
    let word = if opened.notified {
        "notified"
    } else {
        "entered"
    };
    let name = Named(" ", function_name(notes, opened.function));
    let back = NumberPart(notes, opened.back);
    let mut line = String::with_capacity(alloc, LINE_ROOM)?;
    write!(line, "  {word}{name} {back}\n")?;
    out.extend_from_slice(line.as_bytes())?;
    Ok(())
}

//! Reading the images, notes, sources, link plans and option ROMs that files hold.
ghost use Rattle.std.specs.Prelude.{◌≡◌, ◌<◌, ◌≤◌, ℕ, List, None, Result, All, IfSome, IfOk, IsErrOf, Ok, length};
ghost use Rattle.ebc_link.specs.Plans.{IsPlan};
ghost use Rattle.ebc_object.specs.Objects.{IsObject};
ghost use Rattle.note_types.specs.Records.{IsNotes};
ghost use Rattle.option_rom.specs.Takes.{IsTakeable};
ghost use Rattle.file_inputs.specs.Inputs.{image_with_notes, input, input_with_bytes, notes_limit, notes_meaning};
ghost use Rattle.file_inputs.specs.Inputs.{plan_limit, plan_meaning, rom_limit, rom_meaning, source_limit, source_meaning};
ghost use Rattle.file_inputs.specs.Reads.{Reads};
ghost use Rattle.cli_base.specs.Inputs.{IsReadImage, Means, image_limit, image_meaning};
ghost use Rattle.cli_base.specs.Outcomes.{IsBadInput};
ghost use Rattle.cli_base.specs.Outputs.{written_name};
ghost use Rattle.cli_base.specs.Readings.{IfStop};
ghost use Rattle.cli_base.specs.declared.reply.Reply.{Reply};

use crate::text;
use cli_base::{End, IMAGE_LIMIT, file, image_in};
use ebc_asm::{AsmEnd, assemble};
use ebc_base::Sequence;
use ebc_link::{LinkPlan, read_plan};
use ebc_object::Object;
use ebc_outside::Folder;
use note_types::{Notes, NotesEnd};
use option_rom::{RomEnd, RomImages, read_rom};
use pe_image::Image;
use std::alloc::Global;
use type_notes::read_notes;

/// What a file is read as.
pub trait Input: Sized {
    /// What the file of a word, by its number and its name, stands for, or the reply to its first fault.
    ghost meaning: { ℕ → List ℕ → List ℕ → Result Self Reply };

    /// What is known of all that is read.
    ghost IsValid: { Self → Type 0 };

    /// How many bytes the file may have.
    ghost LIMIT: { ℕ };

    /// How many bytes the file may have.
    const LIMIT: u64;

    /// What the bytes stand for, or why they stand for nothing. The file is that of a word, by its number and its name.
    fn of(alloc: Global, word: u8, name: &str, bytes: &[u8]) -> Result<Self, End>
        requires { length bytes.now ≤ LIMIT }
        ensures meaning { Means result (meaning word name.now bytes.now) }
        ensures valid { IfOk result IsValid }
        ensures stop { IfStop result (λ reply. IsBadInput reply.outcome) }
        ensures output { IfStop result (λ reply. written_name reply.output ≡ None) };
}

/// What is read in the file that a word names.
#[tactic(auto, unfolding(crate::specs::Inputs::input))]
pub fn read_as<T: Input, F: Folder>(
    alloc: Global,
    folder: &mut F,
    word: u8,
    name: &str,
) -> Result<T, End>
    ensures reads { Reads F.contents F.asked F.read_faults F.write_faults folder.old folder.new result
        (input T.LIMIT T.meaning word name.now) }
    ensures valid { IfOk result T.IsValid }
{
    let bytes = file(alloc, folder, word, name, T::LIMIT)?;
    T::of(alloc, word, name, bytes.as_slice())
}

/// What is read in the file that a word names, and its bytes.
#[tactic(auto, unfolding(crate::specs::Inputs::input_with_bytes))]
pub fn read_with_bytes<T: Input, F: Folder>(
    alloc: Global,
    folder: &mut F,
    word: u8,
    name: &str,
) -> Result<(T, Sequence<u8>), End>
    ensures reads { Reads F.contents F.asked F.read_faults F.write_faults folder.old folder.new result
        (input_with_bytes T.LIMIT T.meaning word name.now) }
    ensures meaning { IfOk result (λ read. T.meaning word name.now read.1 ≡ Ok read.0) }
    ensures valid { IfOk result (λ read. T.IsValid read.0) }
    ensures within { IfOk result (λ read. length read.1 ≤ T.LIMIT) }
{
    let bytes = file(alloc, folder, word, name, T::LIMIT)?;
    let value = T::of(alloc, word, name, bytes.as_slice())?;
    Ok((value, bytes))
}

/// An image and its notes, which a word and the next one name, by its number: the image is read whole before the notes.
#[tactic(auto, unfolding(crate::specs::Inputs::image_with_notes))]
pub fn read_image_with_notes<F: Folder>(
    alloc: Global,
    folder: &mut F,
    word: u8,
    image: &str,
    notes: &str,
) -> Result<(Image, Notes), End>
    requires { word < 255 }
    ensures reads { Reads F.contents F.asked F.read_faults F.write_faults folder.old folder.new result
        (image_with_notes word image.now notes.now) }
    ensures image { IfOk result (λ read. IsReadImage read.0) }
    ensures notes { IfOk result (λ read. IsNotes read.1) }
{
    let image = read_as(alloc, folder, word, image)?;
    // With `?` the drop of the image would be proved part by part once more.
    match read_as(alloc, folder, word + 1, notes) {
        Ok(notes) => Ok((image, notes)),
        Err(end) => Err(end),
    }
}

impl Input for Image {
    ghost meaning = { image_meaning };

    ghost IsValid = { IsReadImage };

    ghost LIMIT = { image_limit };

    const LIMIT: u64 = IMAGE_LIMIT;

    fn of(alloc: Global, word: u8, name: &str, bytes: &[u8]) -> Result<Image, End> {
        image_in(alloc, word, name, bytes)
    }
}

/// The notes that a text stands for, or the answer to its first fault. The bytes are those of a word, by its number and its name.
pub fn notes_in(alloc: Global, word: u8, name: &str, bytes: &[u8]) -> Result<Notes, End>
    ensures meaning { Means result (notes_meaning word name.now bytes.now) }
    ensures valid { IfOk result IsNotes }
    ensures stop { IfStop result (λ reply. IsBadInput reply.outcome) }
    ensures output { IfStop result (λ reply. written_name reply.output ≡ None) }
{
    match read_notes(alloc, bytes) {
        Ok(notes) => Ok(notes),
        Err(NotesEnd::Fault(fault)) => Err(End::Stop(text::bad_notes(alloc, word, name, &fault)?)),
        Err(NotesEnd::NoMemory) => Err(End::NoMemory),
    }
}

impl Input for Notes {
    ghost meaning = { notes_meaning };

    ghost IsValid = { IsNotes };

    ghost LIMIT = { notes_limit };

    const LIMIT: u64 = 1048576;

    fn of(alloc: Global, word: u8, name: &str, bytes: &[u8]) -> Result<Notes, End> {
        notes_in(alloc, word, name, bytes)
    }
}

// An object is read in its source.
impl Input for Object {
    ghost meaning = { source_meaning };

    ghost IsValid = { IsObject };

    ghost LIMIT = { source_limit };

    const LIMIT: u64 = 1048576;

    fn of(alloc: Global, word: u8, name: &str, bytes: &[u8]) -> Result<Object, End> {
        match assemble(alloc, bytes) {
            Ok(object) => Ok(object),
            Err(AsmEnd::Fault { kind, line }) => Err(End::Stop(text::bad_source(
                alloc, word, name, kind, line,
            )?)),
            Err(AsmEnd::NoMemory) => Err(End::NoMemory),
        }
    }
}

impl Input for LinkPlan {
    ghost meaning = { plan_meaning };

    ghost IsValid = { IsPlan };

    ghost LIMIT = { plan_limit };

    const LIMIT: u64 = 1048576;

    fn of(alloc: Global, word: u8, name: &str, bytes: &[u8]) -> Result<LinkPlan, End> {
        match read_plan(alloc, bytes) {
            Ok(plan) => Ok(plan),
            Err(NotesEnd::Fault(fault)) => Err(End::Stop(text::bad_plan(
                alloc, word, name, &fault,
            )?)),
            Err(NotesEnd::NoMemory) => Err(End::NoMemory),
        }
    }
}

impl Input for RomImages {
    ghost meaning = { rom_meaning };

    ghost IsValid = { All IsTakeable };

    ghost LIMIT = { rom_limit };

    const LIMIT: u64 = 16777216;

    fn of(alloc: Global, word: u8, name: &str, bytes: &[u8]) -> Result<RomImages, End> {
        match read_rom(alloc, bytes) {
            Ok(images) => Ok(images),
            Err(RomEnd::Fault { kind, offset }) => Err(End::Stop(text::bad_rom(
                alloc, word, name, kind, offset,
            )?)),
            Err(RomEnd::NoMemory) => Err(End::NoMemory),
        }
    }
}

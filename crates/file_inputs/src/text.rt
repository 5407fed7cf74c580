//! The answers to files that stand for nothing, each by its first fault.
ghost use Rattle.std.specs.Prelude.{◌≡◌, IfOk};
ghost use Rattle.option_rom.specs.Images.{end_of};
ghost use Rattle.file_inputs.specs.Inputs.{bad_notes_reply, bad_source_reply, bad_rom_reply, bad_taking_reply, taking_offset};
ghost use Rattle.file_inputs.specs.Inputs.{bad_object_reply, bad_plan_reply};

use crate::fault::{
    asm_fault_text, key_path, object_fault_number, object_fault_text, rom_fault_number,
    rom_fault_text, take_fault_number, take_fault_text, toml_fault_number, toml_fault_text,
};
use cli_base::Reply;
use cli_base::text::{bad, bad_at};
use ebc_asm::AsmFault;
use ebc_object::ObjectFault;
use note_types::TomlFault;
use option_rom::{RomFault, RomImage, TakeFault};
use std::alloc::{AllocError, Global};

/// The answer where the file of the name stands for no notes, or for no script under them.
pub fn bad_notes(
    alloc: Global,
    word: u8,
    name: &str,
    fault: &TomlFault,
) -> Result<Reply, AllocError>
    ensures { IfOk result (λ r. r ≡ bad_notes_reply word name.now fault.now) }
{
    let number = toml_fault_number(fault);
    bad(
        alloc,
        word,
        name,
        number,
        toml_fault_text(fault),
        key_path(fault),
    )
}

/// The answer where the file of the name stands for no object, by the lowest fault of its first line with one.
pub fn bad_source(
    alloc: Global,
    word: u8,
    name: &str,
    kind: AsmFault,
    line: u64,
) -> Result<Reply, AllocError>
    ensures { IfOk result (λ r. r ≡ bad_source_reply word name.now (kind, line)) }
{
    bad_at(alloc, word, name, kind.number(), asm_fault_text(kind), line)
}

/// The answer where the file of the name stands for no link plan.
pub fn bad_plan(alloc: Global, word: u8, name: &str, fault: &TomlFault) -> Result<Reply, AllocError>
    ensures { IfOk result (λ r. r ≡ bad_plan_reply word name.now fault.now) }
{
    let number = toml_fault_number(fault);
    bad(
        alloc,
        word,
        name,
        number,
        toml_fault_text(fault),
        key_path(fault),
    )
}

/// The answer where the file of the name is no object, by a fault at an offset.
pub fn bad_object(
    alloc: Global,
    word: u8,
    name: &str,
    kind: ObjectFault,
    offset: u64,
) -> Result<Reply, AllocError>
    ensures { IfOk result (λ r. r ≡ bad_object_reply word name.now (kind, offset)) }
{
    let number = object_fault_number(kind);
    bad_at(alloc, word, name, number, object_fault_text(kind), offset)
}

/// The answer where the file of the name is no option ROM, by a fault at an offset.
pub fn bad_rom(
    alloc: Global,
    word: u8,
    name: &str,
    kind: RomFault,
    offset: u32,
) -> Result<Reply, AllocError>
    ensures { IfOk result (λ r. r ≡ bad_rom_reply word name.now (kind, offset)) }
{
    let (number, fault) = (rom_fault_number(kind), rom_fault_text(kind));
    bad_at(alloc, word, name, number, fault, u64::from(offset))
}

// Where an image of an option ROM ends.
fn end_of(image: &RomImage) -> u64
    ensures { result ≡ end_of image.now }
{
    u64::from(image.offset) + 512 * u64::from(image.blocks)
}

// Where the image with a number begins, or the images end where none has it.
fn taking_offset(images: &[RomImage], number: u32) -> u64
    ensures { result ≡ taking_offset images.now number }
{
    if let Some(image) = images.get(number as usize) {
        return u64::from(image.offset);
    }
    match images.last() {
        Some(image) => end_of(image),
        None => 0,
    }
}

/// The answer where no image with a number is taken out of the option ROM of the name, which has these images.
pub fn bad_taking(
    alloc: Global,
    word: u8,
    name: &str,
    images: &[RomImage],
    number: u32,
    kind: TakeFault,
) -> Result<Reply, AllocError>
    ensures { IfOk result (λ r. r ≡ bad_taking_reply word name.now images.now number kind) }
{
    let offset = taking_offset(images, number);
    let fault = take_fault_number(kind);
    bad_at(alloc, word, name, fault, take_fault_text(kind), offset)
}

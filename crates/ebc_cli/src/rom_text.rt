//! The lines that are printed of an option ROM.
ghost use Rattle.std.specs.Prelude.{◌≡◌, ◌+◌, ◌<◌, ◌++◌, drop, length, Some, IfOk, OnOk, string_bytes};
ghost use Rattle.ebc_cli.specs.RomTexts.{compression_text, efi_text, last_mark, machine_text, rom_line, rom_lines, rom_listing};

use ebc_base::NoMemory;
use option_rom::{EfiPart, RomImage};
use printed_texts::Place;
use std::alloc::{AllocError, Global};
use std::fmt;

// A machine, printed in four hexadecimal digits.
#[derive(Clone, Copy, Debug, PartialEq, Eq)]
struct Machine(u16);

impl fmt::Display for Machine {
    ghost output = { λ p. Some (machine_text p.0) };

    #[tactic(auto, using(crate::proofs::HexLemmas::machine))]
    fn fmt<W: fmt::Write>(&self, f: &mut fmt::Formatter<W>) -> fmt::Result {
        let machine = self.0;
        write!(f, "{machine:04x}")
    }
}

// Whether what an image carries is compressed.
fn compression_text(compression: u16) -> &'static str
    ensures { result.now ≡ compression_text compression }
{
    if compression == 0 { "plain" } else { "packed" }
}

// What the header of an image says of its EFI image.
fn efi_text(alloc: Global, efi: Option<EfiPart>) -> Result<String, AllocError>
    ensures { IfOk result (λ text. string_bytes text ≡ efi_text efi) }
{
    match efi {
        None => Ok(String::new(alloc)),
        Some(efi) => {
            let subsystem = efi.subsystem;
            let machine = Machine(efi.machine);
            let compression = compression_text(efi.compression);
            format!(in alloc; " subsystem {subsystem} machine {machine} {compression}")
        }
    }
}

// The line of an image, with what stands at its end.
fn rom_line(
    alloc: Global,
    number: usize,
    image: &RomImage,
    mark: &str,
) -> Result<String, AllocError>
    ensures { IfOk result (λ text. string_bytes text ≡ rom_line number image.now mark.now) }
{
    let place = Place(image.offset);
    let blocks = image.blocks;
    let code_type = image.code_type;
    let efi = efi_text(alloc, image.efi)?;
    let efi = efi.as_str();
    format!(in alloc; "image {number} at {place} blocks {blocks} type {code_type}{efi}{mark}\n")
}

// The mark at the end of the last image's line.
fn last_mark(is_last: bool) -> &'static str
    ensures { result.now ≡ last_mark is_last }
{
    if is_last { " last" } else { "" }
}

// Appends the line of the image with a number.
fn append_line(
    alloc: Global,
    text: &mut Vec<u8>,
    images: &[RomImage],
    number: usize,
) -> Result<(), NoMemory>
    requires { number < length images.now }
    ensures { OnOk result (text.new.items ++ rom_lines (number + 1) (drop (number + 1) images.now)
        ≡ text.old.items ++ rom_lines number (drop number images.now)) }
{
    let mark = last_mark(number + 1 == images.len());
    let line = rom_line(alloc, number, &images[number], mark)?;
    text.extend_from_slice(line.as_bytes())?;
    Ok(())
}

/// The listing of an option ROM: a line for each of its images.
pub fn rom_listing(alloc: Global, images: &[RomImage]) -> Result<Vec<u8>, NoMemory>
    ensures { IfOk result (λ text. text.items ≡ rom_listing images.now) }
{
    let mut text = Vec::new(alloc);
    for number in 0..images.len() {
        append_line(alloc, &mut text, images, number)?;
    }
    Ok(text)
}

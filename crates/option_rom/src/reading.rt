//! The reading of an option ROM.

ghost use Rattle.std.specs.Prelude.{◌≡◌, ◌+◌, ◌*◌, ◌^◌, ◌<◌, ◌≤◌, ◌++◌, ◌∷◌, [], All, IfErr, IfOk, IfSome, OnOk, length};
ghost use Rattle.option_rom.specs.Conditions.{checked, header_checked, length_checked, size_at};
ghost use Rattle.option_rom.specs.Fields.{structure};
ghost use Rattle.option_rom.specs.Images.{IsRom, image_at};
ghost use Rattle.option_rom.specs.Roms.{Checks, Gives, TellsFirst, next_of, rom_of};
ghost use Rattle.option_rom.specs.Takes.{IsTakeable};

use crate::fault::{RomEnd, RomFault};
use crate::fields::{u16_at, u32_at};
use crate::image::{RomImage, RomImages};
use ebc_base::Sequence;
use std::alloc::Global;

// Where the PCI data structure of the image at an offset is: both begin as they should.
#[tactic(auto, unfolding(crate::specs::Conditions::header_checked, pe_image::specs::Fields::bytes_at))]
fn structure_of(file: &[u8], at: usize) -> Result<usize, RomEnd>
    requires small { length file.now ≤ 2 ^ 24 }
    requires at { at ≤ length file.now }
    ensures checks { Checks result (header_checked file.now at) }
    ensures header { OnOk result (at + 26 ≤ length file.now) }
    ensures place { IfOk result (λ place. place ≡ structure file.now at) }
    ensures data { IfOk result (λ place. place + 24 ≤ length file.now) }
{
    if file.len() < at + 26 {
        return Err(RomEnd::at(RomFault::Short, at));
    }
    if u16_at(file, at) != 0xAA55 {
        return Err(RomEnd::at(RomFault::Mark, at));
    }
    let place = at + usize::from(u16_at(file, at + 24));
    if file.len() < place + 24 {
        return Err(RomEnd::at(RomFault::Short, at));
    }
    if &file[place..place + 4] != b"PCIR".as_slice() {
        return Err(RomEnd::at(RomFault::Pcir, place));
    }
    Ok(place)
}

// How many bytes the image at an offset takes, whose PCI data structure is at a place: it ends in the file, and if its code
// type is EFI, it is signed so and its EFI image begins in it.
#[tactic(auto, unfolding(crate::specs::Conditions::length_checked))]
fn size_of(file: &[u8], at: usize, place: usize) -> Result<usize, RomEnd>
    requires small { length file.now ≤ 2 ^ 24 }
    requires header { at + 26 ≤ length file.now }
    requires place { place ≡ structure file.now at }
    requires data { place + 24 ≤ length file.now }
    ensures checks { Checks result (length_checked file.now at) }
    ensures size { IfOk result (λ size. size ≡ size_at file.now at) }
    ensures some { IfOk result (λ size. 0 < size) }
    ensures within { IfOk result (λ size. at + size ≤ length file.now) }
{
    let size = 512 * usize::from(u16_at(file, place + 16));
    if size == 0 || file.len() < at + size {
        return Err(RomEnd::at(RomFault::Length, place + 16));
    }
    if file[place + 20] == 3
        && (u32_at(file, at + 4) != 0x0EF1 || size < usize::from(u16_at(file, at + 22)))
    {
        return Err(RomEnd::at(RomFault::Efi, at + 4));
    }
    Ok(size)
}

// Appends the image at an offset. Gives the offset of the next one, and none where this is the last.
#[tactic(auto, unfolding(crate::specs::Conditions::checked, crate::specs::Roms::next_of))]
fn append_image(images: &mut Vec<RomImage>, file: &[u8], at: usize) -> Result<Option<usize>, RomEnd>
    requires small { length file.now ≤ 2 ^ 24 }
    requires at { at ≤ length file.now }
    ensures checks { Checks result (checked file.now at) }
    ensures image { OnOk result (images.new.items ≡ images.old.items ++ image_at file.now at ∷ []) }
    ensures next { IfOk result (λ next. next ≡ next_of file.now at) }
    ensures later { IfOk result (λ next. IfSome next (λ n. (at + 512 ≤ n) × (n ≤ length file.now))) }
{
    let place = structure_of(file, at)?;
    let size = size_of(file, at, place)?;
    images.push(RomImage::at(file, at, place))?;
    if file[place + 21] & 0x80 != 0 {
        Ok(None)
    } else {
        Ok(Some(at + size))
    }
}

/// The images of an option ROM, which has at most 16 MiB: of each the offset, the length and the code type, and what its header
/// says of an EFI image. Bytes behind the last image are passed over.
///
/// # Errors
///
/// The fault of the first condition that doesn't hold of an image, as docs/ROMS.md has them, with its offset in the file; and
/// want of memory.
pub fn read_rom(alloc: Global, file: &[u8]) -> Result<RomImages, RomEnd>
    requires { length file.now ≤ 2 ^ 24 }
    ensures reading { Gives result (rom_of file.now) }
    ensures rom { IfOk result (IsRom file.now) }
    ensures fault { IfErr result (TellsFirst file.now) }
    ensures takeable { IfOk result (All IsTakeable) }
{
    let mut images = Vec::new(alloc);
    let mut next = Some(0);
    while let Some(at) = next {
        next = append_image(&mut images, file, at)?;
    }
    Ok(Sequence::new(images))
}

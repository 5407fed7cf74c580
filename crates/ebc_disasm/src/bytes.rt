//! The targets of an image's relocations, and the bytes of its sections.

ghost use Rattle.std.specs.Prelude.{◌≡◌, ◌≤◌, IfOk, length, vec_len};
ghost use Rattle.pe_image.specs.Images.{IsImage};
ghost use Rattle.ebc_disasm.specs.Listings.{bytes_of, named};

use crate::lookups::{named_place, section_with};
use pe_image::{Image, Section};
use std::alloc::{AllocError, Global};

// The target of the relocation at a place, if it is in a section.
pub(crate) fn named(image: &Image, place: u32) -> Option<u32>
    requires { IsImage image.now }
    ensures { result ≡ named image.now place }
{
    let target = named_place(image, place);
    match section_with(image, target) {
        Some(_) => Some(target as u32),
        None => None,
    }
}

// All bytes of a section, with the zeros behind those of the file.
pub(crate) fn bytes_of(alloc: Global, section: &Section) -> Result<Vec<u8>, AllocError>
    requires { length section.now.bytes ≤ section.now.size }
    ensures bytes { IfOk result (λ bytes. bytes.items ≡ bytes_of section.now) }
    ensures len { IfOk result (λ bytes. vec_len bytes ≡ section.now.size) }
{
    let mut bytes = Vec::with_capacity(alloc, section.size as usize)?;
    bytes.extend_from_slice(section.bytes.as_slice())?;
    bytes.resize(section.size as usize, 0)?;
    Ok(bytes)
}

//! The reading of an image file.

ghost use Rattle.std.specs.Prelude.{◌≡◌, ◌+◌, ◌≤◌, length, IfOk};
ghost use Rattle.pe_image.specs.Images.{Gives, IsImage, image_of, is_kept, kept_sections, section_of};
ghost use Rattle.pe_image.specs.Mapped.{AreBytes};
ghost use Rattle.pe_image.specs.Walks.{IsSound};

use crate::fault::ImageEnd;
use crate::fields::bytes_at;
use crate::headers::Headers;
use crate::image::{Image, Section};
use crate::relocations::relocations;
use crate::section::SectionHeader;
use ebc_base::Sequence;
use std::alloc::{AllocError, Global};

/// The image that a file stands for.
///
/// # Errors
///
/// The first fault of the file, by the conditions of docs/IMAGES.md in their order, with the offset at which it is told;
/// and want of memory.
pub fn read_image(alloc: Global, file: &[u8]) -> Result<Image, ImageEnd>
    ensures reading { Gives result (image_of file.now) }
    ensures sound { IfOk result IsImage }
    ensures bytes { IfOk result AreBytes }
{
    let headers = Headers::of(file)?;
    headers.fit()?;
    headers.ascend()?;
    headers.align()?;
    let relocs = relocations(alloc, &headers)?;
    headers.enter()?;
    let sections = kept_sections(alloc, &headers)?;
    Ok(Image {
        base: headers.base(),
        entry: headers.entry(),
        size: headers.size(),
        subsystem: headers.subsystem(),
        sections: Sequence::new(sections),
        relocs: Sequence::new(relocs),
    })
}

// The sections but the one of the relocations.
#[tactic(auto, using(crate::proofs::Kept::kept_more, crate::proofs::Kept::passed_over, crate::proofs::Kept::all_kept))]
fn kept_sections(alloc: Global, headers: &Headers<'_>) -> Result<Vec<Section>, AllocError>
    requires { IsSound headers.now }
    ensures { IfOk result (λ kept. kept.items ≡ kept_sections headers.now) }
{
    let mut kept = Vec::new(alloc);
    for number in 0..headers.count() {
        let header = headers.section(number);
        if is_kept(headers.file(), &header) {
            kept.push(section_of(alloc, headers.file(), &header)?)?;
        }
    }
    Ok(kept)
}

// Whether it isn't the section of the relocations, by its name.
#[tactic(auto, unfolding(crate::specs::Images::is_kept))]
fn is_kept(file: &[u8], header: &SectionHeader) -> bool
    requires { header.now.at + 40 ≤ length file.now }
    ensures { result ≡ is_kept file.now header.now }
{
    *bytes_at(file, header.at, 8) != *b".reloc\0\0".as_slice()
}

// The section of a header.
#[tactic(auto, unfolding(crate::specs::Images::section_of))]
fn section_of(alloc: Global, file: &[u8], header: &SectionHeader) -> Result<Section, AllocError>
    requires at { header.now.at + 40 ≤ length file.now }
    requires raw { header.now.raw_at + header.now.raw_size ≤ length file.now }
    ensures { IfOk result (λ section. section ≡ section_of file.now header.now) }
{
    let mut name = [0; 8];
    name.copy_from_slice(bytes_at(file, header.at, 8));
    let count = header.raw_size.min(header.extent()) as usize;
    let bytes = bytes_at(file, header.raw_at as usize, count);
    Ok(Section {
        name,
        place: header.place,
        size: header.extent(),
        flags: header.flags,
        bytes: Sequence::new(Vec::from_slice(alloc, bytes)?),
    })
}

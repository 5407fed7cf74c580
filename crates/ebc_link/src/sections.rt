//! The sections of a linked image.

ghost use Rattle.pe_image.specs.Mapped.{laid};
ghost use Rattle.std.specs.Prelude.{◌≡◌, ℕ, ◌+◌, ◌<◌, ◌≤◌, ◌^◌, ◌++◌, length, IfOk, OnOk};
ghost use Rattle.pe_image.specs.Linked.{linked_sections, section_if};

use crate::layout::{CODE_START, rounded};
use ebc_base::Sequence;
use pe_image::Section;
use std::alloc::{AllocError, Global};

// Appends a section with these bytes, and none where there are no bytes.
fn append(
    sections: &mut Vec<Section>,
    name: [u8; 8],
    flags: u32,
    place: u32,
    bytes: Vec<u8>,
) -> Result<(), AllocError>
    requires { length bytes.items < 2 ^ 32 }
    ensures { OnOk result (sections.new.items ≡ sections.old.items ++ section_if name flags place bytes.items) }
{
    if bytes.is_empty() {
        return Ok(());
    }
    sections.push(Section {
        name,
        place,
        size: bytes.len() as u32,
        flags,
        bytes: Sequence::new(bytes),
    })?;
    Ok(())
}

/// The sections of some code and some data.
#[tactic(auto, unfolding(pe_image::specs::Linked::linked_sections))]
pub(crate) fn linked_sections(
    alloc: Global,
    text: Vec<u8>,
    contents: Vec<u8>,
) -> Result<Vec<Section>, AllocError>
    requires text { length text.items ≤ 2 ^ 30 }
    requires contents { length contents.items < 2 ^ 32 }
    ensures sections { IfOk result (λ sections. sections.items ≡ linked_sections text.items contents.items) }
    ensures bytes { IfOk result (λ sections. (x : ℕ) → laid sections.items x < 256) }
{
    let mut sections = Vec::new(alloc);
    let contents_place = rounded(0x1000, CODE_START + text.len() as u32);
    append(
        &mut sections,
        *b".text\0\0\0",
        0x6000_0020,
        CODE_START,
        text,
    )?;
    append(
        &mut sections,
        *b".data\0\0\0",
        0xC000_0040,
        contents_place,
        contents,
    )?;
    Ok(sections)
}

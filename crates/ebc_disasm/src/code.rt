//! What is listed at each place of the code of an image.

ghost use Rattle.std.specs.Prelude.{◌≡◌, ◌+◌, ◌++◌, All, IfOk, map};
ghost use Rattle.std.specs.List.{filter, flat_map};
ghost use Rattle.pe_image.specs.Images.{IsImage, IsSection};
ghost use Rattle.ebc_disasm.specs.CodeItems.{IsItem, items_of, line_of, says_bytes, section_items};
ghost use Rattle.ebc_disasm.specs.Listings.{has_code, section_lines};
ghost use Rattle.ebc_disasm.specs.Walks.{IsComing};

use crate::bytes::bytes_of;
use crate::places::labels;
use crate::sections::{Coming, has_code, next_at};
use asm_text::Listed;
use ebc_base::NoMemory;
use pe_image::{Image, Section};
use std::alloc::Global;

/// What is listed at a place: the line, and how many bytes it says.
#[derive(Clone, Copy)]
pub struct Item {
    /// The place, an offset from the image's base.
    pub place: u32,
    /// How many bytes the line says.
    pub count: usize,
    /// The line.
    pub line: Listed,
}

// Appends what is listed of a section, where it has code, and says what is to come behind it.
fn append_items<'a>(
    alloc: Global,
    image: &Image,
    section: &Section,
    coming: Coming<'a>,
    items: &mut Vec<Item>,
) -> Result<Coming<'a>, NoMemory>
    requires image { IsImage image.now }
    requires section { IsSection image.now.size section.now }
    requires coming { IsComing image.now section.now.place coming.relocs.now coming.labels.now }
    requires fit { All IsItem items.now.items }
    ensures items { IfOk result (λ after. items.new.items ≡ items.old.items ++ section_items image.now section.now) }
    ensures coming { IfOk result (λ after. IsComing image.now (section.now.place + section.now.size) after.relocs.now after.labels.now) }
    ensures fit { IfOk result (λ after. All IsItem items.new.items) }
{
    if !has_code(section) {
        return Ok(coming);
    }
    let bytes = bytes_of(alloc, section)?;
    let mut left = coming;
    let mut at = 0;
    while at < bytes.len() {
        let place = section.place + at as u32;
        let next = next_at(image, true, place, &bytes[at..], left);
        items.push(Item {
            place,
            count: next.count,
            line: next.line,
        })?;
        left = next.coming;
        at += next.count;
    }
    Ok(left)
}

/// What is listed at each place of the code of an image, in the order of the places: the lines are those of the listing that say
/// bytes of its sections with code.
///
/// # Errors
///
/// Want of memory alone.
pub fn code_items(alloc: Global, image: &Image) -> Result<Vec<Item>, NoMemory>
    requires { IsImage image.now }
    ensures items { IfOk result (λ items. items.items ≡ items_of image.now) }
    ensures listed { IfOk result (λ items. map line_of items.items
        ≡ filter says_bytes (flat_map (section_lines image.now) (filter has_code image.now.sections))) }
    ensures fit { IfOk result (λ items. All IsItem items.items) }
{
    let labels = labels(alloc, image)?;
    let mut items = Vec::new(alloc);
    let mut coming = Coming {
        relocs: image.relocs.as_slice(),
        labels: &labels,
    };
    for section in image.sections.as_slice() {
        coming = append_items(alloc, image, section, coming, &mut items)?;
    }
    Ok(items)
}

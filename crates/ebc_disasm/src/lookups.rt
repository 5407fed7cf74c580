//! What an image has at a place: its section is found by halving the sections, which ascend.

ghost use Rattle.std.specs.Prelude.{◌≡◌, ◌+◌, option_copied};
ghost use Rattle.ebc_width.specs.Bytes.{little_endian};
ghost use Rattle.pe_image.specs.Images.{IsImage};
ghost use Rattle.pe_image.specs.Mapped.{image_byte, named_place, section_byte, section_with};
ghost use Rattle.ebc_disasm.specs.Walks.{EndsParted};

use pe_image::{Image, Section};

// The place behind a section's last byte.
fn end_of(s: &Section) -> u64
    ensures { result ≡ s.now.place + s.now.size }
{
    u64::from(s.place) + u64::from(s.size)
}

// The number of the first section that ends behind a place. It looks at one more section each time that the image has twice as
// many.
fn first_past(image: &Image, place: u64) -> usize
    requires { IsImage image.now }
    ensures { EndsParted image.now.sections place result }
{
    image
        .sections
        .as_slice()
        .partition_point(|s| end_of(s) <= place)
}

/// The section that has the byte at a place, if there is one: the first that ends behind the place, where it begins there or
/// before.
pub(crate) fn section_with(image: &Image, place: u64) -> Option<&Section>
    requires { IsImage image.now }
    ensures { option_copied result ≡ section_with image.now place }
{
    let first = first_past(image, place);
    let section = image.sections.as_slice().get(first)?;
    if u64::from(section.place) <= place {
        Some(section)
    } else {
        None
    }
}

// A byte of a section: zeros follow those of the file.
fn section_byte(s: &Section, place: u64) -> u8
    ensures { result ≡ section_byte place s.now }
{
    let at = place.saturating_sub(u64::from(s.place)) as usize;
    s.bytes.as_slice().get(at).copied().unwrap_or(0)
}

/// The byte at a place: 0 in no section. It takes time in proportion to the number of digits of the number of sections.
#[tactic(auto, unfolding(pe_image::specs::Mapped::laid, pe_image::specs::Mapped::section_with))]
pub fn byte_at(image: &Image, place: u64) -> u8
    requires { IsImage image.now }
    ensures { result ≡ image_byte image.now place }
{
    match section_with(image, place) {
        Some(s) => section_byte(s, place),
        None => 0,
    }
}

// The number in the eight bytes from a place on.
fn number_at(image: &Image, place: u32) -> u64
    requires { IsImage image.now }
    ensures { result ≡ little_endian (image_byte image.now) place 8 }
{
    let p = u64::from(place);
    u64::from_le_bytes([
        byte_at(image, p),
        byte_at(image, p + 1),
        byte_at(image, p + 2),
        byte_at(image, p + 3),
        byte_at(image, p + 4),
        byte_at(image, p + 5),
        byte_at(image, p + 6),
        byte_at(image, p + 7),
    ])
}

/// The place that the relocated eight bytes at a place name.
#[tactic(auto, unfolding(pe_image::specs::Mapped::named_place))]
pub(crate) fn named_place(image: &Image, place: u32) -> u64
    requires { IsImage image.now }
    ensures { result ≡ named_place image.now place }
{
    number_at(image, place).wrapping_sub(image.base)
}

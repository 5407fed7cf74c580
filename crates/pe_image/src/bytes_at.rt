//! The bytes of an image at its places, as its file has them.

ghost use Rattle.std.specs.Prelude.{◌≡◌, option_copied};
ghost use Rattle.ebc_width.specs.Bytes.{little_endian};
ghost use Rattle.pe_image.specs.Mapped.{has_place, section_byte, section_with, image_byte, named_place};

use crate::image::{Image, Section};

// Whether a section has the byte at a place.
fn has_place(s: &Section, place: u64) -> bool
    ensures { result ≡ has_place place s.now }
{
    u64::from(s.place) <= place && place < u64::from(s.place) + u64::from(s.size)
}

// A byte of a section: zeros follow the section's bytes.
fn section_byte(s: &Section, place: u64) -> u8
    ensures { result ≡ section_byte place s.now }
{
    let at = place.saturating_sub(u64::from(s.place)) as usize;
    s.bytes.as_slice().get(at).copied().unwrap_or(0)
}

/// The section that has the byte at a place, if there is one.
#[tactic(auto, unfolding(crate::specs::Mapped::section_with))]
pub fn section_with(image: &Image, place: u64) -> Option<&Section>
    ensures { option_copied result ≡ section_with image.now place }
{
    image
        .sections
        .as_slice()
        .iter()
        .find(|s| has_place(s, place))
}

/// The byte at a place: 0 in no section.
#[tactic(auto, unfolding(crate::specs::Mapped::laid, crate::specs::Mapped::section_with))]
pub fn byte_at(image: &Image, place: u64) -> u8
    ensures { result ≡ image_byte image.now place }
{
    match section_with(image, place) {
        Some(s) => section_byte(s, place),
        None => 0,
    }
}

/// The number in the eight bytes from a place on.
pub fn number_at(image: &Image, place: u32) -> u64
    ensures { result ≡ little_endian (image_byte image.now) place 8 }
{
    let p = u64::from(place);
    u64::from_le_bytes([
        byte_at(image, p),
        byte_at(image, p + 1),
        byte_at(image, p + 2),
        byte_at(image, p + 3),
        byte_at(image, p + 4),
        byte_at(image, p + 5),
        byte_at(image, p + 6),
        byte_at(image, p + 7),
    ])
}

/// The place that the relocated eight bytes at a place name.
#[tactic(auto, unfolding(crate::specs::Mapped::named_place))]
pub fn named_place(image: &Image, place: u32) -> u64
    ensures { result ≡ named_place image.now place }
{
    number_at(image, place).wrapping_sub(image.base)
}

//! What holds of all bytes of an image from one place up to another.

ghost use Rattle.std.specs.Prelude.{◌≡◌, ◌↔◌, IfNone, IfSome, IsTrue, slice_get};
ghost use Rattle.std.specs.List.{Contains};
ghost use Rattle.pe_image.specs.Images.{IsImage};
ghost use Rattle.rules_image.specs.Images.{IsUnrelocated, IsZero};
ghost use Rattle.rules_image.specs.Contents.{AreZeroIn, HasNoReloc, IsFirstReloc, IsZeroIn};

use crate::marks::first_reloc;
use pe_image::{Image, Section};

// Whether the bytes that a section has from `from` up to `to` are zero.
fn is_zero_in(s: &Section, from: u32, to: u32) -> bool
    ensures { IsTrue result ↔ IsZeroIn s.now from to }
{
    let bytes = s.bytes.as_slice();
    let start = from.saturating_sub(s.place) as usize;
    let end = bytes.len().min(to.saturating_sub(s.place) as usize);
    for at in start..end {
        if bytes[at] != 0 {
            return false;
        }
    }
    true
}

// Whether the bytes that these sections have from `from` up to `to` are zero.
fn are_zero_in(sections: &[Section], from: u32, to: u32) -> bool
    ensures { IsTrue result ↔ AreZeroIn sections.now from to }
{
    for s in sections {
        if !is_zero_in(s, from, to) {
            return false;
        }
    }
    true
}

/// Whether the bytes from `from` up to `to` are zero.
pub(crate) fn is_zero(image: &Image, from: u32, to: u32) -> bool
    requires { IsImage image.now }
    ensures { IsTrue result ↔ IsZero image.now from to }
{
    are_zero_in(image.sections.as_slice(), from, to)
}

// The relocation of a number.
fn reloc_numbered(image: &Image, number: usize) -> Option<u32>
    ensures { result ≡ slice_get image.now.relocs number }
{
    image.relocs.as_slice().get(number).copied()
}

// The first relocation that doesn't end before a place or at it.
fn first_from(image: &Image, from: u32) -> Option<u32>
    requires { IsImage image.now }
    ensures some { IfSome result (IsFirstReloc image.now from) }
    ensures none { IfNone result (HasNoReloc image.now from) }
{
    reloc_numbered(image, first_reloc(image, from))
}

/// Whether no byte from `from` up to `to` is relocated.
pub(crate) fn is_unrelocated(image: &Image, from: u32, to: u32) -> bool
    requires { IsImage image.now }
    ensures { IsTrue result ↔ IsUnrelocated image.now from to }
{
    match first_from(image, from) {
        Some(r) => to <= r,
        None => true,
    }
}

/// Whether the eight bytes at a place are relocated.
pub(crate) fn is_relocated(image: &Image, place: u32) -> bool
    requires { IsImage image.now }
    ensures { IsTrue result ↔ Contains image.now.relocs place }
{
    match first_from(image, place) {
        Some(r) => r == place,
        None => false,
    }
}

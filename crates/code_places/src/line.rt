//! The line of a place.
ghost use Rattle.std.specs.Prelude.{◌≡◌, ◌+◌, ◌++◌, ◌<◌, ◌^◌, All, IfOk, OnOk, Some, string_bytes};
ghost use Rattle.std.specs.List.{flat_map};
ghost use Rattle.asm_text.specs.Numbers.{hex_text};
ghost use Rattle.ebc_disasm.specs.CodeItems.{IsItem};
ghost use Rattle.pe_image.specs.Images.{IsImage};
ghost use Rattle.code_places.specs.Places.{bytes_text, hex_place_text, place_line, places_text, target_part};

use crate::target::line_target;
use ebc_base::NoMemory;
use ebc_disasm::{Item, byte_at, code_items};
use pe_image::Image;
use std::alloc::{AllocError, Global};
use std::fmt;

// A place, as notes have it.
#[derive(Clone, Copy, PartialEq, Eq)]
struct Place(u32);

impl fmt::Display for Place {
    ghost output = { λ p. Some (hex_place_text p.0) };

    #[tactic(auto, unfolding(crate::specs::Places::hex_place_text))]
    fn fmt<W: fmt::Write>(&self, f: &mut fmt::Formatter<W>) -> fmt::Result {
        let place = self.0;
        write!(f, "0x{place:x}")
    }
}

// Appends a byte.
#[tactic(auto, using(asm_text::proofs::HexLaws::raw8))]
fn append_byte(byte: u8, out: &mut String) -> Result<(), AllocError>
    ensures { OnOk result (string_bytes out.new ≡ string_bytes out.old ++ hex_text 2 byte) }
{
    write!(out, "{byte:02x}")
}

// Appends the bytes from a place on, so many of them.
fn append_bytes(image: &Image, place: u32, count: usize, out: &mut String) -> Result<(), NoMemory>
    requires image { IsImage image.now }
    requires within { place + count < 2 ^ 23 }
    ensures { OnOk result (string_bytes out.new ≡ string_bytes out.old ++ bytes_text image.now place count) }
{
    for k in 0..count {
        append_byte(byte_at(image, u64::from(place) + k as u64), out)?;
    }
    Ok(())
}

// Appends the place that a line names, if it names one.
fn append_target(target: Option<u32>, out: &mut String) -> Result<(), AllocError>
    ensures { OnOk result (string_bytes out.new ≡ string_bytes out.old ++ target_part target) }
{
    if let Some(place) = target {
        let place = Place(place);
        write!(out, " ; {place}")?;
    }
    Ok(())
}

// Appends the line of a place.
#[tactic(auto, unfolding(crate::specs::Places::place_line))]
fn append_item(image: &Image, item: &Item, out: &mut String) -> Result<(), NoMemory>
    requires image { IsImage image.now }
    requires item { IsItem item.now }
    ensures { OnOk result (string_bytes out.new ≡ string_bytes out.old ++ place_line image.now item.now) }
{
    let place = Place(item.place);
    write!(out, "{place} ")?;
    append_bytes(image, item.place, item.count, out)?;
    out.push(' ')?;
    item.line.append_text(out)?;
    append_target(line_target(image, item), out)?;
    out.push('\n')?;
    Ok(())
}

/// The lines of the places of an image's code.
#[tactic(auto, unfolding(crate::specs::Places::places_text))]
pub(crate) fn places_text(alloc: Global, image: &Image) -> Result<Vec<u8>, NoMemory>
    requires { IsImage image.now }
    ensures { IfOk result (λ text. text.items ≡ places_text image.now) }
{
    let items = code_items(alloc, image)?;
    let mut out = String::new(alloc);
    for item in items.as_slice() {
        append_item(image, item, &mut out)?;
    }
    Ok(out.into_bytes())
}

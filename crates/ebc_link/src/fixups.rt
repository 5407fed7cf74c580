//! What fixups fill in.

ghost use Rattle.std.specs.Prelude.{◌≡◌, pos, negsuc, ◌+◌, ◌<◌, ◌≤◌, ◌^◌, ◌++◌, All, OnOk, length, map, filter, not};
ghost use Rattle.std.specs.List.{find};
ghost use Rattle.std.specs.Option.{option_map};
ghost use Rattle.ebc_width.specs.Width.{wrap64};
ghost use Rattle.ebc_object.specs.Objects.{width};
ghost use Rattle.ebc_object.specs.declared.object.Fixup.{Fixup};
ghost use Rattle.ebc_link.specs.Fixups.{bytes_for, counted, distance_to, holds_signed, in_section, is_address, is_near, is_whole, largest};
ghost use Rattle.ebc_link.specs.Fixups.{place_of, put_at, value_of, with_fixups};
ghost use Rattle.ebc_link.specs.Walks.{HasLowOffset, IsFixupOf, IsLow, IsWithin};

use crate::layout::Home;
use ebc_object::Fixup;
use std::alloc::AllocError;

// How many bytes a fixup of a kind fills in.
fn width(kind: u8) -> usize
    ensures width { result ≡ width kind }
    ensures small { result ≤ 8 }
{
    match kind {
        1 => 1,
        2 => 2,
        3 => 4,
        _ => 8,
    }
}

// How far the symbol of a fixup is from where the distance counts.
fn distance(places: &[u32], home: Home, fixup: &Fixup) -> i64
    requires low { IsLow home }
    requires symbol { fixup.now.symbol < length places.now }
    ensures { result ≡ distance_to places.now home fixup.now }
{
    let from = u64::from(home.start(fixup.section)) + u64::from(fixup.from);
    i64::from(places[fixup.symbol as usize]) - from as i64
}

// A distance as a kind of fixup counts it: words, or bytes.
fn counted(kind: u8, distance: i64) -> i64
    ensures { result ≡ counted kind distance }
{
    if kind == 1 { distance / 2 } else { distance }
}

// Whether a distance is a whole number of what a kind of fixup counts.
fn is_whole(kind: u8, distance: i64) -> bool
    ensures { result ≡ is_whole kind distance }
{
    if kind == 1 { distance % 2 == 0 } else { true }
}

// The smallest and the largest signed number in the bytes of a kind of fixup.
fn limits(kind: u8) -> (i64, i64)
    ensures smallest { result.0 ≡ negsuc (largest (width kind)) }
    ensures largest { result.1 ≡ pos (largest (width kind)) }
{
    match kind {
        1 => (-0x80, 0x7F),
        2 => (-0x8000, 0x7FFF),
        3 => (-0x8000_0000, 0x7FFF_FFFF),
        _ => (i64::MIN, i64::MAX),
    }
}

// Whether the bytes of a kind of fixup hold a signed number.
fn holds_signed(kind: u8, number: i64) -> bool
    ensures { result ≡ holds_signed (width kind) number }
{
    let (smallest, largest) = limits(kind);
    smallest <= number && number <= largest
}

/// Whether the bytes of a fixup hold its distance; an address has none.
#[tactic(auto, unfolding(crate::specs::Fixups::is_near))]
pub(crate) fn is_near(places: &[u32], home: Home, fixup: &Fixup) -> bool
    requires low { IsLow home }
    requires symbol { fixup.now.symbol < length places.now }
    ensures { result ≡ is_near places.now home fixup.now }
{
    let kind = fixup.kind;
    if kind == 5 {
        return true;
    }
    let distance = distance(places, home, fixup);
    is_whole(kind, distance) && holds_signed(kind, counted(kind, distance))
}

/// Where the first fixup is whose bytes don't hold its distance.
pub(crate) fn first_far(fixups: &[Fixup], places: &[u32], home: Home) -> Option<u32>
    requires low { IsLow home }
    requires fixups { All (IsFixupOf (length places.now)) fixups.now }
    ensures { result ≡ option_map (place_of home) (find (λ (f : Fixup). not (is_near places.now home f)) fixups.now) }
{
    for fixup in fixups {
        if !is_near(places, home, fixup) {
            return Some(home.start(fixup.section) + fixup.offset);
        }
    }
    None
}

// Whether a fixup fills in an address in a section.
fn is_address(section: u8, fixup: &Fixup) -> bool
    ensures { result ≡ is_address section fixup.now }
{
    fixup.kind == 5 && fixup.section == section
}

/// Appends the places of the addresses in a section.
pub(crate) fn append_relocs(
    relocs: &mut Vec<u32>,
    fixups: &[Fixup],
    home: Home,
    section: u8,
) -> Result<(), AllocError>
    requires low { IsLow home }
    requires offsets { All HasLowOffset fixups.now }
    ensures { OnOk result (relocs.new.items ≡ relocs.old.items ++ map (place_of home) (filter (is_address section) fixups.now)) }
{
    for fixup in fixups {
        if is_address(section, fixup) {
            relocs.push(home.start(fixup.section) + fixup.offset)?;
        }
    }
    Ok(())
}

// What a fixup fills in, in an image for this base.
#[tactic(auto, unfolding(crate::specs::Fixups::value_of))]
fn value(base: u64, places: &[u32], home: Home, fixup: &Fixup) -> u64
    requires base { base < 2 ^ 32 }
    requires low { IsLow home }
    requires symbol { fixup.now.symbol < length places.now }
    ensures { result ≡ wrap64 (value_of base places.now home fixup.now) }
{
    if fixup.kind == 5 {
        base + u64::from(places[fixup.symbol as usize])
    } else {
        counted(fixup.kind, distance(places, home, fixup)).cast_unsigned()
    }
}

// Puts bytes over others from an offset on.
#[tactic(auto, unfolding(crate::specs::Fixups::put_at))]
fn put(bytes: &mut [u8], at: usize, over: &[u8])
    requires { at + length over.now ≤ length bytes.old }
    ensures { bytes.new ≡ put_at bytes.old at over.now }
{
    bytes[at..at + over.len()].copy_from_slice(over);
}

// Fills in a fixup among the bytes of its section, in an image for this base.
#[tactic(auto, unfolding(crate::specs::Fixups::bytes_for))]
fn fill_in(bytes: &mut [u8], base: u64, places: &[u32], home: Home, fixup: &Fixup)
    requires base { base < 2 ^ 32 }
    requires low { IsLow home }
    requires symbol { fixup.now.symbol < length places.now }
    requires within { fixup.now.offset + width fixup.now.kind ≤ length bytes.old }
    ensures { bytes.new ≡ put_at bytes.old fixup.now.offset (bytes_for base places.now home fixup.now) }
{
    let number = value(base, places, home, fixup).to_le_bytes();
    put(bytes, fixup.offset as usize, &number[..width(fixup.kind)]);
}

/// Fills in the fixups of a section among its bytes, in an image for this base.
pub(crate) fn fill(
    bytes: &mut [u8],
    fixups: &[Fixup],
    section: u8,
    base: u64,
    places: &[u32],
    home: Home,
)
    requires base { base < 2 ^ 32 }
    requires low { IsLow home }
    requires fixups { All (IsFixupOf (length places.now)) fixups.now }
    requires within { All (IsWithin section (length bytes.old)) fixups.now }
    ensures { bytes.new ≡ with_fixups (bytes_for base places.now home) bytes.old (in_section section fixups.now) }
{
    for fixup in fixups {
        if fixup.section == section {
            fill_in(bytes, base, places, home, fixup);
        }
    }
}

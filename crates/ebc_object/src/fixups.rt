//! The fixups of an object file.

ghost use Rattle.std.specs.Prelude.{◌≡◌, ◌+◌, ◌*◌, ◌<◌, ◌≤◌, ◌^◌, ◌++◌, ◌∷◌, [], length, IfOk, OnOk};
ghost use Rattle.ebc_object.specs.Files.{fixup_size};
ghost use Rattle.ebc_object.specs.Objects.{most};
ghost use Rattle.ebc_object.specs.Readings.{Gives, GivesBy, ends_before, fixup_at, fixups_at, place_at};
ghost use Rattle.ebc_object.specs.Walks.{HasLast, last_ends_before};

use crate::fault::{ObjectEnd, ObjectFault};
use crate::fields::{byte_at, require, u32_at};
use crate::object::Fixup;
use crate::sections::{Sections, has_zeros, width};
use std::alloc::Global;

/// Where a fixup fills in bytes, and by what.
#[derive(Clone, Copy, PartialEq, Eq)]
pub(crate) struct Place {
    pub section: u8,
    pub kind: u8,
    pub offset: u32,
}

// Whether a fixup ends before an offset of a section, or in a section before.
fn ends_before(section: u8, offset: u32, fixup: &Fixup) -> bool
    ensures { result ≡ ends_before section offset fixup.now }
{
    fixup.section < section
        || (fixup.section == section
            && u64::from(fixup.offset) + width(fixup.kind) as u64 <= u64::from(offset))
}

// Whether the last of some fixups does.
pub fn last_ends_before(section: u8, offset: u32, fixups: &[Fixup]) -> bool
    ensures { result ≡ last_ends_before section offset fixups.now }
{
    match fixups.last() {
        Some(fixup) => ends_before(section, offset, fixup),
        None => true,
    }
}

// Where the fixup at an offset fills in bytes, behind those of other fixups.
#[tactic(auto, unfolding(crate::specs::Readings::place_at))]
fn place_at(
    file: &[u8],
    sections: &Sections<'_>,
    before: &[Fixup],
    at: usize,
) -> Result<Place, ObjectEnd>
    requires at { at ≤ length file.now }
    requires last { HasLast before.now }
    ensures place { Gives result (place_at file.now sections.now.code.now sections.now.contents.now before.now at) }
    ensures within { OnOk result (at + 6 ≤ length file.now) }
{
    let section = byte_at(file, at)?;
    require(1 <= section && section <= 2, ObjectFault::Range, at)?;
    let kind = byte_at(file, at + 1)?;
    require(1 <= kind && kind <= 5, ObjectFault::Range, at + 1)?;
    let offset = u32_at(file, at + 2)?;
    let zeros = has_zeros(sections.bytes(section), offset, width(kind));
    require(zeros, ObjectFault::Range, at + 2)?;
    let behind = last_ends_before(section, offset, before);
    require(behind, ObjectFault::Order, at + 2)?;
    Ok(Place {
        section,
        kind,
        offset,
    })
}

// The fixup at an offset, behind others.
#[tactic(auto, unfolding(crate::specs::Readings::fixup_at))]
fn fixup_at(
    file: &[u8],
    sections: &Sections<'_>,
    symbols: usize,
    before: &[Fixup],
    at: usize,
) -> Result<Fixup, ObjectEnd>
    requires at { at ≤ length file.now }
    requires last { HasLast before.now }
    ensures fixup { Gives result (fixup_at file.now sections.now.code.now sections.now.contents.now symbols before.now at) }
    ensures within { OnOk result (at + fixup_size ≤ length file.now) }
{
    let place = place_at(file, sections, before, at)?;
    let symbol = u32_at(file, at + 6)?;
    require((symbol as usize) < symbols, ObjectFault::Range, at + 6)?;
    let from = u32_at(file, at + 10)?;
    Ok(Fixup {
        section: place.section,
        kind: place.kind,
        offset: place.offset,
        symbol,
        from,
    })
}

// So many fixups from an offset on, for so many symbols.
pub fn fixups_at(
    alloc: Global,
    file: &[u8],
    sections: &Sections<'_>,
    symbols: usize,
    count: usize,
    start: usize,
) -> Result<Vec<Fixup>, ObjectEnd>
    requires count { count ≤ most }
    requires start { start ≤ length file.now }
    ensures fixups { GivesBy (λ fixups. fixups.items) result
        (fixups_at count file.now sections.now.code.now sections.now.contents.now symbols [] start) }
    ensures within { OnOk result (start + fixup_size * count ≤ length file.now) }
{
    let mut fixups = Vec::new(alloc);
    let mut at = start;
    for _read in 0..count {
        let fixup = fixup_at(file, sections, symbols, fixups.as_slice(), at)?;
        at += 14;
        fixups.push(fixup)?;
    }
    Ok(fixups)
}

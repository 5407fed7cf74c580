//! Base relocations (PE/COFF specification, "The .reloc Section (Image Only)").

ghost use Rattle.std.specs.Prelude.{◌≡◌, ℕ, ◌+◌, ◌-◌, ◌*◌, ◌/◌, ◌<◌, ◌≤◌, ◌^◌, ◌++◌, ◌&&◌, List, [], ◌∷◌, length, true, false, IfOk, OnOk};
ghost use Rattle.std.specs.Prelude.{IfSome, IfNone};
ghost use Rattle.std.specs.Bool.{OnTrue};
ghost use Rattle.pe_image.specs.Conditions.{block_conditions, entry_conditions, is_entry, is_past, need, relocation_conditions};
ghost use Rattle.pe_image.specs.Headers.{end_of, in_section, section_at, section_count};
ghost use Rattle.pe_image.specs.Images.{Checks, relocations};
ghost use Rattle.pe_image.specs.Relocations.{block_entries, block_size, entries, entry_at, is_block, named, page_at};
ghost use Rattle.pe_image.specs.Walks.{HasPassed, IsSound, LiesAt};

use crate::fault::{ImageEnd, ImageFault};
use crate::fields::{u16_at, u32_at};
use crate::headers::Headers;
use std::alloc::{AllocError, Global};

/// An entry of a block: its offset in the file, its type, and the place that it names if it is of a type that names one.
#[derive(Clone, Copy, PartialEq, Eq)]
pub(crate) struct Entry {
    pub at: usize,
    pub kind: u16,
    pub place: u64,
}

/// Where in a file some bytes lie.
#[derive(Clone, Copy, PartialEq, Eq)]
pub(crate) struct Span {
    pub start: usize,
    pub end: usize,
}

/// Where a section lies: its number, the place at which it begins, and where it ends.
#[derive(Clone, Copy, PartialEq, Eq)]
pub(crate) struct Room {
    pub section: usize,
    pub begin: u64,
    pub end: u64,
}

// The relocated places found so far.
#[derive(Drop)]
struct Found {
    places: Vec<u32>,
    // Where the next place begins, or later.
    floor: u64,
    // The section of the last place, and at first one of no bytes. The sections before it end below the floor.
    room: Room,
}

/// The relocated places, in their order.
#[tactic(auto, unfolding(crate::specs::Conditions::relocation_conditions, crate::specs::Images::relocations))]
pub(crate) fn relocations(alloc: Global, headers: &Headers<'_>) -> Result<Vec<u32>, ImageEnd>
    requires { IsSound headers.now }
    ensures checks { Checks result (relocation_conditions headers.now) }
    ensures places { IfOk result (λ places. places.items ≡ relocations headers.now) }
{
    if !headers.has_directory() {
        return Ok(Vec::new(alloc));
    }
    let Some(home) = headers.home() else {
        return Err(ImageEnd::at(ImageFault::Reloc, headers.directory()));
    };
    let span = headers.span_in(&home);
    let mut found = Found::new(alloc, (span.end - span.start) / 2)?;
    found.take_all(headers, span)?;
    Ok(found.places)
}

impl Found {
    // No place yet, with memory for so many.
    fn new(alloc: Global, count: usize) -> Result<Found, AllocError>
        ensures places { IfOk result (λ found. found.places.items ≡ []) }
        ensures passed { IfOk result (λ found. (file : List ℕ) → HasPassed file found.places.items found.floor found.room) }
    {
        Ok(Found {
            places: Vec::with_capacity(alloc, count)?,
            floor: 0,
            room: Room {
                section: 0,
                begin: 0,
                end: 0,
            },
        })
    }

    // Takes what all blocks name.
    fn take_all(&mut self, headers: &Headers<'_>, span: Span) -> Result<(), ImageEnd>
        requires sound { IsSound headers.now }
        requires passed { HasPassed headers.now self.old.places.items self.old.floor self.old.room }
        requires order { span.start ≤ span.end }
        requires end { span.end ≤ length headers.now }
        ensures checks { Checks result (block_conditions headers.now span.end self.old.places.items span.start) }
        ensures places { OnOk result (self.new.places.items ≡ self.old.places.items ++ named (entries headers.now span.end span.start)) }
    {
        let mut at = span.start;
        while at < span.end {
            let Some(size) = size_of_block(headers.file(), at, span.end) else {
                return Err(ImageEnd::at(ImageFault::Reloc, at));
            };
            self.take_block(headers, at, size)?;
            at += size;
        }
        Ok(())
    }

    // Takes what the entries of a block name.
    fn take_block(&mut self, headers: &Headers<'_>, at: usize, size: usize) -> Result<(), ImageEnd>
        requires sound { IsSound headers.now }
        requires passed { HasPassed headers.now self.old.places.items self.old.floor self.old.room }
        requires size { size ≡ block_size headers.now at }
        requires fields { 8 ≤ size }
        requires end { at + size ≤ length headers.now }
        ensures checks { Checks result (entry_conditions headers.now self.old.places.items (block_entries headers.now at)) }
        ensures places { OnOk result (self.new.places.items ≡ self.old.places.items ++ named (block_entries headers.now at)) }
        ensures passed { OnOk result (HasPassed headers.now self.new.places.items self.new.floor self.new.room) }
    {
        let file = headers.file();
        let page = page_of_block(file, at);
        for number in 0..(size - 8) / 2 {
            self.take(headers, entry_at(file, page, at + 8 + 2 * number))?;
        }
        Ok(())
    }

    // Takes what an entry names.
    #[tactic(auto, using(crate::proofs::Entries::of_no_type, crate::proofs::Entries::of_type_0, crate::proofs::Entries::of_type_10, crate::proofs::Entries::names_none, crate::proofs::Entries::names_one, crate::proofs::Entries::no_more))]
    fn take(&mut self, headers: &Headers<'_>, entry: Entry) -> Result<(), ImageEnd>
        requires sound { IsSound headers.now }
        requires passed { HasPassed headers.now self.old.places.items self.old.floor self.old.room }
        requires place { entry.place < 2 ^ 33 }
        ensures checks { Checks result (need (is_entry headers.now self.old.places.items entry) ImageFault.Reloc entry.at ∷ []) }
        ensures places { OnOk result (self.new.places.items ≡ self.old.places.items ++ named (entry ∷ [])) }
        ensures passed { OnOk result (HasPassed headers.now self.new.places.items self.new.floor self.new.room) }
    {
        match entry.kind {
            0 => Ok(()),
            10 => self.take_place(headers, entry.at, entry.place),
            _ => Err(ImageEnd::at(ImageFault::Reloc, entry.at)),
        }
    }

    // Takes a place that an entry names.
    fn take_place(&mut self, headers: &Headers<'_>, at: usize, place: u64) -> Result<(), ImageEnd>
        requires sound { IsSound headers.now }
        requires passed { HasPassed headers.now self.old.places.items self.old.floor self.old.room }
        requires place { place < 2 ^ 33 }
        ensures checks { Checks result (need (is_past self.old.places.items place && in_section headers.now place 8) ImageFault.Reloc at ∷
            []) }
        ensures places { OnOk result (self.new.places.items ≡ self.old.places.items ++ place ∷ []) }
        ensures passed { OnOk result (HasPassed headers.now self.new.places.items self.new.floor self.new.room) }
    {
        if !self.reach(headers, place) {
            return Err(ImageEnd::at(ImageFault::Reloc, at));
        }
        self.places.push(place as u32)?;
        self.floor = place + 8;
        Ok(())
    }

    // Whether a section has the eight bytes at a place, which isn't too low: the room is that section's then.
    fn reach(&mut self, headers: &Headers<'_>, place: u64) -> bool
        requires sound { IsSound headers.now }
        requires passed { HasPassed headers.now self.old.places.items self.old.floor self.old.room }
        requires place { place < 2 ^ 33 }
        ensures has { result ≡ (is_past self.old.places.items place && in_section headers.now place 8) }
        ensures above { OnTrue result (self.old.floor ≤ place) }
        ensures small { OnTrue result (place < 2 ^ 32) }
        ensures passed { OnTrue result ((i : ℕ) → i < self.new.room.section → end_of (section_at headers.now i) < place + 8) }
        ensures lies { OnTrue result (LiesAt headers.now self.new.room) }
        ensures places { self.new.places.items ≡ self.old.places.items }
    {
        if place < self.floor {
            return false;
        }
        if self.room.begin <= place && place + 8 <= self.room.end {
            return true;
        }
        let section = headers.first_past(self.room.section, place + 8);
        if section == headers.count() {
            return false;
        }
        let header = headers.section(section);
        let begin = u64::from(header.place);
        if place < begin {
            return false;
        }
        self.room = Room {
            section,
            begin,
            end: header.end(),
        };
        true
    }
}

// How many bytes the block at an offset has: none where there is no block that lies below an end.
#[tactic(auto, unfolding(crate::specs::Relocations::block_size, crate::specs::Relocations::is_block))]
fn size_of_block(file: &[u8], at: usize, end: usize) -> Option<usize>
    requires order { at ≤ end }
    requires end { end ≤ length file.now }
    ensures size { IfSome result (λ size. size ≡ block_size file.now at) }
    ensures there { IfSome result (λ size. is_block file.now end at ≡ true) }
    ensures fields { IfSome result (λ size. 8 ≤ size) }
    ensures below { IfSome result (λ size. at + size ≤ end) }
    ensures none { IfNone result (is_block file.now end at ≡ false) }
{
    if end - at < 8 {
        return None;
    }
    let size = u32_at(file, at + 4) as usize;
    if size < 8 || size % 2 != 0 || end - at < size {
        None
    } else {
        Some(size)
    }
}

// The page of the block at an offset.
#[tactic(auto, unfolding(crate::specs::Relocations::page_at))]
fn page_of_block(file: &[u8], at: usize) -> u32
    requires { at + 4 ≤ length file.now }
    ensures { result ≡ page_at file.now at }
{
    u32_at(file, at)
}

// The entry at an offset, of a block with this page.
#[tactic(auto, unfolding(crate::specs::Relocations::entry_at))]
fn entry_at(file: &[u8], page: u32, at: usize) -> Entry
    requires { at + 2 ≤ length file.now }
    ensures entry { result ≡ entry_at file.now page at }
    ensures place { result.place < 2 ^ 33 }
{
    let raw = u16_at(file, at);
    Entry {
        at,
        kind: raw / 4096,
        place: u64::from(page) + u64::from(raw % 4096),
    }
}

//! The headers of an image file (PE/COFF specification, "File Headers" and "Section Table").

ghost use Rattle.std.specs.Prelude.{◌≡◌, ℕ, ◌+◌, ◌-◌, ◌*◌, ◌<◌, ◌≤◌, ◌^◌, ◌++◌, List, length, true, None, IfOk, IfSome, OnOk};
ghost use Rattle.std.specs.Bool.{OnTrue};
ghost use Rattle.pe_image.specs.Conditions.{align_conditions, entry_point_conditions, fit_conditions, fits, header_conditions, is_aligned};
ghost use Rattle.pe_image.specs.Conditions.{most, order_conditions, stub_conditions};
ghost use Rattle.pe_image.specs.Headers.{Ascends, HasHeaders, directory, directory_count, directory_place, directory_size, end_of};
ghost use Rattle.pe_image.specs.Headers.{entry_point, image_base, image_size, in_section, machine, magic, optional, optional_size};
ghost use Rattle.pe_image.specs.Headers.{section_alignment, section_at, section_count, section_table, signature, subsystem};
ghost use Rattle.pe_image.specs.Images.{Checks};
ghost use Rattle.pe_image.specs.Relocations.{has_blocks, has_directory, home, span_in};
ghost use Rattle.pe_image.specs.Walks.{IsNext, IsSound};

use crate::fault::{ImageEnd, ImageFault};
use crate::fields::{bytes_at, u16_at, u32_at, u64_at};
use crate::relocations::Span;
use crate::section::SectionHeader;
use std::marker::Model;

// How many bytes an image may take.
const MOST: u32 = 0x40_0000;

/// A file whose headers are there to be read. Contracts see it as the bytes of the file.
#[derive(Drop)]
pub(crate) struct Headers<'a> {
    file: &'a [u8],
    // Where the optional header and the section table begin.
    optional: usize,
    table: usize,
    // How many sections there are.
    count: usize,
}

impl<'a> Model for Headers<'a> {
    ghost use Rattle.std.specs.Prelude.{ℕ, List};
    ghost use Rattle.pe_image.specs.Headers.{IsPlan};

    ghost Value = { List ℕ };

    ghost view = { λ h. h.file.now };

    ghost invariant = { λ h. IsPlan h.file.now h.optional h.table h.count };
}

// Where the signature of a file is, which begins with a stub.
#[tactic(auto, unfolding(crate::specs::Headers::signature))]
fn signature_of(file: &[u8]) -> Result<usize, ImageEnd>
    ensures checks { Checks result (stub_conditions file.now) }
    ensures offset { IfOk result (λ at. at ≡ signature file.now) }
    ensures stub { OnOk result (64 ≤ length file.now) }
    ensures coff { OnOk result (signature file.now + 24 ≤ length file.now) }
    ensures small { IfOk result (λ at. at < 2 ^ 32) }
{
    if file.len() < 64 {
        return Err(ImageEnd::at(ImageFault::Short, 0));
    }
    if *bytes_at(file, 0, 2) != *b"MZ".as_slice() {
        return Err(ImageEnd::at(ImageFault::Mz, 0));
    }
    let at = u32_at(file, 60) as usize;
    if file.len() < at + 24 {
        return Err(ImageEnd::at(ImageFault::Short, 60));
    }
    if *bytes_at(file, at, 4) != *b"PE\0\0".as_slice() {
        return Err(ImageEnd::at(ImageFault::Pe, at));
    }
    Ok(at)
}

impl<'a> Headers<'a> {
    /// The headers of a file, which are those of an EBC image and lie in the file.
    pub fn of(file: &'a [u8]) -> Result<Headers<'a>, ImageEnd>
        ensures stub { Checks result (stub_conditions file.now ++ header_conditions file.now) }
        ensures file { IfOk result (λ h. h ≡ file.now) }
    {
        let at = signature_of(file)?;
        Self::behind(file, at)
    }

    // The headers behind a signature.
    #[tactic(auto, unfolding(crate::specs::Headers::machine, crate::specs::Headers::section_count, crate::specs::Headers::optional_size, crate::specs::Headers::optional, crate::specs::Headers::section_table, crate::specs::Headers::magic))]
    fn behind(file: &'a [u8], at: usize) -> Result<Headers<'a>, ImageEnd>
        requires stub { 64 ≤ length file.now }
        requires at { at ≡ signature file.now }
        requires coff { at + 24 ≤ length file.now }
        requires small { at < 2 ^ 32 }
        ensures checks { Checks result (header_conditions file.now) }
        ensures file { IfOk result (λ h. h ≡ file.now) }
    {
        if u16_at(file, at + 4) != 0x0EBC {
            return Err(ImageEnd::at(ImageFault::Machine, at + 4));
        }
        let count = usize::from(u16_at(file, at + 6));
        let size = usize::from(u16_at(file, at + 20));
        let optional = at + 24;
        let table = optional + size;
        if size < 112 || file.len() < table + 40 * count {
            return Err(ImageEnd::at(ImageFault::Short, at + 20));
        }
        if u16_at(file, optional) != 0x020B {
            return Err(ImageEnd::at(ImageFault::Magic, optional));
        }
        Ok(Headers {
            file,
            optional,
            table,
            count,
        })
    }

    // How many sections there are.
    pub fn count(&self) -> usize
        ensures { result ≡ section_count self.now }
    {
        self.count
    }

    // Where the entry point is.
    #[tactic(auto, unfolding(crate::specs::Headers::entry_point, crate::specs::Headers::section_table))]
    pub fn entry(&self) -> u32
        ensures { result ≡ entry_point self.now }
    {
        u32_at(self.file, self.optional + 16)
    }

    // The address for which the image was linked.
    #[tactic(auto, unfolding(crate::specs::Headers::image_base, crate::specs::Headers::section_table))]
    pub fn base(&self) -> u64
        ensures { result ≡ image_base self.now }
    {
        u64_at(self.file, self.optional + 24)
    }

    #[tactic(auto, unfolding(crate::specs::Headers::section_alignment, crate::specs::Headers::section_table))]
    fn alignment(&self) -> u32
        ensures { result ≡ section_alignment self.now }
    {
        u32_at(self.file, self.optional + 32)
    }

    // How many bytes of memory the image takes.
    #[tactic(auto, unfolding(crate::specs::Headers::image_size, crate::specs::Headers::section_table))]
    pub fn size(&self) -> u32
        ensures { result ≡ image_size self.now }
    {
        u32_at(self.file, self.optional + 56)
    }

    #[tactic(auto, unfolding(crate::specs::Headers::subsystem, crate::specs::Headers::section_table))]
    pub fn subsystem(&self) -> u16
        ensures { result ≡ subsystem self.now }
    {
        u16_at(self.file, self.optional + 68)
    }

    // The header of a section, by its number from 0.
    #[tactic(auto, unfolding(crate::specs::Headers::section_at))]
    pub fn section(&self, number: usize) -> SectionHeader
        requires { number < section_count self.now }
        ensures header { result ≡ section_at self.now number }
        ensures inside { result.at + 40 ≤ length self.now }
    {
        let at = self.table + 40 * number;
        SectionHeader {
            at,
            virtual_size: u32_at(self.file, at + 8),
            place: u32_at(self.file, at + 12),
            raw_size: u32_at(self.file, at + 16),
            raw_at: u32_at(self.file, at + 20),
            flags: u32_at(self.file, at + 36),
        }
    }

    // All bytes of the file.
    pub fn file(&self) -> &'a [u8]
        ensures { result.now ≡ self.now }
    {
        self.file
    }

    // Where the directory of the relocations is.
    #[tactic(auto, unfolding(crate::specs::Headers::directory, crate::specs::Headers::section_table))]
    pub fn directory(&self) -> usize
        ensures { result ≡ directory self.now }
    {
        self.optional + 152
    }

    // The place of the relocations.
    #[tactic(auto, unfolding(crate::specs::Headers::directory, crate::specs::Headers::directory_place, crate::specs::Headers::section_table))]
    fn directory_place(&self) -> u32
        requires { 160 ≤ optional_size self.now }
        ensures { result ≡ directory_place self.now }
    {
        u32_at(self.file, self.optional + 152)
    }

    // How many bytes the relocations have.
    #[tactic(auto, unfolding(crate::specs::Headers::directory, crate::specs::Headers::directory_size, crate::specs::Headers::section_table))]
    fn directory_size(&self) -> u32
        requires { 160 ≤ optional_size self.now }
        ensures { result ≡ directory_size self.now }
    {
        u32_at(self.file, self.optional + 156)
    }

    // Whether there are relocations.
    #[tactic(auto, unfolding(crate::specs::Headers::directory_count, crate::specs::Headers::section_table, crate::specs::Relocations::has_directory))]
    pub fn has_directory(&self) -> bool
        ensures there { result ≡ has_directory self.now }
        ensures size { OnTrue result (160 ≤ optional_size self.now) }
    {
        u32_at(self.file, self.optional + 108) > 5
            && self.table - self.optional >= 160
            && self.directory_size() > 0
    }

    // The first section whose raw data have the relocations.
    #[tactic(auto, using(crate::proofs::Sections::is_home, crate::proofs::Sections::no_home))]
    pub fn home(&self) -> Option<SectionHeader>
        requires size { 160 ≤ optional_size self.now }
        requires sound { IsSound self.now }
        ensures value { result ≡ home self.now }
        ensures there { IfSome result (λ s. has_blocks self.now s ≡ true) }
        ensures raw { IfSome result (λ s. s.raw_at + s.raw_size ≤ length self.now) }
    {
        for number in 0..self.count {
            let section = self.section(number);
            if self.has_blocks(&section) {
                return Some(section);
            }
        }
        None
    }

    fn has_blocks(&self, section: &SectionHeader) -> bool
        requires { 160 ≤ optional_size self.now }
        ensures { result ≡ has_blocks self.now section.now }
    {
        let place = u64::from(self.directory_place());
        let end = place + u64::from(self.directory_size());
        let raw_end = u64::from(section.place) + u64::from(section.raw_size);
        u64::from(section.place) <= place && end <= raw_end
    }

    // Where in the file the relocations are, in the raw data of a section.
    #[tactic(auto, unfolding(crate::specs::Relocations::span_in))]
    pub fn span_in(&self, section: &SectionHeader) -> Span
        requires size { 160 ≤ optional_size self.now }
        requires there { has_blocks self.now section.now ≡ true }
        requires raw { section.now.raw_at + section.now.raw_size ≤ length self.now }
        ensures value { result ≡ span_in self.now section.now }
        ensures order { result.start ≤ result.end }
        ensures end { result.end ≤ length self.now }
    {
        let start = section.raw_at as usize + (self.directory_place() - section.place) as usize;
        Span {
            start,
            end: start + self.directory_size() as usize,
        }
    }

    // The first section from a number on that ends at a place or past it, and the count of sections where none does.
    pub fn first_past(&self, from: usize, end: u64) -> usize
        requires { from ≤ section_count self.now }
        ensures { IsNext self.now from end result }
    {
        for number in from..self.count {
            if end <= self.section(number).end() {
                return number;
            }
        }
        self.count
    }

    // There is a section, and each has its raw data in the file and its bytes in the image, which isn't too large.
    #[tactic(auto, using(crate::proofs::Sections::no_section, crate::proofs::Sections::first_unfit, crate::proofs::Sections::all_fit))]
    pub fn fit(&self) -> Result<(), ImageEnd>
        ensures checks { Checks result (fit_conditions self.now) }
        ensures raw { OnOk result ((i : ℕ) → i < section_count self.now →
            (section_at self.now i).raw_at + (section_at self.now i).raw_size ≤ length self.now) }
        ensures ends { OnOk result ((i : ℕ) → i < section_count self.now → end_of (section_at self.now i) ≤ most) }
    {
        if self.count == 0 {
            return Err(ImageEnd::at(ImageFault::Section, self.table));
        }
        for number in 0..self.count {
            let section = self.section(number);
            if !self.fits(&section) {
                return Err(section.fault(ImageFault::Section));
            }
        }
        Ok(())
    }

    fn fits(&self, section: &SectionHeader) -> bool
        ensures { result ≡ fits self.now section.now }
    {
        let raw_end = u64::from(section.raw_at) + u64::from(section.raw_size);
        raw_end <= self.file.len() as u64
            && section.end() <= u64::from(self.size())
            && self.size() <= MOST
    }

    // Each section begins where the one before ends, or later.
    #[tactic(auto, using(crate::proofs::Sections::first_overlap, crate::proofs::Sections::all_ascend))]
    pub fn ascend(&self) -> Result<(), ImageEnd>
        ensures checks { Checks result (order_conditions self.now) }
        ensures ascends { OnOk result (Ascends self.now) }
    {
        for number in 0..self.count.saturating_sub(1) {
            let section = self.section(number + 1);
            if u64::from(section.place) < self.section(number).end() {
                return Err(section.fault(ImageFault::Overlap));
            }
        }
        Ok(())
    }

    // Each section begins at a multiple of the alignment.
    #[tactic(auto, using(crate::proofs::Sections::first_unaligned, crate::proofs::Sections::all_aligned))]
    pub fn align(&self) -> Result<(), ImageEnd>
        ensures { Checks result (align_conditions self.now) }
    {
        let alignment = self.alignment();
        for number in 0..self.count {
            let section = self.section(number);
            if !is_aligned(alignment, section.place) {
                return Err(section.fault(ImageFault::Align));
            }
        }
        Ok(())
    }

    // Whether the `count` bytes from a place on lie in a section.
    #[tactic(auto, using(crate::proofs::Sections::is_in_section, crate::proofs::Sections::in_no_section))]
    pub fn in_section(&self, place: u64, count: u64) -> bool
        requires { place + count < 2 ^ 64 }
        ensures { result ≡ in_section self.now place count }
    {
        for number in 0..self.count {
            if self.section(number).has(place, count) {
                return true;
            }
        }
        false
    }

    // The entry point is even, and lies in a section.
    #[tactic(auto, unfolding(crate::specs::Conditions::entry_point_conditions, crate::specs::Headers::section_table))]
    pub fn enter(&self) -> Result<(), ImageEnd>
        ensures { Checks result (entry_point_conditions self.now) }
    {
        let entry = self.entry();
        if entry % 2 != 0 || !self.in_section(u64::from(entry), 1) {
            return Err(ImageEnd::at(ImageFault::Entry, self.optional + 16));
        }
        Ok(())
    }
}

// Whether a place is a multiple of an alignment, which isn't 0.
fn is_aligned(alignment: u32, place: u32) -> bool
    ensures { result ≡ is_aligned alignment place }
{
    alignment != 0 && place % alignment == 0
}

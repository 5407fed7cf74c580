//! The lines of a section.

ghost use Rattle.std.specs.Prelude.{◌≡◌, ℕ, ◌+◌, ◌<◌, ◌≤◌, ◌++◌, ◌∷◌, [], ◌^◌, length, nat_eq, string_bytes, IfOk, OnOk};
ghost use Rattle.std.specs.List.{list_any};
ghost use Rattle.pe_image.specs.Images.{IsImage, IsSection};
ghost use Rattle.asm_text.specs.Writing.{ListedFits};
ghost use Rattle.ebc_disasm.specs.Listings.{has_code, heading, item_at, label_lines, labels, line_text, section_lines, text_of};
ghost use Rattle.ebc_disasm.specs.Walks.{IsComing, ItemFits, is_at};

use crate::bytes::bytes_of;
use crate::items::{Spot, is_at, item_at};
use crate::places::past;
use asm_text::Listed;
use ebc_base::NoMemory;
use pe_image::{Image, Section};
use std::alloc::Global;

// The relocations and labels that are still to come.
#[derive(Clone, Copy)]
pub(crate) struct Coming<'a> {
    pub relocs: &'a [u32],
    pub labels: &'a [u32],
}

// Appends a line.
fn append_line(line: Listed, out: &mut String) -> Result<(), NoMemory>
    requires { ListedFits line }
    ensures { OnOk result (string_bytes out.new ≡ string_bytes out.old ++ line_text line) }
{
    line.append_to(out)?;
    Ok(())
}

// Appends the lines before what is listed at a place, of which the next label is given.
#[tactic(auto, unfolding(crate::specs::Listings::label_lines, crate::specs::Listings::text_of))]
fn append_labels(
    image: &Image,
    place: u32,
    next: Option<u32>,
    out: &mut String,
) -> Result<(), NoMemory>
    requires { list_any (nat_eq place) (labels image.now) ≡ is_at place next }
    ensures { OnOk result (string_bytes out.new ≡ string_bytes out.old ++ text_of (label_lines image.now place)) }
{
    if place == image.entry {
        append_line(Listed::Global(place), out)?;
        append_line(Listed::Label(place), out)?;
        return Ok(());
    }
    if is_at(place, next) {
        append_line(Listed::Label(place), out)?;
    }
    Ok(())
}

// What comes next at a place: its label, what is listed there with the count of its bytes, and what is to come behind.
#[derive(Clone, Copy)]
pub(crate) struct Next<'a> {
    pub label: Option<u32>,
    pub line: Listed,
    pub count: usize,
    pub coming: Coming<'a>,
}

// What comes next at a place, where some bytes begin.
pub(crate) fn next_at<'a>(
    image: &Image,
    code: bool,
    place: u32,
    bytes: &[u8],
    coming: Coming<'a>,
) -> Next<'a>
    requires image { IsImage image.now }
    requires within { place + length bytes.now < 2 ^ 23 }
    requires some { 0 < length bytes.now }
    requires coming { IsComing image.now place coming.relocs.now coming.labels.now }
    ensures label { list_any (nat_eq place) (labels image.now) ≡ is_at place result.label }
    ensures item { (result.line, result.count) ≡ item_at image.now code place bytes.now }
    ensures fits { ItemFits (length bytes.now) (result.line, result.count) }
    ensures coming { IsComing image.now (place + 1) result.coming.relocs.now result.coming.labels.now }
{
    let relocs = past(coming.relocs, 8, place);
    let here = past(coming.labels, 1, place);
    let labels = past(here, 1, place + 1);
    let spot = Spot {
        place,
        reloc: relocs.first().copied(),
        label: labels.first().copied(),
    };
    let (line, count) = item_at(image, code, spot, bytes);
    Next {
        label: here.first().copied(),
        line,
        count,
        coming: Coming { relocs, labels },
    }
}

// Appends the lines of a place, and says how many bytes are listed by them, and what is to come.
fn append_item<'a>(
    image: &Image,
    code: bool,
    place: u32,
    bytes: &[u8],
    coming: Coming<'a>,
    out: &mut String,
) -> Result<(usize, Coming<'a>), NoMemory>
    requires image { IsImage image.now }
    requires within { place + length bytes.now < 2 ^ 23 }
    requires some { 0 < length bytes.now }
    requires coming { IsComing image.now place coming.relocs.now coming.labels.now }
    ensures lines { IfOk result (λ p.
        string_bytes out.new ≡
        string_bytes out.old ++ text_of (label_lines image.now place ++ (item_at image.now code place bytes.now).0 ∷ [])) }
    ensures count { IfOk result (λ p. (p.0 ≡ (item_at image.now code place bytes.now).1) × (1 ≤ p.0) × (p.0 ≤ length bytes.now)) }
    ensures coming { IfOk result (λ p. IsComing image.now (place + 1) p.1.relocs.now p.1.labels.now) }
{
    let next = next_at(image, code, place, bytes, coming);
    append_labels(image, place, next.label, out)?;
    append_line(next.line, out)?;
    Ok((next.count, next.coming))
}

// Whether a section has code.
pub(crate) fn has_code(section: &Section) -> bool
    ensures { result ≡ has_code section.now }
{
    section.flags / 32 % 2 == 1
}

// The first line of a section.
fn heading(code: bool) -> Listed
    ensures same { result ≡ heading code }
    ensures fits { ListedFits result }
{
    if code { Listed::Code } else { Listed::Data }
}

// Appends the lines of a section, and says what is to come behind it.
pub(crate) fn append_section<'a>(
    alloc: Global,
    image: &Image,
    section: &Section,
    coming: Coming<'a>,
    out: &mut String,
) -> Result<Coming<'a>, NoMemory>
    requires image { IsImage image.now }
    requires section { IsSection image.now.size section.now }
    requires coming { IsComing image.now section.now.place coming.relocs.now coming.labels.now }
    ensures lines { IfOk result (λ after. string_bytes out.new ≡ string_bytes out.old ++ text_of (section_lines image.now section.now)) }
    ensures coming { IfOk result (λ after. IsComing image.now (section.now.place + section.now.size) after.relocs.now after.labels.now) }
{
    let code = has_code(section);
    append_line(heading(code), out)?;
    let bytes = bytes_of(alloc, section)?;
    let mut left = coming;
    let mut at = 0;
    while at < bytes.len() {
        let place = section.place + at as u32;
        let (count, after) = append_item(image, code, place, &bytes[at..], left, out)?;
        left = after;
        at += count;
    }
    Ok(left)
}

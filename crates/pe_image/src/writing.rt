//! The writing of an image file, in the linker's layout.

ghost use Rattle.std.specs.Prelude.{◌≡◌, ◌+◌, ◌-◌, ◌*◌, ◌/◌, ◌<◌, ◌≤◌, ◌^◌, ◌++◌, ℕ, List, length, Ok, IfOk, OnOk, All, AllPairs, sum_by};
ghost use Rattle.std.specs.Prelude.{nat_eq};
ghost use Rattle.std.specs.List.{flat_map, prefix_len};
ghost use Rattle.pe_image.specs.Files.{block_bytes, entry_bytes, on_page, page_count, coff_bytes, directories_bytes, directory_bytes};
ghost use Rattle.pe_image.specs.Files.{file_of, file_sections, front_bytes, next_place, raw_bytes, raw_size, reloc_bytes, reloc_section};
ghost use Rattle.pe_image.specs.Files.{reloc_sections, rounded, section_header, section_headers, standard_bytes, stub_bytes, windows_bytes};
ghost use Rattle.pe_image.specs.Conditions.{most};
ghost use Rattle.pe_image.specs.Images.{IsBelow, image_of};
ghost use Rattle.pe_image.specs.Linked.{IsLinked, IsSmall};

use crate::bytes::{append, append_u16, append_u32, append_u64, append_zeros};
use crate::image::{Image, Section};
use ebc_base::{NoMemory, Sequence};
use std::alloc::{AllocError, Global};

// How many pages the largest image has.
pub(crate) const PAGES: u32 = 1024;

// The marks in front of the headers.
#[tactic(auto, unfolding(crate::specs::Files::stub_bytes))]
fn append_stub(file: &mut Vec<u8>) -> Result<(), AllocError>
    ensures { OnOk result (file.new.items ≡ file.old.items ++ stub_bytes) }
{
    append(file, b"MZ")?;
    append_zeros(file, 58)?;
    append_u32(file, 64)?;
    append(file, b"PE")?;
    append_zeros(file, 2)
}

// The COFF file header, for so many sections.
#[tactic(auto, unfolding(crate::specs::Files::coff_bytes))]
fn append_coff(file: &mut Vec<u8>, count: u16) -> Result<(), AllocError>
    ensures { OnOk result (file.new.items ≡ file.old.items ++ coff_bytes count) }
{
    append_u16(file, 0x0EBC)?;
    append_u16(file, count)?;
    append_zeros(file, 12)?;
    append_u16(file, 240)?;
    append_u16(file, 0x0022)
}

#[tactic(auto, unfolding(crate::specs::Files::standard_bytes))]
fn append_standard(file: &mut Vec<u8>, image: &Image) -> Result<(), AllocError>
    ensures { OnOk result (file.new.items ≡ file.old.items ++ standard_bytes image.now) }
{
    append_u16(file, 0x020B)?;
    append_zeros(file, 14)?;
    append_u32(file, image.entry)?;
    append_zeros(file, 4)?;
    append_u64(file, image.base)?;
    append_u32(file, 0x1000)?;
    append_u32(file, 0x200)
}

#[tactic(auto, unfolding(crate::specs::Files::windows_bytes))]
fn append_windows(file: &mut Vec<u8>, image: &Image) -> Result<(), AllocError>
    ensures { OnOk result (file.new.items ≡ file.old.items ++ windows_bytes image.now) }
{
    append_zeros(file, 16)?;
    append_u32(file, image.size)?;
    append_u32(file, 0x200)?;
    append_zeros(file, 4)?;
    append_u16(file, image.subsystem)?;
    append_zeros(file, 38)
}

// The directories: that of the relocations, for the section which has them, and none else.
#[tactic(auto, unfolding(crate::specs::Files::directories_bytes))]
fn append_directories(file: &mut Vec<u8>, relocs: &[Section]) -> Result<(), AllocError>
    ensures { OnOk result (file.new.items ≡ file.old.items ++ directories_bytes relocs.now) }
{
    append_u32(file, 16)?;
    append_zeros(file, 40)?;
    append_directory(file, relocs)?;
    append_zeros(file, 80)
}

fn append_directory(file: &mut Vec<u8>, relocs: &[Section]) -> Result<(), AllocError>
    ensures { OnOk result (file.new.items ≡ file.old.items ++ directory_bytes relocs.now) }
{
    match relocs {
        [] => append_zeros(file, 8),
        [section, ..] => {
            append_u32(file, section.place)?;
            append_u32(file, section.size)
        }
    }
}

// What stands before the section table.
#[tactic(auto, unfolding(crate::specs::Files::front_bytes))]
fn append_front(
    file: &mut Vec<u8>,
    image: &Image,
    relocs: &[Section],
    count: u16,
) -> Result<(), AllocError>
    requires relocs { relocs.now ≡ reloc_sections image.now }
    requires count { count ≡ length (file_sections image.now) }
    ensures { OnOk result (file.new.items ≡ file.old.items ++ front_bytes image.now) }
{
    append_stub(file)?;
    append_coff(file, count)?;
    append_standard(file, image)?;
    append_windows(file, image)?;
    append_directories(file, relocs)
}

// A number rounded up to a multiple of a unit.
fn rounded(unit: u32, number: u32) -> u32
    requires unit { 0 < unit }
    requires small { number + unit < 2 ^ 32 }
    ensures { result ≡ rounded unit number }
{
    (number + (unit - 1)) / unit * unit
}

// How many bytes of the file a section has.
fn raw_size(section: &Section) -> u32
    requires { IsSmall section.now }
    ensures size { result ≡ raw_size section.now }
    ensures small { result < 2 ^ 23 }
{
    rounded(0x200, section.bytes.len() as u32)
}

// The header of a section whose raw data begin at an offset.
#[tactic(auto, unfolding(crate::specs::Files::section_header))]
fn append_header(file: &mut Vec<u8>, at: u32, section: &Section) -> Result<(), AllocError>
    requires { IsSmall section.now }
    ensures { OnOk result (file.new.items ≡ file.old.items ++ section_header at section.now) }
{
    append(file, &section.name)?;
    append_u32(file, section.size)?;
    append_u32(file, section.place)?;
    append_u32(file, raw_size(section))?;
    append_u32(file, at)?;
    append_zeros(file, 12)?;
    append_u32(file, section.flags)
}

// The raw data of a section.
#[tactic(auto, unfolding(crate::specs::Files::raw_bytes))]
fn append_raw(file: &mut Vec<u8>, section: &Section) -> Result<(), AllocError>
    requires { IsSmall section.now }
    ensures { OnOk result (file.new.items ≡ file.old.items ++ raw_bytes section.now) }
{
    let bytes = section.bytes.as_slice();
    append(file, bytes)?;
    append_zeros(file, raw_size(section) as usize - bytes.len())
}

// The headers of sections whose raw data follow each other from an offset on. Gives the offset behind these.
#[tactic(auto, using(crate::proofs::Written::headers_none, crate::proofs::Written::headers_more))]
fn append_headers(file: &mut Vec<u8>, at: u32, sections: &[Section]) -> Result<u32, AllocError>
    requires small { All IsSmall sections.now }
    requires few { length sections.now ≤ 2 }
    requires at { at ≤ 2 ^ 30 }
    ensures items { OnOk result (file.new.items ≡ file.old.items ++ section_headers at sections.now) }
    ensures next { IfOk result (λ next. next ≡ at + sum_by raw_size sections.now) }
    ensures bound { IfOk result (λ next. next ≤ at + 2 ^ 23 * length sections.now) }
{
    let mut next = at;
    for section in sections {
        append_header(file, next, section)?;
        next += raw_size(section);
    }
    Ok(next)
}

// The raw data of sections.
fn append_raws(file: &mut Vec<u8>, sections: &[Section]) -> Result<(), AllocError>
    requires { All IsSmall sections.now }
    ensures { OnOk result (file.new.items ≡ file.old.items ++ flat_map raw_bytes sections.now) }
{
    for section in sections {
        append_raw(file, section)?;
    }
    Ok(())
}

// The block of a page with its places.
#[tactic(auto, unfolding(crate::specs::Files::block_bytes))]
fn append_block(file: &mut Vec<u8>, page: u32, places: &[u32]) -> Result<(), AllocError>
    requires page { page < page_count }
    requires few { length places.now < 2 ^ 20 }
    ensures { OnOk result (file.new.items ≡ file.old.items ++ block_bytes page places.now) }
{
    match places {
        [] => Ok(()),
        [_, ..] => {
            let odd = places.len() % 2;
            append_u32(file, 4096 * page)?;
            append_u32(file, (8 + 2 * (places.len() + odd)) as u32)?;
            append_entries(file, places)?;
            append_zeros(file, 2 * odd)
        }
    }
}

// The entries of a block.
fn append_entries(file: &mut Vec<u8>, places: &[u32]) -> Result<(), AllocError>
    ensures { OnOk result (file.new.items ≡ file.old.items ++ flat_map entry_bytes places.now) }
{
    for place in places {
        append_u16(file, (10 * 4096 + *place % 4096) as u16)?;
    }
    Ok(())
}

// How many of the first places lie on a page.
pub(crate) fn count_on(page: u32, places: &[u32]) -> usize
    ensures count { result ≡ prefix_len (λ p. nat_eq (p / 4096) page) places.now }
    ensures within { result ≤ length places.now }
{
    for (number, place) in places.iter().enumerate() {
        if *place / 4096 != page {
            return number;
        }
    }
    places.len()
}

// The blocks of relocations.
fn reloc_bytes(alloc: Global, places: &[u32]) -> Result<Vec<u8>, AllocError>
    requires apart { AllPairs IsBelow places.now }
    requires few { length places.now < 2 ^ 20 }
    ensures { IfOk result (λ bytes. bytes.items ≡ reloc_bytes places.now) }
{
    let mut bytes = Vec::new(alloc);
    let mut rest = places;
    for page in 0..PAGES {
        let (here, after) = rest.split_at(count_on(page, rest));
        append_block(&mut bytes, page, here)?;
        rest = after;
    }
    Ok(bytes)
}

// Where the next section begins, behind sections.
#[tactic(auto, unfolding(crate::specs::Files::next_place))]
fn next_place(sections: &[Section]) -> u32
    requires { All IsSmall sections.now }
    ensures { result ≡ next_place sections.now 0x1000 }
{
    let mut place = 0x1000;
    for section in sections {
        place = rounded(0x1000, section.place + section.size);
    }
    place
}

// The section of the relocations, and none where there are none.
#[tactic(auto, using(crate::proofs::Laid::few_places, crate::proofs::Laid::small_sections, crate::proofs::Laid::reloc_bytes_small, crate::proofs::Laid::one_unless_some), unfolding(crate::specs::Files::reloc_section, crate::specs::Files::reloc_sections))]
fn reloc_sections(alloc: Global, image: &Image) -> Result<Vec<Section>, AllocError>
    requires { IsLinked image.now }
    ensures { IfOk result (λ relocs. relocs.items ≡ reloc_sections image.now) }
{
    let mut relocs = Vec::new(alloc);
    if !image.relocs.is_empty() {
        let bytes = reloc_bytes(alloc, image.relocs.as_slice())?;
        relocs.push(Section {
            name: *b".reloc\0\0",
            place: next_place(image.sections.as_slice()),
            size: bytes.len() as u32,
            flags: 0x4200_0040,
            bytes: Sequence::new(bytes),
        })?;
    }
    Ok(relocs)
}

/// The file of an image in the linker's layout, from which the image is read again. docs/IMAGES.md, "What is written", has
/// the layout.
///
/// # Errors
///
/// Want of memory alone.
#[tactic(auto, using(crate::proofs::Laid::few_linked, crate::proofs::Laid::small_sections, crate::proofs::Laid::few_relocs, crate::proofs::Laid::small_relocs, crate::proofs::Laid::count_of), unfolding(crate::specs::Files::file_of))]
pub fn write_image(alloc: Global, image: &Image) -> Result<Vec<u8>, NoMemory>
    requires { IsLinked image.now }
    ensures layout { IfOk result (λ file. file.items ≡ file_of image.now) }
    ensures read_again { IfOk result (λ file. image_of file.items ≡ Ok image.now) }
{
    let sections = image.sections.as_slice();
    let relocs = reloc_sections(alloc, image)?;
    let count = sections.len() + relocs.len();
    let mut file = Vec::new(alloc);
    append_front(&mut file, image, &relocs, count as u16)?;
    let next = append_headers(&mut file, 0x200, sections)?;
    append_headers(&mut file, next, &relocs)?;
    append_zeros(&mut file, 0x200 - (328 + 40 * count))?;
    append_raws(&mut file, sections)?;
    append_raws(&mut file, &relocs)?;
    Ok(file)
}

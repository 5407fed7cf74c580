//! How large an image in the linker's layout is, before there is one.

ghost use Rattle.std.specs.Prelude.{◌≡◌, ◌+◌, ◌*◌, ◌<◌, ◌≤◌, ◌^◌, length, AllPairs};
ghost use Rattle.pe_image.specs.Files.{rounded};
ghost use Rattle.pe_image.specs.Images.{IsBelow};
ghost use Rattle.pe_image.specs.Sizes.{IsLinkedSize, block_length, relocs_length, size_of_linked};

use crate::writing::{PAGES, count_on};

// The first multiple of 0x1000 from an end on.
fn page_from(end: u64) -> u64
    requires { end < 2 ^ 63 }
    ensures place { result ≡ rounded 0x1000 end }
    ensures bound { result < end + 0x1000 }
{
    (end + 0xFFF) / 0x1000 * 0x1000
}

// How many bytes the block of a page with so many relocations has.
fn block_length(count: usize) -> u64
    requires { count ≤ 2 ^ 32 }
    ensures length { result ≡ block_length count }
    ensures bound { result ≤ 2 * count + 10 }
{
    if count == 0 {
        0
    } else {
        (8 + 2 * (count + count % 2)) as u64
    }
}

// How many bytes the blocks of relocations have.
fn relocs_length(places: &[u32]) -> u64
    requires apart { AllPairs IsBelow places.now }
    requires few { length places.now ≤ 2 ^ 29 }
    ensures length { result ≡ relocs_length places.now }
    ensures bound { result < 2 ^ 40 }
{
    let mut total = 0;
    let mut rest = places;
    for page in 0..PAGES {
        let (here, after) = rest.split_at(count_on(page, rest));
        total += block_length(here.len());
        rest = after;
    }
    total
}

/// How many bytes an image in the linker's layout takes (SizeOfImage) with so many bytes of code and of data, and with
/// relocations at these places, which ascend by 8 or more. It takes no memory, so it tells of an image that is too large
/// before there is one.
#[tactic(auto, unfolding(crate::specs::Sizes::size_of_linked))]
pub fn linked_size(text: usize, contents: usize, relocs: &[u32]) -> u64
    requires text { text < 2 ^ 40 }
    requires contents { contents < 2 ^ 40 }
    requires apart { AllPairs IsBelow relocs.now }
    ensures size { result ≡ size_of_linked text contents relocs.now }
    ensures images { IsLinkedSize text contents relocs.now result }
{
    let contents_place = page_from(0x1000 + text as u64);
    let relocs_place = page_from(contents_place + contents as u64);
    page_from(relocs_place + relocs_length(relocs))
}

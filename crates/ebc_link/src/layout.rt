//! Where objects stand in an image.

ghost use Rattle.std.specs.Prelude.{◌≡◌, ◌+◌, ◌<◌, ◌≤◌, ◌^◌, length, All, IfOk};
ghost use Rattle.ebc_object.specs.Objects.{IsObject};
ghost use Rattle.ebc_link.specs.Layout.{code_end, code_start, contents_end, contents_start, homes_of, start_of};
ghost use Rattle.ebc_link.specs.Walks.{IsBounds, IsLow};
ghost use Rattle.pe_image.specs.Files.{rounded};

use ebc_object::Object;
use std::alloc::{AllocError, Global};

/// Where the code begins.
pub(crate) const CODE_START: u32 = 0x1000;

/// Where the code and the data of an object stand, as offsets from the image's base.
#[derive(Clone, Copy)]
pub struct Home {
    pub code: u32,
    pub contents: u32,
}

impl Home {
    /// Where a section begins: 2 is the data, and any other the code.
    pub fn start(&self, section: u8) -> u32
        requires { IsLow self.now }
        ensures start { result ≡ start_of self.now section }
        ensures low { result ≤ 2 ^ 30 }
    {
        if section == 2 {
            self.contents
        } else {
            self.code
        }
    }
}

/// Where the code of objects ends, and where their data begin and end.
#[derive(Clone, Copy)]
pub(crate) struct Bounds {
    pub code_end: u32,
    pub contents_start: u32,
    pub contents_end: u32,
}

// A place rounded up to a multiple of a unit.
pub(crate) fn rounded(unit: u32, place: u32) -> u32
    requires unit { 0 < unit }
    requires small { place + unit < 2 ^ 32 }
    ensures { result ≡ rounded unit place }
{
    (place + (unit - 1)) / unit * unit
}

// Where the code of objects ends.
#[tactic(auto, unfolding(crate::specs::Layout::code_end))]
fn code_end(objects: &[Object]) -> u32
    requires objects { All IsObject objects.now }
    requires few { length objects.now ≤ 256 }
    ensures end { result ≡ code_end code_start objects.now }
    ensures small { result ≤ 2 ^ 29 }
{
    let mut end = CODE_START;
    for object in objects {
        end = rounded(2, end) + object.code.len() as u32;
    }
    end
}

// Where the data of objects end that begin at a place.
#[tactic(auto, unfolding(crate::specs::Layout::contents_end))]
fn contents_end(objects: &[Object], start: u32) -> u32
    requires objects { All IsObject objects.now }
    requires few { length objects.now ≤ 256 }
    requires start { start ≤ 2 ^ 29 + 0x1000 }
    ensures end { result ≡ contents_end start objects.now }
    ensures small { result ≤ 2 ^ 30 }
{
    let mut end = start;
    for object in objects {
        end = rounded(8, end) + object.contents.len() as u32;
    }
    end
}

/// Where the code of objects ends, and where their data begin and end.
#[tactic(auto, unfolding(crate::specs::Layout::contents_start))]
pub(crate) fn bounds_of(objects: &[Object]) -> Bounds
    requires objects { All IsObject objects.now }
    requires few { length objects.now ≤ 256 }
    ensures { IsBounds objects.now result }
{
    let code_end = code_end(objects);
    let contents_start = rounded(0x1000, code_end);
    Bounds {
        code_end,
        contents_start,
        contents_end: contents_end(objects, contents_start),
    }
}

/// Where each object stands, with the data from a place on.
pub(crate) fn homes(alloc: Global, objects: &[Object], start: u32) -> Result<Vec<Home>, AllocError>
    requires objects { All IsObject objects.now }
    requires few { length objects.now ≤ 256 }
    requires start { start ≡ contents_start objects.now }
    requires small { start ≤ 2 ^ 29 + 0x1000 }
    ensures homes { IfOk result (λ homes. homes.items ≡ homes_of objects.now) }
    ensures low { IfOk result (λ homes. All IsLow homes.items) }
{
    let mut homes = Vec::with_capacity(alloc, objects.len())?;
    let mut code = CODE_START;
    let mut contents = start;
    for object in objects {
        let home = Home {
            code: rounded(2, code),
            contents: rounded(8, contents),
        };
        code = home.code + object.code.len() as u32;
        contents = home.contents + object.contents.len() as u32;
        homes.push(home)?;
    }
    Ok(homes)
}

/// Where each of so many objects stands in an image that they are linked to. docs/LINKING.md, "Layout".
///
/// # Errors
///
/// There was no memory.
pub fn homes_of(alloc: Global, objects: &[Object]) -> Result<Vec<Home>, AllocError>
    requires objects { All IsObject objects.now }
    requires few { length objects.now ≤ 256 }
    ensures homes { IfOk result (λ homes. homes.items ≡ homes_of objects.now) }
    ensures low { IfOk result (λ homes. All IsLow homes.items) }
{
    homes(alloc, objects, bounds_of(objects).contents_start)
}

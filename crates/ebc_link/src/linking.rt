//! The linking of objects.

ghost use Rattle.std.specs.Prelude.{◌≡◌, ◌-◌, ◌≤◌, ◌^◌, All, AllPairs, IfOk, length};
ghost use Rattle.ebc_object.specs.Objects.{IsObject};
ghost use Rattle.pe_image.specs.Images.{IsBelow, IsImage};
ghost use Rattle.pe_image.specs.Linked.{IsLinked};
ghost use Rattle.pe_image.specs.Mapped.{AreBytes};
ghost use Rattle.pe_image.specs.Sizes.{IsLinkedSize};
ghost use Rattle.ebc_link.specs.Linked.{Linked};
ghost use Rattle.ebc_link.specs.Links.{Gives, links};
ghost use Rattle.ebc_link.specs.Plans.{IsPlan};

use crate::end::LinkEnd;
use crate::layout::{Bounds, CODE_START, bounds_of};
use crate::plan::LinkPlan;
use crate::resolved::Resolved;
use ebc_object::Object;
use pe_image::{Image, linked_size};
use std::alloc::Global;

// How many bytes an image may take: 4 MiB.
const MOST: u64 = 0x40_0000;

// How large an image is with code and data in these bounds and relocations at these places.
fn size(bounds: Bounds, relocs: &[u32]) -> u64
    requires code { (0x1000 ≤ bounds.code_end) × (bounds.code_end ≤ 2 ^ 29) }
    requires contents { (bounds.contents_start ≤ bounds.contents_end) × (bounds.contents_end ≤ 2 ^ 30) }
    requires apart { AllPairs IsBelow relocs.now }
    ensures { IsLinkedSize (bounds.code_end - 0x1000) (bounds.contents_end - bounds.contents_start) relocs.now result }
{
    let code = bounds.code_end - CODE_START;
    let contents = bounds.contents_end - bounds.contents_start;
    linked_size(code as usize, contents as usize, relocs)
}

/// The image that objects are linked to, as a plan says. docs/LINKING.md has the rules. There are as many objects as the plan
/// names, and they are laid in its order; their names don't matter here.
///
/// # Errors
///
/// The first fault, in this order: Twice, Undefined, Far, Entry, Size; of several of one kind the first in the order of the
/// objects, and within an object in that of its symbols or fixups. Or there was no memory.
pub fn link(alloc: Global, objects: &[Object], plan: &LinkPlan) -> Result<Image, LinkEnd>
    requires objects { All IsObject objects.now }
    requires plan { IsPlan plan.now }
    requires count { length objects.now ≡ length plan.now.objects }
    ensures answer { Gives result (links objects.now plan.now) }
    ensures linked { IfOk result (Linked objects.now plan.now) }
    ensures layout { IfOk result IsLinked }
    ensures image { IfOk result IsImage }
    ensures bytes { IfOk result AreBytes }
{
    let bounds = bounds_of(objects);
    let resolved = Resolved::of(alloc, objects, bounds.contents_start)?;
    // Values of many parts are dropped by calls: their drop at the end of an arm would be proved part by part.
    if let Some(place) = resolved.first_far() {
        drop(resolved);
        return Err(LinkEnd::Far(place));
    }
    let Some(entry) = resolved.entry(&plan.entry) else {
        drop(resolved);
        return Err(LinkEnd::Entry);
    };
    let relocs = match resolved.relocs(alloc) {
        Ok(relocs) => relocs,
        Err(error) => {
            drop(resolved);
            return Err(LinkEnd::from(error));
        }
    };
    let size = size(bounds, &relocs);
    if size > MOST {
        drop(relocs);
        drop(resolved);
        return Err(LinkEnd::Size);
    }
    let image = resolved.image(alloc, plan, bounds, entry, size as u32, relocs);
    drop(resolved);
    Ok(image?)
}

//! The way from an image to its listing and back, by the calls.

ghost use Rattle.std.specs.Prelude.{◌≡◌, ◌∷◌, [], All, IfOk, Ok, length};
ghost use Rattle.asm_text.specs.Names.{label_text};
ghost use Rattle.ebc_asm.specs.Sources.{object_of};
ghost use Rattle.ebc_link.specs.Links.{links};
ghost use Rattle.ebc_link.specs.Plans.{IsPlan};
ghost use Rattle.ebc_object.specs.Objects.{IsObject};
ghost use Rattle.ebc_object.specs.declared.object.Object.{Object};
ghost use Rattle.pe_image.specs.Files.{file_of};
ghost use Rattle.pe_image.specs.Linked.{IsLinked};
ghost use Rattle.link_laws.specs.Laws.{IsListable};

use ebc_asm::assemble;
use ebc_base::NoMemory;
use ebc_disasm::list;
use ebc_link::{LinkPlan, link};
use ebc_object::Object;
use pe_image::{Image, write_image};
use std::alloc::Global;

// The object of a source that stands for one.
fn assembled(alloc: Global, source: &[u8]) -> Result<Object, NoMemory>
    ensures { IfOk result (λ object. object_of source.now ≡ Ok object) }
{
    match assemble(alloc, source) {
        Ok(object) => Ok(object),
        Err(_) => Err(NoMemory),
    }
}

// The image that objects are linked to by a plan, where they have no fault.
fn linked(alloc: Global, objects: &[Object], plan: &LinkPlan) -> Result<Image, NoMemory>
    requires objects { All IsObject objects.now }
    requires plan { IsPlan plan.now }
    requires count { length objects.now ≡ length plan.now.objects }
    ensures answer { IfOk result (λ image. links objects.now plan.now ≡ Ok image) }
    ensures layout { IfOk result IsLinked }
{
    match link(alloc, objects, plan) {
        Ok(image) => Ok(image),
        Err(_) => Err(NoMemory),
    }
}

/// The file of what the listing of an image in the linker's layout, assembled, is linked to by a plan with its base, its subsystem and,
/// as the entry, the label of the place where it is entered: it is the image's own file. By the law [`crate::listings_link_again`] no
/// call finds a fault, so that want of memory alone is left.
pub fn relinked(alloc: Global, image: &Image, plan: &LinkPlan) -> Result<Vec<u8>, NoMemory>
    requires listable { IsListable image.now }
    requires plan { IsPlan plan.now }
    requires one { length plan.now.objects ≡ 1 }
    requires base { plan.now.base ≡ image.now.base }
    requires subsystem { plan.now.subsystem ≡ image.now.subsystem }
    requires entry { plan.now.entry ≡ label_text image.now.entry }
    ensures { IfOk result (λ file. file.items ≡ file_of image.now) }
{
    let source = list(alloc, image)?;
    let objects = vec![in alloc; assembled(alloc, &source)?]?;
    let again = linked(alloc, &objects, plan)?;
    Ok(write_image(alloc, &again)?)
}

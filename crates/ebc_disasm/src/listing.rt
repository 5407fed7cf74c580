//! The listing of an image.

ghost use Rattle.std.specs.Prelude.{◌≡◌, IfOk};
ghost use Rattle.pe_image.specs.Images.{IsImage};
ghost use Rattle.ebc_disasm.specs.Listings.{listing_of};

use crate::places::labels;
use crate::sections::{Coming, append_section};
use ebc_base::NoMemory;
use pe_image::Image;
use std::alloc::Global;

/// The listing of an image: assembly text that says each byte of its sections in their order (docs/ASSEMBLY.md, "Listings"). It
/// takes time in proportion to the sections and the text, and, for n relocations among s sections, to n log n and n log s.
///
/// # Errors
///
/// Want of memory alone.
pub fn list(alloc: Global, image: &Image) -> Result<Vec<u8>, NoMemory>
    requires { IsImage image.now }
    ensures { IfOk result (λ text. text.items ≡ listing_of image.now) }
{
    let labels = labels(alloc, image)?;
    let mut out = String::new(alloc);
    let mut coming = Coming {
        relocs: image.relocs.as_slice(),
        labels: &labels,
    };
    for section in image.sections.as_slice() {
        coming = append_section(alloc, image, section, coming, &mut out)?;
    }
    Ok(out.into_bytes())
}

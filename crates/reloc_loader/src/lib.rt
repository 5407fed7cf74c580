//! Loads an image into an object of memory, at any even base of either width. docs/IMAGES.md, "What is loaded", has it
//! in words.
//!
//! Promises:
//!
//! - `load`: `mapped` says which byte lies at each place of the object: that of the image, relocated to the base.
//!   `others` says that no byte outside the object changes, and `loaded` the whole memory as one equation: the same
//!   objects at the same addresses, with these bytes. `memory` says that what holds of each memory holds on. `odd` says
//!   that Base comes exactly where the base is odd, and `same` that nothing changes then. The image has to be one as
//!   `read_image` gives it. Where the base is even the object has to lie there, to have the image's size (`object`) and
//!   to have zeros alone (`zeros`), as `ObjMem::place` leaves it; so nothing is cleared a second time.
#![tactic(auto)]

ghost use Rattle.std.specs.Prelude.{◌≡◌, ℕ, ◌+◌, ◌*◌, ◌%◌, ◌^◌, ◌<◌, ◌≤◌, ◌⊎◌, ◌↔◌, length, map, slice_index, Err, OnOk, OnErr};
ghost use Rattle.object_memory.specs.Memory.{IsMemory, byte_at};
ghost use Rattle.pe_image.specs.Images.{IsImage};
ghost use Rattle.pe_image.specs.Mapped.{mapped};
ghost use Rattle.reloc_loader.specs.Loads.{IsPlacedAt, loaded_at};

mod relocation;

use object_memory::{ObjId, ObjMem};
use pe_image::Image;
use relocation::relocate;

/// Why an image isn't loaded.
#[derive(Clone, Copy, PartialEq, Eq, Debug)]
pub enum LoadFault {
    /// The base is odd.
    Base,
}

/// Loads an image at an even base, into an object that lies there, has the image's size, and has zeros alone, as
/// `ObjMem::place` leaves it. The object's bytes are the image's from then on, and at each relocation the distance from the
/// base for which the image was linked is added, modulo 2^64 (PE/COFF specification, "Base Relocation Types",
/// IMAGE_REL_BASED_DIR64). No other byte changes, and no object moves.
///
/// # Errors
///
/// `Base` exactly where the base is odd: nothing changes then, and nothing is asked of the object.
pub fn load<const W: usize>(
    image: &Image,
    base: u64,
    id: ObjId,
    mem: &mut ObjMem<W>,
) -> Result<(), LoadFault>
    requires image { IsImage image.now }
    requires object { base % 2 ≡ 0 → IsPlacedAt mem.old id base image.now.size }
    requires zeros { base % 2 ≡ 0 → (x : ℕ) → base ≤ x → x < base + image.now.size → byte_at mem.old x ≡ 0 }
    ensures loaded { OnOk result (mem.new ≡ loaded_at mem.old image.now base) }
    ensures mapped { OnOk result ((x : ℕ) → x < image.now.size → byte_at mem.new (base + x) ≡ mapped image.now base x) }
    ensures others { OnOk result ((x : ℕ) → (x < base) ⊎ (base + image.now.size ≤ x) → byte_at mem.new x ≡ byte_at mem.old x) }
    ensures odd { (result ≡ Err LoadFault.Base) ↔ (base % 2 ≡ 1) }
    ensures same { OnErr result (mem.new ≡ mem.old) }
    ensures memory { OnOk result (IsMemory W mem.new) }
{
    if base % 2 == 1 {
        return Err(LoadFault::Base);
    }

    // The object has all these bytes.
    let there = mem.holds(id.base, image.size as usize);
    prove!(there);
    for section in image.sections.as_slice() {
        let _ = mem.fill(base + u64::from(section.place), section.bytes.as_slice());
    }
    let distance = base.wrapping_sub(image.base);
    for place in image.relocs.as_slice() {
        relocate(mem, base + u64::from(*place), distance);
    }
    Ok(())
}

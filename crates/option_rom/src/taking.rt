//! The taking of an EBC image out of an option ROM.

ghost use Rattle.std.specs.Prelude.{◌≡◌, ◌≤◌, All, IfOk};
ghost use Rattle.option_rom.specs.Images.{end_of};
ghost use Rattle.option_rom.specs.Takes.{IsTakeable, begin_of, is_ebc, is_plain, taken};

use crate::fault::TakeFault;
use crate::image::RomImage;

impl RomImage {
    // Whether it is an image of EBC.
    fn is_ebc(&self) -> bool
        ensures { result ≡ is_ebc self.now }
    {
        self.code_type == 3 && self.efi.is_some_and(|efi| efi.machine == 0x0EBC)
    }

    // Whether its EFI image isn't compressed.
    fn is_plain(&self) -> bool
        ensures { result ≡ is_plain self.now }
    {
        self.efi.is_some_and(|efi| efi.compression == 0)
    }

    // Where its EFI image begins.
    fn begin(&self) -> usize
        ensures { result ≡ begin_of self.now }
    {
        self.offset as usize + self.efi.map_or(0, |efi| usize::from(efi.start))
    }

    // Where the image ends.
    fn end(&self) -> usize
        ensures { result ≡ end_of self.now }
    {
        self.offset as usize + 512 * usize::from(self.blocks)
    }
}

/// Where the EBC image is that the image with this number carries, counted from 0: the offset of its first byte in the ROM, and
/// the offset behind the image. `images` are those that `read_rom` gives.
///
/// # Errors
///
/// In this order: no image has the number; its code type isn't EFI, or its machine isn't EBC; what it carries is compressed.
#[tactic(auto, unfolding(crate::specs::Takes::range_of, crate::specs::Takes::taken))]
pub fn take(images: &[RomImage], number: u32) -> Result<(usize, usize), TakeFault>
    requires { All IsTakeable images.now }
    ensures range { result ≡ taken images.now number }
    ensures order { IfOk result (λ range. range.0 ≤ range.1) }
{
    let image = images.get(number as usize).ok_or(TakeFault::Number)?;
    if !image.is_ebc() {
        return Err(TakeFault::NotEbc);
    }
    if !image.is_plain() {
        return Err(TakeFault::Compressed);
    }
    Ok((image.begin(), image.end()))
}

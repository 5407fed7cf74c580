//! The images of an option ROM.

ghost use Rattle.std.specs.Prelude.{◌≡◌, ◌+◌, ◌≤◌, ◌^◌, length};
ghost use Rattle.option_rom.specs.Fields.{code_type, structure};
ghost use Rattle.option_rom.specs.Images.{efi_at, image_at};

use crate::fields::u16_at;
use ebc_base::Sequence;

/// The images of an option ROM, in their order.
pub type RomImages = Sequence<RomImage>;

/// What the header of an image says of the EFI image in it (UEFI specification, "PCI Option ROMs",
/// EFI_PCI_EXPANSION_ROM_HEADER).
#[derive(Clone, Copy)]
pub struct EfiPart {
    /// The EFI subsystem: 11 is a boot service driver.
    pub subsystem: u16,
    /// The machine type: 0x0EBC is EBC.
    pub machine: u16,
    /// 0 where the EFI image isn't compressed.
    pub compression: u16,
    /// Where the EFI image begins, in bytes from the beginning of the image on.
    pub start: u16,
}

/// An image of an option ROM.
#[derive(Clone, Copy)]
pub struct RomImage {
    /// Where it begins in the ROM.
    pub offset: u32,
    /// Its length, in blocks of 512 bytes.
    pub blocks: u16,
    /// Its code type: 0 is a BIOS image for x86, 3 is EFI.
    pub code_type: u8,
    /// What its header says of an EFI image; none where its code type isn't EFI.
    pub efi: Option<EfiPart>,
}

// What the header at an offset says of an EFI image.
#[tactic(auto, unfolding(crate::specs::Images::efi_at))]
fn efi_at(file: &[u8], at: usize) -> EfiPart
    requires { at + 26 ≤ length file.now }
    ensures { result ≡ efi_at file.now at }
{
    EfiPart {
        subsystem: u16_at(file, at + 8),
        machine: u16_at(file, at + 10),
        compression: u16_at(file, at + 12),
        start: u16_at(file, at + 22),
    }
}

impl RomImage {
    // The image at an offset, with its PCI data structure at a place.
    #[tactic(auto, unfolding(crate::specs::Images::image_at))]
    pub(crate) fn at(file: &[u8], at: usize, place: usize) -> RomImage
        requires small { length file.now ≤ 2 ^ 24 }
        requires header { at + 26 ≤ length file.now }
        requires place { place ≡ structure file.now at }
        requires data { place + 24 ≤ length file.now }
        ensures { result ≡ image_at file.now at }
    {
        let code_type = file[place + 20];
        RomImage {
            offset: at as u32,
            blocks: u16_at(file, place + 16),
            code_type,
            efi: if code_type == 3 {
                Some(efi_at(file, at))
            } else {
                None
            },
        }
    }
}

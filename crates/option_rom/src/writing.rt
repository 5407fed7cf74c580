//! The option ROM of one EBC image.

ghost use Rattle.std.specs.Prelude.{◌≡◌, ◌*◌, ◌^◌, ◌≤◌, ◌∷◌, [], IfOk, Ok, length};
ghost use Rattle.pe_image.specs.Images.{image_of};
ghost use Rattle.option_rom.specs.Files.{block_count, header_bytes, padded, rom_bytes, structure_bytes, wrapped};
ghost use Rattle.option_rom.specs.Roms.{rom_of};
ghost use Rattle.option_rom.specs.Takes.{bytes_taken};

use ebc_base::NoMemory;
use std::alloc::{AllocError, Global};

// The header of an image with so many blocks.
#[tactic(auto, unfolding(crate::specs::Files::header_bytes))]
fn header(count: u16, subsystem: u16) -> [u8; 28]
    ensures { result ≡ header_bytes count subsystem }
{
    let size = count.to_le_bytes();
    let system = subsystem.to_le_bytes();
    [
        0x55, 0xAA, size[0], size[1], 0xF1, 0x0E, 0, 0, system[0], system[1], 0xBC, 0x0E, 0, 0, 0,
        0, 0, 0, 0, 0, 0, 0, 56, 0, 28, 0, 0, 0,
    ]
}

// The PCI data structure of an image with so many blocks, for the device of a vendor.
#[tactic(auto, unfolding(crate::specs::Files::structure_bytes))]
fn structure(count: u16, vendor: u16, device: u16) -> [u8; 28]
    ensures { result ≡ structure_bytes count vendor device }
{
    let size = count.to_le_bytes();
    let vendor = vendor.to_le_bytes();
    let device = device.to_le_bytes();
    [
        b'P', b'C', b'I', b'R', vendor[0], vendor[1], device[0], device[1], 0, 0, 28, 0, 3, 0, 0,
        0, size[0], size[1], 0, 0, 3, 0x80, 0, 0, 0, 0, 0, 0,
    ]
}

// The file of an option ROM.
#[tactic(auto, unfolding(crate::specs::Files::rom_bytes))]
fn rom_file(
    alloc: Global,
    vendor: u16,
    device: u16,
    subsystem: u16,
    image: &[u8],
) -> Result<Vec<u8>, AllocError>
    requires { length image.now ≤ 2 ^ 22 }
    ensures { IfOk result (λ rom. rom.items ≡ rom_bytes vendor device subsystem image.now) }
{
    let count = (56 + image.len() + 511) / 512;
    let mut rom = Vec::from_slice(alloc, &header(count as u16, subsystem))?;
    rom.extend_from_slice(&structure(count as u16, vendor, device))?;
    rom.extend_from_slice(image)?;
    rom.resize(512 * count, 0)?;
    Ok(rom)
}

/// The option ROM that carries one EBC image, a file of at most 4 MiB, for the device of a vendor (their PCI identifiers), with
/// the EFI subsystem of the image. docs/ROMS.md, "What is written", has the layout.
///
/// # Errors
///
/// Want of memory alone.
pub fn wrap(
    alloc: Global,
    vendor: u16,
    device: u16,
    subsystem: u16,
    image: &[u8],
) -> Result<Vec<u8>, NoMemory>
    requires { length image.now ≤ 2 ^ 22 }
    ensures layout { IfOk result (λ rom. rom.items ≡ rom_bytes vendor device subsystem image.now) }
    ensures size { IfOk result (λ rom. length rom.items ≡ 512 * block_count (length image.now)) }

    // Read again, it has this one image, out of which the file is taken with zeros behind it; and it is read as the same image.
    ensures listed { IfOk result (λ rom. rom_of rom.items ≡ Ok (wrapped subsystem (length image.now) ∷ [])) }
    ensures taken { IfOk result (λ rom. bytes_taken rom.items (wrapped subsystem (length image.now) ∷ []) 0 ≡ Ok (padded image.now)) }
    ensures same { IfOk result (λ rom. IfOk (image_of image.now) (λ i. image_of (padded image.now) ≡ Ok i)) }
{
    Ok(rom_file(alloc, vendor, device, subsystem, image)?)
}

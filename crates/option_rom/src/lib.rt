//! PCI option ROMs: the images in them are listed, an EBC image is put into one, and taken out. UEFI specification,
//! "PCI Option ROMs"; PCI Firmware Specification, "PCI Expansion ROM Contents".
//!
//! Promises:
//!
//! - `read_rom`: `reading` says that the answer is what the file stands for: the images, or the kind and the offset of
//!   the first condition that doesn't hold, or want of memory. `rom` says that the file is the option ROM of these
//!   images, `fault` that what is told is the first fault of the file, and `takeable` that `take` can be called with
//!   the images. It needs a file of at most 16 MiB.
//! - `take`: `range` says that the answer is the offsets of the EBC image's first byte and of the end of the image with
//!   this number, or the first of three faults; `order`, that the first offset isn't past the second. It takes no
//!   memory.
//! - `wrap`: `layout` says which file it gives, byte for byte, and `size` how many bytes that has. `listed` says that
//!   this file is read as one image, and which; `taken`, that what is taken of it is the file that went in, with zeros
//!   behind it; and `same`, that where the file is one of an image, these bytes are read as the same image. It needs a
//!   file of at most 4 MiB, and fails only by want of memory.
//! - `roms_are_read`: a file is read as images exactly where it is the option ROM of these (`read`), it is that of one
//!   list of images at most (`one`), and a fault is told of it exactly where it is the first (`first`).
//! - `taken_is_inside`: what is taken out of an option ROM lies inside its file.
//! - `zeros_change_nothing`: zeros behind a file change nothing of the image that it is read as.
//! - `RomImage` and `EfiPart` are seen as records of plain numbers, and `RomImages` as the list.
#![tactic(auto)]

mod fault;
mod fields;
mod image;
mod laws;
mod reading;
mod taking;
mod writing;

pub use ebc_base::NoMemory;
pub use fault::{RomEnd, RomFault, TakeFault};
pub use image::{EfiPart, RomImage, RomImages};
pub use laws::{roms_are_read, taken_is_inside, zeros_change_nothing};
pub use reading::read_rom;
pub use taking::take;
pub use writing::wrap;

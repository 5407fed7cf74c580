//! Images of EFI Byte Code: PE32+ files of the machine type EBC, read into their sections and relocations, and written.
//! PE/COFF specification (Microsoft Portable Executable and Common Object File Format).
//!
//! Promises:
//!
//! - `read_image`: `reading` says that the answer is what the file stands for: the image where all conditions hold, and
//!   otherwise the kind and the offset of the first that fails, or want of memory. `sound` says what holds of each
//!   image that is read: its sections and relocated places ascend without overlap and lie inside its size, which is at
//!   most 4 MiB, and it is entered at an even place in it. `bytes` says that each of its places has a byte, a number
//!   below 256.
//! - `section_with`, `byte_at`, `named_place`: the section that has the byte at a place, the byte there as the file has
//!   it, and the place that a relocated number names, each what `specs/Mapped.antt` says.
//! - `write_image`: of an image in the linker's layout `layout` says which file it gives, byte for byte, and
//!   `read_again` that this file stands for that image. It fails only by want of memory.
//! - `linked_size`: how large an image in the linker's layout is, by how long its code and its data are and by its
//!   relocated places. `size` gives the number, `images` says that the sections of each such image end there, the one
//!   of the relocations among them. It takes no memory.
//! - `Image` and `Section` are seen as records of plain numbers and lists.
#![tactic(auto)]

mod bytes;
mod bytes_at;
mod fault;
mod fields;
mod headers;
mod image;
mod reading;
mod relocations;
mod section;
mod size;
mod writing;

pub use bytes_at::{byte_at, named_place, section_with};
pub use ebc_base::NoMemory;
pub use fault::{ImageEnd, ImageFault};
pub use image::{Bytes, Image, Places, Section, Sections};
pub use reading::read_image;
pub use size::linked_size;
pub use writing::write_image;

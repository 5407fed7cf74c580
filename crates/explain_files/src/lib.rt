//! What is said of files that are no images, objects or option ROMs, of an image that isn't taken out of an option ROM,
//! and of objects that aren't linked. Each sentence tells what stands in the file at the offset of the fault, and what
//! is wanted there.
//!
//! Promises:
//!
//! No sentence has a clause. The calls end. What is said remembers want of memory, and `link_said` fails by it, too.
//!
//! - `image_said`: by the fault and the offset of `read_image`. The conditions of docs/IMAGES.md that share a fault are
//!   told apart. If a file doesn't begin as an image, it says what the first bytes look like: an object, an option ROM,
//!   an ELF program or a text.
//! - `object_said`: by the fault and the offset of `read_object`, under the name that the plan gives the object.
//! - `rom_said`: by the fault and the offset of `read_rom`. `taking_said`: by the fault of `take`, with how many images
//!   there are. `wrapped_said`: of an image of which a ROM is made, what firmware does with it there.
//! - `link_said`: by the end of `link`. It asks for at most 256 objects, each an object (`IsObject`).
//!
//! | End of a link | Sentence |
//! |---|---|
//! | `Undefined` | the first use of the name, by object, section and offset, with the instruction there |
//! | `Twice` | the object with the second definition, and that with the first |
//! | `Far` | the fixup by object, section and offset, how far it goes and how far it can go, the symbol and its place, and the instruction |
//! | `Entry` | whether no object has the name, or one uses it only, defines it in the data, without `.global`, at an odd offset or at the end |
//! | `Size` | how many bytes an image may take |
//!
//! The instruction is found by decoding the object's code from its start. It is left out if data stand before it in the
//! code.
#![tactic(auto)]

mod bytes;
mod far;
mod fixups;
mod headers;
mod images;
mod links;
mod objects;
mod relocations;
mod roms;
mod sections;
mod symbols;

pub use images::image_said;
pub use links::link_said;
pub use objects::object_said;
pub use roms::{rom_said, taking_said, wrapped_said};

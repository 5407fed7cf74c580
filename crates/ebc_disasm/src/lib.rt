//! The listing of an image: assembly text that says each byte of its sections. docs/ASSEMBLY.md, "What is listed", has
//! the rules.
//!
//! Promises:
//!
//! - `list`: its one clause says that the text is the listing of the image, `listing_of`: the lines of its sections in
//!   their order, each with a line feed. It fails only by want of memory.
//!
//! - `code_items`: what is listed at each place of the code, in the order of the places, is `items_of` (`items`); the
//!   lines are those of the listing's sections with code that say bytes (`listed`); each may be printed (`fit`).
//! - `byte_at`: the byte at a place, as the sections have it.
//!
//! The image is one as the reader of `pe_image` gives it (`IsImage`). `list` takes time in proportion to the sections,
//! the relocations and the text, but for two things: the labels are sorted, and for each relocation a few sections are
//! looked for, its own and that of its target, each by halving the sections. So n relocations among s sections take n
//! log n and n log s. Relocations and labels are gone through once, in their order. `bench/list.sh` times it on images
//! of many sections.
#![tactic(auto)]

mod bytes;
mod code;
mod items;
mod listing;
mod lookups;
mod places;
mod sections;

pub use code::{Item, code_items};
pub use ebc_base::NoMemory;
pub use listing::list;
pub use lookups::byte_at;

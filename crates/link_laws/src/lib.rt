//! What the linker makes of a listing: an image in the linker's layout, listed, assembled and linked, is that image
//! again; and what is decoded of a loaded image that was linked. The crate stands above `ebc_link`, so that `link`
//! doesn't wait for its proofs. docs/LINKING.md says it in words, in "Linking a listing again" and "Loading what is
//! linked".
//!
//! Promises:
//!
//! - `listings_link_again`. `again` says of each image that is `IsListable`: its listing (`listing_of`) is a source
//!   without a fault (`object_of`), the object that it stands for meets its conditions (`IsObject`), and this object
//!   alone is linked (`links`) to the very image, by each plan that has the image's base, its subsystem and, as the
//!   entry, the label of the place where the image is entered.
//! - `linked_images_load`. `loads` says of each image that is what objects are linked to (`Linked`) and of an object
//!   among them that stands for lines that are read: each instruction in its code stands in the image, loaded at any
//!   base. What is decoded where the line stands is the instruction, in which the immediate that a name stands for is
//!   that of the place where the name's symbol stands (`IsResolved`): an address at that base, or the distance from the
//!   next instruction.
//!
//! - `linked_images_are_one`. `one` says that `Linked` fixes the image: two images that the same objects are linked to
//!   by the same plan, where no name is defined twice, are one, with the same sections, relocations, size and entry.
//! - `relinked` is the first by the calls: it lists an image, assembles the listing, links the object by such a plan
//!   and writes the image, and what it gives is the image's own file (`file_of`). It fails by want of memory alone,
//!   since by the law no call finds a fault.
//!
//! The first says nothing of an image that isn't `IsListable`, and the second nothing of the bytes of data.
#![tactic(auto)]

mod relinking;

ghost use Rattle.link_laws.specs.Fixes.{LinkedIsOne};
ghost use Rattle.link_laws.specs.Laws.{ListsAgain};
ghost use Rattle.link_laws.specs.Loads.{LinkedLoads};

pub use relinking::relinked;

/// The listing of an image in the linker's layout, assembled and linked, is the image again.
#[tactic(auto, using(crate::proofs::Again::lists_again))]
pub fn listings_link_again()
    ensures again { ListsAgain }
{}

/// Each instruction of a source stands in the loaded image that its object is linked to, with what its name stands for.
pub fn linked_images_load()
    ensures loads { LinkedLoads }
{}

/// Where no name is defined twice, `Linked` fixes the image: two images that objects are linked to by a plan are one.
pub fn linked_images_are_one()
    ensures one { LinkedIsOne }
{}

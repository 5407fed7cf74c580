//! Links objects to an image, as a plan says. docs/LINKING.md has the rules.
//!
//! Promises:
//!
//! - `read_plan`: `plan` says that the answer is what `plan_of` gives, the plan that the text stands for or its first
//!   fault; besides these there is only want of memory. `sound` says that each plan that is read meets the conditions
//!   on plans, `IsPlan`.
//! - `link` has these clauses:
//!   - `answer`: the answer is what `links` gives, the image or the first fault. Besides these there is only want of
//!     memory.
//!   - `linked`: what the image is, byte by byte, `Linked`.
//!   - `layout`: it is in the linker's layout, so that `write_image` writes it and reading gives it again.
//!   - `image`, `bytes`: it is one as `read_image` gives them, so that it may be listed, checked and loaded.
//! - `homes_of`: exactly where the objects stand (`homes`), each at 2^30 or below (`low`); it fails only where there is
//!   no memory.
//!
//! Inside the crate each pass has its exact result in its contract:
//!
//! - `homes`: where objects stand. `Globals::of`: what they define for all. `Globals::places`: the places of their
//!   symbols.
//! - `Resolved::first_far`, `Resolved::entry` and `Resolved::relocs`: what they are named for.
//! - `linked_size` of `pe_image`: the image's size. `Resolved::image`: the image once nothing fails.
//!
//! A `Piece` is one object with its home and its symbols' places.
#![tactic(auto)]

mod end;
mod entry;
mod fixups;
mod globals;
mod layout;
mod linking;
mod piece;
mod plan;
mod plan_text;
mod resolved;
mod sections;

pub use end::LinkEnd;
pub use layout::{Home, homes_of};
pub use linking::link;
pub use plan::LinkPlan;
pub use plan_text::read_plan;

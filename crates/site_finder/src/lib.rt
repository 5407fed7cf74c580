//! The signatures by which native calls are meant that have no site in the notes. docs/crates/site_finder.md has the
//! way.
//!
//! Promises:
//!
//! - `find_sites`: it goes over an image and notes as they are read (`IsImage`, `IsNotes`), and always returns. Only
//!   want of memory is an error.
//!
//! No clause says which sites are found.
#![tactic(auto)]

mod comings;
mod course;
mod finder;
mod signature;
mod trial;

pub use ebc_base::NoMemory;
pub use finder::find_sites;

//! Points that keep more than those of `infer`: of two ways that meet, the least state that says what both say.
//! docs/crates/point_search.md has the way.
//!
//! Promises:
//!
//! - `search_points`: it goes over an image and notes as they are read (`IsImage`, `IsNotes`), and always returns. Only
//!   want of memory is an error.
//!
//! No clause says which points are found. Whoever uses them checks the image under them.
#![tactic(auto)]

mod course;
mod due;
mod finder;
mod leader;
mod marks;
mod states;
mod type_joins;
mod widening;

pub use ebc_base::NoMemory;
pub use finder::search_points;

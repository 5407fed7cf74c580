//! The rules over an image under notes: those of its shapes, functions, static objects and thunk cells, and at each
//! instruction those of decoding, points, relocations and ends; definitions, and the code that answers by them.
//! docs/RULES.md, "The image", has the rules in words, and "Where each rule stands" names their files.
//!
//! Promises:
//!
//! Each call that has an image asks for one as `read_image` gives it (`IsImage` of `pe_image`), but for
//! `check_functions`, which asks for nothing.
//!
//! - `check_shapes`, `check_functions`, `check_statics`, `check_thunks`: whether their rule holds of all shapes,
//!   functions, static objects or thunk cells (`holds`), or the number of the first of which it doesn't (`fails`).
//!   `check_shapes` and `check_statics` ask for notes that meet their conditions (`IsNotes`), and the latter that the
//!   rule of shapes holds.
//! - `all_apart` sorts all things of the notes by their places: true says that no two of them share a byte
//!   (`AreAllApart`). What false says no clause tells; `check_statics` and `check_thunks`, which are told the answer,
//!   try each thing by itself then.
//! - `code_of`: the bytes of a function of which the rule holds, exactly (`IsCodeOf`).
//! - `relocation`: the place that the relocated immediate of an instruction names, or none, where the rule `relocation`
//!   holds (`holds`), and an error where it doesn't (`fails`). `past`: the relocations that are left at the next
//!   instruction.
//! - `ends_within`: whether no fall leaves the function, exactly `EndHolds`.
//! - `first_point`, `first_reloc`: the number of the first point that isn't before a place, and of the first relocation
//!   that doesn't end before it. `Marks` is plain data, which has both.
//!
//! Inside the crate, `has_content` is whether a static object of a well-formed shape, inside the image, has the content
//! that the rule `static` asks for, exactly by `HasContent`. `is_zero`, `is_unrelocated` and `is_relocated` are whether
//! a range's bytes are zero, whether none of them is relocated, and whether eight bytes are. Zero bytes are looked for
//! a section at a time, relocations by binary search; the static object that a pointer names is looked for from the
//! first one on. No call takes memory.
#![tactic(auto)]

mod apart;
mod content;
mod marks;
mod ranges;
mod relocations;
mod statics;
mod tables;
mod thunks;

pub use apart::all_apart;
pub use marks::{Marks, first_point, first_reloc};
pub use relocations::{ends_within, past, relocation};
pub use statics::check_statics;
pub use tables::{check_functions, check_shapes, code_of};
pub use thunks::check_thunks;

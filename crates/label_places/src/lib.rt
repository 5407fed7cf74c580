//! The labels of sources, by the objects that `asm` makes of them, and the places that they have in the image that the
//! objects are linked to (docs/LABELS.md, "A label"). A label is a symbol that its object defines, a local one too.
//! Where an object stands is what `homes_of` of `ebc_link` says. Labels are found by halving: by their names in a map,
//! and by their places in a sorted list, both made once by `labels_of`.
//!
//! Promises:
//!
//! - `labels_of`: exactly the labels of the objects, in the order of the objects and of each object's symbols
//!   (`labels`), and where the objects' sections stand (`spans`). It fails only where there is no memory.
//! - `reference_of`: exactly what a text refers to, or none where it isn't of the form (`reference`); what is added is
//!   below 2^22 (`small`).
//! - `Labels::find`: exactly where the one label stands that a reference names, or whether none or several have the
//!   name (`position_of`).
//! - `Labels::end_behind`: the least place behind one of the labels of a section, or the section's end where that is
//!   less (`IsNext`); none where there is no such section.
//! - `Labels::code_end`: where the code of the object ends that has a place in its code (`code_end_at`), or none.
//! - `Places::new`: exactly these places, put in order. `Places::next_above`: the least of them above one, or the bound
//!   where that is less (`IsNext`).
#![tactic(auto)]

mod collecting;
mod ends;
mod index;
mod label;
mod places;
mod reference;
mod seeking;

pub use collecting::labels_of;
pub use label::{Label, Labels, ObjectSpan, Position};
pub use places::Places;
pub use reference::{Reference, reference_of};
pub use seeking::NotFound;

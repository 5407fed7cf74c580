//! Where EDK2's interpreter departs from the machine, in a typed image (docs/FIRMWARE.md, "Warnings").
//!
//! Promises:
//!
//! - `warnings`, of an image that is typed under notes that meet their reader's conditions (`AreWarnings`): the list has
//!   a place and a kind exactly where the interpreter departs so from the machine at the instruction there, by its
//!   function, the state before it and what is around it (`IsWarned`). They stand in order, each once.
//!
//! Inside the crate, `Scene::departs` tells whether the interpreter departs so at one instruction, exactly `departs`.
//! `uncut_places` marks the places at which bits of R7 may be as a native call left them, exactly these (`AreUncut`),
//! `image_effects` gives the stores and calls of the image's instructions, exactly these (`AreEffects`), and
//! `unended_texts` its texts without a zero. The walks go over each function twice, by `Walk` of `state_walk`.
#![tactic(auto)]

mod around;
mod effect;
mod gather;
mod spread;
mod uncut;
mod walk;
mod warning;

pub use departures::Kind;
pub use walk::warnings;
pub use warning::Warning;

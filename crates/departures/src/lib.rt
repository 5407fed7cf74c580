//! Where EDK2's interpreter departs from the machine at an instruction (docs/FIRMWARE.md, "Warnings").
//!
//! Promises:
//!
//! - `Scene::departs`: whether the interpreter departs so from the machine at an instruction that has a spelling, by its
//!   function, its place, the state before it and what is around it, exactly as the definition `departs` says.
//! - `loaded_field`, `stored_field`: the field of an object that an instruction loads or stores into.
//! - `calls_native`, `signature_at`, `leaves`, `keeps`: which bits of R7 a native call may leave, and which instructions
//!   leave them as they are.
//! - `unended_texts`: the static texts of an image that have no zero. `hands_text`: whether an argument of a native call may
//!   be an address in one.
//! - Each of these is exactly the definition of its name. `Around`, `Uncut` and `ObjectField` are plain data.
#![tactic(auto)]

mod above;
mod call;
mod departure;
mod field;
mod kind;
mod narrow;
mod operand;
mod text;

pub use above::{Above, Uncut, keeps, leaves};
pub use call::{calls_native, signature_at};
pub use departure::{Around, Scene};
pub use field::{ObjectField, is_same_field, loaded_field, stored_field};
pub use kind::{KINDS, Kind};
pub use text::{hands_text, unended_texts};

//! What the modelled host is and what a run at a width is: the definitions on which the headline's statement of runs
//! stands. They are specs, one subject a file; the crate has code only for what is the same in a reader of scripts and
//! in a host, whether two values are one and whether a written value fits a type. docs/HOST.md says all of it in words.
//!
//! Promises:
//!
//! - `fits` is the definition of that name: whether a value that a script writes fits a type, where these typed objects
//!   are made.
//! - `fits_each` is that too: whether values fit parameters, one for each.
//! - `same_value` and `same_seen` are the definitions of these names: whether two values are one, in a script and as a
//!   native call sees them. Their bodies are the equality of the types.
//! - `TypedObject` is a shape's number and a count.
#![tactic(auto)]

mod comparing;
mod fitting;
mod object;

pub use comparing::{same_seen, same_value};
pub use fitting::{fits, fits_each};
pub use object::TypedObject;

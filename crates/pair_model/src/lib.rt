//! Two images on one host: which function of one answers which method of the other, and what a run of both is. The
//! definitions are specs, one subject a file; the crate has code only for the types of binds and events, and for
//! whether a bind agrees. docs/PAIRS.md says all of it in words. What the command `pair` prints rests on these
//! definitions.
//!
//! Promises:
//!
//! - `Bind::agrees` is the definition `bind_agrees`: whether a bind agrees with the notes of both images.
//! - `Bind` is a method of image A and a function of image B, each by its number, and `Binds` a list of them.
//! - `PairEvent` is an event of a run of both: one of A's run, one of B's run, or the reply to a bound call.
#![tactic(auto)]

mod agreeing;
mod bind;
mod event;

pub use bind::{Bind, Binds};
pub use event::PairEvent;

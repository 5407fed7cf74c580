//! Warnings.

use departures::Kind;

/// A place at which the interpreter departs from the machine.
#[derive(Clone, Copy, PartialEq, Eq)]
pub struct Warning {
    /// The place of the instruction, an offset from the image's base.
    pub place: u32,
    pub kind: Kind,
}

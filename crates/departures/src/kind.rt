//! The kinds of departures.

/// How EDK2's interpreter departs from the machine (docs/FIRMWARE.md, "Warnings").
#[derive(Clone, Copy, PartialEq, Eq)]
pub enum Kind {
    /// All 64 bits of R7 are read as a native call may have left them.
    Status,
    /// What may lie above a number of one, two or four bytes is read.
    Narrow,
    /// POPn has an immediate.
    Popn,
    /// A signed division may be one of the smallest number by -1.
    Divide,
    /// A shift may be by as many bits as the form has, or by more.
    Shift,
    /// CMPI64 compares unsigned with a negative immediate.
    Compare,
    /// BREAK has another code than 5.
    Break,
    /// A field of an object that a native call hands out is loaded, and nothing stores into it.
    Unwritten,
    /// A relative CALL64.
    Far,
    /// A function is called while slots and locals take an odd number of bytes.
    Odd,
    /// A native call has nine or more arguments while slots and locals take no multiple of eight bytes.
    Frame,
    /// A text without a zero at its end may be an argument of a native call.
    String,
}

/// The kinds in the order of their lines at one place.
pub const KINDS: [Kind; 12] = [
    Kind::Status,
    Kind::Narrow,
    Kind::Popn,
    Kind::Divide,
    Kind::Shift,
    Kind::Compare,
    Kind::Break,
    Kind::Unwritten,
    Kind::Far,
    Kind::Odd,
    Kind::Frame,
    Kind::String,
];

//! A step of a run, and what it changed.
use crate::meaning::Meaning;
use arrayvec::ArrayVec;
use ebc_insn::Insn;
use note_types::Spot;

/// A step of a run, and what it changed. What it added to the run's events stands beside it.
#[derive(Drop)]
pub struct Step {
    /// Which step of the run it is, from 1, as the last line of a run counts steps.
    pub number: u64,
    /// Where the run stood before it.
    pub place: Spot,
    /// The instruction that was done or raised an exception. There is none in a step of the host, nor where no instruction
    /// could be read.
    pub insn: Option<Insn>,
    /// R0 to R7: the new number of each that changed.
    pub registers: [Option<Change>; 8],
    /// The new C, if it changed.
    pub flag: Option<bool>,
    /// What the instruction stored, if it stored anything.
    pub stored: Option<Stored>,
}

/// A number, which a register holds in place of another one, say, and what it is as an address.
#[derive(Clone, Copy)]
pub struct Change {
    /// The number.
    pub number: u64,
    /// What it is as an address of the run, if it is one.
    pub meaning: Option<Meaning>,
}

/// Bytes that an instruction stored.
#[derive(Drop)]
pub struct Stored {
    /// The address of the first byte.
    pub address: Change,
    /// The bytes, at most 16, by their addresses.
    pub bytes: ArrayVec<u8, 16>,
}

//! Tests of the instructions and their encoding, of regions, frames and objects in memory, of the arithmetic, the machine
//! and the thunks. They stand in a crate of their own, above all of these, so that none of these is proved a second time
//! with its tests.
#![tactic(auto)]

#[cfg(test)]
mod arithmetic;
#[cfg(test)]
mod encoding;
#[cfg(test)]
mod frames;
#[cfg(test)]
mod instructions;
#[cfg(test)]
mod objects;
#[cfg(test)]
mod regions;
#[cfg(test)]
mod steps;
#[cfg(test)]
mod thunks;

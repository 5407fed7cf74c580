//! Tests of the types and records of notes, of the values of a run beside their types, and of bytes that are no text.
//! They stand in a crate of their own above `note_types`, `host_model`, `type_notes` and `protocol_script`, since a
//! crate with tests is proved twice. It has no code besides. Texts of notes and scripts are rows of `typing_rows`.
#![tactic(auto)]

#[cfg(test)]
mod arguments;
#[cfg(test)]
mod bytes;
#[cfg(test)]
mod fitting;
#[cfg(test)]
mod same;
#[cfg(test)]
mod types;

//! What is said of the first fault of notes with labels: of a label that isn't there, and of other keys as of notes.
//!
//! Promises:
//!
//! No sentence has a clause. The call ends, and fails by want of memory alone.
//!
//! - `labelled_said`: by the fault, its path and what the answer prints behind it: the label, and the line and the
//!   column where it stands.
//!
//! | Fault | Sentence |
//! |---|---|
//! | of a label | the label, why no place has it, and labels that are near, or the first ones |
//! | of `level`, with a label | that calls lead from that function back to it |
//! | of a key that is left out | what is found for it, and why that won't do |
//! | another | what `toml_said` of explain_texts says of notes |
//!
//! A condition over several keys speaks of places. So its sentence is that of the text with places for its labels, and
//! stands where the key does in the text itself.
#![tactic(auto)]

mod behind;
mod faults;
mod filled;
mod labels;
mod near;
mod text;

pub use faults::labelled_said;
pub use text::LabelledText;

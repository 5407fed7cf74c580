//! Places in sentences.

use crate::line::Line;
use note_types::Notes;
use printed_texts::function_at;

impl Line {
    /// Adds a place: `main+0x12` by the function that it lies in, or `0x1234` where no function of the notes has it.
    pub fn place(&mut self, notes: &Notes, place: u32) -> &mut Line {
        match function_at(notes, place) {
            Some(f) => self
                .text(f.name.as_str())
                .text("+")
                .at(place.saturating_sub(f.place)),
            None => self.at(place),
        }
    }
}

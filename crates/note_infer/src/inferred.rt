//! What is found for an image under notes.

use note_types::{Points, RuleName, State};

/// The points found for an image under notes, or where it got stuck.
#[derive(Drop)]
pub enum Inferred {
    /// The states at the leaders that have one, by ascending place.
    Points(Points),
    /// The place at which a rule fails, the rule, and the state there where it was found in a round.
    Stuck {
        place: u32,
        rule: RuleName,
        state: Option<State>,
    },
    /// More leaders than the notes' version allows points.
    Many {
        leaders: u32,
    },
}

//! What a run of two images on one host reports.
use note_types::{Event, Value};

/// What firmware and code do with one another in a run of two images, as it is reported.
#[derive(PartialEq, Drop)]
pub enum PairEvent {
    /// An event of image A's run.
    A(Event),
    /// An event of image B's run.
    B(Event),
    /// A bound call of image A had its reply: the value that the function of image B returned.
    Bound(Value),
}

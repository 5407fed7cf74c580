//! What runs report.
use note_types::{Ending, Event, Spot};

/// What a run of an image shows.
#[derive(Drop)]
pub struct RunReport {
    /// How many steps it took, until it ended or up to a limit.
    pub steps: u64,
    /// Where it stands then.
    pub spot: Spot,
    /// How far it is.
    pub ending: Ending,
    /// What firmware and code did with one another, the first event first.
    pub events: Vec<Event>,
}

/// What the runs of an image at both widths show.
#[derive(Drop)]
pub struct TwinReport {
    /// The run at 4 bytes an address.
    pub at4: RunReport,
    /// The run at 8 bytes an address.
    pub at8: RunReport,
    /// The least number of steps, up to a limit, after which the two aren't the same: they don't stand at the same spot, or their
    /// events or endings aren't the same. None where they are the same after each.
    pub differ: Option<u64>,
}

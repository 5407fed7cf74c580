//! What runs of a pair report.
use note_types::{Ending, Spot};
use pair_model::PairEvent;

/// What a run of two images on one host shows.
#[derive(Drop)]
pub struct PairRun {
    /// How many steps it took, until it ended or up to a limit.
    pub steps: u64,
    /// Where the image stands then that runs: image A, and image B while its own run or a function of it is under way.
    pub spot: Spot,
    /// How far it is.
    pub ending: Ending,
    /// What firmware and code of both images did with one another, the first event first.
    pub events: Vec<PairEvent>,
}

/// What the runs of two images at both widths show.
#[derive(Drop)]
pub struct PairReport {
    /// The run at 4 bytes an address.
    pub at4: PairRun,
    /// The run at 8 bytes an address.
    pub at8: PairRun,
    /// The least number of steps, up to a limit, after which the two aren't the same: not the same image runs, it doesn't stand at the
    /// same spot, or the events or endings aren't the same. None where they are the same after each.
    pub differ: Option<u64>,
}

//! Whether two runs of a pair show the same.
ghost use Rattle.std.specs.Prelude.{◌≡◌, ◌↔◌, IsTrue, drop};

use crate::stage::Side;
use note_types::{Ending, Spot};
use pair_model::PairEvent;

// The events from that number on: none where there are fewer.
fn rest(events: &[PairEvent], first: usize) -> &[PairEvent]
    ensures { result.now ≡ drop first events.now }
{
    events.get(first..).unwrap_or(&[])
}

/// Whether the same image runs in both.
pub(crate) fn same_side(side: Side, other: Side) -> bool
    ensures { IsTrue result ↔ (side ≡ other) }
{
    side == other
}

/// Whether both stand at the same spot.
pub(crate) fn same_spot(spot: Spot, other: Spot) -> bool
    ensures { IsTrue result ↔ (spot ≡ other) }
{
    spot == other
}

/// Whether both are as far.
pub(crate) fn same_ending(ending: Ending, other: Ending) -> bool
    ensures { IsTrue result ↔ (ending ≡ other) }
{
    ending == other
}

/// Whether two lists of events are the same from that number on.
pub(crate) fn same_from(events: &[PairEvent], others: &[PairEvent], first: usize) -> bool
    ensures { IsTrue result ↔ (drop first events.now ≡ drop first others.now) }
{
    rest(events, first) == rest(others, first)
}

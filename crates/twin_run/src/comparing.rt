//! Whether two runs show the same.
ghost use Rattle.std.specs.Prelude.{◌≡◌, ◌↔◌, IsTrue, drop};

use note_types::{Ending, Event, Spot};

// The events from that number on: none where there are fewer.
fn rest(events: &[Event], first: usize) -> &[Event]
    ensures { result.now ≡ drop first events.now }
{
    events.get(first..).unwrap_or(&[])
}

/// Whether two runs stand at the same spot.
pub fn same_spot(spot: Spot, other: Spot) -> bool
    ensures { IsTrue result ↔ (spot ≡ other) }
{
    spot == other
}

/// Whether two runs are as far.
pub fn same_ending(ending: Ending, other: Ending) -> bool
    ensures { IsTrue result ↔ (ending ≡ other) }
{
    ending == other
}

/// Whether two lists of events are the same from that number on.
pub fn same_from(events: &[Event], others: &[Event], first: usize) -> bool
    ensures { IsTrue result ↔ (drop first events.now ≡ drop first others.now) }
{
    rest(events, first) == rest(others, first)
}

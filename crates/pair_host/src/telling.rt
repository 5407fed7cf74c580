//! The events of a pair, which come from the runs of both images.
ghost use Rattle.std.specs.Prelude.{◌≡◌, ◌<◌, ◌≤◌, ◌∷◌, [], ◌++◌, map, slice_get, vec_capacity, vec_len};
ghost use Rattle.pair_host.specs.PairRunner.{listed};

use note_types::Event;
use pair_model::PairEvent;

// The same event once more.
fn copied(event: &Event) -> Event
    ensures { result ≡ event.now }
{
    match event {
        Event::Called {
            place,
            signature,
            args,
        } => Event::Called {
            place: *place,
            signature: *signature,
            args: args.copy(),
        },
        Event::Entered { func, args } => Event::Entered {
            func: *func,
            args: args.copy(),
        },
        Event::Returned { func, value } => Event::Returned {
            func: *func,
            value: *value,
        },
        Event::Replied { entry, value } => Event::Replied {
            entry: *entry,
            value: *value,
        },
        Event::Notified { func, args } => Event::Notified {
            func: *func,
            args: args.copy(),
        },
        Event::Resumed { func, value } => Event::Resumed {
            func: *func,
            value: *value,
        },
    }
}

// The event of that number, from 0.
fn event_at(events: &[Event], number: usize) -> Option<Event>
    ensures { result ≡ slice_get events.now number }
{
    match events.get(number) {
        Some(event) => Some(copied(event)),
        None => None,
    }
}

/// Adds an event after the others, for which there is room.
pub(crate) fn tell(trace: &mut Vec<PairEvent>, event: PairEvent)
    requires { vec_len trace.old < vec_capacity trace.old }
    ensures items { trace.new.items ≡ trace.old.items ++ event ∷ [] }
    ensures capacity { vec_capacity trace.old ≤ vec_capacity trace.new }
{
    let Ok(()) = trace.push(event) else {
        unreachable!();
    };
}

/// Adds an event of image A after the others, for which there is room: that of its own events with a number, if it is there.
pub(crate) fn tell_a(trace: &mut Vec<PairEvent>, events: &[Event], number: usize)
    requires { vec_len trace.old < vec_capacity trace.old }
    ensures items { trace.new.items ≡ trace.old.items ++ map PairEvent.A (listed (slice_get events.now number)) }
    ensures capacity { vec_capacity trace.old ≤ vec_capacity trace.new }
{
    match event_at(events, number) {
        Some(event) => tell(trace, PairEvent::A(event)),
        None => {}
    }
}

/// The same of image B.
pub(crate) fn tell_b(trace: &mut Vec<PairEvent>, events: &[Event], number: usize)
    requires { vec_len trace.old < vec_capacity trace.old }
    ensures items { trace.new.items ≡ trace.old.items ++ map PairEvent.B (listed (slice_get events.now number)) }
    ensures capacity { vec_capacity trace.old ≤ vec_capacity trace.new }
{
    match event_at(events, number) {
        Some(event) => tell(trace, PairEvent::B(event)),
        None => {}
    }
}

//! What is said of runs of two images that end otherwise than finished.

use crate::runs::{Ended, Scripted, Width, add_said, ended_said};
use ebc_base::NoMemory;
use explain_base::Said;
use note_types::{Ending, Event, Notes, Reason};
use pair_model::{Bind, PairEvent};
use printed_texts::ShownPair;
use std::alloc::Global;

/// Two programs that ran on one host, with their binds.
#[derive(Clone, Copy)]
pub struct ScriptedPair<'a> {
    /// Image A, whose calls of bound methods enter functions of B.
    pub consumer: Scripted<'a>,
    /// Image B.
    pub provider: Scripted<'a>,
    pub binds: &'a [Bind],
}

// What the events of a run of two images show of its last calls.
#[derive(Clone, Copy)]
struct Tally<'a> {
    // Of the consumer: its calls but those that a function answered, the last one, and whether nothing came after it.
    calls: usize,
    last: Option<&'a Event>,
    waits: bool,
    // Of the provider: its calls, the last one, and how many have their reply.
    provider_calls: usize,
    provider_last: Option<&'a Event>,
    replies: usize,
}

fn counted(events: &[PairEvent]) -> Tally<'_> {
    let mut tally = Tally {
        calls: 0,
        last: None,
        waits: false,
        provider_calls: 0,
        provider_last: None,
        replies: 0,
    };
    for event in events {
        match event {
            PairEvent::A(event) => {
                tally.waits = matches!(event, Event::Called { .. });
                if tally.waits {
                    tally.calls = tally.calls.saturating_add(1);
                    tally.last = Some(event);
                }
            }
            PairEvent::Bound(_) => {
                tally.waits = false;
                tally.calls = tally.calls.saturating_sub(1);
            }
            PairEvent::B(event @ Event::Called { .. }) => {
                tally.provider_calls = tally.provider_calls.saturating_add(1);
                tally.provider_last = Some(event);
            }
            PairEvent::B(Event::Replied { .. }) => {
                tally.replies = tally.replies.saturating_add(1);
            }
            PairEvent::B(_) => {}
        }
    }
    tally
}

// Whether a call is one of a bound method.
fn is_bound(notes: &Notes, binds: &[Bind], call: Option<&Event>) -> bool {
    let Some(
        Event::Called {
            signature: Some(number),
            ..
        },
    ) = call
    else {
        return false;
    };
    let Some(signature) = notes.signature.as_slice().get(*number as usize) else {
        return false;
    };
    for bind in binds {
        if bind.method == signature.method {
            return true;
        }
    }
    false
}

// Whether the run ended with the consumer, by its last event; `waits` says that it waits for a bound function.
fn is_consumer(events: &[PairEvent], ending: Ending, waits: bool, replied: bool) -> bool {
    match events.last() {
        Some(PairEvent::A(_) | PairEvent::Bound(_)) => true,
        Some(PairEvent::B(Event::Returned { .. })) => {
            waits && replied && matches!(ending, Ending::Mismatch(Reason::Reply { .. }))
        }
        _ => false,
    }
}

fn pair_run_said(
    alloc: Global,
    pair: &ScriptedPair,
    width: Width,
    run: &ShownPair,
) -> Result<Option<Said>, NoMemory> {
    let seen = counted(run.events);
    let bound = seen.waits && is_bound(pair.consumer.notes, pair.binds, seen.last);
    let replied = seen.replies == seen.provider_calls;
    let of_provider = Ended {
        width,
        steps: run.steps,
        most: 100_000,
        ending: run.ending,
        // The events don't tell of each spot whose it is.
        place: None,
        last: seen.provider_last,
        calls: seen.provider_calls,
        bound: false,
        page: "docs/PAIRS.md, \"A run that goes wrong\"",
    };
    if is_consumer(run.events, run.ending, bound, replied) {
        let of_consumer = Ended {
            last: seen.last,
            calls: seen.calls.saturating_sub(usize::from(bound)),
            bound,
            ..of_provider
        };
        return ended_said(alloc, &pair.consumer, &of_consumer);
    }
    ended_said(alloc, &pair.provider, &of_provider)
}

/// What is said of the two runs of `pair`, once where they end alike.
///
/// # Errors
///
/// Want of memory alone.
pub fn pair_said(
    alloc: Global,
    pair: &ScriptedPair,
    at4: &ShownPair,
    at8: &ShownPair,
) -> Result<Vec<Said>, NoMemory> {
    let mut told = Vec::new(alloc);
    if at4.ending == at8.ending && at4.steps == at8.steps {
        add_said(&mut told, pair_run_said(alloc, pair, Width::Both, at4))?;
        return Ok(told);
    }
    add_said(&mut told, pair_run_said(alloc, pair, Width::At32, at4))?;
    add_said(&mut told, pair_run_said(alloc, pair, Width::At64, at8))?;
    Ok(told)
}

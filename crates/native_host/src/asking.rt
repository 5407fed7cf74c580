//! What a call instruction asks for, and whether the script has that call (docs/HOST.md, "Steps", on the call step).
ghost use Rattle.std.specs.Prelude.{◌≡◌, ℕ, ◌<◌, ◌≤◌, length, map, nat_eq, slice_get, IfSome, IsSome, Some};
ghost use Rattle.std.specs.List.{find};
ghost use Rattle.std.specs.List.Sorted.{IsStrictlyIncreasing};
ghost use Rattle.std.specs.Option.{option_map, option_or};
ghost use Rattle.note_types.specs.Records.{IsNotes};
ghost use Rattle.host_model.specs.HostPlans.{argument_refused, asked_args, asked_signature, asking_refused, call_event, entry_refused};
ghost use Rattle.host_model.specs.HostPlans.{site_of};
ghost use Rattle.note_types.specs.declared.notes.Site.{Site};
ghost use Rattle.native_host.specs.Askings.{asking_of};
ghost use Rattle.native_host.specs.Steps.{end_step};

use crate::items::item_at;
use host_model::same_seen;
use note_types::{Args, Ending, Event, Exception, Notes, Reason, Script, Seen, Site};

/// What a call instruction asks for (docs/HOST.md, "Steps").
#[derive(Drop)]
pub(crate) enum Asking {
    /// Nothing: its place has no site.
    NoSite,
    /// A call by this signature, whose argument slots aren't all mapped.
    Unmapped(u32),
    /// A call by this signature with these arguments, and with another target than the signature's method where one is told.
    Asks {
        signature: u32,
        elsewhere: Option<u64>,
        args: Args,
    },
}

// The number of the signature by which the call instruction at a place calls, of sites that ascend by place.
fn site_at(sites: &[Site], place: u32) -> Option<u32>
    requires { IsStrictlyIncreasing (map (λ (s : Site). s.place) sites.now) }
    ensures site { result ≡ option_map (λ (s : Site). s.signature) (find (λ (s : Site). nat_eq s.place place) sites.now) }
    ensures there { IfSome result (λ g. (k : ℕ) × (s : Site) × (slice_get sites.now k ≡ Some s) × (s.signature ≡ g)) }
{
    let begun = sites.partition_point(|site| site.place < place);
    let found = sites.get(begun)?;
    if found.place == place {
        Some(found.signature)
    } else {
        None
    }
}

/// The number of the signature by which the call instruction at a place calls.
#[tactic(auto, unfolding(host_model::specs::HostPlans::site_of))]
pub(crate) fn site_of(notes: &Notes, place: u32) -> Option<u32>
    requires { IsNotes notes.now }
    ensures site { result ≡ site_of notes.now place }
    ensures known { IfSome result (λ g. g < length notes.now.signature) }
{
    site_at(notes.site.as_slice(), place)
}

/// The event of a native call at a place.
pub(crate) fn call_event(place: u32, asking: &Asking) -> Event
    ensures { result ≡ call_event place (asking_of asking.now) }
{
    match asking {
        Asking::NoSite => Event::Called {
            place,
            signature: None,
            args: Args::new(),
        },
        Asking::Unmapped(signature) => Event::Called {
            place,
            signature: Some(*signature),
            args: Args::new(),
        },
        Asking::Asks {
            signature,
            args,
            ..
        } => Event::Called {
            place,
            signature: Some(*signature),
            args: args.copy(),
        },
    }
}

// The first argument that isn't the one that the script has.
#[tactic(auto, unfolding(host_model::specs::HostPlans::argument_refused))]
fn argument_refused(found: &[Seen], wanted: &[Seen]) -> Option<Ending>
    requires { length found.now ≤ 16 }
    ensures ends { IfSome result (λ e. IsSome (end_step e)) }
    ensures refused { result ≡ argument_refused 0 found.now wanted.now }
{
    for (k, seen) in found.iter().enumerate() {
        let Some(other) = wanted.get(k) else {
            return None;
        };
        if !same_seen(seen, other) {
            return Some(Ending::Mismatch(Reason::Argument {
                number: k as u32,
                found: *seen,
                wanted: *other,
            }));
        }
    }
    None
}

// How a run ends where the script has no call of that number, one by another signature, or one with other arguments.
fn entry_refused(script: &Script, entry: u32, signature: u32, args: &[Seen]) -> Option<Ending>
    requires { length args.now ≤ 16 }
    ensures ends { IfSome result (λ e. IsSome (end_step e)) }
    ensures refused { result ≡ entry_refused (slice_get script.now.call entry) signature args.now }
{
    let Some(call) = item_at(&script.call, entry as usize) else {
        return Some(Ending::ScriptEnd);
    };
    if call.signature == signature {
        argument_refused(args, call.args.as_slice())
    } else {
        Some(Ending::Mismatch(Reason::Signature {
            found: signature,
            wanted: call.signature,
        }))
    }
}

impl Asking {
    /// The signature of a call that is asked for, 0 where its place has no site.
    pub(crate) fn signature(&self) -> u32
        ensures { result ≡ asked_signature (asking_of self.now) }
    {
        match self {
            Asking::NoSite => 0,
            Asking::Unmapped(signature) => *signature,
            Asking::Asks { signature, .. } => *signature,
        }
    }

    // Its arguments.
    fn args(&self) -> &[Seen]
        ensures args { result.now ≡ asked_args (asking_of self.now) }
        ensures few { length result.now ≤ 16 }
    {
        match self {
            Asking::Asks { args, .. } => args.as_slice(),
            _ => &[],
        }
    }

    /// Its arguments, handed over.
    pub(crate) fn into_args(self) -> Args
        ensures { result ≡ asked_args (asking_of self) }
    {
        match self {
            Asking::Asks { args, .. } => args,
            _ => Args::new(),
        }
    }
}

/// How a run ends at a call that is asked for at a place, without a site, with a slot that isn't mapped, or to another target.
pub(crate) fn asking_refused(place: u32, asking: &Asking) -> Option<Ending>
    ensures refused { result ≡ asking_refused place (asking_of asking.now) }
    ensures ends { IfSome result (λ e. IsSome (end_step e)) }
{
    match asking {
        Asking::NoSite => Some(Ending::Mismatch(Reason::Site { place })),
        Asking::Unmapped(_) => Some(Ending::Raised(Exception::StackFault)),
        Asking::Asks {
            elsewhere: Some(address),
            ..
        } => Some(Ending::Mismatch(Reason::Target { address: *address })),
        Asking::Asks { .. } => None,
    }
}

/// How a run ends at a call that is asked for at a place, where so many calls of the script were accepted.
pub(crate) fn refused(script: &Script, entry: u32, place: u32, asking: &Asking) -> Option<Ending>
    ensures refused { result ≡ option_or (asking_refused place (asking_of asking.now))
        (entry_refused (slice_get script.now.call entry) (asked_signature (asking_of asking.now)) (asked_args (asking_of asking.now))) }
    ensures ends { IfSome result (λ e. IsSome (end_step e)) }
{
    match asking_refused(place, asking) {
        Some(ending) => Some(ending),
        None => entry_refused(script, entry, asking.signature(), asking.args()),
    }
}

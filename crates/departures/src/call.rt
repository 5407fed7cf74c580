//! Calls, and the stack beneath them.

ghost use Rattle.std.specs.Prelude.{◌≡◌, ◌<◌, ◌≤◌, ◌*◌, ◌^◌, length, map, option_copied};
ghost use Rattle.std.specs.List.Sorted.{IsStrictlyIncreasing};
ghost use Rattle.rules_base.specs.Places.{locals_size};
ghost use Rattle.rules_flow.specs.Calls.{site_at};
ghost use Rattle.rules_flow.specs.Frames.{item_size, items_size};
ghost use Rattle.departures.specs.Calls.{argument_count, calls_far, calls_function, calls_native, is_many_apart, is_odd, signature_at};
ghost use Rattle.departures.specs.Calls.{stack_bytes};

use ebc_insn::Insn;
use note_types::{FnNote, Item, Notes, Pair, Signature, Site, State};
use rules_base::{locals_size, slot_size};
use rules_flow::number_at;

/// Whether an instruction is a native call.
pub fn calls_native(insn: &Insn) -> bool
    ensures { result ≡ calls_native insn.now }
{
    matches!(insn, Insn::Call { native: true, .. })
}

/// Whether an instruction is a call of byte code.
pub fn calls_function(insn: &Insn) -> bool
    ensures { result ≡ calls_function insn.now }
{
    matches!(insn, Insn::Call { native: false, .. })
}

/// Whether an instruction is a relative CALL64.
pub fn calls_far(insn: &Insn) -> bool
    ensures { result ≡ calls_far insn.now }
{
    match insn {
        Insn::Call {
            far: true,
            relative: true,
            ..
        } => true,
        _ => false,
    }
}

// The site at a place.
#[tactic(auto, unfolding(rules_flow::specs::Calls::site_at))]
fn site_at(sites: &[Site], place: u32) -> Option<&Site>
    requires { IsStrictlyIncreasing (map (λ x. x.place) sites.now) }
    ensures { option_copied result ≡ site_at sites.now place }
{
    let number = number_at(sites, u128::from(place))?;
    sites.get(number)
}

/// The signature by which the native call at a place is made, where the notes have one.
#[tactic(auto, unfolding(crate::specs::Calls::signature_at))]
pub fn signature_at(notes: &Notes, place: u32) -> Option<&Signature>
    requires { IsStrictlyIncreasing (map (λ x. x.place) notes.now.site) }
    ensures { option_copied result ≡ signature_at notes.now place }
{
    let site = site_at(notes.site.as_slice(), place)?;
    notes.signature.as_slice().get(site.signature as usize)
}

/// How many arguments the native call at a place has.
pub fn argument_count(notes: &Notes, place: u32) -> usize
    requires { IsStrictlyIncreasing (map (λ x. x.place) notes.now.site) }
    ensures { result ≡ argument_count notes.now place }
{
    match signature_at(notes, place) {
        Some(x) => x.params.as_slice().len(),
        None => 0,
    }
}

// What an item takes of the stack beside natural units, in bytes.
fn item_bytes(locals: Pair, item: &Item) -> u64
    requires { locals.c < 2 ^ 32 }
    ensures bytes { result ≡ (item_size locals item.now).c }
    ensures few { result < 2 ^ 32 }
{
    match item {
        Item::Slot { kind, .. } => slot_size(*kind).c,
        Item::Locals => locals.c,
    }
}

// What items take so.
#[tactic(auto, unfolding(rules_flow::specs::Frames::items_size))]
fn items_bytes(locals: Pair, items: &[Item]) -> u64
    requires bytes { locals.c < 2 ^ 32 }
    requires few { length items.now ≤ 65 }
    ensures bytes { result ≡ (items_size locals items.now).c }
    ensures few { result ≤ 2 ^ 32 * length items.now }
{
    match items {
        [] => 0,
        [item, rest @ ..] => item_bytes(locals, item) + items_bytes(locals, rest),
    }
}

// What the slots and the locals of a function take so.
fn stack_bytes(notes: &Notes, f: &FnNote, s: &State) -> u64
    ensures { result ≡ stack_bytes notes.now f.now s.now }
{
    items_bytes(locals_size(notes, f), s.items.as_slice())
}

/// Whether slots and locals take an odd number of bytes.
pub fn is_odd(notes: &Notes, f: &FnNote, s: &State) -> bool
    ensures { result ≡ is_odd notes.now f.now s.now }
{
    stack_bytes(notes, f, s) % 2 != 0
}

/// Whether the native call at a place has nine or more arguments, while slots and locals take no multiple of eight bytes at width 8.
pub fn is_many_apart(notes: &Notes, f: &FnNote, place: u32, s: &State) -> bool
    requires { IsStrictlyIncreasing (map (λ x. x.place) notes.now.site) }
    ensures { result ≡ is_many_apart notes.now f.now place s.now }
{
    9 <= argument_count(notes, place) && stack_bytes(notes, f, s) % 8 != 0
}

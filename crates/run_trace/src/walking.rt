//! Where an address lies in the memory of a run, by a walk over its objects.
ghost use Rattle.std.specs.Prelude.{◌≡◌, ◌+◌, ◌^◌, ◌<◌, ◌≤◌, IfNone, IfSome, length};
ghost use Rattle.ebc_width.specs.Width.{IsWidth};
ghost use Rattle.object_memory.specs.Memory.{first_base, padded, ranges};
ghost use Rattle.run_trace.specs.Addresses.{located, meaning_at};
ghost use Rattle.run_trace.specs.Walks.{RunsImage};

use crate::addresses::{Located, meaning_of};
use note_types::Notes;
use step_texts::Meaning;
use twin_run::Runner;

/// Where the first object of a memory lies.
pub(crate) fn first_base<const W: usize>() -> u64
    requires { IsWidth W }
    ensures { result ≡ first_base W }
{
    if W == 4 { 0x10_0000 } else { 0x2_0000_0000 }
}

/// Where the object behind one of so many bytes lies, unless that is past all addresses.
pub(crate) fn next_base(base: u64, size: usize) -> Option<u64>
    requires { size < 2 ^ 63 }
    ensures next { IfSome result (λ next. next ≡ base + padded size) }
    ensures past { IfNone result (2 ^ 64 ≤ base + padded size) }
{
    base.checked_add((size as u64).next_multiple_of(16) + 16)
}

// Where an address lies in the memory of a run.
fn located<const W: usize>(runner: &Runner<W>, address: u64) -> Option<Located>
    requires width { IsWidth W }
    requires runs { RunsImage W runner.now }
    ensures located { result ≡ located 0 (ranges runner.now.mem) address }
    ensures few { IfSome result (λ l. l.object < 2 ^ 60) }
{
    let mut base = first_base::<W>();
    let mut object = 0;
    while base <= address {
        let Some(bytes) = runner.bytes_from(base) else {
            return None;
        };
        if address - base < bytes.len() as u64 {
            let offset = address - base;
            return Some(Located { object, offset });
        }
        let Some(next) = next_base(base, bytes.len()) else {
            return None;
        };
        base = next;
        object += 1;
    }
    None
}

/// What a number is as an address of a run.
#[tactic(auto, unfolding(crate::specs::Addresses::meaning_at))]
pub(crate) fn meaning_at<const W: usize>(
    runner: &Runner<W>,
    notes: &Notes,
    number: u64,
) -> Option<Meaning>
    requires width { IsWidth W }
    requires runs { RunsImage W runner.now }
    requires statics { length notes.now.statics < 2 ^ 32 }
    ensures { result ≡ meaning_at notes.now (ranges runner.now.mem) number }
{
    match located(runner, number) {
        Some(located) => meaning_of(notes, located),
        None => None,
    }
}

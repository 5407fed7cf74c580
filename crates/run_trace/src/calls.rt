//! The CALLs of an image that haven't returned.
ghost use Rattle.std.specs.Prelude.{◌≡◌, ◌++◌, IfNone, IfSome, None, OnOk, Some, nat_le};
ghost use Rattle.std.specs.List.{filter};
ghost use Rattle.ebc_machine.specs.Fetch.{fetched};
ghost use Rattle.host_model.specs.RunState.{RunState};
ghost use Rattle.host_model.specs.World.{World};
ghost use Rattle.note_types.specs.Concrete.{Concrete, rest_from};
ghost use Rattle.note_types.specs.declared.ending.Ending.TheVariants.{Running};
ghost use Rattle.twin_run.specs.Runner.{IsRunner, Runs};
ghost use Rattle.run_trace.specs.Calls.{call_length, call_of, is_call, next_back, stack_top};

use ebc_decode::{Decoded, decode_first};
use ebc_insn::Insn;
use note_types::{Ending, NoMemory, Notes, Script};
use twin_run::Runner;

/// A CALL to the image that hasn't returned.
#[derive(Clone, Copy)]
pub struct InnerCall {
    /// How many functions that the firmware entered were open.
    pub entered: usize,
    /// Where its return address lies: R0 after it.
    pub stack: u64,
    /// The address behind it, to which it returns.
    pub back: u64,
}

// Whether an instruction is a CALL to the image.
fn is_call(insn: &Insn) -> bool
    ensures { result ≡ is_call insn.now }
{
    match insn {
        Insn::Call { native, .. } => !*native,
        _ => false,
    }
}

// The length of the instruction that bytes begin with, if it is a CALL to the image.
#[tactic(auto, unfolding(ebc_machine::specs::Fetch::fetched))]
fn call_length(bytes: &[u8]) -> Option<usize>
    ensures { (s : Concrete) → rest_from s s.ip ≡ Some bytes.now → result ≡ call_length (fetched s) }
{
    match decode_first::<3>(bytes) {
        Decoded::Found(insn, length) => { if is_call(&insn) { Some(length) } else { None } }
        Decoded::Fault(_) => None,
    }
}

// The length of the instruction at ip, if it is a CALL to the image.
fn length_at_ip<const W: usize>(runner: &Runner<W>) -> Option<usize>
    ensures { (world : World) (r : RunState) → IsRunner W world runner.now r → result ≡ call_length (fetched r.machine) }
{
    match runner.bytes_from(runner.ip()) {
        Some(bytes) => call_length(bytes),
        None => None,
    }
}

/// The address behind the next instruction of a run that goes on, where that is a CALL to the image.
#[tactic(auto, unfolding(crate::specs::Calls::next_back))]
pub(crate) fn next_back<const W: usize>(
    runner: &Runner<W>,
    notes: &Notes,
    script: &Script,
) -> Option<u64>
    requires runs { Runs W notes.now script.now runner.now }
    requires running { runner.now.ending ≡ Running }
    ensures { (world : World) (r : RunState) → world.script ≡ script.now → IsRunner W world runner.now r → result ≡ next_back world r }
{
    if runner.is_hosts_turn(notes, script) {
        return None;
    }
    match length_at_ip(runner) {
        Some(length) => Some(runner.ip().wrapping_add(length as u64)),
        None => None,
    }
}

// Leaves those CALLs that lie no lower than R0.
fn keep_from(calls: &mut Vec<InnerCall>, top: u64)
    ensures { calls.new.items ≡ filter (λ c. nat_le top c.stack) calls.old.items }
{
    calls.retain(|call| top <= call.stack);
}

// Adds the CALL that returns to this address and was the last step of a run that goes on.
fn push_call<const W: usize>(
    calls: &mut Vec<InnerCall>,
    runner: &Runner<W>,
    back: u64,
) -> Result<(), NoMemory>
    ensures { OnOk result ((world : World) (s : RunState) → IsRunner W world runner.now s → s.ending ≡ Running
        → calls.new.items ≡ calls.old.items ++ call_of s (Some back)) }
{
    let (_, frames) = runner.frames();
    calls.push(InnerCall {
        entered: frames.depth(),
        stack: runner.registers()[0],
        back,
    })?;
    Ok(())
}

// Adds the CALL that returns to an address, if one was the last step of a run that goes on.
fn add_call<const W: usize>(
    calls: &mut Vec<InnerCall>,
    runner: &Runner<W>,
    back: Option<u64>,
) -> Result<(), NoMemory>
    ensures { OnOk result ((world : World) (s : RunState) → IsRunner W world runner.now s
        → calls.new.items ≡ calls.old.items ++ call_of s back) }
{
    let Some(back) = back else {
        return Ok(());
    };
    let Ending::Running = runner.ending() else {
        return Ok(());
    };
    push_call(calls, runner, back)
}

/// Follows the CALLs that are open over a step, after which the run is where the runner is. The step was a CALL to the image if there is
/// the address to which that returns, unless it ended the run.
///
/// # Errors
///
/// There is no memory for one CALL more.
pub(crate) fn follow<const W: usize>(
    calls: &mut Vec<InnerCall>,
    runner: &Runner<W>,
    back: Option<u64>,
) -> Result<(), NoMemory>
    ensures { OnOk result ((world : World) (s : RunState) → IsRunner W world runner.now s
        → calls.new.items ≡ filter (λ c. nat_le (stack_top s) c.stack) calls.old.items ++ call_of s back) }
{
    keep_from(calls, runner.registers()[0]);
    add_call(calls, runner, back)
}

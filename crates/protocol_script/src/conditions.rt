//! The fourth pass over scripts: the conditions, tried in their order.
ghost use Rattle.std.specs.Prelude.{◌≡◌, IfOk, codes};
ghost use Rattle.note_texts.specs.Outcome.{Gives};
ghost use Rattle.note_types.specs.declared.fault.TomlFault.TheVariants.{Range};
ghost use Rattle.ebc_base.specs.Steps.{passes};
ghost use Rattle.host_model.specs.HostPlans.{function_params, signature_params};
ghost use Rattle.script_draft.specs.Lists.{all_pass};
ghost use Rattle.protocol_script.specs.Conditions.{args_fit, call_args, conditions, has_args, is_later, notify_ascends, notify_at};
ghost use Rattle.protocol_script.specs.Conditions.{notify_conditions, notify_few, waits_for};

use crate::limits::keep_limits;
use crate::objects::{all_objects, objects_at_start};
use crate::tables::{met_at, tables_meet};
use host_model::fits_each;
use note_types::{Name, Notes, NotesEnd, Notify, Param, Script, ScriptCall, TomlFault, WantParam};
use std::alloc::{AllocError, Global};

/// Notifications of a script.
const MAX_NOTIFICATIONS: usize = 16_384;

// The parameters of a function, none where it isn't there.
fn function_params(notes: &Notes, function: u32) -> &[Param]
    ensures { result.now ≡ function_params notes.now function }
{
    match notes.function.as_slice().get(function as usize) {
        Some(function) => function.params.as_slice(),
        None => &[],
    }
}

// The parameters of a signature, none where it isn't there.
fn signature_params(notes: &Notes, signature: u32) -> &[WantParam]
    ensures { result.now ≡ signature_params notes.now signature }
{
    match notes.signature.as_slice().get(signature as usize) {
        Some(signature) => signature.params.as_slice(),
        None => &[],
    }
}

// Whether the arguments of a script fit the parameters of the entry function.
#[tactic(auto, unfolding(crate::specs::Conditions::args_fit))]
fn args_fit(alloc: Global, notes: &Notes, script: &Script) -> Result<bool, AllocError>
    ensures { IfOk result (λ fit. fit ≡ args_fit notes.now script.now) }
{
    let made = objects_at_start(alloc, notes, script)?;
    Ok(fits_each(
        made.as_slice(),
        function_params(notes, notes.entry),
        script.args.as_slice(),
    ))
}

fn args_pass(alloc: Global, notes: &Notes, script: &Script) -> Result<(), NotesEnd>
    ensures { Gives result (passes (args_fit notes.now script.now) (Range (codes "args"))) }
{
    if args_fit(alloc, notes, script)? {
        return Ok(());
    }
    let path = String::from_str(alloc, "args")?;
    Err(NotesEnd::Fault(TomlFault::Range(Name::new(path))))
}

fn has_args(notes: &Notes, call: &ScriptCall) -> bool
    ensures { result ≡ has_args notes.now call.now }
{
    call.args.len() == signature_params(notes, call.signature).len()
}

fn call_args(alloc: Global, notes: &Notes, index: usize, call: &ScriptCall) -> Result<(), NotesEnd>
    ensures { Gives result (call_args notes.now index call.now) }
{
    met_at(alloc, has_args(notes, call), "call", index, "args")
}

fn all_args(alloc: Global, notes: &Notes, calls: &[ScriptCall]) -> Result<(), NotesEnd>
    ensures { Gives result (all_pass (call_args notes.now) 0 calls.now) }
{
    for i in 0..calls.len() {
        call_args(alloc, notes, i, &calls[i])?;
    }
    Ok(())
}

// How many instructions the notification of that number waits for.
fn waits_for(notifications: &[Notify], index: usize) -> u64
    ensures { result ≡ waits_for notifications.now index }
{
    match notifications.get(index) {
        Some(notify) => notify.at,
        None => 0,
    }
}

// Whether it waits for more of them than the one before, if it isn't the first.
fn is_later(notifications: &[Notify], index: usize) -> bool
    ensures { result ≡ is_later notifications.now index }
{
    index == 0 || waits_for(notifications, index - 1) < waits_for(notifications, index)
}

fn notify_at(alloc: Global, notifications: &[Notify], index: usize) -> Result<(), NotesEnd>
    ensures { Gives result (notify_at notifications.now index) }
{
    met_at(alloc, is_later(notifications, index), "notify", index, "at")
}

fn notify_ascends(alloc: Global, notifications: &[Notify]) -> Result<(), NotesEnd>
    ensures { Gives result (notify_ascends notifications.now) }
{
    for i in 0..notifications.len() {
        notify_at(alloc, notifications, i)?;
    }
    Ok(())
}

fn notify_few(alloc: Global, script: &Script) -> Result<(), NotesEnd>
    ensures { Gives result (notify_few script.now) }
{
    if script.notify.len() <= MAX_NOTIFICATIONS {
        return Ok(());
    }
    let path = String::from_str(alloc, "notify")?;
    Err(NotesEnd::Fault(TomlFault::Range(Name::new(path))))
}

#[tactic(auto, unfolding(crate::specs::Conditions::notify_conditions))]
fn notifications_meet(alloc: Global, script: &Script) -> Result<(), NotesEnd>
    ensures { Gives result (notify_conditions script.now) }
{
    notify_few(alloc, script)?;
    notify_ascends(alloc, script.notify.as_slice())
}

/// Nothing where a script meets all conditions.
///
/// # Errors
///
/// `TomlFault::Range` with the path of the key at which the first that isn't met is named; no memory.
#[tactic(auto, unfolding(crate::specs::Conditions::conditions))]
pub fn meet_conditions(alloc: Global, notes: &Notes, script: &Script) -> Result<(), NotesEnd>
    ensures { Gives result (conditions notes.now script.now) }
{
    args_pass(alloc, notes, script)?;
    all_args(alloc, notes, script.call.as_slice())?;
    let made = all_objects(alloc, notes, script)?;
    tables_meet(alloc, notes, script, made.as_slice())?;
    keep_limits(alloc, notes, script)?;
    notifications_meet(alloc, script)
}

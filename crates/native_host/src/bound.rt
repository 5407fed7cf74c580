//! Bound calls: what the host of either image does where an image calls a method that a function of another image answers
//! (docs/PAIRS.md, "The rules").
ghost use Rattle.std.specs.Prelude.{◌≡◌, ℕ, ◌-◌, ◌^◌, ◌<◌, ◌≤◌, length, map, min, OnErr, OnOk, option_map};
ghost use Rattle.ebc_width.specs.Width.{IsWidth};
ghost use Rattle.note_types.specs.Concrete.{register};
ghost use Rattle.note_types.specs.Records.{IsNotes};
ghost use Rattle.object_memory.specs.Memory.{byte_at, ranges};
ghost use Rattle.host_model.specs.HostPlans.{function_params, signature_params, signature_result};
ghost use Rattle.host_model.specs.HostSteps.{asking_at, objects_at, slots_asked, with_call};
ghost use Rattle.host_model.specs.Objects.{made_objects};
ghost use Rattle.host_model.specs.Progress.{Asked, NativeCall, NoCall, ScriptPlace};
ghost use Rattle.host_model.specs.RunState.{RunState};
ghost use Rattle.host_model.specs.World.{World};
ghost use Rattle.callex_thunk.specs.HostFrames.{saved_of};
ghost use Rattle.callex_thunk.specs.Slots.{with_arguments};
ghost use Rattle.pair_model.specs.Binds.{bound_at, bound_to};
ghost use Rattle.pair_model.specs.PairRuns.{bound_number};
ghost use Rattle.pair_model.specs.Rules.{parameter_refused, provider_refused, reply_refused};
ghost use Rattle.native_host.specs.Askings.{asking_of};
ghost use Rattle.native_host.specs.Bound.{OnCalled, bound_answer, bound_call_of, bound_step};
ghost use Rattle.native_host.specs.Hosts.{HasStack};
ghost use Rattle.native_host.specs.Kept.{IsOf, placement_of};

use crate::asking::{Asking, asking_refused, call_event, site_of};
use crate::host::Host;
use crate::items::item_at;
use callex_thunk::NO_ENTRY;
use frame_stack::FrameStack;
use host_model::{TypedObject, fits};
use note_types::{Args, Ending, Event, Notes, Param, Reason, Seen, Ty, Value};
use object_memory::ObjMem;
use pair_model::Binds;

/// A bound call: the signature of the caller by which it calls, and the function of the provider that answers. Each is its
/// number in its notes' order.
#[derive(Clone, Copy)]
pub struct BoundCall {
    pub signature: u32,
    pub function: u32,
}

/// What the call step of a bound call comes to, as far as the caller's image goes.
#[derive(Drop)]
pub enum BoundStep {
    /// It is a call by this signature, of the caller's notes, with these arguments. This is its event.
    Called {
        event: Event,
        signature: u32,
        args: Args,
    },
    /// The run ends so, after this event.
    Ended {
        event: Event,
        ending: Ending,
    },
}

// The function that is bound to a method.
#[tactic(auto, unfolding(pair_model::specs::Binds::bound_to))]
fn bound_to(binds: &Binds, method: u32) -> Option<u32>
    ensures { result ≡ bound_to binds.now method }
{
    let found = binds.as_slice().iter().find(|bind| bind.method == method)?;
    Some(found.function)
}

/// The bound call that a call instruction at a place of the caller is: `None` exactly where the place has no site, or the
/// method of the site isn't bound.
#[tactic(auto, unfolding(pair_model::specs::Binds::bound_at))]
pub fn bound_at(binds: &Binds, notes: &Notes, place: u32) -> Option<BoundCall>
    requires read { IsNotes notes.now }
    ensures bound { option_map bound_call_of result ≡ bound_at binds.now notes.now place }
{
    let signature = site_of(notes, place)?;
    let Some(its) = item_at(&notes.signature, signature as usize) else {
        unreachable!();
    };
    let function = bound_to(binds, its.method)?;
    Some(BoundCall {
        signature,
        function,
    })
}

// What a call comes to that is asked for at a place.
fn bound_step(place: u32, asking: Asking) -> BoundStep
    ensures { result ≡ bound_step place (asking_of asking) }
{
    let event = call_event(place, &asking);
    match asking_refused(place, &asking) {
        Some(ending) => BoundStep::Ended { event, ending },
        None => BoundStep::Called {
            event,
            signature: asking.signature(),
            args: asking.into_args(),
        },
    }
}

// How a pair ends at the first argument that doesn't fit its parameter, where these typed objects are made.
#[tactic(auto, unfolding(pair_model::specs::Rules::parameter_refused))]
fn parameter_refused(made: &[TypedObject], params: &[Param], args: &[Seen]) -> Option<Ending>
    requires { length args.now ≤ 16 }
    ensures refused { result ≡ parameter_refused made.now 0 params.now args.now }
{
    for (k, seen) in args.iter().enumerate() {
        let Some(param) = params.get(k) else {
            return None;
        };
        if !fits(made, &param.ty, &seen.value) {
            return Some(Ending::Mismatch(Reason::Argument {
                number: k as u32,
                found: *seen,
                wanted: Seen {
                    lent: false,
                    value: Value::Any,
                },
            }));
        }
    }
    None
}

// The parameters of the function of that number.
fn function_params(notes: &Notes, function: u32) -> &[Param]
    ensures { result.now ≡ function_params notes.now function }
{
    match notes.function.as_slice().get(function as usize) {
        Some(note) => note.params.as_slice(),
        None => &[],
    }
}

// The type of the result of the signature of that number.
fn signature_result(notes: &Notes, signature: u32) -> &Option<Ty>
    ensures { result.now ≡ signature_result notes.now signature }
{
    match notes.signature.as_slice().get(signature as usize) {
        Some(found) => &found.result,
        None => &None,
    }
}

impl<const W: usize> Host<W> {
    /// The call step of a bound call, on the caller's host, at a place of the image, to a target and with the argument slots at R0, as
    /// `Host::call` has them: its event, and the call by the site at the place, or how the run ends where the place has no site, an
    /// argument slot isn't mapped, or the target isn't the method of the site. No call of the script is accepted, and nothing changes
    /// but the slots of the top frame.
    pub fn bound_call(
        &self,
        notes: &Notes,
        mem: &ObjMem<W>,
        frames: &mut FrameStack,
        r0: u64,
        place: u32,
        target: u64,
    ) -> BoundStep
        requires width { IsWidth W }
        requires read { IsNotes notes.now }
        requires notes { IsOf W notes.now self.now.places }
        requires stack { HasStack W notes.now (placement_of self.now.places) mem.now }
        requires frame { 0 < length frames.old }
        ensures step { (world : World) (r : RunState) → world.notes ≡ notes.now → register r.machine 0 ≡ r0 →
            r.machine.objects ≡ ranges mem.now → r.machine.byte ≡ byte_at mem.now → objects_at world r ≡ self.now.made.items →
            result ≡ bound_step place (asking_at W world (placement_of self.now.places) r place target) }
        ensures called { (world : World) (r : RunState) → world.notes ≡ notes.now → register r.machine 0 ≡ r0 →
            r.machine.objects ≡ ranges mem.now → r.machine.byte ≡ byte_at mem.now → objects_at world r ≡ self.now.made.items →
            OnCalled result (λ signature args. length args ≡ length (signature_params notes.now signature)) }
        ensures slots { (world : World) (r : RunState) → world.notes ≡ notes.now → register r.machine 0 ≡ r0 →
            r.machine.objects ≡ ranges mem.now → r.machine.byte ≡ byte_at mem.now →
            frames.new ≡ with_arguments (slots_asked W world r (Asked place target)) frames.old }
        ensures hosts { (call : NativeCall ℕ) → with_call call (map saved_of frames.new) ≡ with_call call (map saved_of frames.old) }
        ensures len { length frames.new ≡ length frames.old }
    {
        let asking = self.asking(notes, mem, frames, r0, place, target);
        bound_step(place, asking)
    }

    /// How a pair ends where the provider, whose host this is, can't take a call of a function with these arguments: as
    /// mismatch `Bind` while fewer thunks were served than its notes have, and else as mismatch `Argument` at the first one
    /// that doesn't fit its parameter.
    #[tactic(auto, unfolding(pair_model::specs::Rules::provider_refused))]
    pub fn provider_refused(&self, notes: &Notes, function: u32, args: &Args) -> Option<Ending>
        requires read { IsNotes notes.now }
        ensures refused { (world : World) (at : ScriptPlace) → world.notes ≡ notes.now → self.now.thunks ≡ min at.thunks (2 ^ 64 - 1) →
            made_objects world.notes world.script at.entries ≡ self.now.made.items → result ≡ provider_refused world at function args.now }
    {
        if self.thunks < notes.thunk.len() as u64 {
            return Some(Ending::Mismatch(Reason::Bind { function }));
        }
        parameter_refused(
            self.made.as_slice(),
            function_params(notes, function),
            args.as_slice(),
        )
    }

    // How a pair ends where a value doesn't fit the result of a signature of the caller, whose host this is.
    #[tactic(auto, unfolding(pair_model::specs::Rules::reply_refused))]
    fn reply_refused(&self, kind: &Option<Ty>, value: &Value) -> Option<Ending>
        ensures { (world : World) (at : ScriptPlace) → at.entries ≡ self.now.entries →
            made_objects world.notes world.script at.entries ≡ self.now.made.items → result ≡ reply_refused world at kind.now value.now }
    {
        let Some(ty) = kind else {
            return None;
        };
        if fits(self.made.as_slice(), ty, value) {
            return None;
        }
        Some(Ending::Mismatch(Reason::Reply {
            entry: self.entries,
        }))
    }

    // The number of a value that the provider returned, 0 where the signature has no result.
    fn bound_number(&self, kind: &Option<Ty>, value: &Value) -> u64
        requires { IsWidth W }
        ensures { (world : World) (r : RunState) → IsOf W world.notes self.now.places → objects_at world r ≡ self.now.made.items →
            result ≡ bound_number W world (placement_of self.now.places) r kind.now value.now }
    {
        match kind {
            Some(_) => self.number_of(value),
            None => 0,
        }
    }

    /// The reply of a bound call, on the caller's host: the number that R7 gets for the value that the provider's function
    /// returned, 0 where the signature has no result. No call is under way any more in the top frame then.
    ///
    /// # Errors
    ///
    /// How the pair ends: as mismatch `Reply`, of the call of the script that is next, exactly where the signature has a
    /// result that the value doesn't fit. Nothing changes.
    pub fn bound_reply(
        &self,
        notes: &Notes,
        frames: &mut FrameStack,
        signature: u32,
        value: &Value,
    ) -> Result<u64, Ending>
        requires width { IsWidth W }
        requires notes { IsOf W notes.now self.now.places }
        requires frame { 0 < length frames.old }
        ensures answer { (world : World) (r : RunState) → world.notes ≡ notes.now → r.script.entries ≡ self.now.entries →
            objects_at world r ≡ self.now.made.items →
            result ≡ bound_answer W world (placement_of self.now.places) r (signature_result notes.now signature) value.now }
        ensures hosts { OnOk result ((call : NativeCall ℕ) →
            map saved_of frames.new ≡ with_call NoCall (with_call call (map saved_of frames.old))) }
        ensures same { OnErr result (frames.new ≡ frames.old) }
        ensures len { length frames.new ≡ length frames.old }
    {
        let kind = signature_result(notes, signature);
        if let Some(ending) = self.reply_refused(kind, value) {
            return Err(ending);
        }
        frames.set_mark(NO_ENTRY, 0, 0);
        Ok(self.bound_number(kind, value))
    }
}

//! What a run is asked beside its steps where its image is one of two on one host (docs/PAIRS.md, "The rules").
ghost use Rattle.std.specs.Prelude.{◌≡◌, ◌<◌, [], false, length, map, None, Some, true, IfErr, IfNone, IfSome, OnErr, OnOk};
ghost use Rattle.std.specs.Bool.{OnFalse, OnTrue};
ghost use Rattle.ebc_width.specs.Width.{IsWidth};
ghost use Rattle.note_types.specs.Records.{IsNotes};
ghost use Rattle.note_types.specs.declared.ending.Ending.TheVariants.{Running};
ghost use Rattle.note_types.specs.declared.seen.Seen.{Seen};
ghost use Rattle.host_model.specs.HostPlans.{Calls, Returns, function_params, signature_params, signature_result};
ghost use Rattle.host_model.specs.HostSteps.{asking_at, entered, host_view, left, objects_at, slots_asked, written_number};
ghost use Rattle.host_model.specs.Placements.{own_placement};
ghost use Rattle.host_model.specs.Progress.{Asked};
ghost use Rattle.host_model.specs.RunState.{RunState};
ghost use Rattle.host_model.specs.World.{World};
ghost use Rattle.callex_thunk.specs.Slots.{with_arguments};
ghost use Rattle.native_host.specs.Bound.{OnCalled, bound_step};
ghost use Rattle.native_host.specs.Hosts.{HasStack};
ghost use Rattle.native_host.specs.Kept.{IsOf, placement_of};
ghost use Rattle.pair_model.specs.PairRuns.{bound_reply};
ghost use Rattle.pair_model.specs.Rules.{provider_refused, reply_refused};
ghost use Rattle.twin_run.specs.Bound.{IsNoFirstReturn, Rests, place_called};
ghost use Rattle.twin_run.specs.Runner.{IsAt, IsRunner};

use crate::entering::argument_numbers;
use crate::runner::{AskedCall, Runner};
use entry_thunk::leave;
use native_host::{Args, BoundStep};
use note_types::{Ending, Notes, Value};

/// What the first function gave that the host entered.
#[derive(Clone, Copy)]
pub struct FirstReturn {
    /// The function, by its number in the notes' order.
    pub func: u32,
    /// Its result.
    pub value: Value,
}

impl<const W: usize> Runner<W> {
    /// The native call that is asked for, where the next step is the host's answer to it.
    pub fn asked_call(&self) -> Option<AskedCall>
        ensures asked { IfSome result (λ a. self.now.asked ≡ Some a) }
        ensures seen { IfSome result (λ a. (world : World) (r : RunState) → IsRunner W world self.now r → r.ending ≡ Running →
            host_view W world (own_placement W world) r ≡
            Some (Calls a.place (asking_at W world (own_placement W world) r a.place a.target))) }
        ensures none { IfNone result ((world : World) (r : RunState) → IsRunner W world self.now r → r.ending ≡ Running →
            place_called (host_view W world (own_placement W world) r) ≡ None) }
    {
        if self.machine.ip == self.machine.gate {
            return None;
        }
        self.asked
    }

    /// The call step of a bound call that is asked for: its event, and the call by the site at its place, or how the run ends
    /// where the place has no site, an argument slot isn't mapped, or the target isn't the method of the site. The run stays
    /// as it is.
    pub fn bound_call(&mut self, notes: &Notes, asked: &AskedCall) -> BoundStep
        requires width { IsWidth W }
        requires read { IsNotes notes.now }
        requires notes { IsOf W notes.now self.old.host.places }
        requires stack { HasStack W notes.now (placement_of self.old.host.places) self.old.mem }
        requires inside { 0 < length self.old.frames }
        requires asked { self.old.asked ≡ Some asked.now }
        ensures step { (world : World) (r : RunState) → world.notes ≡ notes.now → IsAt W world self.old r →
            result ≡ bound_step asked.now.place (asking_at W world (own_placement W world) r asked.now.place asked.now.target) }
        ensures called { (world : World) (r : RunState) → world.notes ≡ notes.now → IsAt W world self.old r →
            OnCalled result (λ signature args. length args ≡ length (signature_params notes.now signature)) }
        ensures at { (world : World) (r : RunState) → IsAt W world self.old r → IsAt W world self.new r }
        ensures slots { (world : World) (r : RunState) → world.notes ≡ notes.now → IsAt W world self.old r →
            self.new.frames ≡ with_arguments (slots_asked W world r (Asked asked.now.place asked.now.target)) self.old.frames }
        ensures kept { self.new ≡ record self.old { frames = self.new.frames } }
        ensures len { length self.new.frames ≡ length self.old.frames }
    {
        let r0 = self.machine.regs[0];
        self.host.bound_call(
            notes,
            &self.mem,
            &mut self.frames,
            r0,
            asked.place,
            asked.target,
        )
    }

    /// How a pair ends where the run is the provider's, and it can't take a call of a function with these arguments: while
    /// fewer thunks were served than its notes have, or at the first argument that doesn't fit its parameter.
    pub fn provider_refused(&self, notes: &Notes, function: u32, args: &Args) -> Option<Ending>
        requires read { IsNotes notes.now }
        ensures { (world : World) (r : RunState) → world.notes ≡ notes.now → IsAt W world self.now r →
            result ≡ provider_refused world r.script function args.now }
    {
        self.host.provider_refused(notes, function, args)
    }

    /// Enters a function of the notes with the values of arguments, where no function is entered: the run ends where the
    /// cells below R0 aren't mapped.
    pub fn enter_first(&mut self, notes: &Notes, func: u32, args: &Args)
        requires width { IsWidth W }
        requires notes { IsNotes notes.now }
        requires kept { IsOf W notes.now self.old.host.places }
        requires func { func < length notes.now.function }
        requires each { length args.now ≡ length (function_params notes.now func) }
        requires outside { self.old.frames ≡ [] }
        requires settled { self.old.asked ≡ None }
        ensures runner { (world : World) (r : RunState) → world.notes ≡ notes.now → Rests W world self.old r →
            IsRunner W world self.new
            (entered false W world (own_placement W world) r func
            (map (λ (s : Seen). written_number W world.notes (own_placement W world) (objects_at world r) s.value) args.now)) }
        ensures host { self.new.host ≡ self.old.host }
    {
        let numbers = argument_numbers(&self.host, args);
        self.enter(notes, func, numbers.as_slice(), false);
        self.quiet = 0;
    }

    /// Leaves the first function that the host entered, where it has returned: which one it is, and its result. `None` where
    /// the next step is another one, and then nothing changes. No event is told.
    pub fn leave_first(&mut self, notes: &Notes) -> Option<FirstReturn>
        requires width { IsWidth W }
        requires notes { IsOf W notes.now self.old.host.places }
        ensures seen { IfSome result (λ e. (world : World) (r : RunState) → world.notes ≡ notes.now → IsRunner W world self.old r →
            r.ending ≡ Running → host_view W world (own_placement W world) r ≡ Some (Returns true e.func e.value)) }
        ensures rests { IfSome result (λ e. (world : World) (r : RunState) → world.notes ≡ notes.now → IsRunner W world self.old r →
            r.ending ≡ Running → Rests W world self.new (left r r.hosts)) }
        ensures other { IfNone result ((world : World) (r : RunState) → IsRunner W world self.old r → r.ending ≡ Running →
            IsNoFirstReturn (host_view W world (own_placement W world) r)) }
        ensures same { IfNone result (self.new ≡ self.old) }
        ensures host { self.new.host ≡ self.old.host }
        ensures quiet { self.new.quiet ≡ self.old.quiet }
    {
        if self.machine.ip != self.machine.gate {
            return None;
        }
        if !self.is_in_first() {
            return None;
        }
        let Some(left) = leave(&mut self.machine, &mut self.frames) else {
            unreachable!();
        };
        self.asked = None;
        Some(FirstReturn {
            func: left.func,
            value: self.host.result_of(notes, left.func, left.r7),
        })
    }

    // Whether the top frame is that of the first function which the host entered.
    fn is_in_first(&self) -> bool
        ensures first { OnTrue result (length self.now.frames ≡ 1) }
        ensures other { OnFalse result (length self.now.frames ≡ 1 → ⊥) }
    {
        self.frames.depth() == 1
    }

    /// The reply to a bound call of the run: R7 gets the number of the value that the provider's function returned, 0 where the
    /// signature has no result, and no native call is under way any more.
    ///
    /// # Errors
    ///
    /// How the pair ends where the signature has a result that the value doesn't fit. Nothing changes.
    pub fn answer(&mut self, notes: &Notes, signature: u32, value: &Value) -> Result<(), Ending>
        requires width { IsWidth W }
        requires notes { IsOf W notes.now self.old.host.places }
        requires inside { 0 < length self.old.frames }
        ensures answered { OnOk result ((world : World) (r : RunState) → world.notes ≡ notes.now → IsRunner W world self.old r →
            IsRunner W world self.new (bound_reply W world (own_placement W world) r (signature_result notes.now signature) value.now)) }
        ensures fits { OnOk result ((world : World) (r : RunState) → world.notes ≡ notes.now → IsAt W world self.old r →
            reply_refused world r.script (signature_result notes.now signature) value.now ≡ None) }
        ensures refused { IfErr result (λ e. (world : World) (r : RunState) → world.notes ≡ notes.now → IsAt W world self.old r →
            reply_refused world r.script (signature_result notes.now signature) value.now ≡ Some e) }
        ensures same { OnErr result (self.new ≡ self.old) }
        ensures host { self.new.host ≡ self.old.host }
    {
        let number = self
            .host
            .bound_reply(notes, &mut self.frames, signature, value)?;
        self.machine.regs[7] = number;
        self.asked = None;
        Ok(())
    }

    /// Ends the run so.
    pub fn end(&mut self, ending: Ending)
        ensures at { (world : World) (r : RunState) → IsAt W world self.old r → IsAt W world self.new (record r { ending = ending }) }
        ensures kept { self.new ≡ record self.old { ending = ending } }
    {
        self.ending = ending;
    }
}

//! Notifications: whether one is due, and entering it (docs/HOST.md, "Steps", on the notify step).
ghost use Rattle.std.specs.Prelude.{◌≡◌, ℕ, ◌+◌, ◌-◌, ◌<◌, ◌^◌, ◌≤◌, true, List, length, min, Some, vec_capacity};
ghost use Rattle.object_memory.specs.Memory.{Memory};
ghost use Rattle.note_types.specs.Records.{IsNotes};
ghost use Rattle.note_types.specs.declared.script.Script.{Script};
ghost use Rattle.host_model.specs.HostPlans.{function_params, is_due, notification_fits};
ghost use Rattle.host_model.specs.HostSteps.{performed, written_number};
ghost use Rattle.host_model.specs.Placements.{frame_limit};
ghost use Rattle.host_model.specs.Progress.{ScriptPlace};
ghost use Rattle.host_model.specs.RunState.{RunState, SavedFrame};
ghost use Rattle.native_host.specs.Entering.{can_enter};
ghost use Rattle.native_host.specs.Hosts.{CountsThunks, HasRoom, IsServing, host_world, shown};
ghost use Rattle.native_host.specs.Kept.{placement_of};
ghost use Rattle.native_host.specs.Steps.{OnEnd, OnEnter, due_plan, step_of, taken};

use crate::entering::{can_enter, given_args};
use crate::host::Host;
use crate::items::item_at;
use crate::step::HostStep;
use crate::values::tell;
use frame_stack::{FRAMES, FrameStack};
use note_types::{Event, Notes, Notify, Reason, Script};

impl<const W: usize> Host<W> {
    /// Whether a notification is due where so many instructions are done: one is left, and it waits for no more.
    #[tactic(auto, unfolding(host_model::specs::HostPlans::is_due))]
    pub fn due(&self, script: &Script, done: u64) -> bool
        ensures { (at : ScriptPlace) → at.notifications ≡ self.now.notifications → at.instructions ≡ done → result ≡ is_due script.now at }
    {
        match script.notify.as_slice().get(self.notifications as usize) {
            Some(notify) => notify.at <= done,
            None => false,
        }
    }

    // Whether a notification may be entered so: its function with its values, and once all thunks of the notes were served.
    fn notification_fits(&self, notes: &Notes, notify: &Notify) -> bool
        requires { IsNotes notes.now }
        ensures enters { result ≡ true → can_enter notes.now self.now.made.items notify.now.function notify.now.args ≡ true }
        ensures fits { (script : Script) (at : ScriptPlace) → self.now.thunks ≡ min at.thunks (2 ^ 64 - 1) →
            result ≡ notification_fits (host_world notes.now script self.now) self.now.made.items at notify.now }
    {
        can_enter(notes, self.made.as_slice(), notify.function, &notify.args)
            && notes.thunk.len() as u64 <= self.thunks
    }

    /// What the host does where a notification is due: the function is to be entered by `entry_thunk::notify`, or the run
    /// ends. Where it is to be entered the notification counts as entered, and its event is added, for which there is room;
    /// else nothing changes. Where none is left the script has come to its end.
    pub fn notification(&mut self, notes: &Notes, script: &Script, frames: &FrameStack) -> HostStep
        requires serving { IsServing W notes.now script.now self.old }
        requires room { HasRoom self.old 1 }
        ensures step { (r : RunState) (m : Memory) (hosts : List SavedFrame) → CountsThunks self.old r →
            Some result ≡ step_of (written_number W notes.now (placement_of self.old.places) self.old.made.items)
            (due_plan (host_world notes.now script.now self.old) (shown self.old m hosts r) (length frames.now)) }
        ensures after { (r : RunState) (m : Memory) (hosts : List SavedFrame) → CountsThunks self.old r →
            performed W (host_world notes.now script.now self.old) (placement_of self.old.places) (shown self.old m hosts r)
            (due_plan (host_world notes.now script.now self.old) (shown self.old m hosts r) (length frames.now)) ≡
            taken true W (host_world notes.now script.now self.old) (placement_of self.old.places) (shown self.new m hosts r) result }
        ensures entered { OnEnter result (λ func args.
            (func < length notes.now.function) × (length args ≡ length (function_params notes.now func))) }
        ensures serving { IsServing W notes.now script.now self.new }
        ensures same { OnEnd result (self.new ≡ self.old) }
        ensures kept { self.new ≡ record self.old { notifications = self.new.notifications; trace = self.new.trace } }
        ensures room { (n : ℕ) → HasRoom self.old (n + 1) → HasRoom self.new n }
        ensures capacity { vec_capacity self.old.trace ≤ vec_capacity self.new.trace }
        ensures depth { OnEnter result (λ func args. length frames.now < frame_limit) }
    {
        let number = self.notifications;
        let Some(notify) = item_at(&script.notify, number as usize) else {
            return HostStep::ScriptEnd;
        };
        if !self.notification_fits(notes, notify) {
            return HostStep::Mismatch(Reason::Notify { number });
        }
        if frames.depth() >= FRAMES {
            return HostStep::Mismatch(Reason::Depth);
        }
        let func = notify.function;
        let args = given_args(&notify.args);
        self.notifications = number + 1;
        tell(
            &mut self.trace,
            Event::Notified {
                func,
                args: args.copy(),
            },
        );
        HostStep::Enter { func, args }
    }
}

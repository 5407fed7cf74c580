//! Entering functions (docs/HOST.md, "The start").
ghost use Rattle.std.specs.Prelude.{◌≡◌, ◌+◌, ◌^◌, ◌<◌, ◌≤◌, ◌∷◌, length, map, None, slice_get, Some, take};
ghost use Rattle.ebc_width.specs.Width.{IsWidth};
ghost use Rattle.note_types.specs.Records.{IsNotes};
ghost use Rattle.note_types.specs.declared.notes.Notes.{Notes};
ghost use Rattle.note_types.specs.declared.notes.Param.{Param};
ghost use Rattle.note_types.specs.declared.seen.Seen.{Seen};
ghost use Rattle.host_model.specs.HostPlans.{function_params};
ghost use Rattle.ebc_machine.specs.States.{KeepsObjects, concrete_of};
ghost use Rattle.host_model.specs.HostSteps.{entered, frame_for, inside, written_number};
ghost use Rattle.host_model.specs.Placements.{frame_limit, own_placement};
ghost use Rattle.host_model.specs.RunState.{RunState};
ghost use Rattle.host_model.specs.World.{World};
ghost use Rattle.callex_thunk.specs.HostFrames.{saved_of};
ghost use Rattle.entry_thunk.specs.Cells.{params_of};
ghost use Rattle.entry_thunk.specs.Entering.{OnDone, OnRefused};
ghost use Rattle.native_host.specs.Kept.{IsOf, placement_of};
ghost use Rattle.twin_run.specs.Runner.{IsAt};

use crate::runner::Runner;
use arrayvec::ArrayVec;
use entry_thunk::{EnterEnd, enter, notify};
use native_host::{Args, Host};
use note_types::{Ending, Exception, FnNote, Notes, Param, SlotKind, Values};

// The function of that number.
#[tactic(auto, using(std::proofs::lemmas::Option::slice_get_read))]
fn function_at(notes: &Notes, func: u32) -> &FnNote
    requires { func < length notes.now.function }
    ensures { slice_get notes.now.function func ≡ Some result.now }
{
    &notes.function.as_slice()[func as usize]
}

// The kinds of the slots of parameters.
fn kinds_of(params: &[Param]) -> [SlotKind; 16]
    requires { length params.now ≤ 16 }
    ensures kinds { take (length params.now) result ≡ map (λ (p : Param). p.kind) params.now }
    ensures len { length result ≡ 16 }
{
    let mut kinds = [SlotKind::N; 16];
    for (k, param) in params.iter().enumerate() {
        kinds[k] = param.kind;
    }
    kinds
}

// The numbers of values.
pub(crate) fn numbers_of<const W: usize>(host: &Host<W>, values: &Values) -> ArrayVec<u64, 16>
    requires width { IsWidth W }
    requires few { length values.now ≤ 16 }
    ensures { (notes : Notes) → IsOf W notes host.now.places →
        result.items ≡ map (written_number W notes (placement_of host.now.places) host.now.made.items) values.now }
{
    let mut numbers = ArrayVec::new();
    for value in values.as_slice() {
        numbers.push(host.number_of(value));
    }
    numbers
}

// The numbers of arguments.
pub(crate) fn argument_numbers<const W: usize>(host: &Host<W>, args: &Args) -> ArrayVec<u64, 16>
    requires width { IsWidth W }
    ensures { (notes : Notes) → IsOf W notes host.now.places →
        result.items ≡ map (λ (s : Seen). written_number W notes (placement_of host.now.places) host.now.made.items s.value) args.now }
{
    let mut numbers = ArrayVec::new();
    for arg in args.as_slice() {
        numbers.push(host.number_of(&arg.value));
    }
    numbers
}

impl<const W: usize> Runner<W> {
    // Enters a function of the notes, as a notification or not, with these numbers: the run ends where the cells below R0 aren't
    // mapped.
    pub(crate) fn enter(&mut self, notes: &Notes, func: u32, numbers: &[u64], notified: bool)
        requires width { IsWidth W }
        requires notes { IsNotes notes.now }
        requires func { func < length notes.now.function }
        requires each { length numbers.now ≡ length (function_params notes.now func) }
        requires settled { self.old.asked ≡ None }
        requires depth { length self.old.frames < frame_limit }
        ensures at { (world : World) (r : RunState) → world.notes ≡ notes.now → IsAt W world self.old r →
            IsAt W world self.new (entered notified W world (own_placement W world) r func numbers.now) }
        ensures host { self.new.host ≡ self.old.host }
        ensures quiet { self.new.quiet ≡ self.old.quiet }
        ensures taken { self.new.taken ≡ self.old.taken }
    {
        let function = function_at(notes, func);
        let kinds = kinds_of(function.params.as_slice());
        let kinds = &kinds[..function.params.len()];
        match self.enter_code(func, function.place, kinds, numbers, notified) {
            EnterEnd::Done => {}
            _ => self.ending = Ending::Raised(Exception::StackFault),
        }
    }

    // Enters the code at a place of the image, which is that of the function of that number.
    fn enter_code(
        &mut self,
        func: u32,
        place: u32,
        kinds: &[SlotKind],
        numbers: &[u64],
        notified: bool,
    ) -> EnterEnd
        requires width { IsWidth W }
        requires func { func < 2 ^ 31 }
        requires each { length kinds.now ≡ length numbers.now }
        requires few { length kinds.now ≤ 16 }
        requires depth { length self.old.frames < frame_limit }
        ensures inside { OnDone result (inside W (concrete_of self.old.machine self.old.mem)
            ((placement_of self.old.host.places).image + place) (params_of kinds.now) numbers.now ≡
            Some (concrete_of self.new.machine self.new.mem)) }
        ensures frames { OnDone result (map saved_of self.new.frames ≡
            frame_for notified (concrete_of self.old.machine self.old.mem) func ∷ map saved_of self.old.frames) }
        ensures fault { OnRefused result (inside W (concrete_of self.old.machine self.old.mem)
            ((placement_of self.old.host.places).image + place) (params_of kinds.now) numbers.now ≡ None) }
        ensures same { OnRefused result (self.new ≡ self.old) }
        ensures objects { KeepsObjects self.old.mem self.new.mem }
        ensures kept { self.new ≡ record self.old { machine = self.new.machine; mem = self.new.mem; frames = self.new.frames } }
    {
        let target = self.host.image_base() + u64::from(place);
        let machine = &mut self.machine;
        if notified {
            notify(
                machine,
                &mut self.mem,
                &mut self.frames,
                func,
                target,
                kinds,
                numbers,
            )
        } else {
            enter(
                machine,
                &mut self.mem,
                &mut self.frames,
                func,
                target,
                kinds,
                numbers,
            )
        }
    }
}

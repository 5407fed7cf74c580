//! The instructions of a run (docs/HOST.md, "Runs").
ghost use Rattle.std.specs.Prelude.{◌≡◌, ◌≢◌, ◌+◌, ◌-◌, ◌^◌, ◌<◌, ◌≤◌, ℕ, min, IfSome, IsTrue, Some, None, if◌then◌else◌};
ghost use Rattle.ebc_width.specs.Ranges.{covers};
ghost use Rattle.ebc_width.specs.Width.{IsWidth};
ghost use Rattle.note_types.specs.declared.ending.Ending.TheVariants.{Running};
ghost use Rattle.note_types.specs.declared.script.Script.{Script};
ghost use Rattle.note_types.specs.declared.spot.Spot.TheVariants.{Place};
ghost use Rattle.ebc_machine.specs.States.{concrete_of};
ghost use Rattle.host_model.specs.HostSteps.{call_place, spot_of, thunk_made, thunk_view};
ghost use Rattle.host_model.specs.Placements.{Placement, image_range, own_placement};
ghost use Rattle.host_model.specs.RunState.{RunState};
ghost use Rattle.host_model.specs.Runs.{instruction_step};
ghost use Rattle.host_model.specs.World.{World};
ghost use Rattle.native_host.specs.Kept.{IsOf, placement_of};
ghost use Rattle.twin_run.specs.Runner.{HasDone, IsAt, IsQuiet};

use crate::runner::{AskedCall, Runner};
use ebc_machine::StepEnd;
use native_host::HostStep;
use note_types::{Ending, Notes};

impl<const W: usize> Runner<W> {
    // The place of the image at an address, and none outside the image.
    pub(crate) fn image_place(&self, addr: u64) -> Option<u32>
        ensures { (world : World) (P : Placement) → P.image ≡ (placement_of self.now.host.places).image →
            world.image_size ≡ self.now.image_size →
            result ≡ (if covers addr 1 (image_range world P) then Some (addr - P.image) else None) }
    {
        let base = self.host.image_base();
        let size = self.image_size;
        if base <= addr && addr - base < u64::from(size) {
            Some((addr - base) as u32)
        } else {
            None
        }
    }

    // The place of the image where the run stands: none at the gate and outside the image.
    pub(crate) fn place(&self) -> Option<u32>
        ensures inside { IfSome result (λ place. self.now.machine.ip ≢ self.now.machine.gate) }
        ensures spot { IfSome result (λ place. (world : World) (r : RunState) (d : ℕ) → IsAt W world (record self.now { done = d }) r →
            Place place ≡ spot_of world (own_placement W world) r.machine) }
    {
        if self.machine.ip == self.machine.gate {
            None
        } else {
            self.image_place(self.machine.ip)
        }
    }

    // The place of a call instruction at an address.
    fn call_place(&self, addr: u64) -> u32
        ensures { (world : World) (P : Placement) → P.image ≡ (placement_of self.now.host.places).image →
            world.image_size ≡ self.now.image_size → result ≡ call_place world P addr }
    {
        match self.image_place(addr) {
            Some(place) => place,
            None => 0xFFFF_FFFF,
        }
    }

    // Instructions, at least one and at most so many, until one asks for something or the function is left; how many they were.
    // They are counted together, since the loop is what a run takes its time in.
    pub(crate) fn instructions(&mut self, notes: &Notes, most: u64) -> u64
        requires width { IsWidth W }
        requires notes { IsOf W notes.now self.old.host.places }
        requires some { 0 < most }
        requires inside { self.old.machine.ip ≢ self.old.machine.gate }
        ensures done { HasDone W notes.now most self.old self.new result }
        ensures some { 0 < result }
        ensures most { result ≤ most }
    {
        let mut left = most;
        let mut next = true;
        while next && left > 0 && self.machine.ip != self.machine.gate {
            next = self.instruction(notes);
            left -= 1;
        }
        let taken = most - left;
        self.done = self.done.saturating_add(taken);
        taken
    }

    // One instruction, which is still to be counted; whether it asks for nothing. Each loop over instructions holds it, so none makes
    // a call for it.
    #[inline(always)]
    pub(crate) fn instruction(&mut self, notes: &Notes) -> bool
        requires width { IsWidth W }
        requires notes { IsOf W notes.now self.old.host.places }
        ensures at { (world : World) (r : RunState) (d : ℕ) → world.notes ≡ notes.now → IsAt W world (record self.old { done = d }) r →
            IsAt W world (record self.new { done = min (d + 1) (2 ^ 64 - 1) }) (instruction_step W world (own_placement W world) r) }
        ensures next { IsTrue result → self.new ≡ record self.old { machine = self.new.machine; mem = self.new.mem } }
        ensures done { self.new.done ≡ self.old.done }
        ensures trace { self.new.host.trace ≡ self.old.host.trace }
        ensures quiet { (script : Script) → IsQuiet script self.old → IsQuiet script self.new }
    {
        let ip = self.machine.ip;
        match self.machine.step(&mut self.mem) {
            StepEnd::Next => return true,
            StepEnd::Native(target) => {
                let place = self.call_place(ip);
                self.asked = Some(AskedCall { place, target });
                self.quiet = 0;
            }
            StepEnd::Gate => {}
            StepEnd::MakeThunk(addr) => self.serve_thunk(notes, ip, addr),
            StepEnd::Raised(exception) => self.ending = Ending::Raised(exception),
        }
        false
    }

    // Serves the thunk cell at an address for an instruction that is done, which stood at `ip`; the machine is as it was before
    // where the cell isn't mapped.
    fn serve_thunk(&mut self, notes: &Notes, ip: u64, addr: u64)
        requires width { IsWidth W }
        requires notes { IsOf W notes.now self.old.host.places }
        ensures at { (world : World) (r : RunState) (d : ℕ) → world.notes ≡ notes.now →
            r.machine ≡ concrete_of (record self.old.machine { ip = ip }) self.old.mem →
            IsAt W world (record self.old { done = d }) (record r { machine = concrete_of self.old.machine self.old.mem }) →
            IsAt W world (record self.new { done = d })
            (thunk_made W world (own_placement W world) r (concrete_of self.old.machine self.old.mem) addr
            (thunk_view world (own_placement W world) (concrete_of self.old.machine self.old.mem) addr)) }
        ensures done { self.new.done ≡ self.old.done }
        ensures trace { self.new.host.trace ≡ self.old.host.trace }
        ensures quiet { (script : Script) → IsQuiet script self.old → IsQuiet script self.new }
    {
        match self.host.make_thunk(notes, &mut self.mem, addr) {
            HostStep::Mismatch(reason) => self.ending = Ending::Mismatch(reason),
            HostStep::Raised(exception) => {
                self.machine.ip = ip;
                self.ending = Ending::Raised(exception);
            }
            _ => {}
        }
    }
}

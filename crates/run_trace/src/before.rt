//! What a run shows before a step, and what the step then changed.
ghost use Rattle.std.specs.Prelude.{◌≡◌, ◌^◌, ◌<◌, ◌≤◌, IfSome, Some, length};
ghost use Rattle.std.specs.Option.{option_and_then};
ghost use Rattle.ebc_width.specs.Width.{IsWidth};
ghost use Rattle.ebc_insn.specs.Spelling.{WellFormed};
ghost use Rattle.object_memory.specs.Memory.{ranges};
ghost use Rattle.ebc_machine.specs.Fetch.{fetched};
ghost use Rattle.host_model.specs.RunState.{RunState};
ghost use Rattle.host_model.specs.World.{World};
ghost use Rattle.note_types.specs.Concrete.{Concrete, rest_from};
ghost use Rattle.note_types.specs.declared.ending.Ending.TheVariants.{Running};
ghost use Rattle.twin_run.specs.Runner.{IsRunner, Runs};
ghost use Rattle.run_trace.specs.Stores.{stored_by};
ghost use Rattle.run_trace.specs.Walks.{RunsImage};
ghost use Rattle.run_trace.specs.Steps.{before_of, bytes_of, change, flag_change, insn_of, laid, next_insn, register_changes};
ghost use Rattle.run_trace.specs.Steps.{step_of, stored_in};

use crate::holding::held;
use crate::stores::{StoreRange, stored_by};
use arrayvec::ArrayVec;
use ebc_decode::{Decoded, decode_first};
use ebc_insn::Insn;
use note_types::{Ending, Notes, Script, Spot};
use step_texts::{Change, Step, Stored};
use twin_run::Runner;

/// What is kept of a run before a step, to tell afterwards what the step changed.
#[derive(Drop)]
pub struct Before {
    /// Where the run stands.
    pub place: Spot,
    /// The instruction that is next, where the next step is the machine's.
    pub insn: Option<Insn>,
    /// The bytes that it stores if it is done.
    pub store: Option<StoreRange>,
    /// What R0 to R7 hold.
    pub registers: [u64; 8],
    /// Whether C is set.
    pub has_c: bool,
    /// How many events there were.
    pub events: usize,
}

// The instruction that bytes begin with.
#[tactic(auto, unfolding(ebc_machine::specs::Fetch::fetched))]
fn insn_in(bytes: &[u8]) -> Option<Insn>
    ensures insn { (s : Concrete) → rest_from s s.ip ≡ Some bytes.now → result ≡ insn_of (fetched s) }
    ensures well_formed { IfSome result WellFormed }
{
    // A number of its own, so that the decoder of a step stays where it is.
    match decode_first::<3>(bytes) {
        Decoded::Found(insn, _) => Some(insn),
        Decoded::Fault(_) => None,
    }
}

// The instruction at ip.
fn insn_at_ip<const W: usize>(runner: &Runner<W>) -> Option<Insn>
    ensures insn { (world : World) (r : RunState) → IsRunner W world runner.now r → result ≡ insn_of (fetched r.machine) }
    ensures well_formed { IfSome result WellFormed }
{
    match runner.bytes_from(runner.ip()) {
        Some(bytes) => insn_in(bytes),
        None => None,
    }
}

// The instruction of the next step of a run that goes on.
#[tactic(auto, unfolding(crate::specs::Steps::next_insn))]
fn next_insn<const W: usize>(runner: &Runner<W>, notes: &Notes, script: &Script) -> Option<Insn>
    requires runs { Runs W notes.now script.now runner.now }
    requires running { runner.now.ending ≡ Running }
    ensures insn { (world : World) (r : RunState) → world.script ≡ script.now → IsRunner W world runner.now r → result ≡ next_insn world r }
    ensures well_formed { IfSome result WellFormed }
{
    if runner.is_hosts_turn(notes, script) {
        None
    } else {
        insn_at_ip(runner)
    }
}

// The bytes that an instruction stores, if there is one.
fn next_store<const W: usize>(registers: &[u64; 8], insn: &Option<Insn>) -> Option<StoreRange>
    requires width { IsWidth W }
    requires well_formed { IfSome insn.now WellFormed }
    ensures store { result ≡ option_and_then (stored_by W registers.now) insn.now }
    ensures few { IfSome result (λ range. range.size ≤ 16) }
{
    match insn {
        Some(insn) => stored_by::<W>(registers, insn),
        None => None,
    }
}

// The new number, where it is another, and what it is as an address.
fn change<const W: usize>(runner: &Runner<W>, notes: &Notes, old: u64, new: u64) -> Option<Change>
    requires width { IsWidth W }
    requires runs { RunsImage W runner.now }
    requires statics { length notes.now.statics < 2 ^ 32 }
    ensures { result ≡ change notes.now (ranges runner.now.mem) old new }
{
    if old == new {
        None
    } else {
        Some(held(runner, notes, new))
    }
}

// The new number of each register that holds another.
fn register_changes<const W: usize>(
    runner: &Runner<W>,
    notes: &Notes,
    old: &[u64; 8],
    new: &[u64; 8],
) -> [Option<Change>; 8]
    requires width { IsWidth W }
    requires runs { RunsImage W runner.now }
    requires statics { length notes.now.statics < 2 ^ 32 }
    ensures { result ≡ register_changes notes.now (ranges runner.now.mem) old.now new.now }
{
    [
        change(runner, notes, old[0], new[0]),
        change(runner, notes, old[1], new[1]),
        change(runner, notes, old[2], new[2]),
        change(runner, notes, old[3], new[3]),
        change(runner, notes, old[4], new[4]),
        change(runner, notes, old[5], new[5]),
        change(runner, notes, old[6], new[6]),
        change(runner, notes, old[7], new[7]),
    ]
}

// The new C, where it is another.
fn flag_change(old: bool, new: bool) -> Option<bool>
    ensures { result ≡ flag_change old new }
{
    match (old, new) {
        (true, false) => Some(false),
        (false, true) => Some(true),
        _ => None,
    }
}

// The first bytes of those that lie from an address on, so many.
fn bytes_of(address: Change, size: usize, rest: &[u8]) -> Stored
    requires { size ≤ 16 }
    ensures { result ≡ bytes_of address size rest.now }
{
    let found = rest.get(..size).unwrap_or(rest);
    let mut bytes = ArrayVec::new();
    let Ok(()) = bytes.try_extend_from_slice(found) else {
        unreachable!();
    };
    Stored { address, bytes }
}

// The bytes of a range, as they lie in the memory of a run.
fn laid<const W: usize>(runner: &Runner<W>, notes: &Notes, range: StoreRange) -> Option<Stored>
    requires width { IsWidth W }
    requires runs { RunsImage W runner.now }
    requires statics { length notes.now.statics < 2 ^ 32 }
    requires few { range.size ≤ 16 }
    ensures { (world : World) (s : RunState) → IsRunner W world runner.now s → result ≡ laid notes.now s.machine range }
{
    let address = held(runner, notes, range.address);
    match runner.bytes_from(range.address) {
        Some(rest) => Some(bytes_of(address, range.size, rest)),
        None => None,
    }
}

// The bytes of a range if the run goes on.
#[tactic(auto, unfolding(crate::specs::Steps::stored_in))]
fn stored_in<const W: usize>(
    runner: &Runner<W>,
    notes: &Notes,
    range: Option<StoreRange>,
) -> Option<Stored>
    requires width { IsWidth W }
    requires runs { RunsImage W runner.now }
    requires statics { length notes.now.statics < 2 ^ 32 }
    requires few { IfSome range (λ range. range.size ≤ 16) }
    ensures { (world : World) (s : RunState) → IsRunner W world runner.now s → result ≡ stored_in notes.now range s }
{
    let Ending::Running = runner.ending() else {
        return None;
    };
    match range {
        Some(range) => laid(runner, notes, range),
        None => None,
    }
}

impl Before {
    /// What is kept of a run that goes on, before its next step.
    pub fn of<const W: usize>(runner: &Runner<W>, notes: &Notes, script: &Script) -> Before
        requires width { IsWidth W }
        requires runs { Runs W notes.now script.now runner.now }
        requires running { runner.now.ending ≡ Running }
        ensures before { (world : World) (r : RunState) → world.script ≡ script.now → IsRunner W world runner.now r
            → result ≡ before_of W world r }
        ensures well_formed { IfSome result.insn WellFormed }
        ensures few { IfSome result.store (λ range. range.size ≤ 16) }
    {
        let insn = next_insn(runner, notes, script);
        let registers = runner.registers();
        Before {
            place: runner.spot(),
            store: next_store::<W>(&registers, &insn),
            insn,
            registers,
            has_c: runner.has_c(),
            events: runner.trace().len(),
        }
    }

    /// The step of that number, after which the run is where the runner is.
    pub fn step<const W: usize>(&self, number: u64, runner: &Runner<W>, notes: &Notes) -> Step
        requires width { IsWidth W }
        requires few { IfSome self.now.store (λ range. range.size ≤ 16) }
        requires runs { RunsImage W runner.now }
        requires statics { length notes.now.statics < 2 ^ 32 }
        ensures step { (world : World) (r s : RunState) → world.notes ≡ notes.now → self.now ≡ before_of W world r
            → IsRunner W world runner.now s → result ≡ step_of W world number r s }
        ensures insn { result.insn ≡ self.now.insn }
    {
        Step {
            number,
            place: self.place,
            insn: self.insn,
            registers: register_changes(runner, notes, &self.registers, &runner.registers()),
            flag: flag_change(self.has_c, runner.has_c()),
            stored: stored_in(runner, notes, self.store),
        }
    }
}

//! The runner of a pair at one width (docs/PAIRS.md, "The rules").
ghost use Rattle.std.specs.Prelude.{◌≡◌, ℕ, ◌+◌, ◌<◌, [], ◌∷◌, ◌++◌, length, map, None, Some, List, IfOk};
ghost use Rattle.ebc_width.specs.Width.{IsWidth};
ghost use Rattle.host_model.specs.HostPlans.{function_params, is_error};
ghost use Rattle.host_model.specs.HostSteps.{asking_at};
ghost use Rattle.host_model.specs.Placements.{own_placement};
ghost use Rattle.host_model.specs.RunState.{RunState};
ghost use Rattle.host_model.specs.Runs.{run_step};
ghost use Rattle.host_model.specs.ScriptValues.{given};
ghost use Rattle.host_model.specs.World.{World};
ghost use Rattle.native_host.specs.Bound.{bound_call_of};
ghost use Rattle.native_host.specs.Hosts.{HasStack};
ghost use Rattle.native_host.specs.Kept.{IsOf, placement_of};
ghost use Rattle.note_types.specs.Records.{IsNotes};
ghost use Rattle.note_types.specs.declared.ending.Ending.TheVariants.{Running};
ghost use Rattle.note_types.specs.declared.seen.Seen.{Seen};
ghost use Rattle.pair_model.specs.PairReports.{own_placements};
ghost use Rattle.pair_model.specs.PairRuns.{pair_spot, pair_step_at, side_at, sides_at};
ghost use Rattle.pair_model.specs.Pairs.{CallReturned, CallRuns, CallTaken, CallerRuns, OfB, PairState, PairWorld, ProviderRuns};
ghost use Rattle.pair_model.specs.Pairs.{running_side};
ghost use Rattle.pair_model.specs.Rules.{call_step, caller_step, enter_step, function_step, provider_step, reply_step, with_a, with_b};
ghost use Rattle.twin_run.specs.Runner.{IsAt, Runs};
ghost use Rattle.pair_host.specs.PairRunner.{ArePaired, CanBeCalled, HasPairRoom, IsDriver, IsPair, PairRuns, images_for, pair_world};
ghost use Rattle.pair_host.specs.PairRunner.{side_of, stage_of, stepped, world_for};
ghost use Rattle.pair_model.specs.declared.bind.Bind.{Bind};
ghost use Rattle.pair_host.specs.PairReported.{own_pair_run};

use crate::driver::Driver;
use crate::stage::{Side, Stage};
use crate::telling::{tell, tell_a, tell_b};
use ebc_base::NoMemory;
use native_host::{BoundCall, BoundStep, bound_at};
use note_types::{Args, Ending, Event, Seen, Spot, Value};
use pair_model::{Binds, PairEvent};
use std::alloc::Global;
use twin_run::{AskedCall, Runner};

/// A run of two images on one host, at a width of `W` bytes, step by step. Nothing is allocated once it is started.
#[derive(Drop)]
pub struct PairRunner<const W: usize> {
    pub(crate) a: Runner<W>,
    pub(crate) b: Runner<W>,
    pub(crate) stage: Stage,
    // The events of both, the first one first.
    pub(crate) trace: Vec<PairEvent>,
    pub(crate) ending: Ending,
}

/// Starts a run of image A and image B, with room for so many events. A step adds one at most.
///
/// # Errors
///
/// There is no memory for the run. No other call of the runner takes any.
pub fn start<const W: usize>(
    alloc: Global,
    a: &Driver,
    b: &Driver,
    events: usize,
) -> Result<PairRunner<W>, NoMemory>
    requires width { IsWidth W }
    requires caller { IsDriver a.now }
    requires provider { IsDriver b.now }
    ensures start { (binds : List Bind) →
        IfOk result (λ x.
        IsPair W (pair_world a.now b.now binds) x (own_pair_run W (images_for a.now b.now) (pair_world a.now b.now binds) 0)) }
    ensures room { IfOk result (λ x. HasPairRoom x events) }
{
    let caller = twin_run::start::<W>(alloc, a.image, a.notes, a.script)?;
    let provider = twin_run::start::<W>(alloc, b.image, b.notes, b.script)?;
    let ending = provider.ending();
    let trace = Vec::with_capacity(alloc, events)?;
    Ok(PairRunner {
        a: caller,
        b: provider,
        stage: Stage::ProviderRuns,
        trace,
        ending,
    })
}

// Whether a value is an error.
fn is_error(value: &Value) -> bool
    ensures { result ≡ is_error value.now }
{
    matches!(*value, Value::StatusError(_))
}

// The values of arguments, none of which is lent.
fn given_values(args: &Args) -> Args
    ensures { result ≡ map (λ (s : Seen). given s.value) args.now }
{
    let mut given = Args::new();
    for arg in args.as_slice() {
        given.push(Seen {
            lent: false,
            value: arg.value,
        });
    }
    given
}

impl<const W: usize> PairRunner<W> {
    /// One step of the pair. A pair that ended stays as it is.
    pub fn step(&mut self, a: &Driver, b: &Driver, binds: &Binds)
        requires width { IsWidth W }
        requires paired { ArePaired a.now b.now binds.now }
        requires runs { PairRuns W a.now b.now binds.now self.old }
        requires room { HasPairRoom self.old 1 }
        ensures step { (p : PairState RunState) → IsPair W (pair_world a.now b.now binds.now) self.old p →
            IsPair W (pair_world a.now b.now binds.now) self.new
            (pair_step_at W (pair_world a.now b.now binds.now) (own_placements W (pair_world a.now b.now binds.now)) p) }
        ensures room { (n : ℕ) → HasPairRoom self.old (n + 1) → HasPairRoom self.new n }
    {
        if let Ending::Running = self.ending {
            self.go_on(a, b, binds);
        }
    }

    // One step of a pair that goes on.
    fn go_on(&mut self, a: &Driver, b: &Driver, binds: &Binds)
        requires width { IsWidth W }
        requires paired { ArePaired a.now b.now binds.now }
        requires runs { PairRuns W a.now b.now binds.now self.old }
        requires on { self.old.ending ≡ Running }
        requires room { HasPairRoom self.old 1 }
        ensures step { (p : PairState RunState) → IsPair W (pair_world a.now b.now binds.now) self.old p →
            IsPair W (pair_world a.now b.now binds.now) self.new
            (pair_step_at W (pair_world a.now b.now binds.now) (own_placements W (pair_world a.now b.now binds.now)) p) }
        ensures room { (n : ℕ) → HasPairRoom self.old (n + 1) → HasPairRoom self.new n }
    {
        match &self.stage {
            Stage::ProviderRuns => self.provider_step(b),
            Stage::CallerRuns => self.caller_step(a, b, binds),
            Stage::CallTaken {
                signature,
                function,
                args,
            } => {
                let (signature, function) = (*signature, *function);
                let args = args.copy();
                self.enter_step(b, signature, function, &args);
            }
            Stage::CallRuns { signature } => {
                let signature = *signature;
                self.function_step(b, signature);
            }
            Stage::CallReturned { signature, value } => {
                let (signature, value) = (*signature, *value);
                self.reply_step(a, signature, &value);
            }
        }
    }

    // A step of image A's own run.
    fn step_a(&mut self, a: &Driver)
        requires width { IsWidth W }
        requires runs { Runs W a.now.notes.now a.now.script.now self.old.a }
        requires room { HasPairRoom self.old 1 }
        ensures step { (world : PairWorld) (p : PairState RunState) → world.a ≡ world_for a.now → p.stage ≡ CallerRuns →
            p.ending ≡ Running → IsPair W world self.old p →
            IsPair W world self.new
            (with_a (side_at W world.a (own_placement W world.a)) p (run_step W world.a (own_placement W world.a) p.a)) }
        ensures room { (n : ℕ) → HasPairRoom self.old (n + 1) → HasPairRoom self.new n }
    {
        let told = self.a.trace().len();
        self.a.step(a.image, a.notes, a.script);
        tell_a(&mut self.trace, self.a.trace(), told);
        self.ending = self.a.ending();
    }

    // A step of image B's own run, or of a function of it.
    fn step_b(&mut self, b: &Driver)
        requires width { IsWidth W }
        requires runs { Runs W b.now.notes.now b.now.script.now self.old.b }
        requires room { HasPairRoom self.old 1 }
        ensures step { (world : PairWorld) (p : PairState RunState) → world.b ≡ world_for b.now → running_side p.stage ≡ OfB →
            p.ending ≡ Running → IsPair W world self.old p →
            IsPair W world self.new
            (with_b (side_at W world.b (own_placement W world.b)) p (run_step W world.b (own_placement W world.b) p.b)) }
        ensures room { (n : ℕ) → HasPairRoom self.old (n + 1) → HasPairRoom self.new n }
    {
        let told = self.b.trace().len();
        self.b.step(b.image, b.notes, b.script);
        tell_b(&mut self.trace, self.b.trace(), told);
        self.ending = self.b.ending();
    }

    // Image B's own run: where it finishes with a value that is no error, it is image A's turn.
    fn provider_step(&mut self, b: &Driver)
        requires width { IsWidth W }
        requires runs { Runs W b.now.notes.now b.now.script.now self.old.b }
        requires kept { IsOf W b.now.notes.now self.old.b.host.places }
        requires room { HasPairRoom self.old 1 }
        ensures step { (world : PairWorld) (p : PairState RunState) → world.b ≡ world_for b.now → p.stage ≡ ProviderRuns →
            p.ending ≡ Running → IsPair W world self.old p →
            IsPair W world self.new (stepped (provider_step (sides_at W world (own_placements W world)) p) p) }
        ensures room { (n : ℕ) → HasPairRoom self.old (n + 1) → HasPairRoom self.new n }
    {
        match self.b.leave_first(b.notes) {
            None => self.step_b(b),
            Some(left) if is_error(&left.value) => {
                self.b.end(Ending::Finished(left.value));
                self.ending = Ending::Finished(left.value);
            }
            Some(_) => {
                self.stage = Stage::CallerRuns;
                self.ending = self.a.ending();
            }
        }
    }

    // Image A's run: a call from the place of a bound call is one.
    fn caller_step(&mut self, a: &Driver, b: &Driver, binds: &Binds)
        requires width { IsWidth W }
        requires paired { ArePaired a.now b.now binds.now }
        requires runs { PairRuns W a.now b.now binds.now self.old }
        requires stage { self.old.stage ≡ Stage.CallerRuns }
        requires on { self.old.ending ≡ Running }
        requires room { HasPairRoom self.old 1 }
        ensures step { (p : PairState RunState) → IsPair W (pair_world a.now b.now binds.now) self.old p →
            IsPair W (pair_world a.now b.now binds.now) self.new
            (stepped (caller_step (pair_world a.now b.now binds.now)
            (sides_at W (pair_world a.now b.now binds.now) (own_placements W (pair_world a.now b.now binds.now))) p) p) }
        ensures room { (n : ℕ) → HasPairRoom self.old (n + 1) → HasPairRoom self.new n }
    {
        match self.a.asked_call() {
            None => self.step_a(a),
            Some(asked) => match bound_at(binds, a.notes, asked.place) {
                None => self.step_a(a),
                Some(call) => self.call_step(a, b, &asked, &call),
            },
        }
    }

    // The call step of a bound call.
    fn call_step(&mut self, a: &Driver, b: &Driver, asked: &AskedCall, call: &BoundCall)
        requires width { IsWidth W }
        requires caller { IsNotes a.now.notes.now }
        requires provider { IsNotes b.now.notes.now }
        requires kept { IsOf W a.now.notes.now self.old.a.host.places }
        requires stack { HasStack W a.now.notes.now (placement_of self.old.a.host.places) self.old.a.mem }
        requires inside { 0 < length self.old.a.frames }
        requires asked { self.old.a.asked ≡ Some asked.now }
        requires called { CanBeCalled a.now.notes.now b.now.notes.now asked.now.place (bound_call_of call.now) }
        requires room { HasPairRoom self.old 1 }
        ensures step { (world : PairWorld) (p : PairState RunState) → world.a ≡ world_for a.now → world.b ≡ world_for b.now →
            p.stage ≡ CallerRuns → p.ending ≡ Running → IsPair W world self.old p →
            IsPair W world self.new
            (call_step world (sides_at W world (own_placements W world)) p asked.now.place
            (asking_at W world.a (own_placement W world.a) p.a asked.now.place asked.now.target) (bound_call_of call.now)) }
        ensures room { (n : ℕ) → HasPairRoom self.old (n + 1) → HasPairRoom self.new n }
    {
        match self.a.bound_call(a.notes, asked) {
            BoundStep::Ended { event, ending } => self.refuse(event, ending),
            BoundStep::Called { event, args, .. } => {
                match self.b.provider_refused(b.notes, call.function, &args) {
                    Some(ending) => self.refuse(event, ending),
                    None => {
                        tell(&mut self.trace, PairEvent::A(event));
                        self.stage = Stage::CallTaken {
                            signature: call.signature,
                            function: call.function,
                            args,
                        };
                    }
                }
            }
        }
    }

    // A bound call is refused: the pair ends so, after the event of the call.
    fn refuse(&mut self, event: Event, ending: Ending)
        requires room { HasPairRoom self.old 1 }
        ensures trace { self.new.trace.items ≡ self.old.trace.items ++ PairEvent.A event ∷ [] }
        ensures kept { self.new ≡ record self.old { a = record self.old.a { ending = ending }; trace = self.new.trace; ending = ending } }
        ensures at { (world : World) (r : RunState) → IsAt W world self.old.a r → IsAt W world self.new.a (record r { ending = ending }) }
        ensures room { (n : ℕ) → HasPairRoom self.old (n + 1) → HasPairRoom self.new n }
    {
        tell(&mut self.trace, PairEvent::A(event));
        self.a.end(ending);
        self.ending = ending;
    }

    // A function of image B is entered.
    fn enter_step(&mut self, b: &Driver, signature: u32, function: u32, args: &Args)
        requires width { IsWidth W }
        requires notes { IsNotes b.now.notes.now }
        requires kept { IsOf W b.now.notes.now self.old.b.host.places }
        requires func { function < length b.now.notes.now.function }
        requires each { length args.now ≡ length (function_params b.now.notes.now function) }
        requires outside { self.old.b.frames ≡ [] }
        requires settled { self.old.b.asked ≡ None }
        requires room { HasPairRoom self.old 1 }
        ensures step { (world : PairWorld) (p : PairState RunState) → world.b ≡ world_for b.now →
            p.stage ≡ CallTaken signature function (map (λ (s : Seen). s.value) args.now) → p.ending ≡ Running → IsPair W world self.old p →
            IsPair W world self.new
            (enter_step (sides_at W world (own_placements W world)) p signature function (map (λ (s : Seen). s.value) args.now)) }
        ensures room { (n : ℕ) → HasPairRoom self.old (n + 1) → HasPairRoom self.new n }
    {
        let event = Event::Entered {
            func: function,
            args: given_values(args),
        };
        tell(&mut self.trace, PairEvent::B(event));
        self.b.enter_first(b.notes, function, args);
        self.ending = self.b.ending();
        if let Ending::Running = self.ending {
            self.stage = Stage::CallRuns { signature };
        }
    }

    // A function of image B goes on, or has returned.
    fn function_step(&mut self, b: &Driver, signature: u32)
        requires width { IsWidth W }
        requires runs { Runs W b.now.notes.now b.now.script.now self.old.b }
        requires kept { IsOf W b.now.notes.now self.old.b.host.places }
        requires room { HasPairRoom self.old 1 }
        ensures step { (world : PairWorld) (p : PairState RunState) → world.b ≡ world_for b.now → p.stage ≡ CallRuns signature →
            p.ending ≡ Running → IsPair W world self.old p →
            IsPair W world self.new (stepped (function_step (sides_at W world (own_placements W world)) p signature) p) }
        ensures room { (n : ℕ) → HasPairRoom self.old (n + 1) → HasPairRoom self.new n }
    {
        match self.b.leave_first(b.notes) {
            None => self.step_b(b),
            Some(left) => {
                let event = Event::Returned {
                    func: left.func,
                    value: left.value,
                };
                tell(&mut self.trace, PairEvent::B(event));
                self.stage = Stage::CallReturned {
                    signature,
                    value: left.value,
                };
            }
        }
    }

    // The reply to a bound call.
    fn reply_step(&mut self, a: &Driver, signature: u32, value: &Value)
        requires width { IsWidth W }
        requires kept { IsOf W a.now.notes.now self.old.a.host.places }
        requires inside { 0 < length self.old.a.frames }
        requires room { HasPairRoom self.old 1 }
        ensures step { (world : PairWorld) (p : PairState RunState) → world.a ≡ world_for a.now →
            p.stage ≡ CallReturned signature value.now → p.ending ≡ Running → IsPair W world self.old p →
            IsPair W world self.new (reply_step world (sides_at W world (own_placements W world)) p signature value.now) }
        ensures room { (n : ℕ) → HasPairRoom self.old (n + 1) → HasPairRoom self.new n }
    {
        match self.a.answer(a.notes, signature, value) {
            Ok(()) => {
                tell(&mut self.trace, PairEvent::Bound(*value));
                self.stage = Stage::CallerRuns;
            }
            Err(ending) => {
                self.a.end(ending);
                self.ending = ending;
            }
        }
    }

    /// How the run ended, or that it goes on.
    pub fn ending(&self) -> Ending
        ensures { (world : PairWorld) (p : PairState RunState) → IsPair W world self.now p → result ≡ p.ending }
    {
        self.ending
    }

    /// The image that runs.
    pub(crate) fn side(&self) -> Side
        ensures { side_of result ≡ running_side (stage_of self.now.stage) }
    {
        match self.stage {
            Stage::ProviderRuns => Side::B,
            Stage::CallRuns { .. } => Side::B,
            _ => Side::A,
        }
    }

    /// Where the image stands that runs.
    pub fn spot(&self) -> Spot
        ensures { (world : PairWorld) (p : PairState RunState) → IsPair W world self.now p →
            result ≡ pair_spot world (own_placements W world) p }
    {
        match self.side() {
            Side::A => self.a.spot(),
            Side::B => self.b.spot(),
        }
    }

    /// The events so far, the first one first.
    pub fn trace(&self) -> &Vec<PairEvent>
        ensures { (world : PairWorld) (p : PairState RunState) → IsPair W world self.now p → result.now.items ≡ p.trace }
    {
        &self.trace
    }

    /// The events, handed over.
    pub fn into_trace(self) -> Vec<PairEvent>
        ensures { (world : PairWorld) (p : PairState RunState) → IsPair W world self.entry p → result.items ≡ p.trace }
    {
        self.trace
    }
}

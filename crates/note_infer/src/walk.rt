//! The walk from a leader, or from a function's start, to where control doesn't fall on or comes to a leader.

ghost use Rattle.std.specs.Prelude.{◌≡◌, ◌<◌, ◌≤◌, ◌^◌, IfErr, IfOk, IsTrue, OnOk, Some, not, slice_get};
ghost use Rattle.std.specs.Bool.{OnFalse, OnTrue};
ghost use Rattle.std.specs.List.Sorted.{IsStrictlyIncreasing};
ghost use Rattle.rules_base.specs.FirstRule.{IsFirst};
ghost use Rattle.rules_flow.specs.Steps.{FitsStep, successors_of};
ghost use Rattle.rules_flow.specs.Narrowing.{narrow};
ghost use Rattle.rules_flow.specs.Successors.{falls, parts};
ghost use Rattle.rules_image.specs.Images.{IsDecoded};
ghost use Rattle.rules_image.specs.Tables.{IsCodeOf};
ghost use Rattle.note_infer.specs.PointStates.{AreFound};
ghost use Rattle.note_infer.specs.Refusing.{OnClash, OnRule};
ghost use Rattle.note_infer.specs.Rounds.{Begins, FailsIn, States, given};
ghost use Rattle.note_infer.specs.Coming.{ClashesAt, IsComing, Takes, state_at};
ghost use Rattle.note_infer.specs.Passing.{HasPassed, IsSetting, Passes, Steps};
ghost use Rattle.note_infer.specs.Reaching.{Reached};
ghost use Rattle.note_infer.specs.Stopping.{IsEnd};
ghost use Rattle.note_infer.specs.declared.walk.Failure.TheVariants as failures;
ghost use Rattle.note_infer.specs.Turns.{FitsFall, FitsTurn, after_turn, fall_to, fallen};

use crate::coming::{Coming, NotTaken, is_leader};
use crate::marks::has_no_point;
use crate::rounds::NotFound;
use crate::turns::{Fall, Turn, turn_of};
use ebc_base::NoMemory;
use ebc_decode::decode;
use ebc_insn::Insn;
use note_types::{CompactState, FnNote, Notes, RuleName, State};
use pe_image::Image;
use rules_base::Here;
use rules_flow::{Step, narrow};
use rules_image::{code_of, ends_within, first_reloc, relocation};
use std::alloc::Global;

/// A walk through a function: an image under notes, the same notes with the leaders as points, the leaders, the function and its
/// number.
#[derive(Clone, Copy)]
pub(crate) struct Walk<'a> {
    pub image: &'a Image,
    pub notes: &'a Notes,
    pub marked: &'a Notes,
    pub leaders: &'a [u32],
    pub func: u32,
    pub f: &'a FnNote,
}

/// Where a rule fails: the place, the rule, and the state there.
#[derive(Drop)]
pub(crate) struct Stop {
    pub place: u32,
    pub rule: RuleName,
    pub state: CompactState,
}

/// Why an instruction isn't passed: there is no memory, or a rule fails.
#[derive(Clone, Copy)]
pub(crate) enum Failure {
    NoMemory,
    Rule(RuleName),
}

impl From<NoMemory> for Failure {
    ghost from_gives = { λ _ e. e ≡ failures.NoMemory };

    fn from(_: NoMemory) -> Self {
        Failure::NoMemory
    }
}

impl From<RuleName> for Failure {
    ghost from_gives = { λ rule e. e ≡ failures.Rule rule };

    fn from(rule: RuleName) -> Self {
        Failure::Rule(rule)
    }
}

// Where a rule fails, with a copy of the state there.
fn stop_at(alloc: Global, place: u32, rule: RuleName, state: &State) -> Result<Stop, NoMemory>
    ensures { IfOk result (λ stop. stop ≡ record { place = place; rule = rule; state = state.now }) }
{
    Ok(Stop {
        place,
        rule,
        state: CompactState::new(alloc, state)?,
    })
}

impl<'a> Walk<'a> {
    // Makes a change that falls to the instruction at `next`, where a leader is, and joins the state in there. Where it isn't joined
    // in, the state is as it was.
    fn fall_to_leader(
        &self,
        next: u32,
        fall: Fall,
        state: &mut State,
        coming: &mut Coming,
    ) -> Result<(), NotTaken>
        requires ascend { IsStrictlyIncreasing self.now.leaders.now }
        requires coming { IsComing self.now.leaders.now coming.old }
        requires fits { FitsFall state.old fall }
        ensures taken { OnOk result (Takes self.now.leaders.now self.now.f.now (λ l. given l next (falls (fallen state.old fall)))
            (state_at self.now.leaders.now coming.old.states.items) (state_at self.now.leaders.now coming.new.states.items)) }
        ensures clash { IfErr result (OnClash
            (ClashesAt self.now.leaders.now self.now.f.now (λ l. given l next (falls (fallen state.old fall)))
            (state_at self.now.leaders.now coming.old.states.items))) }
        ensures state { OnOk result (state.new ≡ fallen state.old fall) }
        ensures kept { IfErr result (λ _. state.new ≡ state.old) }
        ensures coming { OnOk result (IsComing self.now.leaders.now coming.new) }
        ensures before { coming.new.before.items ≡ coming.old.before.items }
    {
        let mut after = state.copy();
        fall.apply(&mut after);
        match coming.take_in_at(self.leaders, self.f, next, &after) {
            Ok(()) => {
                *state = after;
                Ok(())
            }
            Err(refusal) => Err(refusal),
        }
    }

    // Makes a change that falls to the instruction at `next`, and joins the state in where a leader is there. Where it isn't joined
    // in, the state is as it was.
    fn take_fall(
        &self,
        next: u32,
        fall: Fall,
        state: &mut State,
        coming: &mut Coming,
    ) -> Result<(), NotTaken>
        requires ascend { IsStrictlyIncreasing self.now.leaders.now }
        requires coming { IsComing self.now.leaders.now coming.old }
        requires fits { FitsFall state.old fall }
        ensures taken { OnOk result (Takes self.now.leaders.now self.now.f.now (λ l. given l next (falls (fallen state.old fall)))
            (state_at self.now.leaders.now coming.old.states.items) (state_at self.now.leaders.now coming.new.states.items)) }
        ensures clash { IfErr result (OnClash
            (ClashesAt self.now.leaders.now self.now.f.now (λ l. given l next (falls (fallen state.old fall)))
            (state_at self.now.leaders.now coming.old.states.items))) }
        ensures state { OnOk result (state.new ≡ fallen state.old fall) }
        ensures kept { IfErr result (λ _. state.new ≡ state.old) }
        ensures coming { OnOk result (IsComing self.now.leaders.now coming.new) }
        ensures before { coming.new.before.items ≡ coming.old.before.items }
    {
        if is_leader(self.leaders, next) {
            return self.fall_to_leader(next, fall, state, coming);
        }
        fall.apply(state);
        Ok(())
    }

    // Joins in at leaders what falls to the instruction at `next`, and then what jumps to one.
    fn take_both(
        &self,
        next: u32,
        fall: &State,
        place: u32,
        jump: &State,
        coming: &mut Coming,
    ) -> Result<(), NotTaken>
        requires ascend { IsStrictlyIncreasing self.now.leaders.now }
        requires coming { IsComing self.now.leaders.now coming.old }
        ensures taken { OnOk result (Takes self.now.leaders.now self.now.f.now (λ l. given l next (parts fall.now place jump.now))
            (state_at self.now.leaders.now coming.old.states.items) (state_at self.now.leaders.now coming.new.states.items)) }
        ensures clash { IfErr result (OnClash
            (ClashesAt self.now.leaders.now self.now.f.now (λ l. given l next (parts fall.now place jump.now))
            (state_at self.now.leaders.now coming.old.states.items))) }
        ensures coming { OnOk result (IsComing self.now.leaders.now coming.new) }
        ensures before { coming.new.before.items ≡ coming.old.before.items }
    {
        match coming.take_in_at(self.leaders, self.f, next, fall) {
            Ok(()) => coming.take_in_at(self.leaders, self.f, place, jump),
            Err(refusal) => Err(refusal),
        }
    }

    // Joins in what a jump gives to leaders that parts by the flag C, and narrows the state to the one that falls to the instruction
    // at `next`. Where it isn't joined in, the state is as it was.
    fn take_parts(
        &self,
        next: u32,
        place: u32,
        set: bool,
        state: &mut State,
        coming: &mut Coming,
    ) -> Result<(), NotTaken>
        requires ascend { IsStrictlyIncreasing self.now.leaders.now }
        requires coming { IsComing self.now.leaders.now coming.old }
        ensures taken { OnOk result (Takes self.now.leaders.now self.now.f.now
            (λ l. given l next (parts (narrow state.old (not set)) place (narrow state.old set)))
            (state_at self.now.leaders.now coming.old.states.items) (state_at self.now.leaders.now coming.new.states.items)) }
        ensures clash { IfErr result (OnClash
            (ClashesAt self.now.leaders.now self.now.f.now
            (λ l. given l next (parts (narrow state.old (not set)) place (narrow state.old set)))
            (state_at self.now.leaders.now coming.old.states.items))) }
        ensures state { OnOk result (state.new ≡ narrow state.old (not set)) }
        ensures kept { IfErr result (λ _. state.new ≡ state.old) }
        ensures coming { OnOk result (IsComing self.now.leaders.now coming.new) }
        ensures before { coming.new.before.items ≡ coming.old.before.items }
    {
        let mut fall = state.copy();
        narrow(&mut fall, !set);
        let mut jump = state.copy();
        narrow(&mut jump, set);
        match self.take_both(next, &fall, place, &jump, coming) {
            Ok(()) => {
                *state = fall;
                Ok(())
            }
            Err(refusal) => Err(refusal),
        }
    }

    // Joins in what a step gives to leaders, and makes the state the one that falls to the instruction at `next`. Whether
    // one does. Where it isn't joined in, the state is as it was.
    fn take_step(
        &self,
        next: u32,
        step: Step,
        state: &mut State,
        coming: &mut Coming,
    ) -> Result<bool, NotTaken>
        requires ascend { IsStrictlyIncreasing self.now.leaders.now }
        requires coming { IsComing self.now.leaders.now coming.old }
        requires fits { FitsStep state.old step }
        ensures taken { OnOk result (Takes self.now.leaders.now self.now.f.now (λ l. given l next (successors_of state.old step))
            (state_at self.now.leaders.now coming.old.states.items) (state_at self.now.leaders.now coming.new.states.items)) }
        ensures clash { IfErr result (OnClash
            (ClashesAt self.now.leaders.now self.now.f.now (λ l. given l next (successors_of state.old step))
            (state_at self.now.leaders.now coming.old.states.items))) }
        ensures falls { IfOk result (λ falls. (successors_of state.old step).fall ≡ fall_to falls state.new) }
        ensures kept { IfErr result (λ _. state.new ≡ state.old) }
        ensures coming { OnOk result (IsComing self.now.leaders.now coming.new) }
        ensures before { coming.new.before.items ≡ coming.old.before.items }
    {
        match step {
            Step::Falls(update) => {
                self.take_fall(next, Fall::Flow(update), state, coming)?;
                Ok(true)
            }
            Step::Goes { place } => {
                coming.take_in_at(self.leaders, self.f, place, state)?;
                Ok(false)
            }
            Step::Parts { place, set } => {
                self.take_parts(next, place, set, state, coming)?;
                Ok(true)
            }
            Step::Ends => Ok(false),
        }
    }

    // The same of what an instruction does.
    fn take_turn(
        &self,
        next: u32,
        turn: Turn,
        state: &mut State,
        coming: &mut Coming,
    ) -> Result<bool, NotTaken>
        requires ascend { IsStrictlyIncreasing self.now.leaders.now }
        requires coming { IsComing self.now.leaders.now coming.old }
        requires fits { FitsTurn state.old turn }
        ensures taken { OnOk result (Takes self.now.leaders.now self.now.f.now (λ l. given l next (after_turn state.old turn))
            (state_at self.now.leaders.now coming.old.states.items) (state_at self.now.leaders.now coming.new.states.items)) }
        ensures clash { IfErr result (OnClash
            (ClashesAt self.now.leaders.now self.now.f.now (λ l. given l next (after_turn state.old turn))
            (state_at self.now.leaders.now coming.old.states.items))) }
        ensures falls { IfOk result (λ falls. (after_turn state.old turn).fall ≡ fall_to falls state.new) }
        ensures kept { IfErr result (λ _. state.new ≡ state.old) }
        ensures coming { OnOk result (IsComing self.now.leaders.now coming.new) }
        ensures before { coming.new.before.items ≡ coming.old.before.items }
    {
        match turn {
            Turn::Falls(fall) => {
                self.take_fall(next, fall, state, coming)?;
                Ok(true)
            }
            Turn::Leads(step) => self.take_step(next, step, state, coming),
        }
    }

    // Whether what an instruction gives to leaders clashes, where control would leave the function.
    fn does_clash(
        &self,
        next: u32,
        turn: Turn,
        state: &State,
        coming: &mut Coming,
    ) -> Result<bool, NoMemory>
        requires ascend { IsStrictlyIncreasing self.now.leaders.now }
        requires coming { IsComing self.now.leaders.now coming.old }
        requires fits { FitsTurn state.now turn }
        ensures clash { IfOk result (λ clashes.
            OnTrue clashes (ClashesAt self.now.leaders.now self.now.f.now (λ l. given l next (after_turn state.now turn))
            (state_at self.now.leaders.now coming.old.states.items))) }
        ensures taken { IfOk result (λ clashes.
            OnFalse clashes ((new : States) ×
            Takes self.now.leaders.now self.now.f.now (λ l. given l next (after_turn state.now turn))
            (state_at self.now.leaders.now coming.old.states.items) new)) }
        ensures before { coming.new.before.items ≡ coming.old.before.items }
    {
        let mut after = state.copy();
        match self.take_turn(next, turn, &mut after, coming) {
            Ok(_) => Ok(false),
            Err(NotTaken::Clashes) => Ok(true),
            Err(NotTaken::NoMemory) => Err(NoMemory),
        }
    }

    // Goes through an instruction from its place up to `next`, and makes the state the one that falls on: whether one does.
    fn pass(
        &self,
        at: u32,
        next: u32,
        insn: &Insn,
        state: &mut State,
        coming: &mut Coming,
    ) -> Result<bool, Failure>
        requires setting { IsSetting self.now.image.now self.now.notes.now self.now.marked.now self.now.leaders.now }
        requires there { slice_get self.now.notes.now.function self.now.func ≡ Some self.now.f.now }
        requires decode { IsDecoded self.now.image.now self.now.f.now at insn.now next }
        requires within { at < self.now.f.now.end }
        requires coming { IsComing self.now.leaders.now coming.old }
        requires reached { Reached self.now.image.now self.now.notes.now self.now.leaders.now
            (state_at self.now.leaders.now coming.old.before.items) (state_at self.now.leaders.now coming.old.states.items) at }
        ensures passes { IfOk result (λ falls.
            Passes self.now.image.now self.now.notes.now self.now.leaders.now self.now.func self.now.f.now at next insn.now state.old
            (state_at self.now.leaders.now coming.old.states.items) (state_at self.now.leaders.now coming.new.states.items)
            (fall_to falls state.new)) }
        ensures fails { IfErr result (OnRule
            (IsFirst (FailsIn self.now.image.now self.now.notes.now self.now.leaders.now
            (state_at self.now.leaders.now coming.old.before.items) self.now.func self.now.f.now at state.old))) }
        ensures kept { IfErr result (λ _. state.new ≡ state.old) }
        ensures coming { OnOk result (IsComing self.now.leaders.now coming.new) }
        ensures before { coming.new.before.items ≡ coming.old.before.items }
    {
        if !has_no_point(self.marked, at, next) {
            return Err(Failure::Rule(RuleName::Point));
        }
        let first = first_reloc(self.image, at);
        let Ok(reloc) = relocation(self.image, self.notes, insn, at, next, first) else {
            return Err(Failure::Rule(RuleName::Relocation));
        };
        let here = Here {
            place: at,
            next,
            func: self.func,
            reloc,
        };
        let turn = turn_of(self.marked, &here, state, insn)?;
        if !ends_within(self.f, insn, next) {
            if self.does_clash(next, turn, state, coming)? {
                return Err(Failure::Rule(RuleName::Below));
            }
            return Err(Failure::Rule(RuleName::End));
        }
        match self.take_turn(next, turn, state, coming) {
            Ok(falls) => Ok(falls),
            Err(NotTaken::Clashes) => Err(Failure::Rule(RuleName::Below)),
            Err(NotTaken::NoMemory) => Err(Failure::NoMemory),
        }
    }

    // Goes through the instruction at a place, where these are the function's bytes, and makes the state the one that falls
    // on: the next place, and whether one does.
    fn step(
        &self,
        code: &[u8],
        at: u32,
        state: &mut State,
        coming: &mut Coming,
    ) -> Result<(u32, bool), Failure>
        requires setting { IsSetting self.now.image.now self.now.notes.now self.now.marked.now self.now.leaders.now }
        requires there { slice_get self.now.notes.now.function self.now.func ≡ Some self.now.f.now }
        requires code { IsCodeOf self.now.image.now self.now.f.now code.now }
        requires size { self.now.f.now.end ≤ 2 ^ 22 }
        requires from { self.now.f.now.place ≤ at }
        requires within { at < self.now.f.now.end }
        requires coming { IsComing self.now.leaders.now coming.old }
        requires reached { Reached self.now.image.now self.now.notes.now self.now.leaders.now
            (state_at self.now.leaders.now coming.old.before.items) (state_at self.now.leaders.now coming.old.states.items) at }
        ensures steps { IfOk result (λ (next, falls).
            Steps self.now.image.now self.now.notes.now self.now.leaders.now self.now.func self.now.f.now at next state.old
            (state_at self.now.leaders.now coming.old.states.items) (state_at self.now.leaders.now coming.new.states.items)
            (fall_to falls state.new)) }
        ensures fails { IfErr result (OnRule
            (IsFirst (FailsIn self.now.image.now self.now.notes.now self.now.leaders.now
            (state_at self.now.leaders.now coming.old.before.items) self.now.func self.now.f.now at state.old))) }
        ensures kept { IfErr result (λ _. state.new ≡ state.old) }
        ensures coming { OnOk result (IsComing self.now.leaders.now coming.new) }
        ensures before { coming.new.before.items ≡ coming.old.before.items }
    {
        let Ok((insn, len)) = decode(code, (at - self.f.place) as usize) else {
            return Err(Failure::Rule(RuleName::Decode));
        };
        let next = at + len as u32;
        let falls = self.pass(at, next, &insn, state, coming)?;
        Ok((next, falls))
    }

    /// Goes on from a place where this state begins.
    ///
    /// # Errors
    ///
    /// The round is stuck, or there is no memory.
    pub fn go(&self, from: u32, state: &mut State, coming: &mut Coming) -> Result<(), NotFound>
        requires setting { IsSetting self.now.image.now self.now.notes.now self.now.marked.now self.now.leaders.now }
        requires there { slice_get self.now.notes.now.function self.now.func ≡ Some self.now.f.now }
        requires found { AreFound self.now.notes.now self.now.leaders.now (state_at self.now.leaders.now coming.old.before.items) }
        requires begins { Begins self.now.notes.now self.now.leaders.now (state_at self.now.leaders.now coming.old.before.items)
            self.now.func self.now.f.now from state.old }
        requires coming { IsComing self.now.leaders.now coming.old }
        requires reached { Reached self.now.image.now self.now.notes.now self.now.leaders.now
            (state_at self.now.leaders.now coming.old.before.items) (state_at self.now.leaders.now coming.old.states.items) from }
        ensures passed { OnOk result (HasPassed self.now.image.now self.now.notes.now self.now.leaders.now self.now.f.now
            (state_at self.now.leaders.now coming.new.before.items) (state_at self.now.leaders.now coming.new.states.items) from) }
        ensures stuck { IfErr result (IsEnd self.now.image.now self.now.notes.now self.now.leaders.now
            (state_at self.now.leaders.now coming.old.before.items)) }
        ensures coming { OnOk result (IsComing self.now.leaders.now coming.new) }
        ensures before { coming.new.before.items ≡ coming.old.before.items }
    {
        let code = code_of(self.image, self.f);
        let mut at = from;
        loop {
            match self.step(code, at, state, coming) {
                Ok((next, falls)) => {
                    at = next;
                    if !falls || self.f.end <= next || is_leader(self.leaders, next) {
                        return Ok(());
                    }
                }
                Err(Failure::Rule(rule)) => {
                    return Err(NotFound::Stuck(stop_at(coming.alloc, at, rule, state)?));
                }
                Err(Failure::NoMemory) => return Err(NotFound::NoMemory),
            }
        }
    }
}

//! What has come to the leaders in a round.

ghost use Rattle.std.specs.Prelude.{◌≡◌, ◌<◌, ◌↔◌, ℕ, IfErr, IfNone, IfOk, IfSome, IsTrue, None, OnOk, Some, [], ◌∷◌, ◌++◌, length};
ghost use Rattle.std.specs.Prelude.{replicate, slice_index, slice_index_or, slice_set};
ghost use Rattle.std.specs.List.{Contains};
ghost use Rattle.std.specs.List.Sorted.{IsStrictlyIncreasing};
ghost use Rattle.note_infer.specs.JoinStates.{taken_in, without_fact};
ghost use Rattle.note_infer.specs.Coming.{ClashesAt, IsComing, Takes, TakesNumber, given_to, state_at};
ghost use Rattle.note_infer.specs.Refusing.{OnClash};
ghost use Rattle.note_infer.specs.declared.coming.NotTaken.TheVariants as refusals;

use crate::state_joins::join_states;
use crate::states::same_state;
use ebc_base::NoMemory;
use note_types::{CompactState, FnNote, State};
use std::alloc::Global;

/// The states at the leaders, in the leaders' order: those of the round before, and those that have come so far. With them the
/// numbers of the leaders to which something was given.
#[derive(Drop)]
pub(crate) struct Coming {
    pub alloc: Global,
    pub before: Vec<Option<CompactState>>,
    pub states: Vec<Option<CompactState>>,
    pub given: Vec<usize>,
}

/// Why a state isn't joined in: there is no memory, or it clashes with what has come.
#[derive(Clone, Copy)]
pub(crate) enum NotTaken {
    NoMemory,
    Clashes,
}

impl From<NoMemory> for NotTaken {
    ghost from_gives = { λ _ e. e ≡ refusals.NoMemory };

    fn from(_: NoMemory) -> Self {
        NotTaken::NoMemory
    }
}

// No state for so many leaders.
fn no_states(alloc: Global, count: usize) -> Result<Vec<Option<CompactState>>, NoMemory>
    ensures { IfOk result (λ states. states.items ≡ replicate count None) }
{
    let mut states = Vec::with_capacity(alloc, count)?;
    for _ in 0..count {
        states.push(None)?;
    }
    Ok(states)
}

// A state without its fact.
fn without_fact(s: &State) -> State
    ensures { result ≡ without_fact s.now }
{
    let mut state = s.copy();
    state.fact = None;
    state
}

// The first state that comes, without its fact.
fn first_state(alloc: Global, s: &State) -> Result<CompactState, NoMemory>
    ensures { IfOk result (λ first. first ≡ without_fact s.now) }
{
    if s.fact.is_none() {
        return Ok(CompactState::new(alloc, s)?);
    }
    Ok(CompactState::new(alloc, &without_fact(s))?)
}

// What has come, with another state joined in.
fn joined_in(alloc: Global, had: &CompactState, s: &State) -> Result<CompactState, NotTaken>
    ensures taken { IfOk result (λ come. taken_in (Some had.now) s.now ≡ Some come) }
    ensures clash { IfErr result (OnClash (taken_in (Some had.now) s.now ≡ None)) }
{
    let Some(joined) = join_states(&had.state(), s) else {
        return Err(NotTaken::Clashes);
    };
    match CompactState::new(alloc, &joined) {
        Ok(come) => Ok(come),
        Err(_) => Err(NotTaken::NoMemory),
    }
}

// What has come, or nothing yet, with another state joined in.
fn taken_in(alloc: Global, come: &Option<CompactState>, s: &State) -> Result<CompactState, NotTaken>
    ensures taken { IfOk result (λ next. taken_in come.now s.now ≡ Some next) }
    ensures clash { IfErr result (OnClash (taken_in come.now s.now ≡ None)) }
{
    match come {
        None => Ok(first_state(alloc, s)?),
        Some(had) => joined_in(alloc, had, s),
    }
}

// The number of the leader at a place, where there is one.
fn number_at(leaders: &[u32], place: u32) -> Option<usize>
    requires { IsStrictlyIncreasing leaders.now }
    ensures some { IfSome result (λ k. (k < length leaders.now) × (slice_index leaders.now k ≡ place)) }
    ensures none { IfNone result (Contains leaders.now place → ⊥) }
{
    match leaders.binary_search(&place) {
        Ok(number) => Some(number),
        Err(_) => None,
    }
}

/// Whether a leader is at a place.
pub(crate) fn is_leader(leaders: &[u32], place: u32) -> bool
    requires { IsStrictlyIncreasing leaders.now }
    ensures { IsTrue result ↔ Contains leaders.now place }
{
    match number_at(leaders, place) {
        Some(_) => true,
        None => false,
    }
}

// Whether this state is the one that is known.
fn is_known(known: &Option<CompactState>, state: &State) -> bool
    ensures { IsTrue result ↔ (known.now ≡ Some state.now) }
{
    match known {
        Some(had) => same_state(&had.state(), state),
        None => false,
    }
}

impl Coming {
    /// Nothing has come to so many leaders.
    pub fn new(alloc: Global, count: usize) -> Result<Coming, NoMemory>
        ensures before { IfOk result (λ coming. coming.before.items ≡ replicate count None) }
        ensures states { IfOk result (λ coming. coming.states.items ≡ replicate count None) }
        ensures given { IfOk result (λ coming. coming.given.items ≡ []) }
    {
        Ok(Coming {
            alloc,
            before: no_states(alloc, count)?,
            states: no_states(alloc, count)?,
            given: Vec::new(alloc),
        })
    }

    // Notes that something was given to a leader, by its number.
    fn note_given(&mut self, number: usize) -> Result<(), NoMemory>
        ensures given { OnOk result (self.new.given.items ≡ self.old.given.items ++ number ∷ []) }
        ensures states { self.new.states.items ≡ self.old.states.items }
        ensures before { self.new.before.items ≡ self.old.before.items }
    {
        self.given.push(number)?;
        Ok(())
    }

    // Joins a state in at a leader, by its number.
    fn take_in(&mut self, number: usize, s: &State) -> Result<(), NotTaken>
        requires { number < length self.old.states.items }
        ensures taken { OnOk result (TakesNumber self.old.states.items self.new.states.items number s.now) }
        ensures clash { IfErr result (OnClash (taken_in (slice_index_or self.old.states.items number None) s.now ≡ None)) }
        ensures given { OnOk result (self.new.given.items ≡ self.old.given.items ++ number ∷ []) }
        ensures before { self.new.before.items ≡ self.old.before.items }
    {
        let come = taken_in(self.alloc, &self.states[number], s)?;
        self.states[number] = Some(come);
        self.note_given(number)?;
        Ok(())
    }

    /// Joins a state in at a place, where a leader of the function is.
    ///
    /// # Errors
    ///
    /// It clashes, or there is no memory.
    pub fn take_in_at(
        &mut self,
        leaders: &[u32],
        f: &FnNote,
        place: u32,
        s: &State,
    ) -> Result<(), NotTaken>
        requires ascend { IsStrictlyIncreasing leaders.now }
        requires coming { IsComing leaders.now self.old }
        ensures taken { OnOk result (Takes leaders.now f.now (given_to place s.now) (state_at leaders.now self.old.states.items)
            (state_at leaders.now self.new.states.items)) }
        ensures clash { IfErr result (OnClash
            (ClashesAt leaders.now f.now (given_to place s.now) (state_at leaders.now self.old.states.items))) }
        ensures coming { OnOk result (IsComing leaders.now self.new) }
        ensures before { self.new.before.items ≡ self.old.before.items }
    {
        if place < f.place || f.end <= place {
            return Ok(());
        }
        match number_at(leaders, place) {
            Some(number) => self.take_in(number, s),
            None => Ok(()),
        }
    }

    /// What has come to a leader, by its number, becomes the state of the round before: that state, where it is another one. It is put
    /// into `room` in between.
    ///
    /// # Errors
    ///
    /// There is no memory.
    pub fn take_over(
        &mut self,
        number: usize,
        room: &mut State,
    ) -> Result<Option<CompactState>, NoMemory>
        requires before { number < length self.old.before.items }
        requires states { number < length self.old.states.items }
        requires known { slice_index_or self.old.states.items number None ≡ None → slice_index_or self.old.before.items number None ≡ None }
        ensures some { IfOk result (λ next. IfSome next (λ s. slice_index_or self.old.states.items number None ≡ Some s)) }
        ensures differs { IfOk result (λ next. IfSome next (λ s. slice_index_or self.old.before.items number None ≡ Some s → ⊥)) }
        ensures same { IfOk result (λ next.
            IfNone next (slice_index_or self.old.states.items number None ≡ slice_index_or self.old.before.items number None)) }
        ensures before { OnOk result (self.new.before.items ≡
            slice_set self.old.before.items number (slice_index_or self.old.states.items number None)) }
        ensures states { self.new.states.items ≡ self.old.states.items }
        ensures given { self.new.given.items ≡ self.old.given.items }
    {
        let Some(state) = &self.states[number] else {
            return Ok(None);
        };
        state.put(room);
        if is_known(&self.before[number], room) {
            return Ok(None);
        }
        self.before[number] = Some(CompactState::new(self.alloc, room)?);
        Ok(Some(CompactState::new(self.alloc, room)?))
    }

    /// Sorts the numbers of the leaders to which something was given, and has each once.
    pub fn sort_given(&mut self)
        ensures ascend { IsStrictlyIncreasing self.new.given.items }
        ensures same { (k : ℕ) → Contains self.new.given.items k ↔ Contains self.old.given.items k }
        ensures states { self.new.states.items ≡ self.old.states.items }
        ensures before { self.new.before.items ≡ self.old.before.items }
    {
        self.given.sort_unstable();
        self.given.dedup();
    }
}

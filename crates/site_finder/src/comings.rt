//! What has come to the leaders before they are walked from.

use ebc_base::NoMemory;
use note_infer::join_states;
use note_types::State;
use std::alloc::Global;
use std::mem;

// What has come to a leader: nothing, a state, or it has been walked from.
#[derive(Drop)]
enum Coming {
    Nothing,
    Joined(State),
    Walked,
}

/// A leader, by its number, and the state with which it is walked from.
#[derive(Drop)]
pub(crate) struct Reached {
    pub number: usize,
    pub state: State,
}

/// What has come to each leader, by its number, and the numbers of those to which a state came first in this round.
#[derive(Drop)]
pub(crate) struct Comings {
    at: Vec<Coming>,
    new: Vec<usize>,
}

impl Comings {
    /// Nothing has come to so many leaders.
    ///
    /// # Errors
    ///
    /// There is no memory for them.
    pub fn new(alloc: Global, count: usize) -> Result<Comings, NoMemory> {
        let mut at = Vec::new(alloc);
        for _ in 0..count {
            at.push(Coming::Nothing)?;
        }
        Ok(Comings {
            at,
            new: Vec::new(alloc),
        })
    }

    // What has come to a leader, with another state joined in, where that changes it.
    fn joined(&self, number: usize, s: State) -> Option<State> {
        match self.at.get(number)? {
            Coming::Nothing => Some(s),
            Coming::Joined(had) => join_states(had, &s),
            Coming::Walked => None,
        }
    }

    /// Joins a state in at a leader, by its number, unless that has been walked from. A state that clashes is left to the check.
    ///
    /// # Errors
    ///
    /// There is no memory to keep its number.
    pub fn take_in(&mut self, number: usize, mut s: State) -> Result<(), NoMemory> {
        s.fact = None;
        let Some(joined) = self.joined(number, s) else {
            return Ok(());
        };
        if number < self.at.len() {
            if let Coming::Nothing = self.at[number] {
                self.new.push(number)?;
            }
            self.at[number] = Coming::Joined(joined);
        }
        Ok(())
    }

    // The state that has come to a leader, by its number, which is walked from now.
    fn begin_walk(&mut self, number: usize) -> Option<State> {
        if self.at.len() <= number {
            return None;
        }
        match mem::replace(&mut self.at[number], Coming::Walked) {
            Coming::Joined(state) => Some(state),
            Coming::Nothing | Coming::Walked => None,
        }
    }

    /// Ends a round: the leaders to which a state came first in it, which are walked from in the next.
    ///
    /// # Errors
    ///
    /// There is no memory for them.
    pub fn end_round(&mut self, alloc: Global) -> Result<Vec<Reached>, NoMemory> {
        let numbers = mem::replace(&mut self.new, Vec::new(alloc));
        let mut reached = Vec::new(alloc);
        for number in numbers {
            if let Some(state) = self.begin_walk(number) {
                reached.push(Reached { number, state })?;
            }
        }
        Ok(reached)
    }
}

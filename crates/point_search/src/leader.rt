//! What has come to a leader, and the state from which it is walked.

use crate::states::{is_same, join_states};
use crate::widening::widened;
use code_walk::Source;
use ebc_base::NoMemory;
use note_types::{CompactState, Point, State, fits_below};
use std::alloc::Global;

// A way to a leader, and the state that it gave last.
#[derive(Drop)]
struct Way {
    source: Source,
    state: CompactState,
}

/// A leader, the ways to it, and the state from which it was walked last. It is a head where a jump backward leads to it. Then
/// its state has only grown, so many times.
#[derive(Drop)]
pub(crate) struct Leader {
    pub place: u32,
    ways: Vec<Way>,
    state: Option<CompactState>,
    is_head: bool,
    growths: u32,
}

// The join of what came before, if anything did, and a state. One that clashes is left to the check.
fn met(before: Option<State>, s: State) -> State {
    let Some(had) = before else {
        return s;
    };
    match join_states(&had, &s) {
        Some(both) => both,
        None => had,
    }
}

impl Leader {
    /// A leader at a place to which nothing has come.
    pub fn new(alloc: Global, place: u32) -> Leader {
        Leader {
            place,
            ways: Vec::new(alloc),
            state: None,
            is_head: false,
            growths: 0,
        }
    }

    // Whether a way leads backward.
    fn is_backward(&self, source: Source) -> bool {
        match source {
            Source::Jump(from) => self.place <= from,
            Source::Entry | Source::Fall => false,
        }
    }

    // Whether a state at the head of a loop says all that another one says.
    fn holds(&self, s: &State) -> bool {
        match &self.state {
            Some(state) => self.is_head && fits_below(s, state),
            None => false,
        }
    }

    /// Takes what a way gives in place of what it gave before, and tells whether the leader is due to be looked at.
    ///
    /// # Errors
    ///
    /// There is no memory for it.
    pub fn take(&mut self, alloc: Global, source: Source, s: &State) -> Result<bool, NoMemory> {
        self.is_head = self.is_head || self.is_backward(source);
        let state = CompactState::new(alloc, s)?;
        match self
            .ways
            .as_slice()
            .iter()
            .position(|way| way.source == source)
        {
            Some(index) => {
                if index < self.ways.len() {
                    if is_same(&self.ways[index].state, &state) {
                        return Ok(false);
                    }
                    self.ways[index].state = state;
                }
            }
            None => self.ways.push(Way { source, state })?,
        }
        Ok(!self.holds(s))
    }

    // What the ways gave last, joined.
    fn joined(&self) -> Option<State> {
        let mut joined = None;
        for way in self.ways.as_slice() {
            joined = Some(met(joined, way.state.state()));
        }
        joined
    }

    // The state to which that at a head grows by what came.
    fn grown(&self, had: &CompactState, came: &State, marks: &[u64]) -> Option<State> {
        if fits_below(came, had) {
            return None;
        }
        let had = had.state();
        widened(&had, &join_states(&had, came)?, marks, self.growths)
    }

    // The state from which it would be walked now.
    fn next(&self, marks: &[u64]) -> Option<State> {
        let came = self.joined()?;
        match &self.state {
            Some(had) => if self.is_head {
                self.grown(had, &came, marks)
            } else {
                Some(came)
            },
            None => Some(came),
        }
    }

    // Whether a state is the one from which it was walked last.
    fn is_walked(&self, state: &CompactState) -> bool {
        match &self.state {
            Some(had) => is_same(had, state),
            None => false,
        }
    }

    /// The state from which the leader is to be walked now; none where that is the one from which it was walked last.
    ///
    /// # Errors
    ///
    /// There is no memory to keep it.
    pub fn advance(&mut self, alloc: Global, marks: &[u64]) -> Result<Option<State>, NoMemory> {
        let Some(next) = self.next(marks) else {
            return Ok(None);
        };
        let state = CompactState::new(alloc, &next)?;
        if self.is_walked(&state) {
            return Ok(None);
        }
        self.state = Some(state);
        self.growths = self.growths.saturating_add(1);
        Ok(Some(next))
    }

    /// The point there: the state from which it was walked last.
    pub fn into_point(self) -> Option<Point> {
        let Leader { place, state, .. } = self;
        Some(Point {
            place,
            state: state?,
        })
    }
}

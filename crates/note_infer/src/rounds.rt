//! Rounds, until one changes nothing.

ghost use Rattle.std.specs.Prelude.{◌≡◌, ◌^◌, IfErr, IfOk, OnOk, length, map};
ghost use Rattle.width_checker.specs.Typed.{TablesHold};
ghost use Rattle.note_infer.specs.Inferred.{IsSettled};
ghost use Rattle.note_infer.specs.PointStates.{AreFound};
ghost use Rattle.note_infer.specs.Coming.{IsComing, state_at};
ghost use Rattle.note_infer.specs.declared.rounds.NotFound.TheVariants as failures;
ghost use Rattle.note_infer.specs.Passing.{IsSetting};
ghost use Rattle.note_infer.specs.Reaching.{AllRest, Reached};
ghost use Rattle.note_infer.specs.Starting.{AreStarts};
ghost use Rattle.note_infer.specs.Stopping.{IsEnd, IsNotFound};

use crate::coming::Coming;
use crate::walk::{Stop, Walk};
use ebc_base::NoMemory;
use note_types::{CompactState, Notes, State, entry_state};
use pe_image::Image;
use std::alloc::Global;

/// Where a walk begins: the number of a function, a place of its code, and the state there.
#[derive(Drop)]
pub(crate) struct Start {
    pub func: u32,
    pub place: u32,
    pub state: CompactState,
}

/// Why no states are found: there is no memory, or a round is stuck.
#[derive(Drop)]
pub(crate) enum NotFound {
    NoMemory,
    Stuck(Stop),
}

impl From<NoMemory> for NotFound {
    ghost from_gives = { λ _ e. e ≡ failures.NoMemory };

    fn from(_: NoMemory) -> Self {
        NotFound::NoMemory
    }
}

/// An image under notes, the same notes with the leaders as points, and the leaders.
#[derive(Clone, Copy)]
pub(crate) struct Rounds<'a> {
    pub image: &'a Image,
    pub notes: &'a Notes,
    pub marked: &'a Notes,
    pub leaders: &'a [u32],
}

impl<'a> Rounds<'a> {
    /// Walks on from each of these starts, with the state at hand in `state`.
    ///
    /// # Errors
    ///
    /// The round is stuck, or there is no memory.
    pub fn walk_all(
        &self,
        starts: &[Start],
        state: &mut State,
        coming: &mut Coming,
    ) -> Result<(), NotFound>
        requires setting { IsSetting self.now.image.now self.now.notes.now self.now.marked.now self.now.leaders.now }
        requires found { AreFound self.now.notes.now self.now.leaders.now (state_at self.now.leaders.now coming.old.before.items) }
        requires starts { AreStarts self.now.notes.now self.now.leaders.now (state_at self.now.leaders.now coming.old.before.items)
            starts.now }
        requires rest { AllRest self.now.image.now self.now.notes.now self.now.leaders.now
            (state_at self.now.leaders.now coming.old.before.items) (map (λ x. x.place) starts.now) }
        requires coming { IsComing self.now.leaders.now coming.old }
        requires reached { Reached self.now.image.now self.now.notes.now self.now.leaders.now
            (state_at self.now.leaders.now coming.old.before.items) (state_at self.now.leaders.now coming.old.states.items) 0 }
        ensures reached { OnOk result (Reached self.now.image.now self.now.notes.now self.now.leaders.now
            (state_at self.now.leaders.now coming.new.before.items) (state_at self.now.leaders.now coming.new.states.items) (2 ^ 22)) }
        ensures stuck { IfErr result (IsEnd self.now.image.now self.now.notes.now self.now.leaders.now
            (state_at self.now.leaders.now coming.old.before.items)) }
        ensures coming { OnOk result (IsComing self.now.leaders.now coming.new) }
        ensures before { coming.new.before.items ≡ coming.old.before.items }
    {
        for start in starts {
            let walk = Walk {
                image: self.image,
                notes: self.notes,
                marked: self.marked,
                leaders: self.leaders,
                func: start.func,
                f: &self.notes.function.as_slice()[start.func as usize],
            };
            start.state.put(state);
            match walk.go(start.place, state, coming) {
                Ok(()) => {}
                Err(end) => return Err(end),
            }
        }
        Ok(())
    }

    /// The states at the leaders after the round that changes nothing.
    ///
    /// # Errors
    ///
    /// There is no memory for them, or a round is stuck.
    pub fn settle(&self, alloc: Global) -> Result<Vec<Option<CompactState>>, NotFound>
        requires setting { IsSetting self.now.image.now self.now.notes.now self.now.marked.now self.now.leaders.now }
        requires tables { TablesHold self.now.image.now self.now.notes.now }
        ensures settled { IfOk result (λ states.
            IsSettled self.now.image.now self.now.notes.now self.now.leaders.now (state_at self.now.leaders.now states.items)) }
        ensures long { IfOk result (λ states. length states.items ≡ length self.now.leaders.now) }
        ensures stuck { IfErr result (IsNotFound self.now.image.now self.now.notes.now self.now.leaders.now) }
    {
        let mut coming = Coming::new(alloc, self.leaders.len())?;
        let mut state = entry_state(self.notes, self.notes.entry);
        let mut starts = self.entries(alloc, &mut coming)?;
        loop {
            if let Err(end) = self.walk_all(starts.as_slice(), &mut state, &mut coming) {
                return Err(end);
            }
            starts = self.changes(alloc, &mut state, &mut coming)?;
            if starts.is_empty() {
                return Ok(coming.states);
            }
        }
    }
}

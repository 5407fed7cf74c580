//! Where the walks of a round begin.

ghost use Rattle.std.specs.Prelude.{◌≡◌, ℕ, ◌+◌, ◌<◌, IfOk, None, OnOk, Some, [], length, replicate, slice_get, slice_index_or, slice_set};
ghost use Rattle.std.specs.List.Sorted.{IsStrictlyIncreasing};
ghost use Rattle.note_types.specs.declared.notes.FnNote.{FnNote};
ghost use Rattle.note_infer.specs.Rounds.{IsWithin};
ghost use Rattle.note_infer.specs.Beginning.{AreChanges, AreEntries, StayKnown};
ghost use Rattle.note_infer.specs.Changing.{Changed, Turned};
ghost use Rattle.note_infer.specs.Coming.{IsComing, state_at};
ghost use Rattle.note_infer.specs.Entering.{Entered};
ghost use Rattle.note_infer.specs.Passing.{IsSetting};
ghost use Rattle.note_infer.specs.Starting.{AreStarts};

use crate::coming::{Coming, NotTaken, is_leader};
use crate::rounds::{Rounds, Start};
use ebc_base::NoMemory;
use note_types::{CompactState, FnNote, State, entry_state};
use std::alloc::Global;

impl<'a> Rounds<'a> {
    // The number of the function whose code has a place.
    fn owner(&self, place: u32) -> usize
        requires { IsSetting self.now.image.now self.now.notes.now self.now.marked.now self.now.leaders.now }
        ensures { (k : ℕ) (f : FnNote) → slice_get self.now.notes.now.function k ≡ Some f → IsWithin f place → result ≡ k }
    {
        self.notes
            .function
            .as_slice()
            .partition_point(|f| f.end <= place)
    }

    // The entry of a function, by its number: its state comes to the leader at its start, or else a walk begins there.
    fn enter(
        &self,
        func: u32,
        f: &FnNote,
        coming: &mut Coming,
        starts: &mut Vec<Start>,
    ) -> Result<(), NoMemory>
        requires setting { IsSetting self.now.image.now self.now.notes.now self.now.marked.now self.now.leaders.now }
        requires there { slice_get self.now.notes.now.function func ≡ Some f.now }
        requires coming { IsComing self.now.leaders.now coming.old }
        requires entered { Entered self.now.notes.now self.now.leaders.now (state_at self.now.leaders.now coming.old.states.items)
            starts.old.items func }
        ensures entered { OnOk result (Entered self.now.notes.now self.now.leaders.now
            (state_at self.now.leaders.now coming.new.states.items) starts.new.items (func + 1)) }
        ensures coming { OnOk result (IsComing self.now.leaders.now coming.new) }
        ensures before { coming.new.before.items ≡ coming.old.before.items }
    {
        let state = entry_state(self.notes, func);
        if is_leader(self.leaders, f.place) {
            return match coming.take_in_at(self.leaders, f, f.place, &state) {
                Ok(()) => Ok(()),
                Err(NotTaken::NoMemory) => Err(NoMemory),
                Err(NotTaken::Clashes) => unreachable!(),
            };
        }
        starts.push(Start {
            func,
            place: f.place,
            state: CompactState::new(coming.alloc, &state)?,
        })?;
        Ok(())
    }

    // Takes over what has come to a leader, by its number. Where that is another state than before, a walk begins there.
    fn turn(
        &self,
        number: usize,
        room: &mut State,
        coming: &mut Coming,
        starts: &mut Vec<Start>,
    ) -> Result<(), NoMemory>
        requires setting { IsSetting self.now.image.now self.now.notes.now self.now.marked.now self.now.leaders.now }
        requires within { number < length self.now.leaders.now }
        requires coming { IsComing self.now.leaders.now coming.old }
        requires known { slice_index_or coming.old.states.items number None ≡ None →
            slice_index_or coming.old.before.items number None ≡ None }
        ensures turned { OnOk result (Turned self.now.notes.now self.now.leaders.now coming.old.before.items coming.old.states.items number
            starts.old.items starts.new.items) }
        ensures before { OnOk result (coming.new.before.items ≡
            slice_set coming.old.before.items number (slice_index_or coming.old.states.items number None)) }
        ensures states { coming.new.states.items ≡ coming.old.states.items }
        ensures given { coming.new.given.items ≡ coming.old.given.items }
    {
        let Some(state) = coming.take_over(number, room)? else {
            return Ok(());
        };
        let place = self.leaders[number];
        starts.push(Start {
            func: self.owner(place) as u32,
            place,
            state,
        })?;
        Ok(())
    }

    // Takes over what has come to the leaders to which something was given.
    fn turn_all(
        &self,
        room: &mut State,
        coming: &mut Coming,
        starts: &mut Vec<Start>,
    ) -> Result<(), NoMemory>
        requires setting { IsSetting self.now.image.now self.now.notes.now self.now.marked.now self.now.leaders.now }
        requires coming { IsComing self.now.leaders.now coming.old }
        requires known { StayKnown coming.old.before.items coming.old.states.items }
        requires ascend { IsStrictlyIncreasing coming.old.given.items }
        requires none { starts.old.items ≡ [] }
        ensures { OnOk result (Changed self.now.notes.now self.now.leaders.now coming.old coming.new starts.new.items
            (length self.now.leaders.now)) }
    {
        for index in 0..coming.given.len() {
            let number = coming.given[index];
            self.turn(number, room, coming, starts)?;
        }
        Ok(())
    }

    /// The starts of the first round: those of the functions that are no leaders. The entry states of the others come to these.
    ///
    /// # Errors
    ///
    /// There is no memory for them.
    pub fn entries(&self, alloc: Global, coming: &mut Coming) -> Result<Vec<Start>, NoMemory>
        requires setting { IsSetting self.now.image.now self.now.notes.now self.now.marked.now self.now.leaders.now }
        requires coming { IsComing self.now.leaders.now coming.old }
        requires before { coming.old.before.items ≡ replicate (length self.now.leaders.now) None }
        requires states { coming.old.states.items ≡ replicate (length self.now.leaders.now) None }
        ensures starts { IfOk result (λ starts.
            AreStarts self.now.notes.now self.now.leaders.now (state_at self.now.leaders.now coming.new.before.items) starts.items) }
        ensures entries { IfOk result (λ starts.
            AreEntries self.now.notes.now self.now.leaders.now (state_at self.now.leaders.now coming.new.before.items)
            (state_at self.now.leaders.now coming.new.states.items) starts.items) }
        ensures coming { OnOk result (IsComing self.now.leaders.now coming.new) }
        ensures before { coming.new.before.items ≡ coming.old.before.items }
    {
        let mut starts = Vec::new(alloc);
        for (func, f) in self.notes.function.as_slice().iter().enumerate() {
            self.enter(func as u32, f, coming, &mut starts)?;
        }
        Ok(starts)
    }

    /// The starts of the next round: the leaders whose state changed. What came to them is then the state before. A state is put into
    /// `room` in between.
    ///
    /// # Errors
    ///
    /// There is no memory for them.
    pub fn changes(
        &self,
        alloc: Global,
        room: &mut State,
        coming: &mut Coming,
    ) -> Result<Vec<Start>, NoMemory>
        requires setting { IsSetting self.now.image.now self.now.notes.now self.now.marked.now self.now.leaders.now }
        requires coming { IsComing self.now.leaders.now coming.old }
        requires known { StayKnown coming.old.before.items coming.old.states.items }
        ensures starts { IfOk result (λ starts.
            AreStarts self.now.notes.now self.now.leaders.now (state_at self.now.leaders.now coming.new.before.items) starts.items) }
        ensures changes { IfOk result (λ starts.
            AreChanges (state_at self.now.leaders.now coming.old.before.items) (state_at self.now.leaders.now coming.new.before.items)
            starts.items) }
        ensures coming { OnOk result (IsComing self.now.leaders.now coming.new) }
        ensures before { OnOk result (coming.new.before.items ≡ coming.old.states.items) }
        ensures states { OnOk result (coming.new.states.items ≡ coming.old.states.items) }
    {
        let mut starts = Vec::new(alloc);
        coming.sort_given();
        self.turn_all(room, coming, &mut starts)?;
        coming.given.clear();
        Ok(starts)
    }
}

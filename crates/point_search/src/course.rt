//! How far a search is.

ghost use Rattle.ebc_insn.specs.Spelling.{WellFormed};
ghost use Rattle.note_types.specs.Records.{IsNotes};

use crate::due::Due;
use crate::leader::Leader;
use code_walk::{Source, Visitor};
use ebc_base::NoMemory;
use ebc_insn::Insn;
use note_infer::row;
use note_types::{FnNote, Notes, Point, State};
use rules_base::Here;
use rules_flow::Successors;
use std::alloc::Global;

/// What has come to each leader, by its number, and which are to be looked at again.
#[derive(Drop)]
pub(crate) struct Course {
    alloc: Global,
    leaders: Vec<Leader>,
    due: Due,
}

impl Visitor for Course {
    fn after(
        &mut self,
        notes: &Notes,
        _: &FnNote,
        here: &Here,
        s: &State,
        i: &Insn,
    ) -> Result<Option<Successors>, NoMemory> {
        Ok(row(notes, here, s, i).ok())
    }

    fn come(&mut self, number: usize, source: Source, mut s: State) -> Result<(), NoMemory> {
        s.fact = None;
        if number < self.leaders.len() && self.leaders[number].take(self.alloc, source, &s)? {
            self.due.add(number);
        }
        Ok(())
    }
}

impl Course {
    /// Nothing has come to the leaders at these places.
    ///
    /// # Errors
    ///
    /// There is no memory for them.
    pub fn new(alloc: Global, places: &[u32]) -> Result<Course, NoMemory> {
        let mut leaders = Vec::new(alloc);
        for place in places {
            leaders.push(Leader::new(alloc, *place))?;
        }
        Ok(Course {
            alloc,
            leaders,
            due: Due::none(alloc, places.len())?,
        })
    }

    /// Takes the first leader that is to be looked at again.
    pub fn take_first(&mut self) -> Option<usize> {
        self.due.take_first()
    }

    /// The place of a leader, and the state from which it is to be walked now; none where that isn't needed.
    ///
    /// # Errors
    ///
    /// There is no memory.
    pub fn advance(
        &mut self,
        number: usize,
        marks: &[u64],
    ) -> Result<Option<(u32, State)>, NoMemory> {
        if self.leaders.len() <= number {
            return Ok(None);
        }
        let place = self.leaders[number].place;
        match self.leaders[number].advance(self.alloc, marks)? {
            Some(state) => Ok(Some((place, state))),
            None => Ok(None),
        }
    }

    /// The points: the states from which leaders were walked last.
    ///
    /// # Errors
    ///
    /// There is no memory for them.
    pub fn into_points(self) -> Result<Vec<Point>, NoMemory> {
        let Course { alloc, leaders, .. } = self;
        let mut points = Vec::new(alloc);
        for leader in leaders {
            if let Some(point) = leader.into_point() {
                points.push(point)?;
            }
        }
        Ok(points)
    }
}

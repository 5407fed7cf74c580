//! An order of functions in which those that a function calls come before it.

ghost use Rattle.std.specs.Prelude.{◌≡◌, ◌≢◌, ◌<◌, ◌++◌, ◌∷◌, [], ℕ, IfErr, IfOk, IfSome, OnOk, Some, length, slice_get};
ghost use Rattle.stack_needs.specs.Walks.{EndsSearch, IsStack, LastCalls, Sees, functions_of};

use crate::outcome::NotFound;
use crate::walk::Walked;
use std::alloc::Global;

// How far a function is: not looked at, its calls being looked at, or in the order.
#[derive(Clone, Copy, PartialEq, Eq)]
enum Mark {
    New,
    Open,
    Done,
}

// A function whose calls are being looked at, and how many of them were.
#[derive(Clone, Copy)]
struct Visit {
    function: usize,
    calls: usize,
}

// A search in depth: the functions whose calls are being looked at, each called by the one before it, and the order so far.
#[derive(Drop)]
struct Search {
    marks: Vec<Mark>,
    visits: Vec<Visit>,
    order: Vec<usize>,
}

impl Search {
    // Begins to look at the calls of a new function.
    fn begin(&mut self, walks: &[Walked], function: usize) -> Result<(), NotFound>
        requires stack { IsStack (Sees walks.now) self.now.marks.items (functions_of self.now.visits.items) }
        requires called { LastCalls (Sees walks.now) (functions_of self.now.visits.items) function }
        requires within { function < length self.now.marks.items }
        ensures stack { OnOk result (IsStack (Sees walks.now) self.new.marks.items (functions_of self.new.visits.items)) }
        ensures ends { IfErr result (EndsSearch (Sees walks.now)) }
    {
        self.marks[function] = Mark::Open;
        self.visits.push(Visit { function, calls: 0 })?;
        Ok(())
    }

    // Begins to look at the calls of a function, where it is new.
    fn enter(&mut self, walks: &[Walked], function: usize) -> Result<(), NotFound>
        requires stack { IsStack (Sees walks.now) self.now.marks.items (functions_of self.now.visits.items) }
        requires called { LastCalls (Sees walks.now) (functions_of self.now.visits.items) function }
        ensures stack { OnOk result (IsStack (Sees walks.now) self.new.marks.items (functions_of self.new.visits.items)) }
        ensures ends { IfErr result (EndsSearch (Sees walks.now)) }
    {
        match self.marks.get(function) {
            Some(Mark::New) => self.begin(walks, function),
            Some(Mark::Open) => Err(NotFound::Recursion { function }),
            Some(Mark::Done) | None => Ok(()),
        }
    }

    // Takes a function into the order.
    fn leave(&mut self, walks: &[Walked], function: usize) -> Result<(), NotFound>
        requires stack { IsStack (Sees walks.now) self.now.marks.items (functions_of self.now.visits.items ++ function ∷ []) }
        ensures stack { OnOk result (IsStack (Sees walks.now) self.new.marks.items (functions_of self.new.visits.items)) }
        ensures ends { IfErr result (EndsSearch (Sees walks.now)) }
    {
        if function < self.marks.len() {
            self.marks[function] = Mark::Done;
        }
        self.order.push(function)?;
        Ok(())
    }

    // Looks at the next call of a function, or leaves it where there is none.
    fn go_on(&mut self, walks: &[Walked], visit: Visit) -> Result<(), NotFound>
        requires stack { IsStack (Sees walks.now) self.now.marks.items (functions_of self.now.visits.items ++ visit.function ∷ []) }
        ensures stack { OnOk result (IsStack (Sees walks.now) self.new.marks.items (functions_of self.new.visits.items)) }
        ensures ends { IfErr result (EndsSearch (Sees walks.now)) }
    {
        let Some(callee) = callee(walks, visit) else {
            return self.leave(walks, visit.function);
        };
        self.visits.push(Visit {
            function: visit.function,
            calls: visit.calls.saturating_add(1),
        })?;
        self.enter(walks, callee)
    }

    // Looks at calls, so many steps at most, until no function is open.
    fn finish(&mut self, walks: &[Walked], steps: usize) -> Result<(), NotFound>
        requires stack { IsStack (Sees walks.now) self.now.marks.items (functions_of self.now.visits.items) }
        ensures stack { OnOk result (IsStack (Sees walks.now) self.new.marks.items (functions_of self.new.visits.items)) }
        ensures ends { IfErr result (EndsSearch (Sees walks.now)) }
    {
        for _ in 0..steps {
            let Some(visit) = self.visits.pop() else {
                break;
            };
            self.go_on(walks, visit)?;
        }
        Ok(())
    }
}

// The function that the next call of a function calls.
fn callee(walks: &[Walked], visit: Visit) -> Option<usize>
    ensures { IfSome result (Sees walks.now visit.function) }
{
    let walked = walks.get(visit.function)?;
    let call = walked.calls.get(visit.calls)?;
    Some(call.function)
}

// How many steps the search takes: one for each call, and one to leave each function.
fn step_count(walks: &[Walked]) -> usize {
    let mut count = walks.len();
    for walked in walks {
        count = count.saturating_add(walked.calls.len());
    }
    count
}

// The first mark of a function: one that is known isn't looked at.
fn first_mark(known: Option<&bool>) -> Mark
    ensures { result ≢ Mark.Open }
{
    match known {
        Some(true) => Mark::Done,
        _ => Mark::New,
    }
}

// The first marks of so many functions.
fn marks(alloc: Global, count: usize, known: &[bool]) -> Result<Vec<Mark>, NotFound>
    ensures none { IfOk result (λ marks. (k : ℕ) → slice_get marks.items k ≢ Some Mark.Open) }
    ensures ends { IfErr result (λ end. end ≡ NotFound.NoMemory) }
{
    let mut marks = Vec::new(alloc);
    for function in 0..count {
        marks.push(first_mark(known.get(function)))?;
    }
    Ok(marks)
}

/// The functions that aren't known, each behind those of them that it calls.
///
/// # Errors
///
/// A function whose calls lead back to it by functions that aren't known; want of memory.
pub(crate) fn callees_first(
    alloc: Global,
    walks: &[Walked],
    known: &[bool],
) -> Result<Vec<usize>, NotFound>
    ensures { IfErr result (EndsSearch (Sees walks.now)) }
{
    let steps = step_count(walks);
    let mut search = Search {
        marks: marks(alloc, walks.len(), known)?,
        visits: Vec::new(alloc),
        order: Vec::new(alloc),
    };
    for function in 0..walks.len() {
        if search.visits.is_empty() {
            search.enter(walks, function)?;
        }
        search.finish(walks, steps)?;
    }
    Ok(search.order)
}

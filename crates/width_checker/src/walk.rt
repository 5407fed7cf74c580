//! The walk through the code: one pass over all functions, with one state and one for the jumps taken.

ghost use Rattle.std.specs.Prelude.{◌≡◌, ◌+◌, ◌<◌, ◌≤◌, ◌↔◌, ◌^◌, ℕ, IfErr, IfOk, IsTrue, OnOk, Some, length, slice_get};
ghost use Rattle.note_types.specs.Records.{Ascends, IsNotes};
ghost use Rattle.pe_image.specs.Images.{IsImage};
ghost use Rattle.rules_base.specs.FirstRule.{IsFirst};
ghost use Rattle.rules_image.specs.Images.{IsDecoded, IsFunction, PointHolds};
ghost use Rattle.width_checker.specs.Paths.{successors_from};
ghost use Rattle.rules_image.specs.Places.{IsPlaceOf};
ghost use Rattle.width_checker.specs.Typed.{IsBelowPoint, LeadsBelow, MeetsRules, TablesHold, Typed};
ghost use Rattle.width_checker.specs.Verdicts.{FailsAt, RefusesInsn};
ghost use Rattle.width_checker.specs.Walks.{Arrives, FailsIn, FunctionsMeet, Passes, StandsAt};
ghost use Rattle.rules_image.specs.Marks.{PointsFrom};
ghost use Rattle.rules_image.specs.Tables.{IsCodeOf};
ghost use Rattle.ebc_base.specs.Steps.{only_if};

use crate::refusal::Refusal;
use crate::row::{Path, advance};
use ebc_decode::decode;
use ebc_insn::Insn;
use note_types::{FnNote, Notes, RuleName, State, enter, entry_state, fits_below};
use pe_image::Image;
use rules_base::Here;
use rules_image::{Marks, code_of, ends_within, first_point, first_reloc, past, relocation};

// Takes the state of the point at a place, where one is: whether the state that came is below it.
fn arrive(notes: &Notes, at: u32, marks: &mut Marks, state: &mut State) -> bool
    requires ascend { Ascends notes.now }
    requires points { PointsFrom notes.now at marks.old.point }
    ensures arrives { Arrives notes.now at (only_if marks.old.falls state.old) (only_if marks.new.falls state.new) }
    ensures points { PointsFrom notes.now (at + 1) marks.new.point }
    ensures reloc { marks.new.reloc ≡ marks.old.reloc }
    ensures below { IsTrue result ↔ IsBelowPoint notes.now at state.old }
{
    let Some(p) = notes.point.as_slice().get(marks.point) else {
        return true;
    };
    if p.place != at {
        return true;
    }
    let below = fits_below(state, &p.state);
    p.state.put(state);
    marks.point += 1;
    marks.falls = true;
    below
}

// Whether no point is inside the bytes up to `next`, where the first point past their place is this one.
fn has_no_point(notes: &Notes, at: u32, next: u32, first: usize) -> bool
    requires ascend { Ascends notes.now }
    requires points { PointsFrom notes.now (at + 1) first }
    ensures { IsTrue result ↔ PointHolds notes.now at next }
{
    match notes.point.as_slice().get(first) {
        Some(p) => next <= p.place,
        None => true,
    }
}

// Whether a state is below that of the point at a place, where the first point that isn't before it is this one.
fn is_below_next(notes: &Notes, first: usize, place: u32, state: &State) -> bool
    requires ascend { Ascends notes.now }
    requires points { PointsFrom notes.now place first }
    ensures { IsTrue result ↔ IsBelowPoint notes.now place state.now }
{
    match notes.point.as_slice().get(first) {
        Some(p) => if p.place == place {
            fits_below(state, &p.state)
        } else {
            true
        },
        None => true,
    }
}

// Whether a state is below that of the point at a place, wherever it is.
fn is_below_point(notes: &Notes, place: u32, state: &State) -> bool
    requires { Ascends notes.now }
    ensures { IsTrue result ↔ IsBelowPoint notes.now place state.now }
{
    is_below_next(notes, first_point(notes, place), place, state)
}

// Whether the states that an instruction leads to are below those of the points there.
fn leads_below(
    notes: &Notes,
    first: usize,
    next: u32,
    path: &Path,
    state: &State,
    taken: &State,
) -> bool
    requires ascend { Ascends notes.now }
    requires points { PointsFrom notes.now next first }
    ensures { IsTrue result ↔ LeadsBelow notes.now next (successors_from state.now taken.now path.now) }
{
    match path {
        Path::Falls => is_below_next(notes, first, next, state),
        Path::Goes { place } => is_below_point(notes, *place, state),
        Path::Parts { place } => {
            is_below_next(notes, first, next, state) && is_below_point(notes, *place, taken)
        }
        Path::Ends => true,
    }
}

// A walk through a function of an image under notes: the function, and its number.
#[derive(Clone, Copy)]
struct Walk<'a> {
    image: &'a Image,
    notes: &'a Notes,
    func: u32,
    f: &'a FnNote,
}

impl<'a> Walk<'a> {
    // Goes through an instruction, from its place up to `next`.
    fn pass(
        &self,
        at: u32,
        next: u32,
        insn: &Insn,
        marks: &mut Marks,
        state: &mut State,
        taken: &mut State,
    ) -> Result<(), RuleName>
        requires image { IsImage self.now.image.now }
        requires notes { IsNotes self.now.notes.now }
        requires decode { IsDecoded self.now.image.now self.now.f.now at insn.now next }
        requires within { at < self.now.f.now.end }
        requires stands { StandsAt self.now.image.now self.now.notes.now self.now.func self.now.f.now at marks.old state.old }
        ensures passes { OnOk result (Passes self.now.image.now self.now.notes.now self.now.func self.now.f.now at next marks.new
            state.new) }
        ensures fails { IfErr result (IsFirst (FailsAt self.now.image.now self.now.notes.now self.now.func self.now.f.now at)) }
    {
        let arrived_below = arrive(self.notes, at, marks, state);
        if !marks.falls {
            return Err(RuleName::State);
        }
        if !has_no_point(self.notes, at, next, marks.point) {
            return Err(RuleName::Point);
        }
        let Ok(reloc) = relocation(self.image, self.notes, insn, at, next, marks.reloc) else {
            return Err(RuleName::Relocation);
        };
        let here = Here {
            place: at,
            next,
            func: self.func,
            reloc,
        };
        let path = advance(self.notes, &here, state, taken, insn)?;
        if at == self.f.place && !arrived_below {
            return Err(RuleName::Below);
        }
        if !leads_below(self.notes, marks.point, next, &path, state, taken) {
            return Err(RuleName::Below);
        }
        if !ends_within(self.f, insn, next) {
            return Err(RuleName::End);
        }
        marks.falls = path.falls();
        marks.reloc = past(self.image, at, next, marks.reloc);
        Ok(())
    }

    // Goes through the instruction at a place, where these are the function's bytes: the next place.
    fn step(
        &self,
        code: &[u8],
        at: u32,
        marks: &mut Marks,
        state: &mut State,
        taken: &mut State,
    ) -> Result<u32, RuleName>
        requires image { IsImage self.now.image.now }
        requires notes { IsNotes self.now.notes.now }
        requires code { IsCodeOf self.now.image.now self.now.f.now code.now }
        requires size { self.now.f.now.end ≤ 2 ^ 22 }
        requires from { self.now.f.now.place ≤ at }
        requires within { at < self.now.f.now.end }
        requires stands { StandsAt self.now.image.now self.now.notes.now self.now.func self.now.f.now at marks.old state.old }
        ensures passes { IfOk result (λ next.
            Passes self.now.image.now self.now.notes.now self.now.func self.now.f.now at next marks.new state.new) }
        ensures fails { IfErr result (IsFirst (FailsAt self.now.image.now self.now.notes.now self.now.func self.now.f.now at)) }
    {
        let Ok((insn, len)) = decode(code, (at - self.f.place) as usize) else {
            return Err(RuleName::Decode);
        };
        let next = at + len as u32;
        self.pass(at, next, &insn, marks, state, taken)?;
        Ok(next)
    }

    // Goes through the function, with a state to keep and one to write for the jumps taken, whatever they hold.
    fn check(&self, state: &mut State, taken: &mut State) -> Result<(), Refusal>
        requires image { IsImage self.now.image.now }
        requires notes { IsNotes self.now.notes.now }
        requires there { slice_get self.now.notes.now.function self.now.func ≡ Some self.now.f.now }
        requires holds { IsFunction self.now.image.now self.now.notes.now self.now.func self.now.f.now }
        ensures meets { OnOk result ((p : ℕ) → IsPlaceOf self.now.image.now self.now.f.now p →
            MeetsRules self.now.image.now self.now.notes.now self.now.func self.now.f.now p) }
        ensures fails { IfErr result (FailsIn self.now.image.now self.now.notes.now self.now.func self.now.f.now) }
    {
        let code = code_of(self.image, self.f);
        enter(self.notes, self.func, state);
        let mut marks = Marks {
            point: first_point(self.notes, self.f.place),
            reloc: first_reloc(self.image, self.f.place),
            falls: true,
        };
        let mut at = self.f.place;
        while at < self.f.end {
            match self.step(code, at, &mut marks, state, taken) {
                Ok(next) => at = next,
                Err(rule) => return Err(Refusal { place: at, rule }),
            }
        }
        Ok(())
    }
}

// Goes through these functions, all of the notes, in their order.
fn check_each(image: &Image, notes: &Notes, functions: &[FnNote]) -> Result<(), Refusal>
    requires image { IsImage image.now }
    requires notes { IsNotes notes.now }
    requires functions { functions.now ≡ notes.now.function }
    requires tables { TablesHold image.now notes.now }
    ensures holds { OnOk result (FunctionsMeet image.now notes.now (length functions.now)) }
    ensures fails { IfErr result (λ r. RefusesInsn image.now notes.now r.place r.rule) }
{
    let mut state = entry_state(notes, notes.entry);
    let mut taken = state.copy();
    for (func, f) in functions.iter().enumerate() {
        let walk = Walk {
            image,
            notes,
            func: func as u32,
            f,
        };
        match walk.check(&mut state, &mut taken) {
            Ok(()) => {}
            Err(refusal) => return Err(refusal),
        }
    }
    Ok(())
}

/// Goes through all functions, in their order.
///
/// # Errors
///
/// The first place at which a rule fails, and the first rule that fails there.
pub fn check_code(image: &Image, notes: &Notes) -> Result<(), Refusal>
    requires image { IsImage image.now }
    requires notes { IsNotes notes.now }
    requires tables { TablesHold image.now notes.now }
    ensures holds { OnOk result (Typed image.now notes.now) }
    ensures fails { IfErr result (λ r. RefusesInsn image.now notes.now r.place r.rule) }
{
    match check_each(image, notes, notes.function.as_slice()) {
        Ok(()) => Ok(()),
        Err(refusal) => Err(refusal),
    }
}

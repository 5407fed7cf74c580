//! The walk from a function's start to a place.

ghost use Rattle.std.specs.Prelude.{◌≡◌, ◌<◌, ◌≤◌, IfSome, Some, slice_get};
ghost use Rattle.note_types.specs.Records.{Ascends, IsNotes};
ghost use Rattle.note_types.specs.declared.notes.FnNote.{FnNote};
ghost use Rattle.pe_image.specs.Images.{IsImage};
ghost use Rattle.rules_image.specs.Tables.{IsCodeOf};
ghost use Rattle.width_checker.specs.Walks.{Arrives};
ghost use Rattle.state_walk.specs.Standing.{DecodesIfAny, GoesToNext, HasDecoded, HasHere, HasInsnOf, HasStateOf, IsBeforeInsn};
ghost use Rattle.state_walk.specs.Standing.{IsWalkedFunction, IsWholeOf, StandsBefore, StandsHere};

use crate::preceding::{Before, Since, since_then};
use ebc_decode::decode;
use ebc_insn::Insn;
use note_types::{FnNote, Notes, State, entry_state};
use pe_image::Image;
use rules_base::Here;
use rules_image::{check_functions, code_of, first_point, first_reloc, relocation};

// The state of the point at a place, if there is one, and else the one that arrives.
fn state_at(notes: &Notes, place: u32, arrived: &Option<State>) -> Option<State>
    requires { Ascends notes.now }
    ensures { Arrives notes.now place arrived.now result }
{
    let Some(p) = notes.point.as_slice().get(first_point(notes, place)) else {
        return copied(arrived);
    };
    if p.place == place {
        Some(p.state.state())
    } else {
        copied(arrived)
    }
}

fn copied(state: &Option<State>) -> Option<State>
    ensures { result ≡ state.now }
{
    match state {
        Some(state) => Some(state.copy()),
        None => None,
    }
}

/// A walk through a function of an image under notes, by its number.
#[derive(Clone, Copy)]
pub struct Walk<'a> {
    pub image: &'a Image,
    pub notes: &'a Notes,
    pub func: u32,
    pub f: &'a FnNote,
}

impl<'a> Walk<'a> {
    /// The instruction at a place of the function, and the place of the next one, where these are the function's bytes.
    pub fn insn_at(&self, code: &[u8], place: u32) -> Option<(Insn, u32)>
        requires walk { IsWalkedFunction self.now.image.now self.now.notes.now self.now.func self.now.f.now }
        requires from { self.now.f.now.place ≤ place }
        requires within { place < self.now.f.now.end }
        requires code { IsCodeOf self.now.image.now self.now.f.now code.now }
        ensures decodes { DecodesIfAny self.now.image.now self.now.f.now place result }
        ensures whole { HasDecoded self.now.image.now self.now.f.now place result }
    {
        match decode(code, (place - self.f.place) as usize) {
            Ok((insn, len)) => Some((insn, place + len as u32)),
            Err(_) => None,
        }
    }

    // Where the instruction at a place stands, where the rule `relocation` holds of it.
    fn here_at(&self, place: u32, insn: &Option<(Insn, u32)>) -> Option<Here>
        requires walk { IsWalkedFunction self.now.image.now self.now.notes.now self.now.func self.now.f.now }
        requires insn { DecodesIfAny self.now.image.now self.now.f.now place insn.now }
        ensures stands { StandsHere self.now.image.now self.now.func place insn.now result }
        ensures whole { HasHere self.now.image.now self.now.notes.now self.now.func place insn.now result }
    {
        let Some((insn, next)) = insn else {
            return None;
        };
        let first = first_reloc(self.image, place);
        match relocation(self.image, self.notes, insn, place, *next, first) {
            Ok(reloc) => Some(Here {
                place,
                next: *next,
                func: self.func,
                reloc,
            }),
            Err(_) => None,
        }
    }

    // What stands at a place at which a state arrives, where nothing is known of the registers since these.
    fn at(&self, place: u32, arrived: Option<State>, since: [Since; 8]) -> Before
        requires walk { IsWalkedFunction self.now.image.now self.now.notes.now self.now.func self.now.f.now }
        requires from { self.now.f.now.place ≤ place }
        requires within { place < self.now.f.now.end }
        ensures insn { IsBeforeInsn self.now.image.now self.now.func self.now.f.now place result }
        ensures whole { IsWholeOf self.now.image.now self.now.notes.now self.now.func self.now.f.now place result }
        ensures arrived { result.arrived ≡ arrived }
        ensures state { Arrives self.now.notes.now place arrived result.state }
    {
        let insn = self.insn_at(code_of(self.image, self.f), place);
        let here = self.here_at(place, &insn);
        let state = state_at(self.notes, place, &arrived);
        let since = since_then(&since, &arrived, &state, Since::Point(place));
        Before {
            func: self.func,
            place,
            arrived,
            state,
            insn,
            here,
            since,
        }
    }

    /// What stands before the function's first instruction.
    pub fn start(&self) -> Before
        requires walk { IsWalkedFunction self.now.image.now self.now.notes.now self.now.func self.now.f.now }
        ensures stands { StandsBefore self.now.image.now self.now.notes.now self.now.func self.now.f.now result }
        ensures place { result.place ≡ self.now.f.now.place }
    {
        let entry = entry_state(self.notes, self.func);
        self.at(self.f.place, Some(entry), [Since::Entry; 8])
    }

    /// What stands before the next instruction of the function. `None` at its last one, and where the instruction breaks
    /// a rule of its row.
    pub fn next(&self, b: &Before) -> Option<Before>
        requires walk { IsWalkedFunction self.now.image.now self.now.notes.now self.now.func self.now.f.now }
        requires stands { StandsBefore self.now.image.now self.now.notes.now self.now.func self.now.f.now b.now }
        ensures stands { IfSome result (StandsBefore self.now.image.now self.now.notes.now self.now.func self.now.f.now) }
        ensures later { IfSome result (λ c. b.now.place < c.place) }
        ensures goes_on { GoesToNext self.now.image.now self.now.notes.now self.now.func self.now.f.now b.now.place result }
    {
        let (_, next) = b.insn?;
        if self.f.end <= next {
            return None;
        }
        let fall = b.leads(self.notes)?.fall;
        let since = b.since_next(&fall);
        Some(self.at(next, fall, since))
    }

    // What stands before the instruction at a place of the function.
    fn to(&self, place: u32) -> Option<Before>
        requires walk { IsWalkedFunction self.now.image.now self.now.notes.now self.now.func self.now.f.now }
        ensures insn { IfSome result (HasInsnOf self.now.image.now self.now.notes.now place) }
        ensures state { IfSome result (HasStateOf self.now.image.now self.now.notes.now place) }
    {
        let mut b = self.start();
        while b.place < place {
            b = self.next(&b)?;
        }
        if b.place == place { Some(b) } else { None }
    }
}

// The number of the first function whose code has a place.
fn function_with(notes: &Notes, place: u32) -> Option<usize>
    ensures { IfSome result (λ k. (f : FnNote) × (slice_get notes.now.function k ≡ Some f) × (f.place ≤ place) × (place < f.end)) }
{
    notes
        .function
        .as_slice()
        .iter()
        .position(|f| f.place <= place && place < f.end)
}

// The number of the function that has a place, and the function, where the rule `function` holds of all.
fn function_of<'a>(image: &Image, notes: &'a Notes, place: u32) -> Option<(u32, &'a FnNote)>
    requires image { IsImage image.now }
    requires notes { IsNotes notes.now }
    ensures walk { IfSome result (λ (func, f). IsWalkedFunction image.now notes.now func f.now) }
    ensures place { IfSome result (λ (func, f). (f.now.place ≤ place) × (place < f.now.end)) }
{
    let Ok(()) = check_functions(image, notes) else {
        return None;
    };
    let number = function_with(notes, place)?;
    let f = &notes.function.as_slice()[number];
    Some((number as u32, f))
}

/// What stands before the instruction at a place, with a state that is given in place of the one that the notes lead
/// to. `None` where no function has the place, and where the rule `function` fails.
pub fn given(image: &Image, notes: &Notes, place: u32, state: State) -> Option<Before>
    requires image { IsImage image.now }
    requires notes { IsNotes notes.now }
    ensures insn { IfSome result (HasInsnOf image.now notes.now place) }
    ensures state { IfSome result (λ b. b.state ≡ Some state) }
{
    let (func, f) = function_of(image, notes, place)?;
    let walk = Walk {
        image,
        notes,
        func,
        f,
    };
    let mut b = walk.at(place, None, [Since::Entry; 8]);
    b.state = Some(state);
    Some(b)
}

/// What stands before the instruction at a place. `None` where the rule `function` fails, where no function has the
/// place or the lengths of its instructions don't lead there, and where an instruction before it in the function has no
/// state, or breaks the rule `relocation` or a rule of its row.
pub fn before(image: &Image, notes: &Notes, place: u32) -> Option<Before>
    requires image { IsImage image.now }
    requires notes { IsNotes notes.now }
    ensures insn { IfSome result (HasInsnOf image.now notes.now place) }
    ensures state { IfSome result (HasStateOf image.now notes.now place) }
{
    let (func, f) = function_of(image, notes, place)?;
    let walk = Walk {
        image,
        notes,
        func,
        f,
    };
    walk.to(place)
}

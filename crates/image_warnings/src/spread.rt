//! The places of a function at which bits of R7 may be as a native call left them.

ghost use Rattle.std.specs.Prelude.{◌≡◌, ◌↔◌, ◌≤◌, ◌<◌, ℕ, IfOk, IsTrue, OnOk, true};
ghost use Rattle.std.specs.List.{Contains};
ghost use Rattle.ebc_insn.specs.declared.Insn.{Insn};
ghost use Rattle.note_infer.specs.Finding.{IsNamedIn};
ghost use Rattle.rules_image.specs.Images.{IsDecoded, falls};
ghost use Rattle.rules_image.specs.Tables.{IsCodeOf};
ghost use Rattle.state_walk.specs.Standing.{IsWalkedFunction};
ghost use Rattle.width_checker.specs.Typed.{Typed};
ghost use Rattle.image_warnings.specs.Marks.{AreMarks, IsUncut};
ghost use Rattle.image_warnings.specs.Spreading.{AreUncut, Extends, IsFollowed, IsSpread, ReachesCalls};
ghost use Rattle.image_warnings.specs.Uncut.{LeadsWithin, UncutAt, way_of};

use crate::uncut::{begins, falls, jump_in};
use departures::{Above, Uncut, keeps};
use ebc_base::NoMemory;
use ebc_insn::Insn;
use rules_image::code_of;
use state_walk::Walk;
use std::alloc::Global;

// The places that are reached so far, in the order in which they were, and a mark for each byte of the function's code.
#[derive(Drop)]
struct Spread {
    marks: Vec<bool>,
    reached: Vec<u32>,
}

impl Spread {
    // Reaches a place of the function, if it isn't reached yet.
    fn reach(&mut self, walk: &Walk, above: Above, place: u32) -> Result<(), NoMemory>
        requires spread { IsSpread walk.now.image.now walk.now.f.now (way_of walk.now.notes.now above) self.now }
        requires first { walk.now.f.now.place ≤ place }
        requires within { place < walk.now.f.now.end }
        requires uncut { UncutAt walk.now.image.now walk.now.f.now (way_of walk.now.notes.now above) place }
        ensures spread { OnOk result (IsSpread walk.now.image.now walk.now.f.now (way_of walk.now.notes.now above) self.new) }
        ensures more { OnOk result (Extends self.old.reached.items self.new.reached.items) }
        ensures reached { OnOk result (Contains self.new.reached.items place) }
    {
        let slot = (place - walk.f.place) as usize;
        if self.marks[slot] {
            return Ok(());
        }
        self.marks[slot] = true;
        self.reached.push(place)?;
        Ok(())
    }

    // Reaches the next place, where control falls through to it.
    fn fall(&mut self, walk: &Walk, above: Above, next: u32, insn: &Insn) -> Result<(), NoMemory>
        requires spread { IsSpread walk.now.image.now walk.now.f.now (way_of walk.now.notes.now above) self.now }
        requires first { walk.now.f.now.place ≤ next }
        requires uncut { (q : ℕ) → LeadsWithin walk.now.image.now walk.now.f.now next insn.now q
            → UncutAt walk.now.image.now walk.now.f.now (way_of walk.now.notes.now above) q }
        ensures spread { OnOk result (IsSpread walk.now.image.now walk.now.f.now (way_of walk.now.notes.now above) self.new) }
        ensures more { OnOk result (Extends self.old.reached.items self.new.reached.items) }
        ensures reached { OnOk result (falls insn.now ≡ true → next < walk.now.f.now.end → Contains self.new.reached.items next) }
    {
        if falls(insn) && next < walk.f.end {
            self.reach(walk, above, next)
        } else {
            Ok(())
        }
    }

    // Reaches the place to which a jump goes.
    fn jump(&mut self, walk: &Walk, above: Above, next: u32, insn: &Insn) -> Result<(), NoMemory>
        requires walk { IsWalkedFunction walk.now.image.now walk.now.notes.now walk.now.func walk.now.f.now }
        requires spread { IsSpread walk.now.image.now walk.now.f.now (way_of walk.now.notes.now above) self.now }
        requires uncut { (q : ℕ) → LeadsWithin walk.now.image.now walk.now.f.now next insn.now q
            → UncutAt walk.now.image.now walk.now.f.now (way_of walk.now.notes.now above) q }
        ensures spread { OnOk result (IsSpread walk.now.image.now walk.now.f.now (way_of walk.now.notes.now above) self.new) }
        ensures more { OnOk result (Extends self.old.reached.items self.new.reached.items) }
        ensures reached { OnOk result ((q : ℕ) → IsNamedIn walk.now.image.now walk.now.f.now next insn.now q
            → Contains self.new.reached.items q) }
    {
        match jump_in(walk, next, insn) {
            Some(place) => self.reach(walk, above, place),
            None => Ok(()),
        }
    }

    // Reaches the places to which an instruction before `next` leads.
    fn follow(&mut self, walk: &Walk, above: Above, next: u32, insn: &Insn) -> Result<(), NoMemory>
        requires walk { IsWalkedFunction walk.now.image.now walk.now.notes.now walk.now.func walk.now.f.now }
        requires spread { IsSpread walk.now.image.now walk.now.f.now (way_of walk.now.notes.now above) self.now }
        requires first { walk.now.f.now.place ≤ next }
        requires uncut { (q : ℕ) → LeadsWithin walk.now.image.now walk.now.f.now next insn.now q
            → UncutAt walk.now.image.now walk.now.f.now (way_of walk.now.notes.now above) q }
        ensures spread { OnOk result (IsSpread walk.now.image.now walk.now.f.now (way_of walk.now.notes.now above) self.new) }
        ensures more { OnOk result (Extends self.old.reached.items self.new.reached.items) }
        ensures reached { OnOk result ((q : ℕ) → LeadsWithin walk.now.image.now walk.now.f.now next insn.now q
            → Contains self.new.reached.items q) }
    {
        self.fall(walk, above, next, insn)?;
        self.jump(walk, above, next, insn)
    }

    // Reaches the places to which the native calls lead that may leave something there.
    fn begin(&mut self, walk: &Walk, above: Above, code: &[u8]) -> Result<(), NoMemory>
        requires walk { IsWalkedFunction walk.now.image.now walk.now.notes.now walk.now.func walk.now.f.now }
        requires typed { Typed walk.now.image.now walk.now.notes.now }
        requires code { IsCodeOf walk.now.image.now walk.now.f.now code.now }
        requires spread { IsSpread walk.now.image.now walk.now.f.now (way_of walk.now.notes.now above) self.now }
        ensures spread { OnOk result (IsSpread walk.now.image.now walk.now.f.now (way_of walk.now.notes.now above) self.new) }
        ensures calls { OnOk result (ReachesCalls walk.now.image.now walk.now.f.now (way_of walk.now.notes.now above)
            self.new.reached.items) }
    {
        let mut place = walk.f.place;
        while place < walk.f.end {
            let Some((insn, next)) = walk.insn_at(code, place) else {
                return Ok(());
            };
            if begins(walk.notes, above, place, &insn) {
                self.follow(walk, above, next, &insn)?;
            }
            place = next;
        }
        Ok(())
    }

    // Follows a place that is reached: reaches those to which the instruction there leads, if it leaves these bits as they are.
    fn follow_at(
        &mut self,
        walk: &Walk,
        above: Above,
        code: &[u8],
        place: u32,
    ) -> Result<(), NoMemory>
        requires walk { IsWalkedFunction walk.now.image.now walk.now.notes.now walk.now.func walk.now.f.now }
        requires code { IsCodeOf walk.now.image.now walk.now.f.now code.now }
        requires spread { IsSpread walk.now.image.now walk.now.f.now (way_of walk.now.notes.now above) self.now }
        requires first { walk.now.f.now.place ≤ place }
        requires within { place < walk.now.f.now.end }
        requires uncut { UncutAt walk.now.image.now walk.now.f.now (way_of walk.now.notes.now above) place }
        ensures spread { OnOk result (IsSpread walk.now.image.now walk.now.f.now (way_of walk.now.notes.now above) self.new) }
        ensures more { OnOk result (Extends self.old.reached.items self.new.reached.items) }
        ensures followed { OnOk result (IsFollowed walk.now.image.now walk.now.f.now (way_of walk.now.notes.now above) place
            self.new.reached.items) }
    {
        let Some((insn, next)) = walk.insn_at(code, place) else {
            return Ok(());
        };
        if keeps(above, &insn) {
            self.follow(walk, above, next, &insn)
        } else {
            Ok(())
        }
    }

    // Follows all places that are reached, those too that are reached meanwhile.
    fn finish(&mut self, walk: &Walk, above: Above, code: &[u8]) -> Result<(), NoMemory>
        requires walk { IsWalkedFunction walk.now.image.now walk.now.notes.now walk.now.func walk.now.f.now }
        requires code { IsCodeOf walk.now.image.now walk.now.f.now code.now }
        requires spread { IsSpread walk.now.image.now walk.now.f.now (way_of walk.now.notes.now above) self.now }
        requires calls { ReachesCalls walk.now.image.now walk.now.f.now (way_of walk.now.notes.now above) self.now.reached.items }
        ensures spread { OnOk result (IsSpread walk.now.image.now walk.now.f.now (way_of walk.now.notes.now above) self.new) }
        ensures whole { OnOk result ((q : ℕ) → UncutAt walk.now.image.now walk.now.f.now (way_of walk.now.notes.now above) q
            → Contains self.new.reached.items q) }
    {
        let mut followed = 0;
        while followed < self.reached.len() {
            let place = self.reached[followed];
            self.follow_at(walk, above, code, place)?;
            followed += 1;
        }
        Ok(())
    }
}

// For each byte of a function's code whether such bits of R7 may be at its place as a native call left them.
fn uncut_places(alloc: Global, walk: &Walk, above: Above) -> Result<Vec<bool>, NoMemory>
    requires walk { IsWalkedFunction walk.now.image.now walk.now.notes.now walk.now.func walk.now.f.now }
    requires typed { Typed walk.now.image.now walk.now.notes.now }
    ensures { IfOk result (λ marks. AreUncut walk.now.image.now walk.now.f.now (way_of walk.now.notes.now above) marks.items) }
{
    let code = code_of(walk.image, walk.f);
    let mut spread = Spread {
        marks: vec![in alloc; false; code.len()]?,
        reached: Vec::new(alloc),
    };
    spread.begin(walk, above, code)?;
    spread.finish(walk, above, code)?;
    Ok(spread.marks)
}

// Whether they may be so at a place of the function, by its marks.
fn is_uncut(walk: &Walk, above: Above, marks: &Vec<bool>, place: u32) -> bool
    requires marks { AreUncut walk.now.image.now walk.now.f.now (way_of walk.now.notes.now above) marks.now.items }
    requires first { walk.now.f.now.place ≤ place }
    requires within { place < walk.now.f.now.end }
    ensures { IsTrue result ↔ UncutAt walk.now.image.now walk.now.f.now (way_of walk.now.notes.now above) place }
{
    marks[(place - walk.f.place) as usize]
}

/// The same for each byte of a function's code.
#[derive(Drop)]
pub(crate) struct Marks {
    natural: Vec<bool>,
    byte: Vec<bool>,
    word: Vec<bool>,
    dword: Vec<bool>,
}

impl Marks {
    /// The marks of a function.
    ///
    /// # Errors
    ///
    /// There is no memory for them.
    pub fn new(alloc: Global, walk: &Walk) -> Result<Self, NoMemory>
        requires walk { IsWalkedFunction walk.now.image.now walk.now.notes.now walk.now.func walk.now.f.now }
        requires typed { Typed walk.now.image.now walk.now.notes.now }
        ensures { IfOk result (AreMarks walk.now.image.now walk.now.notes.now walk.now.f.now) }
    {
        Ok(Marks {
            natural: uncut_places(alloc, walk, Above::Natural)?,
            byte: uncut_places(alloc, walk, Above::Byte)?,
            word: uncut_places(alloc, walk, Above::Word)?,
            dword: uncut_places(alloc, walk, Above::Dword)?,
        })
    }

    /// What they say of a place of the function.
    pub fn at(&self, walk: &Walk, place: u32) -> Uncut
        requires marks { AreMarks walk.now.image.now walk.now.notes.now walk.now.f.now self.now }
        requires first { walk.now.f.now.place ≤ place }
        requires within { place < walk.now.f.now.end }
        ensures { IsUncut walk.now.image.now walk.now.notes.now walk.now.f.now place result }
    {
        Uncut {
            natural: is_uncut(walk, Above::Natural, &self.natural, place),
            byte: is_uncut(walk, Above::Byte, &self.byte, place),
            word: is_uncut(walk, Above::Word, &self.word, place),
            dword: is_uncut(walk, Above::Dword, &self.dword, place),
        }
    }
}

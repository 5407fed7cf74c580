//! The walk from a leader, or from a function's start, up to the next leader.

ghost use Rattle.std.specs.Prelude.{◌≡◌, ◌+◌, ◌≤◌, ◌^◌, ℕ, IfSome, length};
ghost use Rattle.ebc_insn.specs.Spelling.{WellFormed};
ghost use Rattle.note_types.specs.Records.{IsNotes};
ghost use Rattle.pe_image.specs.Images.{IsImage};
ghost use Rattle.rules_image.specs.Images.{FunctionHolds};

use crate::code::Code;
use crate::visitor::{Source, Visitor};
use ebc_base::NoMemory;
use ebc_insn::Insn;
use note_types::{FnNote, Notes, State, entry_state};
use pe_image::Image;
use rules_base::Here;
use rules_flow::Successors;
use rules_image::{code_of, first_reloc, relocation};

/// What is searched: an image under notes, and their leaders.
#[derive(Clone, Copy)]
pub struct Search<'a> {
    pub image: &'a Image,
    pub notes: &'a Notes,
    pub leaders: &'a [u32],
}

impl<'a> Search<'a> {
    /// The code of a function, by its number.
    pub fn code(&self, func: u32) -> Option<Code<'a>>
        requires image { IsImage self.now.image.now }
        requires notes { IsNotes self.now.notes.now }
        requires functions { (k : ℕ) → FunctionHolds self.now.image.now self.now.notes.now k }
        ensures small { IfSome result (λ code. code.f.now.place + length code.bytes.now ≤ 2 ^ 22) }
    {
        let Some(f) = self.notes.function.as_slice().get(func as usize) else {
            return None;
        };
        let bytes = code_of(self.image, f);
        Some(Code { func, f, bytes })
    }

    // Comes with a state to a place, where a leader of the function is.
    fn come<V: Visitor>(
        &self,
        f: &FnNote,
        place: u32,
        source: Source,
        s: State,
        visitor: &mut V,
    ) -> Result<(), NoMemory> {
        if place < f.place || f.end <= place {
            return Ok(());
        }
        match self.leaders.binary_search(&place) {
            Ok(number) => visitor.come(number, source, s),
            Err(_) => Ok(()),
        }
    }

    // The instruction at a place, and where it stands; none where the rule `relocation` fails of it.
    fn standing(&self, code: &Code, at: u32) -> Option<(Insn, Here)>
        requires image { IsImage self.now.image.now }
        requires notes { IsNotes self.now.notes.now }
        requires small { code.now.f.now.place + length code.now.bytes.now ≤ 2 ^ 22 }
        ensures { IfSome result (λ (i, here). WellFormed i) }
    {
        let (insn, next) = code.insn_at(at)?;
        let first = first_reloc(self.image, at);
        let reloc = relocation(self.image, self.notes, &insn, at, next, first).ok()?;
        let here = Here {
            place: at,
            next,
            func: code.func,
            reloc,
        };
        Some((insn, here))
    }

    // Goes through the instruction at a place in a state: the next place, and the state that falls to it.
    fn step<V: Visitor>(
        &self,
        code: &Code,
        at: u32,
        s: &State,
        visitor: &mut V,
    ) -> Result<Option<(u32, State)>, NoMemory>
        requires image { IsImage self.now.image.now }
        requires notes { IsNotes self.now.notes.now }
        requires small { code.now.f.now.place + length code.now.bytes.now ≤ 2 ^ 22 }
    {
        let Some((insn, here)) = self.standing(code, at) else {
            return Ok(None);
        };
        let Some(after) = visitor.after(self.notes, code.f, &here, s, &insn)? else {
            return Ok(None);
        };
        let Successors { fall, jump } = after;
        if let Some((place, state)) = jump {
            self.come(code.f, place, Source::Jump(at), state, visitor)?;
        }
        match fall {
            Some(state) => Ok(Some((here.next, state))),
            None => Ok(None),
        }
    }

    // Where a walk from a place of a function ends: at the next leader, or at the function's end.
    fn limit(&self, f: &FnNote, place: u32) -> u32 {
        let next = self.leaders.partition_point(|leader| *leader <= place);
        match self.leaders.get(next) {
            Some(leader) => f.end.min(*leader),
            None => f.end,
        }
    }

    /// Walks on from a place of a function, by its number, in a state.
    ///
    /// # Errors
    ///
    /// There is no memory.
    pub fn walk<V: Visitor>(
        &self,
        func: u32,
        from: u32,
        first: State,
        visitor: &mut V,
    ) -> Result<(), NoMemory>
        requires image { IsImage self.now.image.now }
        requires notes { IsNotes self.now.notes.now }
        requires functions { (k : ℕ) → FunctionHolds self.now.image.now self.now.notes.now k }
    {
        let Some(code) = self.code(func) else {
            return Ok(());
        };
        let limit = self.limit(code.f, from);
        let mut at = from;
        let mut state = first;
        for _ in from..limit {
            let Some((next, fall)) = self.step(&code, at, &state, visitor)? else {
                return Ok(());
            };
            if limit <= next {
                return self.come(code.f, next, Source::Fall, fall, visitor);
            }
            at = next;
            state = fall;
        }
        Ok(())
    }

    /// Begins a function, by its number: its entry state comes to the leader at its start, or else it is walked from there.
    ///
    /// # Errors
    ///
    /// There is no memory.
    pub fn enter<V: Visitor>(&self, func: u32, visitor: &mut V) -> Result<(), NoMemory>
        requires image { IsImage self.now.image.now }
        requires notes { IsNotes self.now.notes.now }
        requires functions { (k : ℕ) → FunctionHolds self.now.image.now self.now.notes.now k }
    {
        let Some(f) = self.notes.function.as_slice().get(func as usize) else {
            return Ok(());
        };
        let state = entry_state(self.notes, func);
        if self.leaders.binary_search(&f.place).is_ok() {
            return self.come(f, f.place, Source::Entry, state, visitor);
        }
        self.walk(func, f.place, state, visitor)
    }
}

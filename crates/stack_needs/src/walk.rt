//! The walk through a function's code: what lies on the stack at each place that it comes to, and the calls there.

ghost use Rattle.std.specs.Prelude.{◌≡◌, ◌+◌, ◌*◌, ◌≤◌, ◌^◌, ℕ, ◌<◌, IfErr, IfOk, IfSome, OnOk, Some, pos, length, slice_get};
ghost use Rattle.ebc_insn.specs.Spelling.{WellFormed};
ghost use Rattle.note_types.specs.Records.{Ascends};
ghost use Rattle.pe_image.specs.Images.{IsImage};
ghost use Rattle.note_infer.specs.Finding.{HasCode};
ghost use Rattle.note_infer.specs.Leaders.{names_place};
ghost use Rattle.rules_image.specs.Images.{IsDecoded, falls, reloc_at};
ghost use Rattle.rules_image.specs.Tables.{IsCodeOf};
ghost use Rattle.stack_needs.specs.Calls.{called_place};
ghost use Rattle.stack_needs.specs.Walks.{AreCalls, EndsWalk, IsCallee, IsCourse, IsReachedPlace};
ghost use Rattle.stack_needs.specs.Ways.{HasWay};
ghost use Rattle.note_types.specs.declared.notes.FnNote.{FnNote};
ghost use Rattle.note_types.specs.declared.notes.Notes.{Notes};
ghost use Rattle.pe_image.specs.declared.image.Image.{Image};

use crate::depth::{Depth, after};
use crate::outcome::NotFound;
use ebc_decode::decode;
use ebc_insn::{Cond, Insn};
use note_infer::{jump_names, names_place, reloc_at};
use note_types::{FnNote, Notes};
use pe_image::Image;
use rules_flow::number_at;
use rules_image::code_of;
use std::alloc::Global;

/// A call of a function, by its number, and what lies on the stack there.
#[derive(Clone, Copy)]
pub(crate) struct Called {
    pub function: usize,
    pub depth: Depth,
}

/// What a walk through a function saw: the most that lies on the stack, and the calls.
#[derive(Drop)]
pub(crate) struct Walked {
    pub most: Depth,
    pub calls: Vec<Called>,
}

// Whether control may go on at the next instruction.
fn falls(i: &Insn) -> bool
    ensures { result ≡ falls i.now }
{
    match i {
        Insn::Ret
        | Insn::Jump {
            cond: Cond::Always,
            ..
        }
        | Insn::Jump8 {
            cond: Cond::Always,
            ..
        } => false,
        _ => true,
    }
}

/// A function's code in an image under notes.
#[derive(Clone, Copy)]
struct Code<'a> {
    image: &'a Image,
    notes: &'a Notes,
    f: &'a FnNote,
    bytes: &'a [u8],
}

impl<'a> Code<'a> {
    // The instruction at a place, and the place of the next one. None where the bytes begin with none, and outside the code.
    fn insn_at(&self, code: &[u8], place: u32) -> Option<(Insn, u32)>
        requires code { IsCodeOf self.now.image.now self.now.f.now code.now }
        requires small { self.now.f.now.place + length code.now ≤ 2 ^ 22 }
        ensures well_formed { IfSome result (λ (i, next). WellFormed i) }
        ensures decoded { IfSome result (λ (i, next). IsDecoded self.now.image.now self.now.f.now place i next) }
    {
        if place < self.f.place {
            return None;
        }
        let offset = (place - self.f.place) as usize;
        if code.len() <= offset {
            return None;
        }
        match decode(code, offset) {
            Ok((insn, len)) => Some((insn, place + len as u32)),
            Err(_) => None,
        }
    }

    // The place to which an instruction before `next` jumps.
    fn jump(&self, next: u32, i: &Insn) -> Option<u32>
        requires { IsImage self.now.image.now }
        ensures { IfSome result (λ place. names_place next (reloc_at self.now.image.now next) i.now ≡ Some (pos place)) }
    {
        let place = names_place(next, reloc_at(self.image, next), i)?;
        match u32::try_from(place) {
            Ok(place) => Some(place),
            Err(_) => None,
        }
    }

    // The place that an instruction before `next` calls.
    fn called_place(&self, next: u32, i: &Insn) -> Option<i128>
        requires { IsImage self.now.image.now }
        ensures { result ≡ called_place next (reloc_at self.now.image.now next) i.now }
    {
        match i {
            Insn::Call {
                far,
                native: false,
                relative,
                op,
                extra,
            } => jump_names(next, reloc_at(self.image, next), *far, *relative, op, extra),
            _ => None,
        }
    }

    // The same, where no place below 0 is called.
    fn called_at(&self, next: u32, i: &Insn) -> Option<u128>
        requires { IsImage self.now.image.now }
        ensures { IfSome result (λ place. called_place next (reloc_at self.now.image.now next) i.now ≡ Some (pos place)) }
    {
        let place = self.called_place(next, i)?;
        match u128::try_from(place) {
            Ok(place) => Some(place),
            Err(_) => None,
        }
    }

    // The function that an instruction before `next` calls, by its number.
    fn callee(&self, next: u32, i: &Insn) -> Option<usize>
        requires image { IsImage self.now.image.now }
        requires ascend { Ascends self.now.notes.now }
        ensures { IfSome result (IsCallee self.now.image.now self.now.notes.now next i.now) }
    {
        let place = self.called_at(next, i)?;
        number_at(self.notes.function.as_slice(), place)
    }
}

// The number of a place among the even ones of a function's code.
fn slot(f: &FnNote, place: u32) -> Option<usize>
    ensures { IfSome result (λ k. place ≡ f.now.place + 2 * k) }
{
    let offset = place.checked_sub(f.place)?;
    if offset % 2 == 0 {
        Some((offset / 2) as usize)
    } else {
        None
    }
}

// A place that the walk has come to, with so much on the stack.
#[derive(Clone, Copy)]
struct Reached {
    place: u32,
    depth: Depth,
}

// A walk under way: what lies at each even place that it has come to, the places from which it is to go on, and what it saw.
#[derive(Drop)]
struct Course {
    at: Vec<Option<Depth>>,
    pending: Vec<Reached>,
    walked: Walked,
}

impl Course {
    // Writes what lies at a place, by its number, to which it came first, and is to go on from there.
    fn write(&mut self, code: &Code, slot: usize, reached: Reached) -> Result<(), NotFound>
        requires course { IsCourse code.now.image.now code.now.notes.now code.now.f.now self.now }
        requires comes { IsReachedPlace code.now.image.now code.now.f.now reached }
        requires within { slot < length self.now.at.items }
        requires place { reached.place ≡ code.now.f.now.place + 2 * slot }
        ensures course { OnOk result (IsCourse code.now.image.now code.now.notes.now code.now.f.now self.new) }
        ensures ends { IfErr result (EndsWalk code.now.image.now code.now.f.now) }
    {
        self.at[slot] = Some(reached.depth);
        self.walked.most = self.walked.most.greater(reached.depth);
        self.pending.push(reached)?;
        Ok(())
    }

    // What lies at an even place, by its number, where the walk has come to it.
    fn lies(&self, slot: usize) -> Option<Depth>
        requires { slot < length self.now.at.items }
        ensures { slice_get self.now.at.items slot ≡ Some result }
    {
        self.at[slot]
    }

    // The next place from which to go on.
    fn next(&mut self, code: &Code) -> Option<Reached>
        requires course { IsCourse code.now.image.now code.now.notes.now code.now.f.now self.now }
        ensures course { IsCourse code.now.image.now code.now.notes.now code.now.f.now self.new }
        ensures comes { IfSome result (IsReachedPlace code.now.image.now code.now.f.now) }
    {
        self.pending.pop()
    }

    // Comes to a place with so much on the stack. A place outside the function's code is left to the check.
    fn reach(&mut self, code: &Code, place: u32, depth: Depth) -> Result<(), NotFound>
        requires course { IsCourse code.now.image.now code.now.notes.now code.now.f.now self.now }
        requires comes { HasWay code.now.image.now code.now.f.now place depth }
        ensures course { OnOk result (IsCourse code.now.image.now code.now.notes.now code.now.f.now self.new) }
        ensures ends { IfErr result (EndsWalk code.now.image.now code.now.f.now) }
    {
        let Some(slot) = slot(code.f, place) else {
            return Ok(());
        };
        if self.at.len() <= slot {
            return Ok(());
        }
        match self.lies(slot) {
            Some(before) => if before == depth {
                Ok(())
            } else {
                Err(NotFound::Uneven { place })
            },
            None => self.write(code, slot, Reached { place, depth }),
        }
    }

    // Sees the call of the instruction at a place that it has come to, where it is one.
    fn see(&mut self, code: &Code, reached: Reached, next: u32, insn: &Insn) -> Result<(), NotFound>
        requires image { IsImage code.now.image.now }
        requires ascend { Ascends code.now.notes.now }
        requires course { IsCourse code.now.image.now code.now.notes.now code.now.f.now self.now }
        requires comes { IsReachedPlace code.now.image.now code.now.f.now reached }
        requires decoded { IsDecoded code.now.image.now code.now.f.now reached.place insn.now next }
        ensures course { OnOk result (IsCourse code.now.image.now code.now.notes.now code.now.f.now self.new) }
        ensures ends { IfErr result (EndsWalk code.now.image.now code.now.f.now) }
    {
        if let Some(function) = code.callee(next, insn) {
            self.walked.calls.push(Called {
                function,
                depth: reached.depth,
            })?;
        }
        Ok(())
    }

    // Comes to the places to which the instruction at a place leads.
    fn follow(
        &mut self,
        code: &Code,
        reached: Reached,
        next: u32,
        insn: &Insn,
    ) -> Result<(), NotFound>
        requires image { IsImage code.now.image.now }
        requires course { IsCourse code.now.image.now code.now.notes.now code.now.f.now self.now }
        requires comes { IsReachedPlace code.now.image.now code.now.f.now reached }
        requires decoded { IsDecoded code.now.image.now code.now.f.now reached.place insn.now next }
        requires well_formed { WellFormed insn.now }
        ensures course { OnOk result (IsCourse code.now.image.now code.now.notes.now code.now.f.now self.new) }
        ensures ends { IfErr result (EndsWalk code.now.image.now code.now.f.now) }
    {
        let depth = after(reached.depth, insn);
        if let Some(place) = code.jump(next, insn) {
            self.reach(code, place, depth)?;
        }
        if falls(insn) {
            self.reach(code, next, depth)?;
        }
        Ok(())
    }

    // Goes through the instruction at a place that it has come to. Bytes that are no instruction are left to the check.
    fn step(&mut self, code: &Code, reached: Reached) -> Result<(), NotFound>
        requires image { IsImage code.now.image.now }
        requires ascend { Ascends code.now.notes.now }
        requires code { IsCodeOf code.now.image.now code.now.f.now code.now.bytes.now }
        requires small { code.now.f.now.place + length code.now.bytes.now ≤ 2 ^ 22 }
        requires course { IsCourse code.now.image.now code.now.notes.now code.now.f.now self.now }
        requires comes { IsReachedPlace code.now.image.now code.now.f.now reached }
        ensures course { OnOk result (IsCourse code.now.image.now code.now.notes.now code.now.f.now self.new) }
        ensures ends { IfErr result (EndsWalk code.now.image.now code.now.f.now) }
    {
        let Some((insn, next)) = code.insn_at(code.bytes, reached.place) else {
            return Ok(());
        };
        self.see(code, reached, next, &insn)?;
        self.follow(code, reached, next, &insn)
    }
}

// A walk that begins, with so many even places.
fn begun(alloc: Global, places: usize) -> Result<Course, NotFound>
    ensures begun { (image : Image) (notes : Notes) (f : FnNote) → IfOk result (IsCourse image notes f) }
    ensures ends { (image : Image) (f : FnNote) → IfErr result (EndsWalk image f) }
{
    Ok(Course {
        at: vec![in alloc; None; places]?,
        pending: Vec::new(alloc),
        walked: Walked {
            most: Depth::none(),
            calls: Vec::new(alloc),
        },
    })
}

/// What a walk through a function sees. Each even place of its code is gone on from at most once.
pub(crate) fn walk(
    alloc: Global,
    image: &Image,
    notes: &Notes,
    f: &FnNote,
) -> Result<Walked, NotFound>
    requires image { IsImage image.now }
    requires ascend { Ascends notes.now }
    requires code { HasCode image.now f.now }
    ensures calls { IfOk result (λ w. AreCalls image.now notes.now f.now w.calls.items) }
    ensures ends { IfErr result (EndsWalk image.now f.now) }
{
    let code = Code {
        image,
        notes,
        f,
        bytes: code_of(image, f),
    };
    let places = code.bytes.len() / 2;
    let mut course = begun(alloc, places)?;
    course.reach(&code, f.place, Depth::none())?;
    for _ in 0..places {
        let Some(reached) = course.next(&code) else {
            break;
        };
        course.step(&code, reached)?;
    }
    Ok(course.walked)
}

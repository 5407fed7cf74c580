//! The check of an image under notes: the verdict, with a store for the order of the notes' things.

ghost use Rattle.std.specs.Prelude.{◌≡◌, ◌<◌, ◌≤◌, ◌↔◌, ℕ, IfErr, IfOk, IsTrue, OnOk, length, slice_index, vec_len};
ghost use Rattle.note_types.specs.Records.{IsNotes};
ghost use Rattle.note_types.specs.declared.rule.RuleName.{RuleName};
ghost use Rattle.pe_image.specs.Images.{IsImage};
ghost use Rattle.rules_image.specs.Checks.{AreAllApart, things};
ghost use Rattle.rules_image.specs.Images.{FunctionHolds, ShapeHolds};
ghost use Rattle.width_checker.specs.Typed.{TablesHold, Typed};
ghost use Rattle.width_checker.specs.Verdicts.{IsRefused, IsVerdict};

use crate::refusal::Refusal;
use crate::walk::check_code;
use ebc_base::NoMemory;
use note_types::{Notes, RuleName};
use pe_image::Image;
use plain_check::Verdict;
use rules_image::{all_apart, check_functions, check_shapes, check_statics, check_thunks};
use std::alloc::Global;

/// What a check sorts in: room for the numbers of all static objects, thunk cells and functions of the notes.
#[derive(Drop)]
pub struct Checker {
    /// What stands here before a check doesn't matter.
    pub order: Vec<u32>,
}

// How many static objects, thunk cells and functions the notes have.
fn count_things(notes: &Notes) -> usize
    requires { IsNotes notes.now }
    ensures { result ≡ things notes.now }
{
    notes.statics.len() + notes.thunk.len() + notes.function.len()
}

// Goes over static objects, then thunk cells, where the rules of shapes and functions hold.
fn check_objects(image: &Image, notes: &Notes, apart: bool) -> Result<(), Refusal>
    requires image { IsImage image.now }
    requires notes { IsNotes notes.now }
    requires shapes { (k : ℕ) → ShapeHolds notes.now k }
    requires functions { (k : ℕ) → FunctionHolds image.now notes.now k }
    requires apart { IsTrue apart → AreAllApart notes.now }
    ensures holds { OnOk result (TablesHold image.now notes.now) }
    ensures fails { IfErr result (λ r. IsRefused image.now notes.now r.place r.rule) }
{
    if let Err(number) = check_statics(image, notes, apart) {
        let place = notes.statics.as_slice()[number].place;
        return Err(Refusal {
            place,
            rule: RuleName::Static,
        });
    }
    if let Err(number) = check_thunks(image, notes, apart) {
        let place = notes.thunk.as_slice()[number].place;
        return Err(Refusal {
            place,
            rule: RuleName::Static,
        });
    }
    Ok(())
}

// Goes over shapes, functions, static objects and thunk cells, in this order.
fn check_tables(image: &Image, notes: &Notes, order: &mut [u32]) -> Result<(), Refusal>
    requires image { IsImage image.now }
    requires notes { IsNotes notes.now }
    requires room { things notes.now ≤ length order.old }
    ensures holds { OnOk result (TablesHold image.now notes.now) }
    ensures fails { IfErr result (λ r. IsRefused image.now notes.now r.place r.rule) }
{
    if let Err(number) = check_shapes(notes) {
        return Err(Refusal {
            place: number,
            rule: RuleName::Shape,
        });
    }
    if let Err(number) = check_functions(image, notes) {
        let place = notes.function.as_slice()[number].place;
        return Err(Refusal {
            place,
            rule: RuleName::Function,
        });
    }
    let count = count_things(notes);
    let apart = all_apart(notes, &mut order[..count]);
    check_objects(image, notes, apart)
}

// Goes over all things of the notes, then over the code.
fn check_image(image: &Image, notes: &Notes, order: &mut [u32]) -> Result<(), Refusal>
    requires image { IsImage image.now }
    requires notes { IsNotes notes.now }
    requires room { things notes.now ≤ length order.old }
    ensures holds { OnOk result (Typed image.now notes.now) }
    ensures fails { IfErr result (λ r. IsRefused image.now notes.now r.place r.rule) }
{
    if let Err(refusal) = check_tables(image, notes, order) {
        return Err(refusal);
    }
    match check_code(image, notes) {
        Ok(()) => Ok(()),
        Err(refusal) => Err(refusal),
    }
}

impl Checker {
    /// Reserves room for the check of an image under notes: as many zeros as the notes have static objects, thunk cells and
    /// functions together.
    ///
    /// # Errors
    ///
    /// There is no memory for it.
    pub fn reserve(alloc: Global, _image: &Image, notes: &Notes) -> Result<Checker, NoMemory>
        requires { IsNotes notes.now }
        ensures room { IfOk result (λ checker. vec_len checker.order ≡ things notes.now) }
        ensures zeros { IfOk result (λ checker. (k : ℕ) → slice_index checker.order.items k ≡ 0) }
    {
        let order = vec![in alloc; 0u32; count_things(notes)]?;
        Ok(Checker { order })
    }

    /// The verdict on an image under notes: neutral where every rule holds, and else the first place at which one fails, with
    /// the first rule that fails there. It takes no memory, and may be called again, for other notes too, where there is room
    /// for them.
    pub fn run(&mut self, image: &Image, notes: &Notes) -> Verdict
        requires image { IsImage image.now }
        requires notes { IsNotes notes.now }
        requires room { things notes.now ≤ vec_len self.old.order }
        ensures verdict { IsVerdict image.now notes.now result }
        ensures neutral { result ≡ Verdict.Neutral ↔ Typed image.now notes.now }
        ensures refused { (place : ℕ) (rule : RuleName) → result ≡ Verdict.Refused place rule ↔ IsRefused image.now notes.now place rule }
        ensures room { vec_len self.new.order ≡ vec_len self.old.order }
    {
        match check_image(image, notes, self.order.as_mut_slice()) {
            Ok(()) => Verdict::Neutral,
            Err(refusal) => Verdict::Refused {
                place: refusal.place,
                rule: refusal.rule,
            },
        }
    }
}

/// The verdict on an image under notes, as [`Checker::run`] gives it, with room of its own.
///
/// # Errors
///
/// There is no memory for the order of the notes' things.
pub fn check(alloc: Global, image: &Image, notes: &Notes) -> Result<Verdict, NoMemory>
    requires image { IsImage image.now }
    requires notes { IsNotes notes.now }
    ensures verdict { IfOk result (IsVerdict image.now notes.now) }
    ensures neutral { IfOk result (λ v. v ≡ Verdict.Neutral ↔ Typed image.now notes.now) }
    ensures refused { IfOk result (λ v. (place : ℕ) (rule : RuleName) →
        v ≡ Verdict.Refused place rule ↔ IsRefused image.now notes.now place rule) }
{
    let mut checker = Checker::reserve(alloc, image, notes)?;
    Ok(checker.run(image, notes))
}

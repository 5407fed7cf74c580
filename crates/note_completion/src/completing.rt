//! Notes with labels made complete.

ghost use Rattle.std.specs.Prelude.{IfErr, IfOk, OnOk, string_bytes};
ghost use Rattle.label_places.specs.Sought.{place_by};
ghost use Rattle.pe_image.specs.Images.{IsImage};
ghost use Rattle.note_types.specs.Records.{IsNotes};
ghost use Rattle.width_checker.specs.Typed.{Typed};
ghost use Rattle.note_completion.specs.Causes.{FailsUnder, FaultHasCause, LargeHasCause, RefusedHasCause};
ghost use Rattle.note_completion.specs.Completions.{Completes, IsComplete, TellsFirstFlaw, label_faults};
ghost use Rattle.note_completion.specs.Halts.{EndsByRule, EndsChecked, GoesOnOrHalts, IsCaused, IsChecked, IsDrafted, first_label_fault};
ghost use Rattle.note_completion.specs.Halts.{task_place};

use crate::completion::{Completion, Linked};
use crate::depths::{Depths, no_more};
use crate::filling::{printed, read_printed};
use crate::halt::Halt;
use crate::missing::{Sited, more, searched_points, state_lines};
use crate::task::Task;
use ebc_base::NoMemory;
use note_filling::{Filled, More, has_items};
use note_types::{Notes, RuleName};
use pe_image::Image;
use state_walk::before;
use std::alloc::Global;
use width_checker::{Verdict, check};

// How many bytes the notes may have that are printed.
const MOST_BYTES: usize = 1_048_576;

// The lines of the state at a place under notes; none where there is none.
fn state_there(alloc: Global, image: &Image, notes: &Notes, place: u32) -> Result<String, NoMemory>
    requires image { IsImage image.now }
    requires notes { IsNotes notes.now }
{
    match before(image, notes, place) {
        Some(at) => state_lines(alloc, notes, place, at.state.as_ref()),
        None => Ok(String::new(alloc)),
    }
}

// That a rule fails at a place under notes, in the state there.
fn refused_in(alloc: Global, image: &Image, notes: &Notes, place: u32, rule: RuleName) -> Halt
    requires image { IsImage image.now }
    requires notes { IsNotes notes.now }
    requires cause { FailsUnder image.now notes.now place rule }
    ensures { EndsByRule image.now notes.now result }
{
    match state_there(alloc, image, notes, place) {
        Ok(state) => Halt::Refused { place, rule, state },
        Err(_) => Halt::NoMemory,
    }
}

// Whether the image keeps all rules under notes.
fn check_rules(alloc: Global, image: &Image, notes: &Notes) -> Result<(), Halt>
    requires image { IsImage image.now }
    requires notes { IsNotes notes.now }
    ensures typed { OnOk result (Typed image.now notes.now) }
    ensures cause { IfErr result (EndsByRule image.now notes.now) }
{
    match check(alloc, image, notes)? {
        Verdict::Neutral => Ok(()),
        Verdict::Refused { place, rule } => Err(refused_in(alloc, image, notes, place, rule)),
    }
}

// Whether a printed text is notes within the limit, under which the image keeps all rules.
fn check_text(alloc: Global, image: &Image, filled: &Filled, text: &str) -> Result<(), Halt>
    requires image { IsImage image.now }
    ensures checked { OnOk result (IsChecked image.now text.now) }
    ensures cause { IfErr result (EndsChecked image.now filled.now text.now) }
{
    if text.len() > MOST_BYTES {
        return Err(Halt::Large);
    }
    let notes = read_printed(alloc, filled, text)?;
    match check_rules(alloc, image, &notes) {
        Ok(()) => Ok(()),
        Err(halt) => Err(halt),
    }
}

impl<'a> Task<'a> {
    // The notes with all that was found, where the check of the image calls it neutral.
    fn checked(self, alloc: Global, depths: &Depths, more: More) -> Result<String, Halt>
        requires image { IsImage self.linked.image.now }
        ensures whole { IfOk result (λ notes.
            IsComplete self.entry.linked.image.now (task_place self.entry) self.entry.text.now (string_bytes notes)) }
        ensures cause { IfErr result (IsCaused self.entry) }
    {
        let filled = self.fill(alloc, depths.found(), more)?;
        let text = printed(alloc, &filled.table)?;
        match check_text(alloc, self.linked.image, &filled, text.as_str()) {
            Ok(()) => Ok(text),
            Err(halt) => Err(halt),
        }
    }

    // The notes with points and sites by their tables, where the check of the image calls it neutral.
    fn checked_with(
        self,
        alloc: Global,
        depths: &Depths,
        points: &str,
        sites: &str,
    ) -> Result<String, Halt>
        requires image { IsImage self.linked.image.now }
        ensures whole { IfOk result (λ notes.
            IsComplete self.entry.linked.image.now (task_place self.entry) self.entry.text.now (string_bytes notes)) }
        ensures cause { IfErr result (IsCaused self.entry) }
    {
        let more = more(alloc, points, sites)?;
        self.checked(alloc, depths, more)
    }

    // The notes with the points that `infer` finds.
    fn inferred(self, alloc: Global, depths: &Depths, sited: &Sited) -> Result<String, Halt>
        requires image { IsImage self.linked.image.now }
        requires conditions { IsNotes sited.now.draft.notes }
        requires drafted { IsDrafted self sited.now.draft }
        ensures whole { IfOk result (λ notes.
            IsComplete self.entry.linked.image.now (task_place self.entry) self.entry.text.now (string_bytes notes)) }
        ensures cause { IfErr result (IsCaused self.entry) }
    {
        let points = self.points_in(alloc, &sited.draft)?;
        self.checked_with(alloc, depths, points.as_str(), sited.sites.as_str())
    }

    // The notes with the points that `infer` finds, where the search for better ones ended so. Where neither has neutral notes, what
    // `infer` is told only where no way led the search to the place.
    fn inferred_after(
        self,
        alloc: Global,
        depths: &Depths,
        sited: &Sited,
        halt: Halt,
    ) -> Result<String, Halt>
        requires image { IsImage self.linked.image.now }
        requires conditions { IsNotes sited.now.draft.notes }
        requires drafted { IsDrafted self sited.now.draft }
        requires cause { IsCaused self halt }
        ensures whole { IfOk result (λ notes.
            IsComplete self.entry.linked.image.now (task_place self.entry) self.entry.text.now (string_bytes notes)) }
        ensures cause { IfErr result (IsCaused self.entry) }
    {
        match self.inferred(alloc, depths, sited) {
            Ok(notes) => {
                drop(halt);
                Ok(notes)
            }
            Err(Halt::NoMemory) => Err(Halt::NoMemory),
            Err(other) => {
                if halt.is_unreached() {
                    Err(other)
                } else {
                    Err(halt)
                }
            }
        }
    }

    // The notes with the points that are found: those of the search, or else those of `infer`.
    fn found(self, alloc: Global, depths: &Depths, sited: &Sited) -> Result<String, Halt>
        requires image { IsImage self.linked.image.now }
        requires conditions { IsNotes sited.now.draft.notes }
        requires drafted { IsDrafted self sited.now.draft }
        ensures whole { IfOk result (λ notes.
            IsComplete self.entry.linked.image.now (task_place self.entry) self.entry.text.now (string_bytes notes)) }
        ensures cause { IfErr result (IsCaused self.entry) }
    {
        let Some(points) = searched_points(alloc, self.linked.image, &sited.draft.notes)? else {
            return self.inferred(alloc, depths, sited);
        };
        match self.checked_with(alloc, depths, points.as_str(), sited.sites.as_str()) {
            Ok(notes) => Ok(notes),
            Err(Halt::NoMemory) => Err(Halt::NoMemory),
            Err(halt) => self.inferred_after(alloc, depths, sited, halt),
        }
    }

    // The complete notes of a text whose forms and names are those of notes.
    fn notes(self, alloc: Global) -> Result<String, Halt>
        requires image { IsImage self.linked.image.now }
        ensures whole { IfOk result (λ notes.
            IsComplete self.entry.linked.image.now (task_place self.entry) self.entry.text.now (string_bytes notes)) }
        ensures cause { IfErr result (IsCaused self.entry) }
    {
        let depths = self.depths(alloc)?;
        let sited = self.sited(alloc, &depths)?;
        if has_items(&sited.draft.filled.table, "point") {
            drop(sited);
            return self.checked(alloc, &depths, no_more(alloc));
        }
        self.found(alloc, &depths, &sited)
    }

    // The complete notes.
    #[tactic(auto, using(crate::proofs::HaltLaws::tells_any))]
    fn complete(self, alloc: Global) -> Result<String, Halt>
        requires image { IsImage self.linked.image.now }
        ensures whole { IfOk result (λ notes.
            IsComplete self.entry.linked.image.now (task_place self.entry) self.entry.text.now (string_bytes notes)) }
        ensures faults { GoesOnOrHalts result (first_label_fault self.entry) }
        ensures cause { IfErr result (IsCaused self.entry) }
    {
        self.check_forms(alloc)?;
        self.notes(alloc)
    }
}

/// The complete notes that a text of notes with labels stands for, or why there are none. docs/LABELS.md, "What may be left out".
///
/// # Errors
///
/// There is no memory.
#[tactic(auto, using(crate::proofs::HaltLaws::told_completes, crate::proofs::HaltLaws::told_tells, crate::proofs::CauseLaws::told_refused, crate::proofs::CauseLaws::told_large, crate::proofs::CauseLaws::told_faulty))]
pub fn complete(alloc: Global, linked: Linked, text: &[u8]) -> Result<Completion, NoMemory>
    requires image { IsImage linked.image.now }
    ensures whole { IfOk result (Completes linked.entry.image.now
        (place_by linked.entry.plan.now.objects linked.entry.labels.now.labels) text.now) }
    ensures faults { IfOk result (TellsFirstFlaw (label_faults linked.entry.plan.now.objects linked.entry.labels.now.labels text.now)) }
    ensures refused { IfOk result (RefusedHasCause linked.entry.image.now
        (place_by linked.entry.plan.now.objects linked.entry.labels.now.labels) text.now) }
    ensures large { IfOk result (LargeHasCause linked.entry.image.now
        (place_by linked.entry.plan.now.objects linked.entry.labels.now.labels) text.now) }
    ensures faulty { IfOk result (FaultHasCause linked.entry.image.now
        (place_by linked.entry.plan.now.objects linked.entry.labels.now.labels)
        (label_faults linked.entry.plan.now.objects linked.entry.labels.now.labels text.now) text.now) }
{
    match (Task { linked, text }).complete(alloc) {
        Ok(notes) => Ok(Completion::Whole(notes)),
        Err(halt) => halt.told(),
    }
}

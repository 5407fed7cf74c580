//! The draft at which a text isn't made complete, so that it can be said why.

ghost use Rattle.std.specs.Prelude.{◌≡◌, IfOk, IfSome};
ghost use Rattle.label_places.specs.Sought.{place_by};
ghost use Rattle.note_completion.specs.Causes.{IsNotesDraft};
ghost use Rattle.note_completion.specs.Halts.{IsDrafted};
ghost use Rattle.note_types.specs.Records.{IsNotes};
ghost use Rattle.pe_image.specs.Images.{IsImage};

use crate::completion::Linked;
use crate::depths::{Depths, depths_of};
use crate::filling::Draft;
use crate::halt::Halt;
use crate::missing::{Sited, searched_points};
use crate::task::Task;
use ebc_base::NoMemory;
use note_filling::has_items;
use note_infer::{Inferred, infer};
use note_types::{RuleName, State};
use printed_texts::points_text;
use std::alloc::Global;
use width_checker::{Verdict, check};

/// Where a text stops short of complete notes.
#[derive(Drop)]
pub struct Stop {
    /// The last draft of it.
    pub draft: Draft,
    /// Whether the search for points stops under it.
    pub searches: bool,
    /// The state in which that search is stuck, if it has one.
    pub state: Option<State>,
}

// That a step other than the search for points ends under a draft.
fn stopped(draft: Draft) -> Stop
    ensures { result.draft ≡ draft }
{
    Stop {
        draft,
        searches: false,
        state: None,
    }
}

impl<'a> Task<'a> {
    // Where the search for points stops, or the check, under a draft with all sites.
    fn stop_with_sites(
        self,
        alloc: Global,
        depths: &Depths,
        draft: Draft,
        sites: &str,
    ) -> Result<Stop, Halt>
        requires image { IsImage self.linked.image.now }
        requires conditions { IsNotes draft.notes }
        requires drafted { IsDrafted self draft }
        ensures conditions { IfOk result (λ stop. IsNotes stop.draft.notes) }
        ensures drafted { IfOk result (λ stop. IsDrafted self.entry stop.draft) }
    {
        match infer(alloc, self.linked.image, &draft.notes)? {
            Inferred::Points(points) => {
                let points = points_text(alloc, &draft.notes, points.as_slice())?;
                Ok(stopped(self.draft_with(alloc, depths, points.as_str(), sites)?))
            }
            Inferred::Stuck { state, .. } => Ok(Stop {
                draft,
                searches: true,
                state,
            }),
            Inferred::Many { leaders: _ } => Ok(stopped(draft)),
        }
    }

    // The draft with the points of the search, which the check refuses; none where no way led the search to the place.
    fn refused_draft(
        self,
        alloc: Global,
        depths: &Depths,
        sited: &Sited,
    ) -> Result<Option<Draft>, Halt>
        requires image { IsImage self.linked.image.now }
        requires conditions { IsNotes sited.now.draft.notes }
        ensures conditions { IfOk result (λ found. IfSome found (λ draft. IsNotes draft.notes)) }
        ensures drafted { IfOk result (λ found. IfSome found (IsDrafted self.entry)) }
    {
        let image = self.linked.image;
        let Some(points) = searched_points(alloc, image, &sited.draft.notes)? else {
            return Ok(None);
        };
        let draft = self.draft_with(alloc, depths, points.as_str(), sited.sites.as_str())?;
        match check(alloc, image, &draft.notes)? {
            Verdict::Refused {
                rule: RuleName::State,
                ..
            } => {
                drop(draft);
                Ok(None)
            }
            _ => Ok(Some(draft)),
        }
    }

    // Where the text stops, with its levels and needs.
    fn stop_with_depths(self, alloc: Global, depths: &Depths) -> Result<Stop, Halt>
        requires image { IsImage self.linked.image.now }
        ensures conditions { IfOk result (λ stop. IsNotes stop.draft.notes) }
        ensures drafted { IfOk result (λ stop. IsDrafted self.entry stop.draft) }
    {
        let sited = self.sited(alloc, depths)?;
        if has_items(&sited.draft.filled.table, "point") {
            return Ok(stopped(sited.draft));
        }
        match self.refused_draft(alloc, depths, &sited)? {
            Some(draft) => {
                drop(sited);
                Ok(stopped(draft))
            }
            None => {
                let Sited { draft, sites } = sited;
                self.stop_with_sites(alloc, depths, draft, sites.as_str())
            }
        }
    }

    // Where the text stops.
    fn first_stop(self, alloc: Global) -> Result<Stop, Halt>
        requires image { IsImage self.linked.image.now }
        ensures conditions { IfOk result (λ stop. IsNotes stop.draft.notes) }
        ensures drafted { IfOk result (λ stop. IsDrafted self.entry stop.draft) }
    {
        let draft = self.bare_draft(alloc)?;
        match depths_of(alloc, self.linked.image, &draft) {
            Ok(depths) => {
                drop(draft);
                self.stop_with_depths(alloc, &depths)
            }
            Err(Halt::NoMemory) => Err(Halt::NoMemory),
            Err(halt) => {
                drop(halt);
                Ok(stopped(draft))
            }
        }
    }
}

/// Where a text of notes with labels that a rule refuses stops short of complete notes; none where a draft of it has a fault.
///
/// # Errors
///
/// There is no memory.
pub fn stop_of(alloc: Global, linked: Linked, text: &[u8]) -> Result<Option<Stop>, NoMemory>
    requires image { IsImage linked.image.now }
    ensures conditions { IfOk result (λ found. IfSome found (λ stop. IsNotes stop.draft.notes)) }
    ensures drafted { IfOk result (λ found. IfSome found (λ stop. IsNotesDraft
        (place_by linked.entry.plan.now.objects linked.entry.labels.now.labels) text.now
        stop.draft.filled.functions.items stop.draft.notes)) }
{
    match (Task { linked, text }).first_stop(alloc) {
        Ok(stop) => Ok(Some(stop)),
        Err(Halt::NoMemory) => Err(NoMemory),
        Err(halt) => {
            drop(halt);
            Ok(None)
        }
    }
}

//! Points and sites that a text doesn't have.

ghost use Rattle.std.specs.Prelude.{IfErr, IfOk};
ghost use Rattle.note_completion.specs.Halts.{EndsUnder, IsCaused, IsDrafted};
ghost use Rattle.note_types.specs.Records.{IsNotes};
ghost use Rattle.pe_image.specs.Images.{IsImage};

use crate::depths::{Depths, no_more};
use crate::filling::Draft;
use crate::halt::Halt;
use crate::task::Task;
use ebc_base::NoMemory;
use note_filling::{More, has_items, items_at};
use note_infer::{Inferred, infer};
use note_texts::document;
use note_types::{Notes, NotesEnd, Site, State};
use pe_image::Image;
use point_search::search_points;
use printed_texts::{points_text, state_text};
use site_finder::find_sites;
use std::alloc::Global;
use toml::Value;

// Sites as tables of notes.
fn sites_text(alloc: Global, notes: &Notes, sites: &[Site]) -> Result<String, NoMemory> {
    let mut text = String::new(alloc);
    for site in sites {
        if let Some(signature) = notes.signature.as_slice().get(site.signature as usize) {
            let place = site.place;
            let name = signature.name.as_str();
            let table = format!(in alloc; "[[site]]\nplace = {place}\nsignature = \"{name}\"\n")?;
            text.push_str(table.as_str())?;
        }
    }
    Ok(text)
}

// The tables of a list in a text; none where the text isn't TOML.
fn tables_in(alloc: Global, text: &str, key: &str) -> Result<Vec<Value>, NoMemory> {
    let mut tables = Vec::new(alloc);
    let table = match document(alloc, text.as_bytes()) {
        Ok(table) => table,
        Err(NotesEnd::NoMemory) => return Err(NoMemory),
        Err(NotesEnd::Fault(_)) => return Ok(tables),
    };
    for item in items_at(&table, key) {
        tables.push(item.clone()?)?;
    }
    Ok(tables)
}

/// The lines of a state at a place, where there is one.
pub(crate) fn state_lines(
    alloc: Global,
    notes: &Notes,
    place: u32,
    state: Option<&State>,
) -> Result<String, NoMemory> {
    match state {
        Some(state) => state_text(alloc, notes, place, state),
        None => Ok(String::new(alloc)),
    }
}

// The points that are found, as tables of notes.
fn found_points(alloc: Global, image: &Image, notes: &Notes) -> Result<String, Halt>
    requires image { IsImage image.now }
    requires notes { IsNotes notes.now }
    ensures cause { IfErr result (EndsUnder image.now notes.now) }
{
    match infer(alloc, image, notes)? {
        Inferred::Points(points) => Ok(points_text(alloc, notes, points.as_slice())?),
        Inferred::Stuck { place, rule, state } => {
            let state = state_lines(alloc, notes, place, state.as_ref())?;
            Err(Halt::Refused { place, rule, state })
        }
        Inferred::Many { leaders: _ } => Err(Halt::Large),
    }
}

/// The points that the search finds, as tables of notes; none where it comes to no end.
///
/// # Errors
///
/// There is no memory.
pub(crate) fn searched_points(
    alloc: Global,
    image: &Image,
    notes: &Notes,
) -> Result<Option<String>, NoMemory>
    requires image { IsImage image.now }
    requires notes { IsNotes notes.now }
{
    match search_points(alloc, image, notes)? {
        Some(points) => Ok(Some(points_text(alloc, notes, points.as_slice())?)),
        None => Ok(None),
    }
}

// The sites that notes lack, as tables of notes.
fn found_sites(alloc: Global, image: &Image, notes: &Notes) -> Result<String, NoMemory>
    requires image { IsImage image.now }
    requires notes { IsNotes notes.now }
{
    let sites = find_sites(alloc, image, notes)?;
    sites_text(alloc, notes, sites.as_slice())
}

/// Points and sites by their tables.
pub(crate) fn more(alloc: Global, points: &str, sites: &str) -> Result<More, NoMemory> {
    let points = tables_in(alloc, points, "point")?;
    let sites = tables_in(alloc, sites, "site")?;
    Ok(More { points, sites })
}

/// A draft with all its sites, and the tables of those that were found.
#[derive(Drop)]
pub(crate) struct Sited {
    pub draft: Draft,
    pub sites: String,
}

impl<'a> Task<'a> {
    /// The draft with these levels and needs, and with points and sites by their tables.
    pub fn draft_with(
        self,
        alloc: Global,
        depths: &Depths,
        points: &str,
        sites: &str,
    ) -> Result<Draft, Halt>
        ensures conditions { IfOk result (λ draft. IsNotes draft.notes) }
        ensures drafted { IfOk result (IsDrafted self.entry) }
        ensures cause { IfErr result (IsCaused self.entry) }
    {
        let more = more(alloc, points, sites)?;
        self.draft(alloc, depths.found(), more)
    }

    /// The points that `infer` finds under a draft.
    pub fn points_in(self, alloc: Global, draft: &Draft) -> Result<String, Halt>
        requires image { IsImage self.linked.image.now }
        requires conditions { IsNotes draft.now.notes }
        requires drafted { IsDrafted self draft.now }
        ensures cause { IfErr result (IsCaused self.entry) }
    {
        found_points(alloc, self.linked.image, &draft.notes)
    }

    // A draft with these sites by their tables, if there are any.
    fn with_sites(
        self,
        alloc: Global,
        depths: &Depths,
        draft: Draft,
        sites: String,
    ) -> Result<Sited, Halt>
        requires conditions { IsNotes draft.notes }
        requires drafted { IsDrafted self draft }
        ensures conditions { IfOk result (λ sited. IsNotes sited.draft.notes) }
        ensures drafted { IfOk result (λ sited. IsDrafted self.entry sited.draft) }
        ensures cause { IfErr result (IsCaused self.entry) }
    {
        if sites.is_empty() {
            return Ok(Sited { draft, sites });
        }
        drop(draft);
        let draft = self.draft_with(alloc, depths, "", sites.as_str())?;
        Ok(Sited { draft, sites })
    }

    /// The draft with the sites that the text doesn't have; none are found where it has points of its own.
    pub fn sited(self, alloc: Global, depths: &Depths) -> Result<Sited, Halt>
        requires image { IsImage self.linked.image.now }
        ensures conditions { IfOk result (λ sited. IsNotes sited.draft.notes) }
        ensures drafted { IfOk result (λ sited. IsDrafted self.entry sited.draft) }
        ensures cause { IfErr result (IsCaused self.entry) }
    {
        let draft = self.draft(alloc, depths.found(), no_more(alloc))?;
        if has_items(&draft.filled.table, "point") {
            let sites = String::new(alloc);
            return Ok(Sited { draft, sites });
        }
        let sites = found_sites(alloc, self.linked.image, &draft.notes)?;
        self.with_sites(alloc, depths, draft, sites)
    }
}

//! How far a search is, and what a native call without a site leads to.

ghost use Rattle.ebc_insn.specs.Spelling.{WellFormed};
ghost use Rattle.note_types.specs.Records.{IsNotes};

use crate::comings::Comings;
use crate::signature::{method_called, signatures_of};
use crate::trial::Trial;
use code_walk::{Source, Visitor};
use ebc_base::NoMemory;
use ebc_insn::Insn;
use note_types::{FnNote, Notes, Site, State};
use rules_base::Here;
use rules_flow::{Successors, number_at};
use std::alloc::Global;

/// How far a search is: the notes in which sites are tried, what has come to the leaders, and the sites that were found.
#[derive(Drop)]
pub(crate) struct Course {
    pub alloc: Global,
    pub trial: Trial,
    pub comings: Comings,
    pub found: Vec<Site>,
}

// Whether an instruction calls a native method.
fn is_native(i: &Insn) -> bool {
    matches!(i, Insn::Call { native: true, .. })
}

// The site that notes have at a place.
fn site_at(notes: &Notes, place: u32) -> Option<&Site>
    requires { IsNotes notes.now }
{
    let sites = notes.site.as_slice();
    sites.get(number_at(sites, u128::from(place))?)
}

impl Course {
    // The only one of these signatures, or the only one by which no rule of a native call's row fails.
    fn chosen(
        &mut self,
        candidates: &[u32],
        here: &Here,
        s: &State,
        i: &Insn,
    ) -> Result<Option<u32>, NoMemory>
        requires { WellFormed i.now }
    {
        if let [only] = candidates {
            return Ok(Some(*only));
        }
        let mut chosen = None;
        for candidate in candidates {
            let after = self.trial.after_call(self.alloc, here, s, i, *candidate)?;
            if after.is_some() {
                if chosen.is_some() {
                    return Ok(None);
                }
                chosen = Some(*candidate);
            }
        }
        Ok(chosen)
    }

    // The signature by which a native call is meant: that of its site, or else the one that is found, with a site.
    fn signature_at(
        &mut self,
        notes: &Notes,
        f: &FnNote,
        here: &Here,
        s: &State,
        i: &Insn,
    ) -> Result<Option<u32>, NoMemory>
        requires notes { IsNotes notes.now }
        requires well_formed { WellFormed i.now }
    {
        if let Some(site) = site_at(notes, here.place) {
            return Ok(Some(site.signature));
        }
        let Some(method) = method_called(notes, f, s, i) else {
            return Ok(None);
        };
        let candidates = signatures_of(self.alloc, notes, method)?;
        let chosen = self.chosen(candidates.as_slice(), here, s, i)?;
        if let Some(signature) = chosen {
            self.found.push(Site {
                place: here.place,
                signature,
            })?;
        }
        Ok(chosen)
    }
}

impl Visitor for Course {
    // None where a rule fails, or a native call has no site.
    fn after(
        &mut self,
        notes: &Notes,
        f: &FnNote,
        here: &Here,
        s: &State,
        i: &Insn,
    ) -> Result<Option<Successors>, NoMemory> {
        if !is_native(i) {
            return Ok(self.trial.after(here, s, i));
        }
        match self.signature_at(notes, f, here, s, i)? {
            Some(signature) => self.trial.after_call(self.alloc, here, s, i, signature),
            None => Ok(None),
        }
    }

    fn come(&mut self, number: usize, _: Source, s: State) -> Result<(), NoMemory> {
        self.comings.take_in(number, s)
    }
}

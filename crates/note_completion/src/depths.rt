//! Levels and needs, found in the code.

ghost use Rattle.std.specs.Prelude.{◌≡◌, ℕ, IfErr, IfOk, OnOk};
ghost use Rattle.note_completion.specs.Causes.{no_level};
ghost use Rattle.note_completion.specs.Halts.{EndsByRule, EndsDepths, IsCaused, IsDrafted};
ghost use Rattle.note_types.specs.Records.{IsNotes};
ghost use Rattle.pe_image.specs.Images.{IsImage};
ghost use Rattle.rules_image.specs.Images.{FunctionHolds};
ghost use Rattle.stack_needs.specs.Calls.{HasStackCause};

use crate::filling::Draft;
use crate::halt::{Halt, refused};
use crate::task::Task;
use ebc_base::{Name, NoMemory};
use note_filling::{Filled, Flaw, Found, More};
use note_types::{Notes, Pair, RuleName, TomlFault};
use pe_image::Image;
use rules_image::check_functions;
use stack_needs::{Known, NotFound, find_needs};
use std::alloc::Global;

/// The levels and needs of functions, in the order of the text.
#[derive(Drop)]
pub(crate) struct Depths {
    levels: Vec<u64>,
    needs: Vec<Pair>,
}

impl Depths {
    // None for so many functions.
    fn none(alloc: Global, count: usize) -> Result<Depths, NoMemory> {
        Ok(Depths {
            levels: vec![in alloc; 0; count]?,
            needs: vec![in alloc; Pair { n: 0, c: 0 }; count]?,
        })
    }

    // Sets those of a function.
    fn set(&mut self, index: usize, found: stack_needs::Found) {
        if index < self.levels.len() {
            self.levels[index] = found.level;
        }
        if index < self.needs.len() {
            self.needs[index] = found.need;
        }
    }

    /// What a text is filled with.
    pub fn found(&self) -> Found<'_> {
        Found {
            levels: self.levels.as_slice(),
            needs: self.needs.as_slice(),
        }
    }
}

// Levels and needs by the functions' places, in the order of the text.
fn in_text_order(
    alloc: Global,
    order: &[usize],
    found: &[stack_needs::Found],
) -> Result<Depths, NoMemory> {
    let mut depths = Depths::none(alloc, order.len())?;
    for (index, found) in order.iter().zip(found) {
        depths.set(*index, *found);
    }
    Ok(depths)
}

// Which levels and needs the text has.
fn known(alloc: Global, filled: &Filled) -> Result<Vec<Known>, NoMemory> {
    let mut known = Vec::new(alloc);
    for left in filled.left.as_slice() {
        known.push(Known {
            level: !left.level,
            need: !left.need,
        })?;
    }
    Ok(known)
}

// That no level is one of a function whose calls lead back to it, with its name.
fn recursion(alloc: Global, draft: &Draft, function: usize) -> Result<Flaw, NoMemory>
    ensures { IfOk result (λ flaw. flaw ≡ no_level draft.now.filled.functions.items draft.now.notes function) }
{
    let index = match draft.filled.functions.as_slice().get(function) {
        Some(index) => *index,
        None => function,
    };
    let label = match draft.notes.function.as_slice().get(function) {
        Some(f) => Some(f.name.copy(alloc)?),
        None => None,
    };
    let path = Name::new(format!(in alloc; "function[{index}].level")?);
    Ok(Flaw {
        fault: TomlFault::Missing(path),
        label,
    })
}

// Why levels and needs aren't found in an image.
fn not_found(alloc: Global, _image: &Image, draft: &Draft, end: NotFound) -> Halt
    requires cause { HasStackCause _image.now draft.now.notes end }
    ensures { EndsDepths _image.now draft.now result }
{
    match end {
        NotFound::NoMemory => Halt::NoMemory,
        NotFound::Uneven { place } => refused(alloc, place, RuleName::Below),
        NotFound::Recursion { function } => match recursion(alloc, draft, function) {
            Ok(flaw) => Halt::Fault(flaw),
            Err(_) => Halt::NoMemory,
        },
    }
}

// Whether all functions keep their rule.
fn check_rule(alloc: Global, image: &Image, notes: &Notes) -> Result<(), Halt>
    requires image { IsImage image.now }
    requires notes { IsNotes notes.now }
    ensures holds { OnOk result ((k : ℕ) → FunctionHolds image.now notes.now k) }
    ensures cause { IfErr result (EndsByRule image.now notes.now) }
{
    match check_functions(image, notes) {
        Ok(()) => Ok(()),
        Err(number) => {
            let place = notes.function.as_slice()[number].place;
            Err(refused(alloc, place, RuleName::Function))
        }
    }
}

/// The levels and needs of the functions of a draft.
pub(crate) fn depths_of(alloc: Global, image: &Image, draft: &Draft) -> Result<Depths, Halt>
    requires image { IsImage image.now }
    requires notes { IsNotes draft.now.notes }
    ensures cause { IfErr result (EndsDepths image.now draft.now) }
{
    check_rule(alloc, image, &draft.notes)?;
    let known = known(alloc, &draft.filled)?;
    match find_needs(alloc, image, &draft.notes, known.as_slice()) {
        Ok(found) => {
            let order = draft.filled.functions.as_slice();
            Ok(in_text_order(alloc, order, found.as_slice())?)
        }
        Err(end) => Err(not_found(alloc, image, draft, end)),
    }
}

impl<'a> Task<'a> {
    /// The draft that is filled with what the text has alone.
    pub fn bare_draft(self, alloc: Global) -> Result<Draft, Halt>
        ensures conditions { IfOk result (λ draft. IsNotes draft.notes) }
        ensures drafted { IfOk result (IsDrafted self.entry) }
        ensures cause { IfErr result (IsCaused self.entry) }
    {
        let none = Found {
            levels: &[],
            needs: &[],
        };
        self.draft(alloc, none, no_more(alloc))
    }

    /// The levels and needs of the text's functions.
    pub fn depths(self, alloc: Global) -> Result<Depths, Halt>
        requires image { IsImage self.linked.image.now }
        ensures cause { IfErr result (IsCaused self.entry) }
    {
        let draft = self.bare_draft(alloc)?;
        depths_of(alloc, self.linked.image, &draft)
    }
}

/// No points and no sites.
pub(crate) fn no_more(alloc: Global) -> More {
    More {
        points: Vec::new(alloc),
        sites: Vec::new(alloc),
    }
}

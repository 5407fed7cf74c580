//! The places of labels.
ghost use Rattle.std.specs.Prelude.{◌≡◌, ◌<◌, ◌^◌, option_map, IfOk, IfSome, Some};
ghost use Rattle.note_draft.specs.Findings.{path_of};
ghost use Rattle.note_filling.specs.Ends.{Gives, IsFlawOf};
ghost use Rattle.note_filling.specs.Places.{fault_at, flawed, found_position, labelled_place, placed_by, placed_in};
ghost use Rattle.note_filling.specs.Views.{context_labels, context_names};

use crate::context::Context;
use crate::end::{FillEnd, Flaw};
use ebc_base::Name;
use label_places::{NotFound, Position, reference_of};
use note_draft::Finding;
use note_types::TomlFault;
use std::alloc::Global;

/// A place that a label gives, and where the label stands.
#[derive(Clone, Copy)]
pub(crate) struct Placed {
    pub position: Position,
    pub place: u64,
}

/// Why a text names no place.
#[derive(Clone, Copy)]
pub(crate) enum LabelFault {
    /// It isn't of the form of a label.
    Form,
    /// No object has the label.
    Unknown,
    /// Several have it.
    Several,
    /// It is one of the data, and one of the code is wanted.
    Data,
}

impl LabelFault {
    // The fault at a path.
    fn at(self, path: Name) -> TomlFault
        ensures { result ≡ fault_at path self }
    {
        match self {
            LabelFault::Form => TomlFault::Range(path),
            LabelFault::Unknown => TomlFault::Name(path),
            LabelFault::Several => TomlFault::Twice(path),
            LabelFault::Data => TomlFault::Kind(path),
        }
    }
}

// Where a label stands, or why none is meant.
fn found_position(found: Result<Position, NotFound>) -> Result<Position, LabelFault>
    ensures { result ≡ found_position found }
{
    match found {
        Ok(position) => Ok(position),
        Err(NotFound::Unknown) => Err(LabelFault::Unknown),
        Err(NotFound::Several) => Err(LabelFault::Several),
    }
}

/// The place that a text names: that of a label, of one in the code where `code` is set.
#[tactic(auto, unfolding(crate::specs::Places::placed_by))]
pub(crate) fn placed_by(context: Context, code: bool, text: &str) -> Result<Placed, LabelFault>
    ensures value { result ≡ placed_by code (context_names context.entry) (context_labels context.entry) text.now }
    ensures small { IfOk result (λ p. p.place < 2 ^ 33) }
{
    let Some(reference) = reference_of(text) else {
        return Err(LabelFault::Form);
    };
    let position = found_position(context.labels.find(context.names, &reference))?;
    if code && position.section == 2 {
        return Err(LabelFault::Data);
    }
    Ok(Placed {
        position,
        place: u64::from(position.place) + reference.addend,
    })
}

// The fault of a label, with the text that it is.
fn flaw(alloc: Global, fault: TomlFault, text: &str) -> FillEnd
    ensures { IsFlawOf (record { fault = fault; label = Some text.now }) result }
{
    match String::from_str(alloc, text) {
        Ok(text) => FillEnd::Flaw(Flaw {
            fault,
            label: Some(Name::new(text)),
        }),
        Err(_) => FillEnd::NoMemory,
    }
}

/// The place that the text at a path names: that of a label, of one in the code where `code` is set.
///
/// # Errors
///
/// Range where the text isn't of the form, Name where no object has the label, Twice where several have it, Kind where it is one of
/// the data and one of the code is wanted; no memory.
#[tactic(auto, unfolding(crate::specs::Places::placed_in))]
fn place_named(
    alloc: Global,
    context: Context,
    code: bool,
    path: Name,
    text: &str,
) -> Result<Placed, FillEnd>
    ensures gives { Gives result (flawed text.now (placed_in code (context_names context.entry) (context_labels context.entry) path
        text.now)) }
    ensures small { IfOk result (λ p. p.place < 2 ^ 33) }
{
    match placed_by(context, code, text) {
        Ok(placed) => Ok(placed),
        Err(fault) => Err(flaw(alloc, fault.at(path), text)),
    }
}

/// The place that a text names at a key of a table of a list; none where no text is there.
pub(crate) fn labelled_place(
    alloc: Global,
    context: Context,
    code: bool,
    finding: Finding,
    text: Option<&str>,
) -> Result<Option<Placed>, FillEnd>
    ensures gives { Gives result (labelled_place code (context_names context.entry) (context_labels context.entry) (path_of finding)
        (option_map (λ t. t.now) text.entry)) }
    ensures small { IfOk result (λ found. IfSome found (λ p. p.place < 2 ^ 33)) }
{
    match text {
        Some(text) => Ok(Some(place_named(alloc, context, code, finding.path(alloc)?, text)?)),
        None => Ok(None),
    }
}

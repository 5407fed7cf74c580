//! What is said of notes with labels: of a refusal, by the draft of complete notes under which the rule fails, and of a fault.
ghost use Rattle.std.specs.Prelude.{◌≡◌, length};
ghost use Rattle.std.specs.List.{All};
ghost use Rattle.ebc_link.specs.Plans.{IsPlan};
ghost use Rattle.ebc_object.specs.Objects.{IsObject};
ghost use Rattle.note_types.specs.Records.{IsNotes};
ghost use Rattle.pe_image.specs.Images.{IsImage};

use crate::answer::Answer;
use crate::refusals::{Read, read_said};
use cli_base::End;
use ebc_base::NoMemory;
use ebc_link::{LinkEnd, LinkPlan, link};
use ebc_object::Object;
use ebc_outside::MemFolder;
use explain_base::Said;
use explain_labels::{LabelledText, labelled_said};
use file_inputs::{read_as, read_objects};
use label_places::{Labels, labels_of};
use note_completion::{Draft, Linked, Stop, stop_of};
use note_types::{Notes, RuleName, State, TomlFault};
use pe_image::Image;
use state_walk::{Before, before, given};

/// What came of a text of notes with labels.
#[derive(Clone, Copy)]
pub enum Labelled<'a> {
    /// A rule refuses it at a place.
    Refused {
        place: u32,
        rule: RuleName,
    },
    /// It has a fault, behind whose path this is printed.
    Faulty {
        fault: &'a TomlFault,
        behind: &'a str,
    },
}

// What stands before the instruction at a place, in the state of the search that is stuck there, where there is one.
fn before_stop(image: &Image, notes: &Notes, place: u32, state: Option<State>) -> Option<Before>
    requires image { IsImage image.now }
    requires notes { IsNotes notes.now }
{
    let walked = before(image, notes, place);
    let Some(state) = state else {
        return walked;
    };
    let mut at = given(image, notes, place, state)?;
    if let Some(walked) = walked {
        let since = walked.since;
        at.since = since;
    }
    Some(at)
}

// The draft of a text, as it is read for what is said of a rule.
fn draft_read<'a>(image: &'a Image, draft: &'a Draft, text: &'a [u8], infers: bool) -> Read<'a>
    ensures image { result.image.now ≡ image.now }
    ensures notes { result.notes.now ≡ draft.now.notes }
{
    let filled = Some(&draft.filled);
    Read {
        image,
        notes: &draft.notes,
        text,
        infers,
        filled,
    }
}

// What is said of a rule that refuses the draft at which a text stops.
fn stop_said(
    answer: &Answer,
    linked: Linked,
    text: &[u8],
    stop: Stop,
    place: u32,
    rule: RuleName,
) -> Result<Said, NoMemory>
    requires image { IsImage linked.image.now }
    requires notes { IsNotes stop.draft.notes }
{
    let Stop {
        draft,
        searches,
        state,
    } = stop;
    let at = before_stop(linked.image, &draft.notes, place, state);
    let read = draft_read(linked.image, &draft, text, searches);
    read_said(answer, &read, place, rule, at.as_ref())
}

// What is said of a text that a rule refuses, over the image that its plan's objects are linked to.
fn refused_said(
    answer: &Answer,
    linked: Linked,
    text: &[u8],
    place: u32,
    rule: RuleName,
) -> Result<Option<Said>, NoMemory>
    requires image { IsImage linked.image.now }
{
    match stop_of(answer.alloc, linked, text)? {
        Some(stop) => Ok(Some(stop_said(answer, linked, text, stop, place, rule)?)),
        None => Ok(None),
    }
}

// The same, over the plan's objects.
fn unlinked_said(
    answer: &Answer,
    plan: &LinkPlan,
    objects: &[Object],
    labels: &Labels,
    text: &[u8],
    place: u32,
    rule: RuleName,
) -> Result<Option<Said>, NoMemory>
    requires objects { All IsObject objects.now }
    requires plan { IsPlan plan.now }
    requires count { length objects.now ≡ length plan.now.objects }
{
    match link(answer.alloc, objects, plan) {
        Ok(image) => {
            let image = &image;
            let linked = Linked {
                labels,
                plan,
                image,
            };
            refused_said(answer, linked, text, place, rule)
        }
        Err(LinkEnd::NoMemory) => Err(NoMemory),
        Err(end) => {
            drop(end);
            Ok(None)
        }
    }
}

// What is said of a text, over its plan's objects.
fn objects_said(
    answer: &Answer,
    plan: &LinkPlan,
    objects: &[Object],
    text: &[u8],
    labelled: Labelled,
) -> Result<Option<Said>, NoMemory>
    requires objects { All IsObject objects.now }
    requires plan { IsPlan plan.now }
    requires count { length objects.now ≡ length plan.now.objects }
{
    let alloc = answer.alloc;
    let labels = labels_of(alloc, objects)?;
    match labelled {
        Labelled::Refused { place, rule } => {
            unlinked_said(answer, plan, objects, &labels, text, place, rule)
        }
        Labelled::Faulty { fault, behind } => {
            let text = LabelledText {
                alloc,
                file: answer.word(1),
                bytes: text,
                plan,
                labels: &labels,
            };
            Ok(Some(labelled_said(&text, fault, behind)?))
        }
    }
}

// What is said of a text, over its plan.
fn plan_said(
    answer: &Answer,
    plan: &LinkPlan,
    text: &[u8],
    labelled: Labelled,
    folder: &mut MemFolder,
) -> Result<Option<Said>, NoMemory>
    requires plan { IsPlan plan.now }
{
    match read_objects(answer.alloc, 0, plan.objects.as_slice(), folder) {
        Ok(objects) => objects_said(answer, plan, objects.as_slice(), text, labelled),
        Err(End::NoMemory) => Err(NoMemory),
        Err(_) => Ok(None),
    }
}

/// What is said of what came of the text of `ebc_notes`; none if its files weren't kept.
///
/// # Errors
///
/// Want of memory alone.
pub fn completed_said(
    answer: &Answer,
    labelled: Labelled,
    folder: &mut MemFolder,
) -> Result<Option<Said>, NoMemory> {
    let Some(text) = answer.bytes_of(1, folder)? else {
        return Ok(None);
    };
    match read_as::<LinkPlan, MemFolder>(answer.alloc, folder, 0, answer.word(0)) {
        Ok(plan) => plan_said(answer, &plan, text.as_slice(), labelled, folder),
        Err(End::NoMemory) => Err(NoMemory),
        Err(_) => Ok(None),
    }
}

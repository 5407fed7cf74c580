//! Reading the files that the words name.
ghost use Rattle.std.specs.Prelude.{◌≡◌, All, IfOk, length, option_map};
ghost use Rattle.ebc_link.specs.Plans.{IsPlan};
ghost use Rattle.ebc_object.specs.Objects.{IsObject};
ghost use Rattle.pe_image.specs.Images.{IsImage};
ghost use Rattle.cli_base.specs.Words.{word_bytes};
ghost use Rattle.file_inputs.specs.Reads.{Reads};
ghost use Rattle.label_notes.specs.Answers.{CanBeReplied};
ghost use Rattle.label_notes.specs.Requests.{files_named, map_request, notes_request, plan_files, text_with_image};

use crate::request::Request;
use cli_base::{End, file};
use ebc_base::{Name, Sequence};
use ebc_link::LinkPlan;
use ebc_object::Object;
use ebc_outside::Folder;
use file_inputs::{linked, read_as, read_objects};
use pe_image::Image;
use std::alloc::Global;

/// How many bytes the text of notes may have.
const NOTES_LIMIT: u64 = 1048576;

/// The files that the words name: a plan, and a text or none.
pub(crate) fn files_named(words: &Vec<String>) -> Option<(&str, Option<&str>)>
    ensures { option_map (λ f. (f.0.now, option_map (λ t. t.now) f.1)) result ≡ files_named (word_bytes words.now) }
{
    match words.as_slice() {
        [plan] if plan.len() > 0 => Some((plan.as_str(), None)),
        [plan, text] if plan.len() > 0 && text.len() > 0 => {
            Some((plan.as_str(), Some(text.as_str())))
        }
        _ => None,
    }
}

// The plan of this name and its objects.
fn read_plan_files<F: Folder>(
    alloc: Global,
    name: &str,
    folder: &mut F,
) -> Result<(LinkPlan, Sequence<Object>), End>
    ensures reads { Reads F.contents F.asked F.read_faults F.write_faults folder.old folder.new result (plan_files name.now) }
    ensures plan { IfOk result (λ read. IsPlan read.0) }
    ensures objects { IfOk result (λ read. All IsObject read.1) }
    ensures count { IfOk result (λ read. length read.1 ≡ length read.0.objects) }
{
    let plan = read_as::<LinkPlan, F>(alloc, folder, 0, name)?;
    match read_objects(alloc, 0, plan.objects.as_slice(), folder) {
        Ok(objects) => Ok((plan, objects)),
        Err(end) => {
            drop(plan);
            Err(end)
        }
    }
}

// The text of this name, and what the objects are linked to by the plan of another.
#[tactic(auto, unfolding(crate::specs::Requests::text_with_image))]
fn read_text_with_image<F: Folder>(
    alloc: Global,
    plan_name: &str,
    plan: &LinkPlan,
    objects: &[Object],
    name: &str,
    folder: &mut F,
) -> Result<(Sequence<u8>, Image), End>
    requires plan { IsPlan plan.now }
    requires objects { All IsObject objects.now }
    requires count { length objects.now ≡ length plan.now.objects }
    ensures reads { Reads F.contents F.asked F.read_faults F.write_faults folder.old folder.new result
        (text_with_image plan_name.now plan.now objects.now name.now) }
    ensures image { IfOk result (λ read. IsImage read.1) }
{
    let text = file(alloc, folder, 1, name, NOTES_LIMIT)?;
    match linked(alloc, 0, plan_name, objects, plan) {
        Ok(image) => Ok((text, image)),
        Err(end) => Err(end),
    }
}

/// What is asked of a plan alone.
#[tactic(auto, unfolding(crate::specs::Requests::map_request))]
pub(crate) fn read_map<F: Folder>(alloc: Global, name: &str, folder: &mut F) -> Result<Request, End>
    ensures reads { Reads F.contents F.asked F.read_faults F.write_faults folder.old folder.new result (map_request name.now) }
    ensures valid { IfOk result CanBeReplied }
{
    let (plan, objects) = read_plan_files(alloc, name, folder)?;
    Ok(Request::Map { plan, objects })
}

/// What is asked of a plan and a text.
pub(crate) fn read_notes<F: Folder>(
    alloc: Global,
    plan_name: &str,
    name: Name,
    folder: &mut F,
) -> Result<Request, End>
    ensures reads { Reads F.contents F.asked F.read_faults F.write_faults folder.old folder.new result (notes_request plan_name.now name) }
    ensures valid { IfOk result CanBeReplied }
{
    let (plan, objects) = read_plan_files(alloc, plan_name, folder)?;
    match read_text_with_image(
        alloc,
        plan_name,
        &plan,
        objects.as_slice(),
        name.as_str(),
        folder,
    ) {
        Ok((text, image)) => Ok(Request::Notes {
            plan,
            objects,
            image,
            name,
            text,
        }),
        Err(end) => {
            drop(name);
            drop(plan);
            drop(objects);
            Err(end)
        }
    }
}

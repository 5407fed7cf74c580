//! What is said of link plans, of the objects that they name, and of objects that aren't linked.
ghost use Rattle.std.specs.Prelude.{◌≡◌, length};
ghost use Rattle.std.specs.List.{All};
ghost use Rattle.ebc_link.specs.Plans.{IsPlan};
ghost use Rattle.ebc_object.specs.Objects.{IsObject};

use crate::answer::Answer;
use crate::inputs::text_said;
use cli_base::End;
use ebc_base::{Name, NoMemory};
use ebc_link::{LinkPlan, link, read_plan};
use ebc_object::{Object, ObjectEnd, read_object};
use ebc_outside::{Folder, MemFolder};
use explain_base::Said;
use explain_files::{link_said, object_said};
use explain_texts::TomlText;
use file_inputs::read_objects;
use note_types::{NotesEnd, TomlFault};
use std::alloc::Global;

// What is said of the first of the objects that is none.
fn bad_object(
    alloc: Global,
    names: &[Name],
    folder: &mut MemFolder,
) -> Result<Option<Said>, NoMemory> {
    for name in names {
        let name = name.as_str();
        let Ok(bytes) = folder.read(alloc, name, 1_048_576) else {
            return Ok(None);
        };
        match read_object(alloc, bytes.as_slice()) {
            Ok(object) => drop(object),
            Err(ObjectEnd::Fault { kind, offset }) => {
                return Ok(Some(object_said(alloc, name, bytes.as_slice(), kind, offset)));
            }
            Err(ObjectEnd::NoMemory) => return Err(NoMemory),
        }
    }
    Ok(None)
}

// What is said of objects that aren't linked by a plan.
fn unlinked(alloc: Global, plan: &LinkPlan, objects: &[Object]) -> Result<Option<Said>, NoMemory>
    requires objects { All IsObject objects.now }
    requires plan { IsPlan plan.now }
    requires count { length objects.now ≡ length plan.now.objects }
{
    match link(alloc, objects, plan) {
        Ok(image) => {
            drop(image);
            Ok(None)
        }
        Err(end) => link_said(alloc, plan, objects, &end),
    }
}

// The fault of a plan's text, if the answer tells it; none of `twice`, which is also what a symbol of its objects may be.
fn printed_fault(answer: &Answer, number: usize) -> Result<Option<TomlFault>, NoMemory> {
    let Some(fault) = answer.printed_fault(number) else {
        return Ok(None);
    };
    match fault.of_toml(answer.alloc)? {
        Some(TomlFault::Twice(_)) => Ok(None),
        fault => Ok(fault),
    }
}

/// What is said of a plan at its first fault, or at the first of its objects.
pub(crate) fn plan_said(
    answer: &Answer,
    number: usize,
    bytes: &[u8],
    folder: &mut MemFolder,
) -> Result<Option<Said>, NoMemory> {
    let alloc = answer.alloc;
    let file = answer.word(number);
    if let Some(fault) = printed_fault(answer, number)? {
        return Ok(Some(text_said(alloc, file, TomlText::Plan, bytes, &fault)?));
    }
    let plan = match read_plan(alloc, bytes) {
        Ok(plan) => plan,
        Err(NotesEnd::Fault(fault)) => {
            return Ok(Some(text_said(alloc, file, TomlText::Plan, bytes, &fault)?));
        }
        Err(NotesEnd::NoMemory) => return Err(NoMemory),
    };
    let names = plan.objects.as_slice();
    match read_objects(alloc, 1, names, folder) {
        Ok(objects) => unlinked(alloc, &plan, objects.as_slice()),
        Err(End::NoMemory) => Err(NoMemory),
        Err(_) => bad_object(alloc, names, folder),
    }
}

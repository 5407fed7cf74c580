//! Reading a link plan and the objects that it names, and linking them.
ghost use Rattle.std.specs.Prelude.{◌≡◌, ◌≤◌, All, None, Err, Ok, Some, IfSome, IfOk, IsErrOf, length};
ghost use Rattle.ebc_link.specs.Plans.{IsPlan};
ghost use Rattle.ebc_object.specs.Objects.{IsObject};
ghost use Rattle.ebc_outside.specs.Counts.{Rose};
ghost use Rattle.pe_image.specs.Linked.{IsLinked};
ghost use Rattle.file_inputs.specs.Inputs.{input, link_meaning, object_limit, object_meaning};
ghost use Rattle.cli_base.specs.Inputs.{IsReadImage, Means, bad_reply};
ghost use Rattle.file_inputs.specs.Linkings.{each_object, linked_by, linked_image};
ghost use Rattle.file_inputs.specs.Reads.{Reads};
ghost use Rattle.cli_base.specs.Outcomes.{IsBadInput};
ghost use Rattle.cli_base.specs.Outputs.{written_name};
ghost use Rattle.cli_base.specs.Readings.{CommandAnswer, Follows, IfStop};

use crate::input::read_as;
use crate::text;
use cli_base::text::bad;
use cli_base::{End, file};
use ebc_base::{Name, Sequence};
use ebc_link::{LinkEnd, LinkPlan, link};
use ebc_object::{Object, ObjectEnd, read_object};
use ebc_outside::Folder;
use pe_image::Image;
use std::alloc::Global;

/// How many bytes the file of an object may have.
const OBJECT_LIMIT: u64 = 1048576;

// The object that a file of this name stands for.
#[tactic(auto, unfolding(crate::specs::Inputs::input))]
fn read_object_file<F: Folder>(
    alloc: Global,
    word: u8,
    name: &str,
    folder: &mut F,
) -> Result<Object, End>
    ensures reads { Reads F.contents F.asked F.read_faults F.write_faults folder.old folder.new result
        (input object_limit object_meaning word name.now) }
    ensures object { IfOk result IsObject }
{
    let bytes = file(alloc, folder, word, name, OBJECT_LIMIT)?;
    match read_object(alloc, bytes.as_slice()) {
        Ok(object) => Ok(object),
        Err(ObjectEnd::Fault { kind, offset }) => {
            Err(End::Stop(text::bad_object(alloc, word, name, kind, offset)?))
        }
        Err(ObjectEnd::NoMemory) => Err(End::NoMemory),
    }
}

/// The objects of these names, which a plan gives that a word names, by its number.
pub fn read_objects<F: Folder>(
    alloc: Global,
    word: u8,
    names: &[Name],
    folder: &mut F,
) -> Result<Sequence<Object>, End>
    ensures reads { Reads F.contents F.asked F.read_faults F.write_faults folder.old folder.new result
        (each_object word names.now) }
    ensures objects { IfOk result (λ objects. All IsObject objects) }
    ensures many { IfOk result (λ objects. length objects ≡ length names.now) }
{
    let mut objects = Vec::new(alloc);
    for name in names {
        let object = read_object_file(alloc, word, name.as_str(), folder)?;
        objects.push(object)?;
    }
    Ok(Sequence::new(objects))
}

// The answer to objects that aren't linked by the plan of this name.
fn unlinked(
    alloc: Global,
    word: u8,
    name: &str,
    number: u8,
    fault: &str,
    detail: &str,
) -> Result<Image, End>
    ensures meaning { Means result (Err (bad_reply word name.now number fault.now detail.now)) }
    ensures stop { IfStop result (λ reply. IsBadInput reply.outcome) }
    ensures output { IfStop result (λ reply. written_name reply.output ≡ None) }
{
    Err(End::Stop(bad(alloc, word, name, number, fault, detail)?))
}

/// What the objects are linked to by the plan that a word names, by its number and its name, or the answer to the first fault.
pub fn linked(
    alloc: Global,
    word: u8,
    name: &str,
    objects: &[Object],
    plan: &LinkPlan,
) -> Result<Image, End>
    requires objects { All IsObject objects.now }
    requires plan { IsPlan plan.now }
    requires count { length objects.now ≡ length plan.now.objects }
    ensures image { Means result (link_meaning word name.now objects.now plan.now) }
    ensures layout { IfOk result IsLinked }
    ensures valid { IfOk result IsReadImage }
    ensures stop { IfStop result (λ reply. IsBadInput reply.outcome) }
    ensures output { IfStop result (λ reply. written_name reply.output ≡ None) }
{
    match link(alloc, objects, plan) {
        Ok(image) => Ok(image),
        Err(LinkEnd::Undefined(symbol)) => unlinked(
            alloc,
            word,
            name,
            1,
            "undefined",
            symbol.as_str(),
        ),
        Err(LinkEnd::Twice(symbol)) => unlinked(alloc, word, name, 2, "twice", symbol.as_str()),
        Err(LinkEnd::Far(place)) => {
            let place = format!(in alloc; "{place}")?;
            unlinked(alloc, word, name, 3, "far", place.as_str())
        }
        Err(LinkEnd::Entry) => unlinked(alloc, word, name, 4, "entry", plan.entry.as_str()),
        Err(LinkEnd::Size) => unlinked(alloc, word, name, 5, "size", "-"),
        Err(LinkEnd::NoMemory) => Err(End::NoMemory),
    }
}

// What the objects of a plan are linked to.
#[tactic(auto, unfolding(crate::specs::Linkings::linked_by))]
fn read_objects_of<F: Folder>(
    alloc: Global,
    word: u8,
    name: &str,
    plan: &LinkPlan,
    folder: &mut F,
) -> Result<Image, End>
    requires plan { IsPlan plan.now }
    ensures reads { Reads F.contents F.asked F.read_faults F.write_faults folder.old folder.new result
        (linked_by word name.now plan.now) }
    ensures layout { IfOk result IsLinked }
{
    let objects = read_objects(alloc, word, plan.objects.as_slice(), folder)?;
    linked(alloc, word, name, objects.as_slice(), plan)
}

/// What the objects of the plan that a word names are linked to, read one after the other behind the plan.
#[tactic(auto, unfolding(crate::specs::Linkings::linked_image))]
pub fn read_linked<F: Folder>(
    alloc: Global,
    word: u8,
    name: &str,
    folder: &mut F,
) -> Result<Image, End>
    ensures reads { Reads F.contents F.asked F.read_faults F.write_faults folder.old folder.new result
        (linked_image word name.now) }
    ensures layout { IfOk result IsLinked }
{
    let plan = read_as::<LinkPlan, F>(alloc, folder, word, name)?;
    read_objects_of(alloc, word, name, &plan, folder)
}

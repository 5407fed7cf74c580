//! The reply to what is asked.
ghost use Rattle.std.specs.Prelude.{◌≡◌, ◌≤◌, All, IfOk, None, length};
ghost use Rattle.ebc_object.specs.Objects.{IsObject};
ghost use Rattle.label_places.specs.Labels.{labels_of};
ghost use Rattle.pe_image.specs.Images.{IsImage};
ghost use Rattle.cli_base.specs.Outputs.{written_name};
ghost use Rattle.label_notes.specs.Answers.{CanBeReplied, IsReplyTo, IsRequestAnswer, ShowsLabels, TellsNotes};

use crate::map::map_text;
use crate::request::Request;
use crate::text::{completion_reply, more_of};
use cli_base::text::printed;
use cli_base::{Outcome, Reply};
use ebc_base::NoMemory;
use ebc_link::LinkPlan;
use ebc_object::Object;
use label_places::labels_of;
use note_completion::{Linked, complete};
use pe_image::Image;
use std::alloc::Global;

// The labels of objects, by their places.
fn map_reply(alloc: Global, plan: &LinkPlan, objects: &[Object]) -> Result<Reply, NoMemory>
    requires objects { All IsObject objects.now }
    requires few { length objects.now ≤ 256 }
    ensures reply { IfOk result (ShowsLabels plan.now.objects (labels_of objects.now)) }
    ensures answer { IfOk result (λ r. IsRequestAnswer r.outcome) }
    ensures output { IfOk result (λ r. written_name r.output ≡ None) }
{
    let labels = labels_of(alloc, objects)?;
    let text = map_text(alloc, plan.objects.as_slice(), labels.labels.as_slice())?;
    Ok(printed(Outcome::Done, text))
}

// What comes of a text of this name.
fn told(alloc: Global, linked: Linked, name: &str, text: &[u8]) -> Result<Reply, NoMemory>
    requires image { IsImage linked.image.now }
    ensures reply { IfOk result (TellsNotes
        linked.entry.plan.now.objects linked.entry.labels.now.labels linked.entry.image.now name.now text.now) }
    ensures answer { IfOk result (λ r. IsRequestAnswer r.outcome) }
    ensures output { IfOk result (λ r. written_name r.output ≡ None) }
{
    let completion = complete(alloc, linked, text)?;
    let more = more_of(alloc, linked, text, &completion)?;
    Ok(completion_reply(alloc, name, more.as_str(), completion)?)
}

// Complete notes of a text of this name, over objects and what they are linked to.
fn notes_reply(
    alloc: Global,
    plan: &LinkPlan,
    objects: &[Object],
    image: &Image,
    name: &str,
    text: &[u8],
) -> Result<Reply, NoMemory>
    requires objects { All IsObject objects.now }
    requires few { length objects.now ≤ 256 }
    requires image { IsImage image.now }
    ensures reply { IfOk result (TellsNotes plan.now.objects (labels_of objects.now) image.now name.now text.now) }
    ensures answer { IfOk result (λ r. IsRequestAnswer r.outcome) }
    ensures output { IfOk result (λ r. written_name r.output ≡ None) }
{
    let labels = labels_of(alloc, objects)?;
    let linked = Linked {
        labels: &labels,
        plan,
        image,
    };
    let reply = told(alloc, linked, name, text);
    drop(labels);
    reply
}

impl Request {
    /// The reply to what is asked.
    ///
    /// # Errors
    ///
    /// There is no memory.
    pub(crate) fn reply(self, alloc: Global) -> Result<Reply, NoMemory>
        requires { CanBeReplied self }
        ensures reply { IfOk result (IsReplyTo self) }
        ensures answer { IfOk result (λ r. IsRequestAnswer r.outcome) }
        ensures output { IfOk result (λ r. written_name r.output ≡ None) }
    {
        match self {
            Request::Map { plan, objects } => {
                let reply = map_reply(alloc, &plan, objects.as_slice());
                drop(plan);
                drop(objects);
                reply
            }
            Request::Notes {
                plan,
                objects,
                image,
                name,
                text,
            } => {
                let reply = notes_reply(
                    alloc,
                    &plan,
                    objects.as_slice(),
                    &image,
                    name.as_str(),
                    text.as_slice(),
                );
                drop(plan);
                drop(objects);
                drop(image);
                drop(name);
                drop(text);
                reply
            }
        }
    }
}

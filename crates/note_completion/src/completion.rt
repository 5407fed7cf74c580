//! What notes with labels are made complete over, and what comes of them.

use ebc_link::LinkPlan;
use label_places::Labels;
use note_filling::Flaw;
use note_types::RuleName;
use pe_image::Image;

/// What labels are sought in: the objects of a plan, and what they are linked to.
#[derive(Clone, Copy)]
pub struct Linked<'a> {
    pub labels: &'a Labels,
    pub plan: &'a LinkPlan,
    pub image: &'a Image,
}

/// What comes of notes with labels.
#[derive(Drop)]
pub enum Completion {
    /// Complete notes, of at most 1 MiB.
    Whole(String),
    /// The text's first fault, by the path that its key has in the text.
    Fault(Flaw),
    /// A rule fails at a place, an offset from the image's base in bytes. `state` has the lines of the state there, as `infer` prints
    /// them, where the search for points stopped there; else it is empty.
    Refused {
        place: u32,
        rule: RuleName,
        state: String,
    },
    /// The notes would be longer than 1 MiB, or have more points than notes may have.
    Large,
}

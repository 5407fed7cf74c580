//! What the words ask for.

use ebc_base::{Name, Sequence};
use ebc_link::LinkPlan;
use ebc_object::Object;
use pe_image::Image;

/// What the words ask for, once the files that they name are read.
#[derive(Drop)]
pub enum Request {
    /// The labels of a plan's objects, by their places.
    Map {
        plan: LinkPlan,
        objects: Sequence<Object>,
    },
    /// The notes that the text of this name stands for, over the objects of a plan and what they are linked to.
    Notes {
        plan: LinkPlan,
        objects: Sequence<Object>,
        image: Image,
        name: Name,
        text: Sequence<u8>,
    },
}

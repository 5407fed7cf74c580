//! What one side of a pair is about.
use note_types::{Notes, Script};
use pe_image::Image;

/// An image with its notes and its script.
#[derive(Clone, Copy)]
pub struct Driver<'a> {
    pub image: &'a Image,
    pub notes: &'a Notes,
    pub script: &'a Script,
}

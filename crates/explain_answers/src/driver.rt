//! A driver that is run.

use note_types::{Notes, Script};
use pe_image::Image;

/// A driver: its image, its notes and its script, with the script's text.
#[derive(Drop)]
pub struct Driver {
    pub image: Image,
    pub notes: Notes,
    pub script: Script,
    pub text: Vec<u8>,
}

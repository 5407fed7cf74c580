//! What is said of the rule `static`, of a static object.

ghost use Rattle.pe_image.specs.Images.{IsImage};

use crate::content::{content_of_blank, content_of_filled, depends};
use crate::ranges::{misplaced, static_range};
use crate::refused::Refused;
use explain_base::{Line, Said};
use note_types::Static;

// What is said of a static object, by its number.
fn said_of_object(refused: &Refused, number: usize, x: &Static) -> Option<Said>
    requires { IsImage refused.now.image.now }
{
    let s = refused.notes.shape.as_slice().get(x.shape as usize)?;
    let range = static_range(refused.notes, number)?;
    let mut name = Line::of(refused.alloc, "the static object of ");
    name.text(s.name.as_str());
    let what = match misplaced(refused, name, &range) {
        Some(what) => what,
        None if depends(s) => content_of_blank(refused.alloc, refused.image, s, &range)?,
        None => content_of_filled(refused, x, s, &range),
    };
    Some(Said::with_key(what, "static", number, "place", "the static object"))
}

/// What is said where a static object isn't as the image has it.
pub(crate) fn said_of_static(refused: &Refused) -> Option<Said>
    requires { IsImage refused.now.image.now }
{
    for (number, x) in refused.notes.statics.as_slice().iter().enumerate() {
        if x.place == refused.place {
            if let Some(said) = said_of_object(refused, number, x) {
                return Some(said);
            }
        }
    }
    None
}

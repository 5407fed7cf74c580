//! Where the checker stands in the sorted lists of points and relocations.

ghost use Rattle.note_types.specs.Records.{Ascends};
ghost use Rattle.pe_image.specs.Images.{IsImage};
ghost use Rattle.rules_image.specs.Marks.{PointsFrom, RelocsFrom};

use note_types::Notes;
use pe_image::Image;

/// Where the checker stands: the number of the first point that isn't before the place, the number of the first relocation
/// that doesn't end before it, and whether the state that is kept falls through to it.
#[derive(Clone, Copy, PartialEq, Eq)]
pub struct Marks {
    pub point: usize,
    pub reloc: usize,
    pub falls: bool,
}

/// The number of the first point that isn't before a place.
pub fn first_point(notes: &Notes, place: u32) -> usize
    requires { Ascends notes.now }
    ensures { PointsFrom notes.now place result }
{
    notes.point.as_slice().partition_point(|p| p.place < place)
}

/// The number of the first relocation that doesn't end before a place or at it.
pub fn first_reloc(image: &Image, place: u32) -> usize
    requires { IsImage image.now }
    ensures { RelocsFrom image.now place result }
{
    let bound = place.saturating_sub(7);
    image.relocs.as_slice().partition_point(|r| *r < bound)
}

//! Where what begins at a place ends.

ghost use Rattle.std.specs.Prelude.{◌≡◌, ◌<◌, All, slice_get};
ghost use Rattle.std.specs.List.Sorted.{IsNonDecreasingBy};
ghost use Rattle.std.specs.Option.{option_map};
ghost use Rattle.label_places.specs.Ends.{IsEndBehind, IsNext, code_end_at, places_in, section_end};
ghost use Rattle.label_places.specs.Views.{HasEnd, is_at};
ghost use Rattle.label_places.specs.declared.label.Position.{Position};

use crate::label::{Labels, ObjectSpan, Position};

// Where a section of an object ends.
fn section_end(section: u8, span: &ObjectSpan) -> u64
    ensures { result ≡ section_end section span.now }
{
    if section == 2 {
        u64::from(span.contents_end)
    } else {
        u64::from(span.code_end)
    }
}

impl Position {
    // Whether it is in this section of this object.
    fn is_at(&self, object: usize, section: u8) -> bool
        ensures { result ≡ is_at object section self.now }
    {
        self.object == object && self.section == section
    }
}

// The first of ascending positions above a place that is in the section of one, where it is less than a bound, and otherwise the bound.
fn first_in(positions: &[Position], position: Position, place: u64, bound: u64) -> u64
    requires ascend { IsNonDecreasingBy (λ (p : Position). p.place) positions.now }
    requires above { All (λ (p : Position). place < p.place) positions.now }
    ensures { HasEnd position.object position.section place bound positions.now result }
{
    for other in positions {
        let next = u64::from(other.place);
        if bound <= next {
            return bound;
        }
        if other.is_at(position.object, position.section) {
            return next;
        }
    }
    bound
}

// The same of positions that may lie before the place.
fn next_in(positions: &[Position], position: Position, place: u64, bound: u64) -> u64
    requires { IsNonDecreasingBy (λ (p : Position). p.place) positions.now }
    ensures { HasEnd position.object position.section place bound positions.now result }
{
    let above = positions.partition_point(|p| u64::from(p.place) <= place);
    first_in(&positions[above..], position, place, bound)
}

impl Labels {
    // The least place above one of the labels of a section, where it is less than a bound, and otherwise the bound.
    fn next_label(&self, position: Position, place: u64, bound: u64) -> u64
        ensures { IsNext place bound (places_in position.object position.section self.now.labels) result }
    {
        next_in(self.by_place.as_slice(), position, place, bound)
    }

    /// Where what begins at a place ends, in the section of a label: at the section's next label, or else with the section. None where
    /// there is no such section. It looks at one more label each time that there are twice as many.
    pub fn end_behind(&self, position: Position, place: u64) -> Option<u64>
        ensures { IsEndBehind place (option_map (section_end position.section) (slice_get self.now.spans position.object))
            (places_in position.object position.section self.now.labels) result }
    {
        match self.spans.as_slice().get(position.object) {
            Some(span) => {
                let bound = section_end(position.section, span);
                Some(self.next_label(position, place, bound))
            }
            None => None,
        }
    }

    /// Where the code of the object ends that has a place in its code.
    pub fn code_end(&self, place: u64) -> Option<u64>
        ensures { result ≡ code_end_at place self.now.spans }
    {
        let mut spans = self.spans.as_slice().iter();
        let span = spans.find(|span| u64::from(span.code) <= place
            && place < u64::from(span.code_end));
        match span {
            Some(span) => Some(u64::from(span.code_end)),
            None => None,
        }
    }
}

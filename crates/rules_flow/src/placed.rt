//! What stands at a place of the code, found by binary search: points, functions and sites ascend by place.

ghost use Rattle.std.specs.Prelude.{◌≡◌, ◌↔◌, IsTrue, map};
ghost use Rattle.std.specs.List.Sorted.{IsStrictlyIncreasing};
ghost use Rattle.note_types.specs.Records.{Ascends};
ghost use Rattle.rules_flow.specs.Found.{number_at, number_from};

use note_types::{Notes, Placed};

/// The number of the thing at a place. It looks at one more thing each time that the list has twice as many.
pub fn number_at<T: Placed>(things: &[T], place: u128) -> Option<usize>
    requires { IsStrictlyIncreasing (map T.place_of things.now) }
    ensures { result ≡ number_at T.place_of things.now place }
{
    let begun = things.partition_point(|x| u128::from(x.place()) < place);
    let found = things.get(begun)?;
    if u128::from(found.place()) == place {
        Some(begun)
    } else {
        None
    }
}

/// The same of a place that may be negative.
pub fn number_from<T: Placed>(things: &[T], place: i128) -> Option<usize>
    requires { IsStrictlyIncreasing (map T.place_of things.now) }
    ensures { result ≡ number_from T.place_of things.now place }
{
    if 0 <= place {
        number_at(things, place.unsigned_abs())
    } else {
        None
    }
}

// Whether things ascend by place, no two at one.
fn rise<T: Placed>(things: &[T]) -> bool
    ensures { IsTrue result ↔ IsStrictlyIncreasing (map T.place_of things.now) }
{
    match things {
        [first, rest @ ..] => match rest {
            [second, ..] => first.place() < second.place() && rise(rest),
            [] => true,
        },
        [] => true,
    }
}

/// Whether the functions, points and sites of notes ascend by place, as those of notes that were read do.
pub fn places_ascend(notes: &Notes) -> bool
    ensures { IsTrue result ↔ Ascends notes.now }
{
    if !rise(notes.function.as_slice()) {
        return false;
    }
    if !rise(notes.point.as_slice()) {
        return false;
    }
    rise(notes.site.as_slice())
}

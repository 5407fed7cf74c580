//! The function that a place belongs to.
ghost use Rattle.std.specs.Prelude.{◌≡◌, option_copied};
ghost use Rattle.note_types.specs.Records.{function_at, has_place};

use note_types::{FnNote, Notes};

// Whether a function's code has a place.
fn has_place(f: &FnNote, place: u32) -> bool
    ensures { result ≡ has_place place f.now }
{
    f.place <= place && place < f.end
}

/// The function that a place belongs to: the first one, in the order of the notes, whose code has it.
#[tactic(auto, unfolding(note_types::specs::Records::function_at))]
pub fn function_at(notes: &Notes, place: u32) -> Option<&FnNote>
    ensures { option_copied result ≡ function_at notes.now place }
{
    notes
        .function
        .as_slice()
        .iter()
        .find(|f| has_place(f, place))
}

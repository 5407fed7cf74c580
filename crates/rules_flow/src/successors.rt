//! What an instruction of control or of the stack leads to.

ghost use Rattle.std.specs.Prelude.{◌≡◌};
ghost use Rattle.rules_flow.specs.Successors.{ends, falls, goes, parts};

use note_types::State;

/// The states after an instruction: before the next instruction, where control may go there, and before the instruction
/// at another place of the function.
#[derive(Drop)]
pub struct Successors {
    pub fall: Option<State>,
    pub jump: Option<(u32, State)>,
}

impl Successors {
    /// The next instruction.
    pub fn falls(s: State) -> Self
        ensures { result ≡ falls s }
    {
        Successors {
            fall: Some(s),
            jump: None,
        }
    }

    /// The instruction at a place.
    pub fn goes(place: u32, s: State) -> Self
        ensures { result ≡ goes place s }
    {
        Successors {
            fall: None,
            jump: Some((place, s)),
        }
    }

    /// The next instruction, or the one at a place.
    pub fn parts(s: State, place: u32, t: State) -> Self
        ensures { result ≡ parts s place t }
    {
        Successors {
            fall: Some(s),
            jump: Some((place, t)),
        }
    }

    /// No instruction of the function.
    pub fn ends() -> Self
        ensures { result ≡ ends }
    {
        Successors {
            fall: None,
            jump: None,
        }
    }
}

//! What is around an instruction, as far as departures hang on it.

ghost use Rattle.std.specs.Prelude.{◌≡◌, map, pos};
ghost use Rattle.std.specs.List.Sorted.{IsStrictlyIncreasing};
ghost use Rattle.ebc_insn.specs.Spelling.{WellFormed};
ghost use Rattle.image_warnings.specs.Around.{around_of};
ghost use Rattle.image_warnings.specs.Walks.{following_insn};

use crate::effect::{Effect, lists, stores_listed};
use departures::{Around, Uncut, hands_text, loaded_field};
use ebc_insn::Insn;
use note_types::{State, Static};
use state_walk::{Before, Walk};

/// The instruction that stands at the next place, if one does.
pub(crate) fn following_insn(next: &Option<Before>) -> Option<(Insn, u32)>
    ensures { result ≡ following_insn next.now }
{
    match next {
        Some(next) => next.insn,
        None => None,
    }
}

/// What the image has beside an instruction: the effects of its instructions, its texts without a zero, which bits of R7 may be as a
/// native call left them, and what stands behind it.
#[derive(Clone, Copy)]
pub(crate) struct Beside<'a> {
    pub effects: &'a [Effect],
    pub texts: &'a [Static],
    pub uncut: Uncut,
    pub behind: Option<(Insn, u32)>,
}

impl<'a> Beside<'a> {
    /// What is around an instruction at a place of a walk, in a state.
    pub fn around(&self, walk: &Walk, place: u32, state: &State, insn: &Insn) -> Around
        requires insn { WellFormed insn.now }
        requires sites { IsStrictlyIncreasing (map (λ x. x.place) walk.now.notes.now.site) }
        ensures { result ≡ around_of self.now.effects.now self.now.texts.now self.now.uncut self.now.behind walk.now.notes.now
            walk.now.f.now place state.now insn.now }
    {
        let loaded = loaded_field(walk.notes, walk.f, state, insn);
        Around {
            uncut: self.uncut,
            stored: stores_listed(self.effects, &loaded),
            called: lists(self.effects, &Effect::Call(i128::from(walk.f.place))),
            unended: hands_text(self.texts, walk.notes, place, state),
            behind: self.behind,
        }
    }
}

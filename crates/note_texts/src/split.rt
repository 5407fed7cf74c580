//! Texts that are cut at a mark.
ghost use Rattle.std.specs.Prelude.{◌≡◌, ◌<◌, option_map, Some, None, IfOk, map, ◌==◌};
ghost use Rattle.std.specs.List.{slice_split};
ghost use Rattle.note_texts.specs.Splits.{parts_at, split_at};

use std::alloc::{AllocError, Global};

/// What stands before the first `mark`, and what follows it.
#[tactic(auto, unfolding(crate::specs::Splits::split_at))]
pub fn split_at(mark: u8, text: &str) -> Option<(&str, &str)>
    requires { mark < 128 }
    ensures { option_map (λ parts. (parts.0.now, parts.1.now)) result ≡ split_at mark text.now }
{
    text.split_once(char::from(mark))
}

/// What stands before the first `mark`, and what follows it, if there is one.
#[tactic(auto, unfolding(crate::specs::Splits::parts_at))]
pub fn parts_at(mark: u8, text: &str) -> (&str, Option<&str>)
    requires { mark < 128 }
    ensures { (result.0.now, option_map (λ rest. rest.now) result.1) ≡ parts_at mark text.now }
{
    match text.split_once(char::from(mark)) {
        Some((before, after)) => (before, Some(after)),
        None => (text, None),
    }
}

/// What stands before, between and after the marks `!`.
pub(crate) fn pieces(alloc: Global, text: &str) -> Result<Vec<&str>, AllocError>
    ensures { IfOk result (λ parts. map (λ part. part.now) parts.items ≡ slice_split (λ b. b == 33) text.now) }
{
    text.split('!').collect(alloc)
}

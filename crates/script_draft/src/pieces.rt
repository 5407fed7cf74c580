//! Values in a row.
ghost use Rattle.std.specs.Prelude.{◌≡◌, IfOk, None, option_map};
ghost use Rattle.script_draft.specs.Pieces.{cut, values_of};

use crate::value::ValueText;
use note_texts::FromText;
use note_types::Sequence;
use std::alloc::{AllocError, Global};

/// What stands before the first `, ` and what follows it.
fn cut(text: &str) -> Option<(&str, &str)>
    ensures { option_map (λ parts. (parts.0.now, parts.1.now)) result ≡ cut text.now }
{
    text.split_once(", ")
}

/// The values of a text in which `, ` stands between them, at least one.
pub(crate) fn values_of(
    alloc: Global,
    text: &str,
) -> Result<Option<Sequence<ValueText>>, AllocError>
    ensures { IfOk result (λ values. values ≡ values_of text.now) }
{
    let mut values = Vec::new(alloc);
    let mut rest = text;
    while let Some((first, after)) = cut(rest) {
        let Some(value) = ValueText::from_text(alloc, first)? else {
            return Ok(None);
        };
        values.push(value)?;
        rest = after;
    }
    let Some(value) = ValueText::from_text(alloc, rest)? else {
        return Ok(None);
    };
    values.push(value)?;
    Ok(Some(Sequence::new(values)))
}

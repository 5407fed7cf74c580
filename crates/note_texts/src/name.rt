//! Names.
ghost use Rattle.std.specs.Prelude.{◌≡◌, Some, None, IfOk, map};
ghost use Rattle.note_texts.specs.Grammar.{IsNameText, ReadsJust};
ghost use Rattle.ebc_base.specs.Names.{is_name, name_of};
ghost use Rattle.note_texts.specs.Names.{names_of};

use crate::from_text::FromText;
use ebc_base::is_name;
use note_types::{Name, Names};
use std::alloc::{AllocError, Global};

fn name_of(alloc: Global, text: &str) -> Result<Option<Name>, AllocError>
    ensures { IfOk result (λ name. name ≡ name_of text.now) }
{
    if !is_name(text.as_bytes()) {
        return Ok(None);
    }
    Ok(Some(Name::new(String::from_str(alloc, text)?)))
}

impl FromText for Name {
    ghost reads_as = { name_of };

    /// A name of 1 to 63 letters, digits, `_` and `.`, which begins with no digit.
    fn from_text(alloc: Global, text: &str) -> Result<Option<Self>, AllocError>
        ensures value { IfOk result (λ name. name ≡ name_of text.now) }
        ensures grammar { IfOk result (λ name. ReadsJust name (IsNameText text.now)) }
    {
        name_of(alloc, text)
    }
}

/// The names that these texts are.
pub(crate) fn names_of(alloc: Global, texts: &[&str]) -> Result<Option<Names>, AllocError>
    ensures { IfOk result (λ names. names ≡ names_of (map (λ text. text.now) texts.now)) }
{
    let mut names = Vec::new(alloc);
    for text in texts {
        let Some(name) = Name::from_text(alloc, text)? else {
            return Ok(None);
        };
        names.push(name)?;
    }
    Ok(Some(Names::new(names)))
}

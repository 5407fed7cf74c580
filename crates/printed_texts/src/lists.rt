//! Lists of small texts, on a line.
ghost use Rattle.std.specs.Prelude.{◌≡◌, ◌++◌, IfOk, codes, map, string_bytes};
ghost use Rattle.std.specs.List.{flat_map};
ghost use Rattle.printed_texts.specs.PrintedStates.{array_line, comma_list, in_quotes, item_line};

use note_types::{Name, Names, NoMemory};
use std::alloc::{AllocError, Global};

// A text, and others behind it, each after `, `.
fn listed_from(alloc: Global, first: &str, rest: &[Name]) -> Result<String, AllocError>
    ensures { IfOk result (λ text. string_bytes text ≡ first.now ++ flat_map (λ t. codes ", " ++ t) rest.now) }
{
    let mut text = String::from_str(alloc, first)?;
    for other in rest {
        text.push_str(", ")?;
        text.push_str(other.as_str())?;
    }
    Ok(text)
}

// Texts one after the other, `, ` between two.
fn comma_list(alloc: Global, texts: &[Name]) -> Result<String, AllocError>
    ensures { IfOk result (λ text. string_bytes text ≡ comma_list texts.now) }
{
    match texts {
        [] => Ok(String::new(alloc)),
        [first, rest @ ..] => listed_from(alloc, first.as_str(), rest),
    }
}

// Each text in quotes.
fn quoted_each(alloc: Global, texts: &[Name]) -> Result<Names, NoMemory>
    ensures { IfOk result (λ quoted. quoted ≡ map in_quotes texts.now) }
{
    let mut quoted = Vec::new(alloc);
    for text in texts {
        let text = text.as_str();
        quoted.push(Name::new(format!(in alloc; "\"{text}\"")?))?;
    }
    Ok(Names::new(quoted))
}

/// The line of a list at a key of a table of TOML.
///
/// # Errors
///
/// Want of memory alone.
pub(crate) fn array_line(alloc: Global, key: &str, texts: &[Name]) -> Result<String, NoMemory>
    ensures { IfOk result (λ line. string_bytes line ≡ array_line key.now texts.now) }
{
    let quoted = quoted_each(alloc, texts)?;
    let list = comma_list(alloc, quoted.as_slice())?;
    Ok(format!(in alloc; "{key} = [{list}]\n")?)
}

/// The line of a word and the texts behind it.
///
/// # Errors
///
/// Want of memory alone.
pub(crate) fn item_line(alloc: Global, word: &str, texts: &[Name]) -> Result<String, AllocError>
    ensures { IfOk result (λ line. string_bytes line ≡ item_line word.now texts.now) }
{
    match texts {
        [] => format!(in alloc; "{word}\n"),
        [first, rest @ ..] => {
            let list = listed_from(alloc, first.as_str(), rest)?;
            format!(in alloc; "{word} {list}\n")
        }
    }
}

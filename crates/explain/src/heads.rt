//! With what the first line of a refusal begins.
ghost use Rattle.std.specs.Prelude.{◌≡◌, IfOk, Some, string_bytes};
ghost use Rattle.note_types.specs.Records.{function_at};
ghost use Rattle.explain.specs.Heads.{code_head, image_head, place_told, rule_head};
ghost use Rattle.explain.specs.Places.{function_place_text, number_text};

use ebc_base::NoMemory;
use note_types::{Notes, RuleName};
use printed_texts::{function_at, rule_text};
use std::alloc::Global;
use std::fmt;

// A place or an offset, in hexadecimal digits.
#[derive(Clone, Copy, PartialEq, Eq)]
struct Hexadecimal(u32);

impl fmt::Display for Hexadecimal {
    ghost output = { λ x. Some (number_text x.0) };

    #[tactic(auto, unfolding(crate::specs::Places::number_text))]
    fn fmt<W: fmt::Write>(&self, f: &mut fmt::Formatter<W>) -> fmt::Result {
        let number = self.0;
        write!(f, "0x{number:x}")
    }
}

/// A place of an image as a number, as `0x1012`.
pub(crate) fn number_text(alloc: Global, place: u32) -> Result<String, NoMemory>
    ensures { IfOk result (λ text. string_bytes text ≡ number_text place) }
{
    let number = Hexadecimal(place);
    Ok(format!(in alloc; "{number}")?)
}

/// A place of an image by the function that it belongs to, as `main+0x12`, or as a number.
pub(crate) fn place_text(alloc: Global, notes: &Notes, place: u32) -> Result<String, NoMemory>
    ensures { IfOk result (λ text. string_bytes text ≡ function_place_text (function_at notes.now place) place) }
{
    let Some(f) = function_at(notes, place) else {
        return number_text(alloc, place);
    };
    let name = f.name.as_str();
    let offset = Hexadecimal(place.saturating_sub(f.place));
    Ok(format!(in alloc; "{name}+{offset}")?)
}

// What stands behind the file's name of an image: its place, or nothing of `shape`.
fn place_told(alloc: Global, rule: RuleName, place: &str) -> Result<String, NoMemory>
    ensures { IfOk result (λ text. string_bytes text ≡ place_told rule place.now) }
{
    match rule {
        RuleName::Shape => Ok(String::new(alloc)),
        _ => Ok(format!(in alloc; ": {place}")?),
    }
}

// A file, a place behind its name, and a rule.
fn rule_head(alloc: Global, file: &str, at: &str, rule: RuleName) -> Result<String, NoMemory>
    ensures { IfOk result (λ text. string_bytes text ≡ rule_head file.now at.now rule) }
{
    let rule = rule_text(rule);
    Ok(format!(in alloc; "{file}{at}: error: {rule}")?)
}

/// An image, its place, and a rule: `driver.efi: main+0x12: error: stack`.
pub(crate) fn image_head(
    alloc: Global,
    file: &str,
    place: &str,
    rule: RuleName,
) -> Result<String, NoMemory>
    ensures { IfOk result (λ text. string_bytes text ≡ image_head file.now place.now rule) }
{
    let at = place_told(alloc, rule, place)?;
    rule_head(alloc, file, at.as_str(), rule)
}

/// Raw code, its offset and a rule: `form.bin:0x0: error: form`.
pub(crate) fn code_head(
    alloc: Global,
    file: &str,
    place: u32,
    rule: RuleName,
) -> Result<String, NoMemory>
    ensures { IfOk result (λ text. string_bytes text ≡ code_head file.now place rule) }
{
    let number = Hexadecimal(place);
    let at = format!(in alloc; ":{number}")?;
    rule_head(alloc, file, at.as_str(), rule)
}

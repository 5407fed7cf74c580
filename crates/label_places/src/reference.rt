//! The texts that name places by labels.

ghost use Rattle.std.specs.Prelude.{◌≡◌, ◌≤◌, IfSome, option_map};
ghost use Rattle.label_places.specs.References.{addend_of, furthest, named, reference_of};
ghost use Rattle.label_places.specs.Views.{reference_view};

use ebc_base::is_name;
use note_texts::{number_in, parts_at};

/// A reference to a label: its name, the object that has it where that is said, and how many bytes behind it the place is.
#[derive(Clone, Copy)]
pub struct Reference<'a> {
    pub object: Option<&'a str>,
    pub name: &'a str,
    pub addend: u64,
}

// The greatest distance behind a label.
const FURTHEST: u64 = 4_194_303;

// How many bytes behind a label the digits say, or none.
fn addend_of(digits: Option<&str>) -> Option<u64>
    ensures value { result ≡ addend_of (option_map (λ d. d.now) digits.entry) }
    ensures small { IfSome result (λ n. n ≤ furthest) }
{
    match digits {
        Some(digits) => number_in(0, FURTHEST, digits.as_bytes()),
        None => Some(0),
    }
}

// A name and how many bytes behind it.
fn named<'a>(object: Option<&'a str>, text: &'a str) -> Option<Reference<'a>>
    ensures value { option_map reference_view result ≡ named (option_map (λ o. o.now) object.entry) text.now }
    ensures small { IfSome result (λ r. r.addend ≤ furthest) }
{
    let (name, digits) = parts_at(b'+', text);
    if !is_name(name.as_bytes()) {
        return None;
    }
    let addend = addend_of(digits)?;
    Some(Reference {
        object,
        name,
        addend,
    })
}

/// What a text refers to: `LABEL`, `OBJECT:LABEL`, and either with `+N` behind it. docs/LABELS.md, "A label".
#[tactic(auto, unfolding(crate::specs::References::reference_of))]
pub fn reference_of(text: &str) -> Option<Reference<'_>>
    ensures reference { option_map reference_view result ≡ reference_of text.now }
    ensures small { IfSome result (λ r. r.addend ≤ furthest) }
{
    match parts_at(b':', text) {
        (object, Some(rest)) => named(Some(object), rest),
        (whole, None) => named(None, whole),
    }
}

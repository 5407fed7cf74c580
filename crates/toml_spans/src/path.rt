//! Paths of keys, as `function[2].need`, and how far what stands in a text agrees with one.

use ebc_base::NoMemory;
use std::alloc::Global;
use toml_parser::{ParseError, quoted, starts_string};

/// A step of a path: to a key of a table, or to the item of that number of a list.
#[derive(Drop)]
pub(crate) enum Step {
    Key(String),
    Item(usize),
}

// Whether a key of a path that isn't in quotes ends before this.
fn ends_key(c: char) -> bool {
    c == '.' || c == '['
}

// The step to a key in quotes, and what follows it; none if it isn't a string of TOML.
fn quoted_step(alloc: Global, path: &str) -> Result<Option<(Step, &str)>, NoMemory> {
    if !starts_string(path) {
        return Ok(None);
    }
    match quoted(alloc, path) {
        Ok((key, rest)) => Ok(Some((Step::Key(key), rest))),
        Err(ParseError::OutOfMemory) => Err(NoMemory),
        Err(ParseError::At(..)) => Ok(None),
    }
}

// The step to an item, whose number and a bracket come next, and what follows it.
fn item_step(path: &str) -> Option<(Step, &str)> {
    let (digits, rest) = path.split_once(']')?;
    let number = digits.parse::<usize>().ok()?;
    Some((Step::Item(number), rest))
}

// The first step of a path, and what follows it; none if it isn't one.
fn first_step(alloc: Global, path: &str) -> Result<Option<(Step, &str)>, NoMemory> {
    if let Some(rest) = path.strip_prefix('[') {
        return Ok(item_step(rest));
    }
    if path.starts_with('"') {
        return quoted_step(alloc, path);
    }
    let (key, rest) = match path.find(ends_key) {
        Some(at) => path.split_at(at),
        None => (path, ""),
    };
    Ok(Some((Step::Key(String::from_str(alloc, key)?), rest)))
}

/// The steps of a path as readers tell it; none if it isn't one.
pub(crate) fn steps_of(alloc: Global, path: &str) -> Result<Vec<Step>, NoMemory> {
    let mut steps = Vec::new(alloc);
    let mut rest = path;
    for _ in 0..path.len() {
        if rest.is_empty() {
            return Ok(steps);
        }
        let Some((step, after)) = first_step(alloc, rest)? else {
            return Ok(Vec::new(alloc));
        };
        steps.push(step)?;
        rest = after.strip_prefix('.').unwrap_or(after);
    }
    Ok(steps)
}

// The text that a key in quotes stands for; none if it stands for none.
fn unquoted_key(alloc: Global, spelled: &[u8]) -> Result<Option<String>, NoMemory> {
    let Ok(text) = std::str::from_utf8(spelled) else {
        return Ok(None);
    };
    match quoted_step(alloc, text)? {
        Some((Step::Key(key), _)) => Ok(Some(key)),
        _ => Ok(None),
    }
}

// Whether a key is spelled so in a text, bare or in quotes.
fn is_spelled(alloc: Global, key: &str, spelled: &[u8]) -> Result<bool, NoMemory> {
    match spelled.first() {
        Some(b'"' | b'\'') => match unquoted_key(alloc, spelled)? {
            Some(text) => Ok(text.as_str() == key),
            None => Ok(false),
        },
        _ => Ok(spelled == key.as_bytes()),
    }
}

/// What is left of a path behind a key that is spelled so; none if it goes on otherwise.
pub(crate) fn behind_key<'a>(
    alloc: Global,
    path: &'a [Step],
    spelled: &[u8],
) -> Result<Option<&'a [Step]>, NoMemory> {
    match path.split_first() {
        Some((Step::Key(key), left)) if is_spelled(alloc, key.as_str(), spelled)? => Ok(Some(left)),
        _ => Ok(None),
    }
}

/// What is left of a path behind the item of that number; none if it goes on otherwise.
pub(crate) fn behind_item(path: &[Step], number: usize) -> Option<&[Step]> {
    match path.split_first()? {
        (Step::Item(wanted), left) if *wanted == number => Some(left),
        _ => None,
    }
}

//! The walk through a text, up to what has a path.

ghost use Rattle.std.specs.Prelude.{◌≡◌, ◌+◌, ◌≤◌, length, IfOk, IfSome};
ghost use Rattle.toml_spans.specs.Spans.{AreSpansIn, IsSpanIn};

use crate::lists::Lists;
use crate::path::{Step, behind_key, steps_of};
use crate::skip::{
    first, has_long_strings, past, past_blank, past_comma, past_pair, past_pairs, past_spaces,
    past_value, split_key,
};
use crate::span::KeySpan;
use ebc_base::NoMemory;
use std::alloc::Global;
use toml_parser::bytes::byte_at;

// A place of the walk: what is left of the path there, if it agrees so far, and the rest of the text.
#[derive(Clone, Copy)]
struct Place<'a> {
    left: Option<&'a [Step]>,
    rest: &'a [u8],
}

// A value that may have what is sought: the offset of its key, the text from the value on, and what is left of the path.
#[derive(Clone, Copy)]
struct Owner<'a> {
    key: usize,
    left: &'a [Step],
    value: &'a [u8],
}

// The item of a list by its number, if it is there: the text from it on.
fn item_of(list: &[u8], number: usize) -> Option<&[u8]>
    ensures { IfSome result (λ item. length item.now ≤ length list.now) }
{
    if first(list) != b'[' {
        return None;
    }
    let mut rest = past_blank(past(list, 1));
    'items: for _ in 0..number.min(list.len()) {
        rest = past_comma(past_value(rest));
    }
    match first(rest) {
        0 | b']' => None,
        _ => Some(rest),
    }
}

// The walk through a text of so many bytes, for what has a path.
#[derive(Clone, Copy)]
struct Walk<'a> {
    alloc: Global,
    size: usize,
    path: &'a [Step],
}

impl<'a> Walk<'a> {
    // The offset of the rest of the text.
    fn offset(&self, rest: &[u8]) -> usize
        requires { length rest.now ≤ self.now.size }
        ensures { result + length rest.now ≡ self.now.size }
    {
        self.size - rest.len()
    }

    // Where the items of a list stand; none for what is no list.
    fn items(&self, list: &[u8]) -> Result<Vec<(usize, usize)>, NoMemory>
        requires { length list.now ≤ self.now.size }
        ensures { IfOk result (λ items. AreSpansIn self.now.size items.items) }
    {
        let mut items = Vec::new(self.alloc);
        if first(list) != b'[' {
            return Ok(items);
        }
        let mut rest = past_blank(past(list, 1));
        'items: for _ in 0..list.len() {
            if matches!(first(rest), 0 | b']') {
                return Ok(items);
            }
            let after = past_value(rest);
            items.push((self.offset(rest), self.offset(after)))?;
            rest = past_comma(after);
        }
        Ok(items)
    }

    // Where a value stands whose key is at an offset.
    fn value_span(&self, key: usize, value: &[u8]) -> Result<KeySpan, NoMemory>
        requires { key + length value.now ≤ self.now.size }
        ensures { IfOk result (IsSpanIn self.now.size) }
    {
        let items = self.items(value)?;
        Ok(KeySpan {
            key,
            from: self.offset(value),
            to: self.offset(past_value(value)),
            items,
        })
    }

    // Where a header stands, with what follows it.
    fn header_span(&self, header: &[u8], after: &[u8]) -> KeySpan
        requires within { length header.now ≤ self.now.size }
        requires after { length after.now ≤ length header.now }
        ensures { IsSpanIn self.now.size result }
    {
        let from = self.offset(header);
        KeySpan {
            key: from,
            from,
            to: self.offset(after),
            items: Vec::new(self.alloc),
        }
    }

    // Goes past a part of a key.
    fn part(&self, at: Place<'a>) -> Result<Place<'a>, NoMemory>
        ensures { IfOk result (λ place. length place.rest.now ≤ length at.entry.rest.now) }
    {
        let (spelled, rest) = split_key(at.rest);
        let left = match at.left {
            Some(left) => behind_key(self.alloc, left, spelled)?,
            None => None,
        };
        Ok(Place { left, rest })
    }

    // Goes past a key and the spaces behind it. Each of its parts but the last may name a list of tables.
    fn key(&self, lists: &Lists, at: Place<'a>) -> Result<Place<'a>, NoMemory>
        ensures { IfOk result (λ place. length place.rest.now ≤ length at.entry.rest.now) }
    {
        let mut place = at;
        'parts: for _ in 0..at.rest.len() {
            let Place { left, rest } = self.part(place)?;
            let rest = past_spaces(rest);
            if first(rest) != b'.' {
                return Ok(Place { left, rest });
            }
            place = Place {
                left: lists.in_last(left),
                rest: past_spaces(past(rest, 1)),
            };
        }
        Ok(place)
    }

    // The value of the pair that comes next, if the path goes on with its key.
    fn pair(&self, lists: &Lists, at: Place<'a>) -> Result<Option<Owner<'a>>, NoMemory>
        requires { length at.rest.now ≤ self.now.size }
        ensures { IfOk result (λ found. IfSome found (λ o. o.key + length o.value.now ≤ self.now.size)) }
    {
        if at.left.is_none() {
            return Ok(None);
        }
        let Place { left, rest } = self.key(lists, at)?;
        match left {
            Some(left) => Ok(Some(Owner {
                key: self.offset(at.rest),
                left,
                value: past_spaces(past(rest, 1)),
            })),
            None => Ok(None),
        }
    }

    // The value of the pair of an inline table with whose key the path goes on.
    fn member(&self, lists: &Lists, owner: Owner<'a>) -> Result<Option<Owner<'a>>, NoMemory>
        requires { owner.key + length owner.value.now ≤ self.now.size }
        ensures { IfOk result (λ found. IfSome found (λ o. o.key + length o.value.now ≤ self.now.size)) }
    {
        if first(owner.value) != b'{' {
            return Ok(None);
        }
        let left = Some(owner.left);
        let mut rest = past_blank(past(owner.value, 1));
        'pairs: for _ in 0..owner.value.len() {
            if matches!(first(rest), 0 | b'}') {
                return Ok(None);
            }
            if let Some(inner) = self.pair(lists, Place { left, rest })? {
                return Ok(Some(inner));
            }
            rest = past_comma(past_pair(rest));
        }
        Ok(None)
    }

    // What the next step of the path leads to.
    fn next(&self, lists: &Lists, owner: Owner<'a>) -> Result<Option<Owner<'a>>, NoMemory>
        requires { owner.key + length owner.value.now ≤ self.now.size }
        ensures { IfOk result (λ found. IfSome found (λ o. o.key + length o.value.now ≤ self.now.size)) }
    {
        let Some((Step::Item(number), left)) = owner.left.split_first() else {
            return self.member(lists, owner);
        };
        match item_of(owner.value, *number) {
            Some(value) => Ok(Some(Owner {
                key: self.offset(value),
                left,
                value,
            })),
            None => Ok(None),
        }
    }

    // Where what has the path stands in a value.
    fn found(&self, lists: &Lists, outer: Owner<'a>) -> Result<Option<KeySpan>, NoMemory>
        requires { outer.key + length outer.value.now ≤ self.now.size }
        ensures { IfOk result (λ found. IfSome found (IsSpanIn self.now.size)) }
    {
        let mut owner = outer;
        'steps: for _ in 0..self.path.len() {
            if owner.left.is_empty() {
                return Ok(Some(self.value_span(owner.key, owner.value)?));
            }
            match self.next(lists, owner)? {
                Some(inner) => owner = inner,
                None => return Ok(None),
            }
        }
        Ok(None)
    }

    // Goes past a header. What is left is empty in the table that has the path, and at the first table of a list that has it.
    fn header(&self, lists: &mut Lists, text: &'a [u8]) -> Result<Place<'a>, NoMemory>
        ensures { IfOk result (λ place. length place.rest.now ≤ length text.now) }
    {
        let is_list = byte_at(text, 1) == b'[';
        let brackets = if is_list { 2 } else { 1 };
        let at = Place {
            left: Some(self.path),
            rest: past_spaces(past(text, brackets)),
        };
        let Place { left, rest } = self.key(lists, at)?;
        let left = if is_list { lists.add(left) } else { left };
        Ok(Place {
            left,
            rest: past(rest, brackets),
        })
    }

    // Goes through the text.
    fn document(&self, text: &'a [u8]) -> Result<Option<KeySpan>, NoMemory>
        requires { length text.now ≤ self.now.size }
        ensures { IfOk result (λ found. IfSome found (IsSpanIn self.now.size)) }
    {
        let is_even = !has_long_strings(text);
        let mut lists = Lists::new(self.alloc, self.path.len())?;
        let mut left = Some(self.path);
        let mut rest = past_blank(text);
        'lines: for _ in 0..text.len() {
            if rest.is_empty() {
                return Ok(None);
            }
            if first(rest) == b'[' {
                let table = self.header(&mut lists, rest)?;
                if has_ended(table.left) {
                    return Ok(Some(self.header_span(rest, table.rest)));
                }
                left = table.left;
                rest = past_blank(table.rest);
            } else if is_even && left.is_none() {
                rest = past_pairs(rest);
            } else {
                if let Some(owner) = self.pair(&lists, Place { left, rest })? {
                    return self.found(&lists, owner);
                }
                rest = past_blank(past_pair(rest));
            }
        }
        Ok(None)
    }
}

// Whether nothing is left of the path, which agreed so far.
fn has_ended(left: Option<&[Step]>) -> bool {
    match left {
        Some(left) => left.is_empty(),
        None => false,
    }
}

/// Where what has a path stands in a document of TOML: a key, an item of a list, or a table, by its header. A path
/// is written as readers tell it, as `function[2].need`. A key of other than letters, digits, `_` and `-` stands in
/// quotes there. A list of tables is where the header of its first table is.
///
/// It is none if nothing in the text has this path. Of a text that is no document it is some span of it, or none.
///
/// # Errors
///
/// There was no memory.
pub fn key_span(alloc: Global, text: &str, path: &str) -> Result<Option<KeySpan>, NoMemory>
    ensures { IfOk result (λ found. IfSome found (IsSpanIn (length text.now))) }
{
    let steps = steps_of(alloc, path)?;
    if steps.is_empty() {
        return Ok(None);
    }
    let walk = Walk {
        alloc,
        size: text.len(),
        path: steps.as_slice(),
    };
    let text = text.strip_prefix('\u{feff}').unwrap_or(text);
    walk.document(text.as_bytes())
}

//! What follows the parts of a text in TOML, as bytes. Of what is no document it is some rest of it.

ghost use Rattle.std.specs.Prelude.{◌≡◌, ◌≤◌, length, slice_index};

use memchr::{memchr, memmem};
use toml_parser::bytes::{byte_at, is_bare, is_word, is_ws};

/// The first byte, and 0 where there is none.
pub(crate) fn first(text: &[u8]) -> u8
    ensures { result ≡ slice_index text.now 0 }
{
    byte_at(text, 0)
}

/// What follows so many bytes; nothing if there are fewer.
pub(crate) fn past(text: &[u8], count: usize) -> &[u8]
    ensures { length result.now ≤ length text.now }
{
    text.get(count..).unwrap_or(&[])
}

/// What follows spaces and tabs.
pub(crate) fn past_spaces(text: &[u8]) -> &[u8]
    ensures { length result.now ≤ length text.now }
{
    past(text, text.iter().take_while(|byte| is_ws(**byte)).count())
}

/// What follows white space, ends of lines and comments.
pub(crate) fn past_blank(text: &[u8]) -> &[u8]
    ensures { length result.now ≤ length text.now }
{
    let mut is_comment = false;
    for (at, byte) in text.iter().enumerate() {
        match byte {
            b'\n' => is_comment = false,
            b'#' => is_comment = true,
            b' ' | b'\t' | b'\r' => {}
            _ if is_comment => {}
            _ => return past(text, at),
        }
    }
    &[]
}

/// What follows a comma, if one comes next, with the blanks around it.
pub(crate) fn past_comma(text: &[u8]) -> &[u8]
    ensures { length result.now ≤ length text.now }
{
    let rest = past_blank(text);
    if first(rest) == b',' {
        past_blank(past(rest, 1))
    } else {
        rest
    }
}

// What follows the quote that ends a string of one line.
fn past_line(text: &[u8], quote: u8) -> &[u8]
    ensures { length result.now ≤ length text.now }
{
    let mut is_escaped = false;
    for (at, byte) in text.iter().enumerate() {
        if is_escaped {
            is_escaped = false;
        } else if *byte == quote {
            return past(text, at.saturating_add(1));
        } else {
            is_escaped = *byte == b'\\' && quote == b'"';
        }
    }
    &[]
}

// What follows the quotes that end a string of several lines: three, and before them one or two that belong to it.
fn past_lines(text: &[u8], quote: u8) -> &[u8]
    ensures { length result.now ≤ length text.now }
{
    let mut is_escaped = false;
    let mut quotes = 0_usize;
    for (at, byte) in text.iter().enumerate() {
        if is_escaped {
            is_escaped = false;
        } else if *byte == quote {
            quotes = quotes.saturating_add(1);
        } else if 3 <= quotes {
            return past(text, at);
        } else {
            quotes = 0;
            is_escaped = *byte == b'\\' && quote == b'"';
        }
    }
    &[]
}

// What follows the string that comes next.
fn past_string(text: &[u8]) -> &[u8]
    ensures { length result.now ≤ length text.now }
{
    let quote = first(text);
    if byte_at(text, 1) == quote && byte_at(text, 2) == quote {
        past_lines(past(text, 3), quote)
    } else {
        past_line(past(text, 1), quote)
    }
}

// What follows a run of the bytes of numbers, dates, `true` and `false`.
fn past_run(text: &[u8]) -> &[u8]
    ensures { length result.now ≤ length text.now }
{
    past(text, text.iter().take_while(|byte| is_word(**byte)).count())
}

// What follows a number, a date, `true` or `false`. A space may stand before the time of a date.
fn past_word(text: &[u8]) -> &[u8]
    ensures { length result.now ≤ length text.now }
{
    let rest = past_run(text);
    if first(rest) == b' ' && byte_at(rest, 1).is_ascii_digit() {
        past_run(past(rest, 1))
    } else {
        rest
    }
}

// What follows the bracket that closes the one that comes next.
fn past_brackets(text: &[u8]) -> &[u8]
    ensures { length result.now ≤ length text.now }
{
    let mut depth = 0_usize;
    let mut rest = text;
    'parts: for _ in 0..text.len() {
        match first(rest) {
            b'[' | b'{' => {
                depth = depth.saturating_add(1);
                rest = past(rest, 1);
            }
            b']' | b'}' => {
                depth = depth.saturating_sub(1);
                rest = past(rest, 1);
                if depth == 0 {
                    return rest;
                }
            }
            b'"' | b'\'' => rest = past_string(rest),
            b'#' => rest = past_blank(rest),
            _ => {
                let letters = rest.iter().take_while(|byte| byte.is_ascii_lowercase());
                rest = past(rest, letters.count().max(1));
            }
        }
    }
    rest
}

/// What follows the value that comes next.
pub(crate) fn past_value(text: &[u8]) -> &[u8]
    ensures { length result.now ≤ length text.now }
{
    match first(text) {
        b'[' | b'{' => past_brackets(text),
        b'"' | b'\'' => past_string(text),
        _ => past_word(text),
    }
}

/// A part of a key as it is spelled, bare or in quotes, and what follows it.
pub(crate) fn split_key(text: &[u8]) -> (&[u8], &[u8])
    ensures { length result.1.now ≤ length text.now }
{
    let rest = match first(text) {
        b'"' | b'\'' => past_string(text),
        _ => past(text, text.iter().take_while(|byte| is_bare(**byte)).count()),
    };
    let spelled = text.get(..text.len() - rest.len()).unwrap_or(text);
    (spelled, rest)
}

// What follows the key of a pair: its `=` and the value.
fn past_key(text: &[u8]) -> &[u8]
    ensures { length result.now ≤ length text.now }
{
    let mut rest = text;
    'parts: for _ in 0..text.len() {
        let plain = rest
            .iter()
            .take_while(|byte| !matches!(**byte, b'=' | b'"' | b'\''))
            .count();
        rest = past(rest, plain);
        if matches!(first(rest), 0 | b'=') {
            return rest;
        }
        rest = past_string(rest);
    }
    rest
}

/// What follows the pair of a key and a value that comes next.
pub(crate) fn past_pair(text: &[u8]) -> &[u8]
    ensures { length result.now ≤ length text.now }
{
    past_value(past_spaces(past(past_key(text), 1)))
}

/// Whether a text may have a string of several lines.
pub(crate) fn has_long_strings(text: &[u8]) -> bool {
    memmem::find(text, b"\"\"\"").is_some() || memmem::find(text, b"'''").is_some()
}

// Whether only spaces stand before an offset on its line.
fn begins_line(text: &[u8], at: usize) -> bool {
    let before = text.get(..at).unwrap_or(text);
    match before.iter().rev().find(|byte| !is_ws(**byte)) {
        Some(byte) => *byte == b'\n',
        None => false,
    }
}

// Whether a header comes next, where a line begins with a bracket. An item of a list has a comma or a bracket behind it.
fn is_header(text: &[u8]) -> bool {
    !matches!(first(past_blank(past_brackets(text))), b',' | b']')
}

/// What follows the pairs that come next: the header behind them. The text has no string of several lines.
pub(crate) fn past_pairs(text: &[u8]) -> &[u8]
    ensures { length result.now ≤ length text.now }
{
    let mut at = 0_usize;
    'brackets: for _ in 0..text.len() {
        let Some(count) = memchr(b'[', past(text, at)) else {
            return &[];
        };
        at = at.saturating_add(count);
        let rest = past(text, at);
        if begins_line(text, at) && is_header(rest) {
            return rest;
        }
        at = at.saturating_add(1);
    }
    &[]
}

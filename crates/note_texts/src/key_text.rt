//! Keys as they stand in paths.
ghost use Rattle.std.specs.Prelude.{◌≡◌, ◌++◌, ◌<◌, IfOk, OnOk, string_bytes};
ghost use Rattle.std.specs.List.{list_all};
ghost use Rattle.note_texts.specs.KeyTexts.{escape_of, hex_digit, is_bare_byte, is_bare_key, is_escaped, key_text, quoted, quoted_char};

use std::alloc::{AllocError, Global};

fn is_bare_byte(byte: u8) -> bool
    ensures { result ≡ is_bare_byte byte }
{
    byte.is_ascii_alphabetic() || byte.is_ascii_digit() || byte == b'_' || byte == b'-'
}

fn are_bare(key: &[u8]) -> bool
    ensures { result ≡ list_all is_bare_byte key.now }
{
    key.iter().all(|byte| is_bare_byte(*byte))
}

fn is_bare_key(key: &[u8]) -> bool
    ensures { result ≡ is_bare_key key.now }
{
    key.len() > 0 && are_bare(key)
}

fn is_escaped(c: char) -> bool
    ensures { result ≡ is_escaped c }
{
    c < ' ' || c == '\u{7f}' || c == '"' || c == '\\'
}

fn hex_digit(number: u8) -> u8
    requires { number < 16 }
    ensures value { result ≡ hex_digit number }
    ensures ascii { result < 128 }
{
    if number < 10 {
        b'0' + number
    } else {
        b'a' + (number - 10)
    }
}

// Adds `\u` and four hexadecimal digits.
fn push_escape(text: &mut String, byte: u8) -> Result<(), AllocError>
    requires { byte < 128 }
    ensures { OnOk result (string_bytes text.new ≡ string_bytes text.old ++ escape_of byte) }
{
    text.push_str("\\u00")?;
    text.push(char::from(hex_digit(byte / 16)))?;
    text.push(char::from(hex_digit(byte % 16)))
}

// Adds a character as it stands in quotes.
#[tactic(auto, unfolding(crate::specs::KeyTexts::quoted_char))]
fn push_quoted(text: &mut String, c: char) -> Result<(), AllocError>
    ensures { OnOk result (string_bytes text.new ≡ string_bytes text.old ++ quoted_char c) }
{
    if is_escaped(c) {
        push_escape(text, c as u8)
    } else {
        text.push(c)
    }
}

fn quoted(alloc: Global, key: &str) -> Result<String, AllocError>
    ensures { IfOk result (λ text. string_bytes text ≡ quoted key.now) }
{
    let mut text = String::from_str(alloc, "\"")?;
    for c in key.chars() {
        push_quoted(&mut text, c)?;
    }
    text.push('"')?;
    Ok(text)
}

/// A key as it stands in a path: as it is where it is made of letters, digits, `_` and `-` alone, and otherwise as a
/// string of TOML, with controls, `"` and `\` escaped. So no key of a file makes a line of its own.
///
/// # Errors
///
/// There was no memory.
pub fn key_text(alloc: Global, key: &str) -> Result<String, AllocError>
    ensures { IfOk result (λ text. string_bytes text ≡ key_text key.now) }
{
    if is_bare_key(key.as_bytes()) {
        String::from_str(alloc, key)
    } else {
        quoted(alloc, key)
    }
}

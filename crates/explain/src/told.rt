//! Lines that are told: no control character stands in them.
ghost use Rattle.std.specs.Prelude.{◌≡◌, ℕ, ◌<◌, [], ◌∷◌, ◌++◌, IfOk, OnOk, codes, string_bytes};
ghost use Rattle.note_texts.specs.KeyTexts.{escape_of, hex_digit};
ghost use Rattle.explain.specs.Shown.{IsShown, is_control, shown_char, shown_chars};

use std::alloc::{AllocError, Global};
use std::marker::Model;

/// Lines that are told.
#[derive(Drop)]
pub struct Told {
    text: String,
}

impl Model for Told {
    ghost use Rattle.std.specs.Prelude.{List, ℕ, string_bytes};
    ghost use Rattle.explain.specs.Shown.{IsShown};

    ghost Value = { List ℕ };

    ghost view = { λ t. string_bytes t.text };

    ghost invariant = { λ t. IsShown (string_bytes t.text) };
}

// Whether a character is a control. A terminal may take one of U+0080 to U+009F as the beginning of an escape.
fn is_control(c: char) -> bool
    ensures { result ≡ is_control c }
{
    c < ' ' || ('\u{7f}' <= c && c <= '\u{9f}')
}

fn hex_digit(number: u8) -> u8
    requires { number < 16 }
    ensures value { result ≡ hex_digit number }
    ensures ascii { result < 128 }
{
    if number < 10 {
        b'0' + number
    } else {
        b'a' + (number - 10)
    }
}

// Adds `\u` and four hexadecimal digits.
fn push_control(text: &mut String, byte: u8) -> Result<(), AllocError>
    ensures { OnOk result (string_bytes text.new ≡ string_bytes text.old ++ escape_of byte) }
{
    text.push_str("\\u00")?;
    text.push(char::from(hex_digit(byte / 16)))?;
    text.push(char::from(hex_digit(byte % 16)))
}

// Adds a character as it is shown.
#[tactic(auto, unfolding(crate::specs::Shown::shown_char))]
fn push_shown(text: &mut String, c: char) -> Result<(), AllocError>
    ensures { OnOk result (string_bytes text.new ≡ string_bytes text.old ++ shown_char c) }
{
    if is_control(c) {
        push_control(text, c as u8)
    } else {
        text.push(c)
    }
}

// A text as it is shown.
fn shown_chars(alloc: Global, text: &str) -> Result<String, AllocError>
    ensures text { IfOk result (λ out. string_bytes out ≡ shown_chars text.now) }
    ensures shown { IfOk result (λ out. IsShown (string_bytes out)) }
{
    let mut out = String::new(alloc);
    for c in text.chars() {
        push_shown(&mut out, c)?;
    }
    Ok(out)
}

impl Told {
    /// Nothing.
    pub fn new(alloc: Global) -> Told
        ensures { result ≡ [] }
    {
        Told {
            text: String::new(alloc),
        }
    }

    /// The text of the lines.
    pub fn into_text(self) -> String
        ensures text { string_bytes result ≡ self }
        ensures shown { IsShown (string_bytes result) }
    {
        let Told { text } = self;
        text
    }

    /// Adds a part of a line, in which a control stands as `\u` and four hexadecimal digits.
    pub fn part(&mut self, alloc: Global, text: &str) -> Result<(), AllocError>
        ensures { OnOk result (self.new ≡ self.old ++ shown_chars text.now) }
    {
        let text = shown_chars(alloc, text)?;
        self.text.push_str(text.as_str())
    }

    /// Ends a line.
    pub fn end(&mut self) -> Result<(), AllocError>
        ensures { OnOk result (self.new ≡ self.old ++ 10 ∷ []) }
    {
        self.text.push('\n')
    }

    /// Adds a line, with what stands before it.
    pub fn line(&mut self, alloc: Global, before: &str, text: &str) -> Result<(), AllocError>
        ensures { OnOk result (self.new ≡ self.old ++ (shown_chars before.now ++ (shown_chars text.now ++ 10 ∷ []))) }
    {
        self.part(alloc, before)?;
        self.part(alloc, text)?;
        self.end()
    }
}

//! Texts while they are written.

use ebc_base::NoMemory;
use std::alloc::Global;
use std::fmt::Write;

/// Bytes of a word or a value that are told.
const MOST_BYTES: usize = 100;

// The beginning of a long text; none of another. No character is cut.
fn beginning(text: &str) -> Option<&str> {
    if text.len() <= MOST_BYTES {
        return None;
    }
    for cut in 0..4usize {
        if let Some(part) = text.get(..MOST_BYTES - cut) {
            return Some(part);
        }
    }
    None
}

/// A text that is being written. It remembers want of memory and tells it at its end, so that adding to it has one exit.
#[derive(Drop)]
pub struct Line {
    pub alloc: Global,
    pub(crate) text: String,
    is_short: bool,
}

impl Line {
    /// An empty text.
    pub fn new(alloc: Global) -> Line {
        Line {
            alloc,
            text: String::new(alloc),
            is_short: false,
        }
    }

    /// A text that begins so.
    pub fn of(alloc: Global, text: &str) -> Line {
        let mut line = Line::new(alloc);
        line.text(text);
        line
    }

    /// Keeps in mind whether something was added; else memory was wanting.
    pub fn kept(&mut self, added: bool) -> &mut Line {
        if !added {
            self.is_short = true;
        }
        self
    }

    /// Adds a text.
    pub fn text(&mut self, text: &str) -> &mut Line {
        let added = self.text.push_str(text);
        self.kept(added.is_ok())
    }

    /// Adds a word of a call or of a file; of a long one the first 100 bytes, and `..` behind them.
    pub fn word(&mut self, word: &str) -> &mut Line {
        match beginning(word) {
            Some(part) => self.text(part).text(".."),
            None => self.text(word),
        }
    }

    /// Adds a value as it stands in a file, its lines as one; of a long one the first 100 bytes, and `..` behind them.
    pub fn value(&mut self, value: &str) -> &mut Line {
        let part = beginning(value);
        for (number, line) in part.unwrap_or(value).lines().enumerate() {
            if number == 0 {
                self.text(line);
            } else {
                self.text(" ").text(line.trim_start());
            }
        }
        self.text(if part.is_some() { ".." } else { "" })
    }

    /// Adds a list behind a text, or another text where the list is empty.
    pub fn list(&mut self, before: &str, items: &Line, none: &str) -> &mut Line {
        self.text(if items.is_empty() { none } else { before })
            .line(items)
    }

    /// Adds a character.
    pub fn letter(&mut self, letter: char) -> &mut Line {
        let added = self.text.push(letter);
        self.kept(added.is_ok())
    }

    /// Adds a number in decimal digits.
    pub fn number(&mut self, number: u64) -> &mut Line {
        let added = write!(self.text, "{number}");
        self.kept(added.is_ok())
    }

    /// Adds a count, or the number of an item, in decimal digits.
    pub fn count(&mut self, count: usize) -> &mut Line {
        self.number(count as u64)
    }

    /// Adds a number that may be negative, in decimal digits.
    pub fn signed(&mut self, number: i128) -> &mut Line {
        let added = write!(self.text, "{number}");
        self.kept(added.is_ok())
    }

    /// Adds a number in hexadecimal digits, after `0x`.
    pub fn hexadecimal(&mut self, number: u64) -> &mut Line {
        let added = write!(self.text, "0x{number:x}");
        self.kept(added.is_ok())
    }

    /// Adds a place of an image or an offset of a file, in hexadecimal digits, after `0x`.
    pub fn at(&mut self, place: u32) -> &mut Line {
        self.hexadecimal(u64::from(place))
    }

    /// Adds the place that an instruction names, in hexadecimal digits, after `0x`. It may lie outside of the image: before it, it
    /// has a minus sign.
    pub fn target(&mut self, place: i128) -> &mut Line {
        let bytes = place.unsigned_abs();
        let sign = if place < 0 { "-" } else { "" };
        let added = write!(self.text, "{sign}0x{bytes:x}");
        self.kept(added.is_ok())
    }

    /// Adds a byte in two hexadecimal digits.
    pub fn byte(&mut self, byte: u8) -> &mut Line {
        let added = write!(self.text, "{byte:02x}");
        self.kept(added.is_ok())
    }

    /// Adds a text that a call made, without the prefix if it begins so.
    pub fn made(&mut self, made: Result<String, NoMemory>, prefix: &str) -> &mut Line {
        match made {
            Ok(made) => {
                let text = made.as_str();
                self.text(text.strip_prefix(prefix).unwrap_or(text))
            }
            Err(_) => self.kept(false),
        }
    }

    /// Adds another text that is being written.
    pub fn line(&mut self, line: &Line) -> &mut Line {
        if line.is_short {
            self.is_short = true;
        }
        self.text(line.as_str())
    }

    /// Adds a comma and a space, unless nothing is written.
    pub fn comma(&mut self) -> &mut Line {
        let separator = if self.is_empty() { "" } else { ", " };
        self.text(separator)
    }

    /// Whether nothing is written.
    pub fn is_empty(&self) -> bool {
        self.text.is_empty()
    }

    /// What is written.
    pub fn as_str(&self) -> &str {
        self.text.as_str()
    }

    /// Whether memory was wanting for something that was added.
    pub fn is_short(&self) -> bool {
        self.is_short
    }

    /// The text.
    ///
    /// # Errors
    ///
    /// Want of memory alone, also of a text that was added.
    pub fn done(self) -> Result<String, NoMemory> {
        if self.is_short {
            return Err(NoMemory);
        }
        Ok(self.text)
    }
}

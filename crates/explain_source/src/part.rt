//! Parts of a line.

ghost use Rattle.std.specs.Prelude.{◌≡◌, ◌+◌, ◌<◌, ◌≤◌, ◌^◌, length};

use explain_base::Line;
use std::alloc::Global;
use std::str;

/// Part of a line, and the offset in the line at which it begins.
#[derive(Clone, Copy)]
pub(crate) struct Part<'a> {
    pub at: usize,
    pub text: &'a [u8],
    ghost fits: { at + length text.now < 2 ^ 64 },
}

impl<'a> Part<'a> {
    /// A whole line.
    pub fn of_line(line: &'a [u8]) -> Part<'a> {
        Part { at: 0, text: line }
    }

    /// What stands before so many bytes, and what stands from there on.
    pub fn split(self, bytes: usize) -> (Part<'a>, Part<'a>)
        requires { bytes ≤ length self.text.now }
    {
        let (before, after) = self.text.split_at(bytes);
        let front = Part {
            at: self.at,
            text: before,
        };
        let back = Part {
            at: self.at + bytes,
            text: after,
        };
        (front, back)
    }

    /// What stands before the first such byte, and what stands after it.
    pub fn until(self, byte: u8) -> Option<(Part<'a>, Part<'a>)> {
        let at = self.text.iter().position(|b| *b == byte)?;
        Some((self.split(at).0, self.split(at + 1).1))
    }

    /// What stands before the first comma that a space follows, and what stands after the space.
    pub fn cut(self) -> Option<(Part<'a>, Part<'a>)> {
        for at in 0..self.text.len() {
            let (before, rest) = self.split(at);
            if let [b',', b' ', ..] = rest.text {
                return Some((before, rest.split(2).1));
            }
        }
        None
    }

    /// The part without the spaces before it.
    pub fn past_spaces(self) -> Part<'a> {
        let spaces = self.text.iter().take_while(|b| **b == b' ').count();
        self.split(spaces).1
    }

    /// The part without the spaces around it.
    pub fn trimmed(self) -> Part<'a> {
        let part = self.past_spaces();
        match part.text.iter().rposition(|b| *b != b' ') {
            Some(last) => part.split(last + 1).0,
            None => part,
        }
    }

    /// The part as text; `?` if it is none.
    pub fn shown(self) -> &'a str {
        str::from_utf8(self.text).unwrap_or("?")
    }
}

/// What was found, and what is wanted, at an offset of a line.
#[derive(Drop)]
pub(crate) struct Found {
    pub at: usize,
    pub what: Line,
}

impl Found {
    pub fn new(alloc: Global, at: usize, what: &str) -> Found {
        Found {
            at,
            what: Line::of(alloc, what),
        }
    }
}

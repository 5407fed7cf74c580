//! A text that is written piece by piece.
use std::alloc::{AllocError, Global};
use std::fmt::Write;

/// What can be told in text.
pub trait Shown {
    /// Writes the value.
    fn show(&self, text: &mut Text);
}

/// The text so far. It remembers want of memory and tells it at its end, so that writing has one exit.
#[derive(Drop)]
pub struct Text {
    written: String,
    is_short: bool,
}

impl Text {
    /// The empty text.
    pub fn new(alloc: Global) -> Text {
        Text {
            written: String::new(alloc),
            is_short: false,
        }
    }

    /// A value in text.
    ///
    /// # Errors
    ///
    /// Want of memory.
    pub fn of<T: Shown>(alloc: Global, value: &T) -> Result<String, AllocError> {
        let mut text = Text::new(alloc);
        value.show(&mut text);
        text.done()
    }

    /// The text that was written.
    ///
    /// # Errors
    ///
    /// Want of memory, here or before.
    pub fn done(self) -> Result<String, AllocError> {
        if self.is_short {
            return Err(AllocError);
        }
        Ok(self.written)
    }

    /// Keeps in mind that memory was wanting.
    pub fn miss(&mut self) {
        self.is_short = true;
    }

    /// Writes a word.
    pub fn word(&mut self, word: &str) {
        if self.written.push_str(word).is_err() {
            self.miss();
        }
    }

    /// Writes a value with what stands before it.
    pub fn put<T: Shown>(&mut self, before: &str, value: &T) {
        self.word(before);
        value.show(self);
    }

    /// Writes values with commas between them.
    pub fn list<T: Shown>(&mut self, values: &[T]) {
        let mut between = "";
        for value in values {
            self.put(between, value);
            between = ", ";
        }
    }

    fn signed(&mut self, number: i64) {
        if write!(self.written, "{number}").is_err() {
            self.miss();
        }
    }

    fn unsigned(&mut self, number: u64) {
        if write!(self.written, "{number}").is_err() {
            self.miss();
        }
    }
}

impl Shown for u8 {
    fn show(&self, text: &mut Text) {
        text.unsigned(u64::from(*self));
    }
}

impl Shown for u32 {
    fn show(&self, text: &mut Text) {
        text.unsigned(u64::from(*self));
    }
}

impl Shown for u64 {
    fn show(&self, text: &mut Text) {
        text.unsigned(*self);
    }
}

impl Shown for usize {
    fn show(&self, text: &mut Text) {
        text.unsigned(*self as u64);
    }
}

impl Shown for i32 {
    fn show(&self, text: &mut Text) {
        text.signed(i64::from(*self));
    }
}

impl Shown for i64 {
    fn show(&self, text: &mut Text) {
        text.signed(*self);
    }
}

impl Shown for bool {
    fn show(&self, text: &mut Text) {
        text.word(if *self { "true" } else { "false" });
    }
}

impl<T: Shown> Shown for Option<T> {
    fn show(&self, text: &mut Text) {
        match self {
            Some(value) => {
                text.put("Some(", value);
                text.word(")");
            }
            None => text.word("None"),
        }
    }
}

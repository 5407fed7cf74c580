//! The bytes of a file, as the lines of a row write them down.
use std::alloc::{AllocError, Global};

/// How many bytes a file may have, which is past each limit of the program.
pub const LIMIT: usize = 0x110_0000;

/// The bytes of a file so far, and the place of the next one.
#[derive(Drop)]
pub struct File {
    pub bytes: Vec<u8>,
    place: usize,
}

impl File {
    /// A file without bytes.
    pub fn new(alloc: Global) -> File {
        File {
            bytes: Vec::new(alloc),
            place: 0,
        }
    }

    /// Puts bytes, one after the other.
    pub fn put_bytes(&mut self, bytes: &[u8]) -> Result<(), AllocError> {
        for byte in bytes {
            self.put(*byte)?;
        }
        Ok(())
    }

    /// Puts the bytes of a line of text and a line feed.
    pub fn put_line(&mut self, line: &str) -> Result<(), AllocError> {
        self.bytes.extend_from_slice(line.as_bytes())?;
        self.bytes.push(b'\n')?;
        Ok(())
    }

    /// Goes on at a place, `@` and its decimal number, before which zeros come where nothing is, or puts the bytes that digits
    /// spell. The answer is whether the word is one of both.
    pub fn put_word(&mut self, word: &str) -> Result<bool, AllocError> {
        match word.strip_prefix('@') {
            Some(number) => match place_of(number) {
                Some(place) => self.go(place),
                None => Ok(false),
            },
            None => self.put_digits(word),
        }
    }

    /// Puts bytes over and over behind the others, as often as they fit before a length.
    pub fn fill(&mut self, length: &str, digits: &str) -> Result<bool, AllocError> {
        let Some(length) = place_of(length) else {
            return Ok(false);
        };
        if let Some(byte) = byte_of(digits.as_bytes()) {
            self.bytes.resize(length, byte)?;
        }
        for _ in 0..length {
            if self.bytes.len() >= length {
                break;
            }
            if !self.put_digits(digits)? {
                return Ok(false);
            }
        }
        self.place = self.bytes.len();
        Ok(true)
    }

    /// Keeps so many bytes.
    pub fn cut(&mut self, length: &str) -> bool {
        match place_of(length) {
            Some(length) => {
                self.bytes.truncate(length);
                self.place = self.bytes.len();
                true
            }
            None => false,
        }
    }

    fn go(&mut self, place: usize) -> Result<bool, AllocError> {
        if self.bytes.len() < place {
            self.bytes.resize(place, 0)?;
        }
        self.place = place;
        Ok(true)
    }

    fn put_digits(&mut self, digits: &str) -> Result<bool, AllocError> {
        for pair in digits.as_bytes().chunks(2) {
            let Some(byte) = byte_of(pair) else {
                return Ok(false);
            };
            self.put(byte)?;
        }
        Ok(true)
    }

    fn put(&mut self, byte: u8) -> Result<(), AllocError> {
        match self.bytes.get_mut(self.place) {
            Some(cell) => *cell = byte,
            None => self.bytes.push(byte)?,
        }
        self.place = self.place.saturating_add(1);
        Ok(())
    }
}

// A place or a length within the limit.
fn place_of(number: &str) -> Option<usize> {
    number.parse::<usize>().ok().filter(|it| *it <= LIMIT)
}

// The byte that two digits spell.
fn byte_of(digits: &[u8]) -> Option<u8> {
    let text = str::from_utf8(digits).ok()?;
    u8::from_str_radix(text, 16).ok()
}

/// The digits of bytes, two a byte.
pub fn digits_of(alloc: Global, bytes: &[u8]) -> Result<String, AllocError> {
    let mut digits = String::new(alloc);
    for byte in bytes {
        digits.push_str(format!(in alloc; "{byte:02X}")?.as_str())?;
    }
    Ok(digits)
}

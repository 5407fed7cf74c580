//! What the words ask for: a run at a width or at both, and the steps of it that are told.
ghost use Rattle.std.specs.Prelude.{◌≤◌};

use ebc_base::NoMemory;
use std::alloc::Global;

/// The widths at which an image is run.
#[derive(Clone, Copy)]
pub(crate) enum Widths {
    Only32,
    Only64,
    Both,
}

/// A run, and the steps of it that are told.
#[derive(Clone, Copy)]
pub(crate) struct Request<'a> {
    pub widths: Widths,
    pub image: &'a str,
    pub notes: &'a str,
    pub script: &'a str,
    first: &'a str,
    last: &'a str,
}

/// In which way words aren't of their form.
#[derive(Clone, Copy)]
pub(crate) enum Misuse<'a> {
    /// There are so many of them.
    Count(usize),
    /// The word of this name isn't what is wanted.
    Form {
        name: &'static str,
        word: &'a str,
        wanted: &'static str,
    },
}

// The widths of the first word.
fn widths_of(word: &str) -> Result<Widths, Misuse<'_>> {
    match word {
        "32" => Ok(Widths::Only32),
        "64" => Ok(Widths::Only64),
        "both" => Ok(Widths::Both),
        _ => Err(Misuse::Form {
            name: "WIDTH",
            word,
            wanted: "32, 64 or both",
        }),
    }
}

fn is_count(word: &str) -> bool {
    let bytes = word.as_bytes();
    bytes.first() != Some(&b'0')
        && !bytes.is_empty()
        && bytes.iter().all(|byte| byte.is_ascii_digit())
}

// Whether a number of any size is greater than another one. Both have no leading zero.
fn is_past(number: &str, other: &str) -> bool {
    if number.len() != other.len() {
        return number.len() > other.len();
    }
    number > other
}

fn name_form<'a>(name: &'static str, word: &'a str) -> Result<(), Misuse<'a>> {
    if word.is_empty() {
        return Err(Misuse::Form {
            name,
            word,
            wanted: "the name of a file, which isn't empty",
        });
    }
    Ok(())
}

fn count_form<'a>(name: &'static str, word: &'a str) -> Result<(), Misuse<'a>> {
    if !is_count(word) {
        return Err(Misuse::Form {
            name,
            word,
            wanted: "decimal digits, with no 0 in front",
        });
    }
    Ok(())
}

// The number of decimal digits, or the greatest one if it has more than 64 bits.
fn number_of(digits: &str) -> u64 {
    digits.parse::<u64>().unwrap_or(u64::MAX)
}

impl<'a> Request<'a> {
    /// What the words ask for. LAST may be past its limit, which is tried with the files.
    ///
    /// # Errors
    ///
    /// The words aren't of their form; of the first one that isn't.
    pub fn of(words: &'a [String]) -> Result<Request<'a>, Misuse<'a>> {
        let [widths, image, notes, script, first, last] = words else {
            return Err(Misuse::Count(words.len()));
        };
        let request = Request {
            widths: widths_of(widths.as_str())?,
            image: image.as_str(),
            notes: notes.as_str(),
            script: script.as_str(),
            first: first.as_str(),
            last: last.as_str(),
        };
        request.try_files()?;
        request.try_steps()?;
        Ok(request)
    }

    fn try_files(&self) -> Result<(), Misuse<'a>> {
        name_form("IMAGE", self.image)?;
        name_form("NOTES", self.notes)?;
        name_form("SCRIPT", self.script)
    }

    fn try_steps(&self) -> Result<(), Misuse<'a>> {
        count_form("FIRST", self.first)?;
        count_form("LAST", self.last)?;
        if is_past(self.first, self.last) {
            return Err(Misuse::Form {
                name: "FIRST",
                word: self.first,
                wanted: "a number that isn't past LAST",
            });
        }
        Ok(())
    }

    /// The first step that is told.
    pub fn first(&self) -> u64
        ensures { 1 ≤ result }
    {
        number_of(self.first).max(1)
    }

    /// The last step that is taken.
    pub fn last(&self) -> u64 {
        number_of(self.last)
    }

    /// LAST as it was written.
    pub fn last_word(&self) -> &'a str {
        self.last
    }

    /// The words of `ebc` for the whole run up to the last step.
    ///
    /// # Errors
    ///
    /// Want of memory alone.
    pub fn run_words(&self, alloc: Global) -> Result<Vec<String>, NoMemory> {
        let command: &[&str] = match self.widths {
            Widths::Only32 => &["run", "32"],
            Widths::Only64 => &["run", "64"],
            Widths::Both => &["twin"],
        };
        let mut words = Vec::new(alloc);
        for word in command {
            words.push(String::from_str(alloc, word)?)?;
        }
        for word in [self.image, self.notes, self.script, self.last] {
            words.push(String::from_str(alloc, word)?)?;
        }
        Ok(words)
    }

    /// Which of these words is LAST.
    pub fn last_number(&self) -> u8 {
        match self.widths {
            Widths::Both => 4,
            _ => 5,
        }
    }
}

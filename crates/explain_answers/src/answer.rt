//! An answer that is explained.
ghost use Rattle.std.specs.Prelude.{◌≡◌};
ghost use Rattle.cli_base.specs.Words.{word_bytes};
ghost use Rattle.explain_answers.specs.Words.{checks_code, names_objects, word_or_empty, wraps};

use crate::printed::PrintedFault;
use crate::program::{Program, Slot, Use, command_slots, notes_slots};
use cli_base::Outcome;
use ebc_base::NoMemory;
use ebc_outside::{Folder, MemFolder, ReadEnd};
use std::alloc::Global;

/// An answer of a program, and what is known of how it came.
#[derive(Clone, Copy)]
pub struct Answer<'a> {
    pub alloc: Global,
    pub program: Program,
    /// The words after the program's name.
    pub words: &'a Vec<String>,
    pub outcome: Outcome,
    /// Whether a line of a run that is done says another ending than finished.
    pub amiss: bool,
    /// The name of the file that was asked for last; empty if none was, or if there was no memory to keep it.
    pub asked: &'a str,
    /// The system's words for the error that ended a read, a write or a put; empty if there was none.
    pub cause: &'a str,
    /// The line that was printed of a file that isn't of its form; empty if there was another answer, or no memory to keep the line.
    pub fault_line: &'a str,
}

/// A word and what it stands for.
#[derive(Clone, Copy)]
pub(crate) struct Place<'a> {
    pub slot: Slot,
    pub word: &'a str,
}

impl<'a> Answer<'a> {
    /// What the words stand for, from the first that isn't the command.
    pub(crate) fn slots(&self) -> Option<&'static [Slot]> {
        match self.program {
            Program::Ebc => {
                let (first, rest) = self.words.as_slice().split_first()?;
                command_slots(first.as_str(), rest)
            }
            Program::EbcPlaces => Some(&[Slot::Image]),
            Program::EbcNotes => Some(notes_slots(self.words.len())),
            Program::EbcLint => Some(&[Slot::Image, Slot::Notes]),
        }
    }

    /// The file of the notes that are checked or completed.
    pub(crate) fn notes_file(&self) -> &'a str {
        match self.program {
            Program::Ebc => self.word(2),
            Program::EbcPlaces | Program::EbcNotes | Program::EbcLint => self.word(1),
        }
    }

    /// How many words stand before the first slot.
    pub(crate) fn skipped(&self) -> usize {
        match self.program {
            Program::Ebc => 1,
            Program::EbcPlaces | Program::EbcNotes | Program::EbcLint => 0,
        }
    }

    /// A word by its number, counted from 0; empty if there is none.
    pub fn word(&self, number: usize) -> &'a str
        ensures { result.now ≡ word_or_empty (word_bytes self.now.words.now) number }
    {
        match self.words.as_slice().get(number) {
            Some(word) => word.as_str(),
            None => "",
        }
    }

    /// Whether one of the words is a plan, which names objects.
    pub fn names_objects(&self) -> bool
        ensures { result ≡ names_objects self.now.program (word_bytes self.now.words.now) }
    {
        match self.program {
            Program::Ebc => self.word(0) == "link",
            Program::EbcPlaces | Program::EbcLint => false,
            Program::EbcNotes => true,
        }
    }

    /// Whether raw code is checked.
    pub fn checks_code(&self) -> bool
        ensures { result ≡ checks_code self.now.program (word_bytes self.now.words.now) }
    {
        match self.program {
            Program::Ebc => self.word(0) == "check" && self.words.len() == 2,
            _ => false,
        }
    }

    /// Whether an option ROM is made of an image.
    pub fn wraps(&self) -> bool
        ensures { result ≡ wraps self.now.program (word_bytes self.now.words.now) }
    {
        match self.program {
            Program::Ebc => self.word(0) == "rom" && self.word(1) == "wrap",
            _ => false,
        }
    }

    /// What a word stands for, by its number.
    pub(crate) fn slot(&self, number: usize) -> Option<Slot> {
        let skipped = self.skipped();
        if number < skipped {
            return None;
        }
        self.slots()?.get(number - skipped).copied()
    }

    /// The first word that is put to this use, of which the name has to be `name` if that isn't empty.
    pub(crate) fn first_of(&self, purpose: Use, name: &str) -> Option<Place<'a>> {
        let skipped = self.skipped();
        for (number, slot) in self.slots()?.iter().enumerate() {
            let word = self.word(number.saturating_add(skipped));
            let is_so = match (purpose, slot.purpose()) {
                (Use::Read, Use::Read) | (Use::Written, Use::Written) => true,
                _ => false,
            };
            if is_so && (name.is_empty() || word == name) {
                return Some(Place { slot: *slot, word });
            }
        }
        None
    }

    /// The fault that was printed of the file that a word names; none if another answer was printed.
    pub(crate) fn printed_fault(&self, number: usize) -> Option<PrintedFault<'a>> {
        PrintedFault::in_line(self.fault_line, self.word(number))
    }

    /// The bytes of the file that a word names, if they were kept and are within the limit.
    pub(crate) fn bytes_of(
        &self,
        number: usize,
        folder: &mut MemFolder,
    ) -> Result<Option<Vec<u8>>, NoMemory> {
        let Some(slot) = self.slot(number) else {
            return Ok(None);
        };
        let limit = slot.limit();
        match folder.read(self.alloc, self.word(number), limit) {
            Ok(bytes) => {
                if bytes.len() as u64 <= limit {
                    Ok(Some(bytes))
                } else {
                    Ok(None)
                }
            }
            Err(ReadEnd::NoMemory) => Err(NoMemory),
            Err(_) => Ok(None),
        }
    }
}

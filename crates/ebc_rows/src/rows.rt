//! The rows: what each line does, and what is printed of it.
use crate::file::{File, LIMIT, digits_of};
use crate::tally::Tally;
use ebc_cli::{Checked, Outcome, check_bytes, ebc};
use ebc_outside::{Folder, MemFolder, MemSink, ReadEnd};
use std::alloc::{AllocError, Global};

/// What lines are taken for.
#[derive(Clone, Copy)]
enum Part {
    /// For what is done next.
    Row,
    /// For the lines of a file.
    Text,
    /// For the bytes of a file.
    Bytes,
}

/// The files and the output of a row, the file that is written down, and what holds so far.
#[derive(Drop)]
pub struct Rows {
    folder: MemFolder,
    out: MemSink,
    // The files of all rows so far, whose bytes others may have.
    copies: MemFolder,
    part: Part,
    name: String,
    file: File,
    tally: Tally,
}

// No method has a contract, so that the many clauses of `ebc` are known in `outcome` alone, and what calls it is proved without them.
impl Rows {
    /// A row without files.
    pub fn new(alloc: Global) -> Rows {
        Rows {
            folder: MemFolder::new(alloc),
            out: MemSink::new(alloc),
            copies: MemFolder::new(alloc),
            part: Part::Row,
            name: String::new(alloc),
            file: File::new(alloc),
            tally: Tally::new(alloc),
        }
    }

    /// Does what a line says. The answer is what is printed of it.
    ///
    /// # Errors
    ///
    /// Want of memory.
    pub fn tell(&mut self, alloc: Global, line: &str) -> Result<String, AllocError> {
        if line == "end" {
            return self.end(alloc);
        }
        match self.part {
            Part::Row => self.line(alloc, line),
            Part::Text => {
                self.file.put_line(line)?;
                Ok(String::new(alloc))
            }
            Part::Bytes => {
                let known = self.bytes_line(alloc, line)?;
                told_of(alloc, known, line)
            }
        }
    }

    /// What is printed at the end of the rows.
    ///
    /// # Errors
    ///
    /// Want of memory.
    pub fn last(&mut self, alloc: Global) -> Result<String, AllocError> {
        let settled = self.tally.settle(alloc)?;
        let count = self.tally.count(alloc)?;
        format!(in alloc; "{settled}{count}")
    }

    // The file that was written down stands under its name.
    fn end(&mut self, alloc: Global) -> Result<String, AllocError> {
        self.folder
            .insert(self.name.as_str(), self.file.bytes.as_slice())?;
        self.copies
            .insert(self.name.as_str(), self.file.bytes.as_slice())?;
        self.part = Part::Row;
        Ok(String::new(alloc))
    }

    // A wanted line, or any other, before which the line that asks is settled.
    fn line(&mut self, alloc: Global, line: &str) -> Result<String, AllocError> {
        let (word, rest) = line.split_once(' ').unwrap_or((line, ""));
        if word == "=" {
            let known = self.tally.want(rest)?;
            return told_of(alloc, known, line);
        }
        let settled = self.tally.settle(alloc)?;
        let told = self.row_line(alloc, line)?;
        format!(in alloc; "{settled}{told}")
    }

    fn row_line(&mut self, alloc: Global, line: &str) -> Result<String, AllocError> {
        let (word, rest) = line.split_once(' ').unwrap_or((line, ""));
        let found = match word {
            "call" => self.call(alloc, rest)?,
            "show" => self.show(alloc, rest)?,
            "parts" => self.parts(alloc, rest)?,
            "checked" => self.checked(alloc, rest)?,
            _ => return self.other_line(alloc, line),
        };
        self.tally.ask(alloc, line, found)?;
        Ok(String::new(alloc))
    }

    // A line that doesn't ask.
    fn other_line(&mut self, alloc: Global, line: &str) -> Result<String, AllocError> {
        let (word, rest) = line.split_once(' ').unwrap_or((line, ""));
        match word {
            "row" => self.begin(alloc, rest),
            "text" => self.write_down(alloc, Part::Text, rest),
            "bytes" => self.write_down(alloc, Part::Bytes, rest),
            "fail" => self.fail(alloc, rest),
            "usage:" => {
                self.tally.put_usage(alloc, line)?;
                Ok(String::new(alloc))
            }
            "" | "--" => Ok(String::new(alloc)),
            _ => told_of(alloc, false, line),
        }
    }

    fn begin(&mut self, alloc: Global, name: &str) -> Result<String, AllocError> {
        self.folder = MemFolder::new(alloc);
        self.out = MemSink::new(alloc);
        self.tally.begin(alloc, name)
    }

    fn write_down(&mut self, alloc: Global, part: Part, name: &str) -> Result<String, AllocError> {
        self.part = part;
        self.name = String::from_str(alloc, name)?;
        self.file = File::new(alloc);
        Ok(String::new(alloc))
    }

    // A line of bytes: whether it is one.
    fn bytes_line(&mut self, alloc: Global, line: &str) -> Result<bool, AllocError> {
        let (word, rest) = line.split_once(' ').unwrap_or((line, ""));
        match word {
            "from" => self.put_file(alloc, rest),
            "cut" => Ok(self.file.cut(rest)),
            "fill" => match rest.split_once(' ') {
                Some((length, digits)) => self.file.fill(length, digits),
                None => Ok(false),
            },
            _ => self.bytes_words(line),
        }
    }

    fn bytes_words(&mut self, line: &str) -> Result<bool, AllocError> {
        for word in line.split_whitespace() {
            if !self.file.put_word(word)? {
                return Ok(false);
            }
        }
        Ok(true)
    }

    // Puts the bytes of another file.
    fn put_file(&mut self, alloc: Global, name: &str) -> Result<bool, AllocError> {
        match self.copies.read(alloc, name, LIMIT as u64) {
            Ok(bytes) => {
                self.file.put_bytes(bytes.as_slice())?;
                Ok(true)
            }
            Err(ReadEnd::NoMemory) => Err(AllocError),
            Err(_) => Ok(false),
        }
    }

    // Lets the read of this number fail, counted from 1, and the first write and the first put.
    fn fail(&mut self, alloc: Global, read: &str) -> Result<String, AllocError> {
        let Ok(read) = read.parse::<u64>() else {
            return told_of(alloc, false, read);
        };
        self.folder.fail_reads(vec![in alloc; read]?);
        self.folder.fail_writes(vec![in alloc; 1]?);
        self.out.fail_puts(vec![in alloc; 1]?);
        Ok(String::new(alloc))
    }

    // The one call of the program.
    fn outcome(&mut self, alloc: Global, words: &Vec<String>) -> Outcome {
        ebc(alloc, words, &mut self.folder, &mut self.out)
    }

    // Does the words of a line, split at its spaces: the exit status and the outcome, and what is printed.
    fn call(&mut self, alloc: Global, line: &str) -> Result<String, AllocError> {
        let words = words_of(alloc, line)?;
        let before = self.out.text().len();
        let outcome = self.outcome(alloc, &words);
        let printed = self.out.text().get(before..).unwrap_or(b"");
        let printed = str::from_utf8(printed).unwrap_or("no text\n");
        format!(in alloc; "{} {outcome:?}\n{printed}", outcome.code())
    }

    // Does words once for each first part of a file, which stands under its name, and tells an answer where it changes, with the
    // length from which on it comes.
    fn parts(&mut self, alloc: Global, line: &str) -> Result<String, AllocError> {
        let (name, words) = line.split_once(' ').unwrap_or((line, ""));
        let whole = match self.folder.read(alloc, name, LIMIT as u64) {
            Ok(whole) => whole,
            Err(ReadEnd::NoMemory) => return Err(AllocError),
            Err(_) => return told_of(alloc, false, line),
        };
        let mut told = String::new(alloc);
        let mut last = String::new(alloc);
        for length in 0..whole.len() {
            self.folder.insert(name, &whole.as_slice()[..length])?;
            let answer = self.call(alloc, words)?;
            if answer.as_str() != last.as_str() {
                told.push_str(format!(in alloc; "from {length}\n{answer}")?.as_str())?;
                last = answer;
            }
        }
        Ok(told)
    }

    // The bytes of a file of the row, none where it isn't there.
    fn bytes_of(&mut self, alloc: Global, name: &str) -> Result<Vec<u8>, AllocError> {
        match self.folder.read(alloc, name, LIMIT as u64) {
            Ok(bytes) => Ok(bytes),
            Err(ReadEnd::NoMemory) => Err(AllocError),
            Err(_) => Ok(Vec::new(alloc)),
        }
    }

    // What the check of an image under notes tells of the bytes of two files.
    fn checked(&mut self, alloc: Global, line: &str) -> Result<String, AllocError> {
        let (image, notes) = line.split_once(' ').unwrap_or((line, ""));
        let image = self.bytes_of(alloc, image)?;
        let notes = self.bytes_of(alloc, notes)?;
        checked_text(alloc, image.as_slice(), notes.as_slice())
    }

    // The bytes of a file in digits, or that it isn't there.
    fn show(&mut self, alloc: Global, name: &str) -> Result<String, AllocError> {
        match self.folder.read(alloc, name, 1048576) {
            Ok(bytes) => {
                let digits = digits_of(alloc, bytes.as_slice())?;
                format!(in alloc; "{digits}\n")
            }
            Err(ReadEnd::Missing) => String::from_str(alloc, "missing\n"),
            Err(ReadEnd::Fault) => String::from_str(alloc, "not read\n"),
            Err(ReadEnd::NoMemory) => Err(AllocError),
        }
    }
}

// What the check of the bytes of two files tells, on a line.
fn checked_text(alloc: Global, image: &[u8], notes: &[u8]) -> Result<String, AllocError> {
    match check_bytes(alloc, image, notes) {
        Ok(Checked::Neutral) => String::from_str(alloc, "neutral\n"),
        Ok(Checked::Refused { place, rule }) => format!(in alloc; "refused {place:08x} {rule:?}\n"),
        Ok(Checked::NoImage { kind, offset }) => format!(in alloc; "no image {kind:?} {offset}\n"),
        Ok(Checked::NoNotes { fault: _ }) => String::from_str(alloc, "no notes\n"),
        Err(_) => Err(AllocError),
    }
}

// What is printed of a line that may be none.
fn told_of(alloc: Global, known: bool, line: &str) -> Result<String, AllocError> {
    if known {
        Ok(String::new(alloc))
    } else {
        format!(in alloc; "no line: {line}\n")
    }
}

// The words of a line, as the program is handed them.
fn words_of(alloc: Global, line: &str) -> Result<Vec<String>, AllocError> {
    let mut words = Vec::new(alloc);
    for word in line.split(' ') {
        words.push(String::from_str(alloc, word)?)?;
    }
    Ok(words)
}

//! The rows: what each line of the standard input does, and what is printed of it.
use crate::answers::{Doing, try_instruction};
use crate::reading::{Reader, told};
use crate::tried::{Held, Kind, Tried};
use note_types::Notes;
use std::alloc::{AllocError, Global};

/// What lines are taken for.
#[derive(Clone, Copy)]
enum Lines {
    /// For what is done next.
    Commands,
    /// For notes, under which scripts are read, and binds as those of image A.
    Notes,
    /// For notes, under which binds are read as those of image B.
    Beside,
    /// For rows `PART|ANSWER`.
    Parts,
    /// For rows `PART|COUNT|ITEM|ANSWER`, of a part with so many items in place of its `@`.
    Lists,
    /// For rows `OLD|NEW|ANSWER`, of the text with a change.
    Changes,
    /// For rows `NAME | BYTES | WORDS | ANSWER`, of an instruction.
    Instructions(Doing),
}

/// What is read, what stands around the rows of a table, and how many rows held so far.
#[derive(Drop)]
pub struct Rows {
    lines: Lines,
    reader: Reader,
    // Around the part of a row, with `#` between two lines.
    text: String,
    // Around what is told of it.
    told: String,
    // What is told where the answer of a row is `no`.
    no: String,
    // The notes under which scripts are read, and those of image A for binds.
    under: String,
    // The notes of image B for binds.
    beside: String,
    name: String,
    held: Held,
}

impl Rows {
    /// No table yet.
    pub fn new(alloc: Global) -> Rows {
        Rows {
            lines: Lines::Commands,
            reader: Reader::Keys,
            text: String::new(alloc),
            told: String::new(alloc),
            no: String::new(alloc),
            under: String::new(alloc),
            beside: String::new(alloc),
            name: String::new(alloc),
            held: Held::new(),
        }
    }

    /// How many rows of each kind held so far.
    pub fn held(&self) -> Held {
        self.held
    }

    /// Does what a line says, with rows of rules under these notes. The answer is what is printed of it.
    ///
    /// # Errors
    ///
    /// Want of memory.
    pub fn tell(&mut self, alloc: Global, notes: &Notes, line: &str) -> Result<String, AllocError> {
        match (self.lines, line) {
            (Lines::Commands, _) => self.command(alloc, line),
            (_, "end") => {
                self.lines = Lines::Commands;
                Ok(String::new(alloc))
            }
            (Lines::Notes, _) => {
                add_line(&mut self.under, line)?;
                Ok(String::new(alloc))
            }
            (Lines::Beside, _) => {
                add_line(&mut self.beside, line)?;
                Ok(String::new(alloc))
            }
            _ => self.row(alloc, notes, line),
        }
    }

    fn command(&mut self, alloc: Global, line: &str) -> Result<String, AllocError> {
        let (word, rest) = line.split_once(' ').unwrap_or((line, ""));
        match word {
            "read" => return self.read(alloc, rest),
            "text" => self.text = String::from_str(alloc, rest)?,
            "told" => self.told = String::from_str(alloc, rest)?,
            "no" => self.no = String::from_str(alloc, rest)?,
            "under" => {
                self.lines = Lines::Notes;
                self.under = String::new(alloc);
            }
            "beside" => {
                self.lines = Lines::Beside;
                self.beside = String::new(alloc);
            }
            "rows" => self.begin(alloc, Lines::Parts, rest)?,
            "lists" => self.begin(alloc, Lines::Lists, rest)?,
            "changes" => self.begin(alloc, Lines::Changes, rest)?,
            "data" => self.begin(alloc, Lines::Instructions(Doing::Data), rest)?,
            "flow" => self.begin(alloc, Lines::Instructions(Doing::Flow), rest)?,
            "" | "--" => {}
            _ => return format!(in alloc; "no line: {line}\n"),
        }
        Ok(String::new(alloc))
    }

    // What is read from now on, with nothing around the rows.
    fn read(&mut self, alloc: Global, name: &str) -> Result<String, AllocError> {
        let Some(reader) = Reader::named(name) else {
            return format!(in alloc; "no reader: {name}\n");
        };
        self.reader = reader;
        self.text = String::from_str(alloc, "@")?;
        self.told = String::from_str(alloc, "@")?;
        self.no = String::new(alloc);
        Ok(String::new(alloc))
    }

    fn begin(&mut self, alloc: Global, lines: Lines, name: &str) -> Result<(), AllocError> {
        self.lines = lines;
        self.name = String::from_str(alloc, name)?;
        Ok(())
    }

    // Tries a row, of which nothing is printed where it holds.
    fn row(&mut self, alloc: Global, notes: &Notes, line: &str) -> Result<String, AllocError> {
        if line.is_empty() || line.starts_with("-- ") {
            return Ok(String::new(alloc));
        }
        let Some(tried) = self.try_row(alloc, notes, line)? else {
            return format!(in alloc; "{}: no row: {line}\n", self.name.as_str());
        };
        if !tried.holds() {
            return tried.told(alloc, self.name.as_str(), line);
        }
        let kind = self.kind();
        self.held.count(kind);
        Ok(String::new(alloc))
    }

    fn kind(&self) -> Kind {
        match self.lines {
            Lines::Instructions(_) => Kind::Rules,
            _ => self.reader.kind(),
        }
    }

    // What comes of a row. `None` where it can't be read.
    fn try_row(
        &self,
        alloc: Global,
        notes: &Notes,
        line: &str,
    ) -> Result<Option<Tried>, AllocError> {
        match self.lines {
            Lines::Instructions(doing) => try_instruction(alloc, notes, doing, line),
            _ => self.try_text(alloc, line),
        }
    }

    // What comes of a row that is read.
    fn try_text(&self, alloc: Global, line: &str) -> Result<Option<Tried>, AllocError> {
        let Some((row, answer)) = line.rsplit_once('|') else {
            return Ok(None);
        };
        let text = lines_of(alloc, self.text_of(alloc, row)?.as_str())?;
        let wanted = self.wanted(alloc, answer)?;
        let found = told(
            alloc,
            self.reader,
            self.under.as_str(),
            self.beside.as_str(),
            text.as_str().as_bytes(),
            wanted.as_str(),
        )?;
        Ok(Some(Tried { wanted, found }))
    }

    // What is wanted of a text, by the answer of its row.
    fn wanted(&self, alloc: Global, answer: &str) -> Result<String, AllocError> {
        if answer == "no" {
            String::from_str(alloc, self.no.as_str())
        } else {
            framed(alloc, self.told.as_str(), answer)
        }
    }

    // The text of a row.
    fn text_of(&self, alloc: Global, row: &str) -> Result<String, AllocError> {
        match self.lines {
            Lines::Lists => {
                let part = list_of(alloc, row)?;
                framed(alloc, self.text.as_str(), part.as_str())
            }
            Lines::Changes => changed(alloc, self.text.as_str(), row),
            _ => framed(alloc, self.text.as_str(), row),
        }
    }
}

fn add_line(text: &mut String, line: &str) -> Result<(), AllocError> {
    text.push_str(line)?;
    text.push_str("\n")
}

// A frame with a part of a text in place of its `@`.
fn framed(alloc: Global, frame: &str, part: &str) -> Result<String, AllocError> {
    let (before, after) = frame.split_once('@').unwrap_or((frame, " no place "));
    format!(in alloc; "{before}{part}{after}")
}

// A text with a line for each part between two `#`.
fn lines_of(alloc: Global, text: &str) -> Result<String, AllocError> {
    let mut lines = String::new(alloc);
    for line in text.split('#') {
        add_line(&mut lines, line)?;
    }
    Ok(lines)
}

// The text with the new part in place of the old one, of `OLD|NEW`.
fn changed(alloc: Global, text: &str, row: &str) -> Result<String, AllocError> {
    let Some((old, new)) = row.split_once('|') else {
        return String::from_str(alloc, "no change");
    };
    let Some((before, after)) = text.split_once(old) else {
        return String::from_str(alloc, "not there");
    };
    format!(in alloc; "{before}{new}{after}")
}

// The list with its items, of `LIST|COUNT|ITEM`. Each `$` of an item is its number.
fn list_of(alloc: Global, row: &str) -> Result<String, AllocError> {
    let (list, rest) = row.split_once('|').unwrap_or((row, ""));
    let (count, item) = rest.split_once('|').unwrap_or((rest, "no item"));
    let mut items = String::new(alloc);
    for number in 0..count.parse::<usize>().unwrap_or(0) {
        items.push_str(numbered(alloc, item, number)?.as_str())?;
    }
    framed(alloc, list, items.as_str())
}

fn numbered(alloc: Global, item: &str, number: usize) -> Result<String, AllocError> {
    let mut parts = item.split('$');
    let mut text = String::from_str(alloc, parts.next().unwrap_or(""))?;
    for part in parts {
        let more = format!(in alloc; "{number}{part}")?;
        text.push_str(more.as_str())?;
    }
    Ok(text)
}

//! What is told of a text that is read: its fault, or what it stands for.
use crate::keys::read_sample;
use crate::text::{Shown, Text};
use crate::tried::Kind;
use bind_texts::read_binds;
use note_types::{Notes, NotesEnd, TomlFault};
use protocol_script::read_script;
use std::alloc::{AllocError, Global};
use type_notes::read_notes;

/// What a text is read as.
#[derive(Clone, Copy)]
pub enum Reader {
    /// The keys of a table, of which all that stands there is told.
    Keys,
    /// Notes, of which the whole record is told, or one of its lists.
    Notes,
    Shapes,
    Functions,
    Points,
    /// Notes, of which the methods and the signatures are told.
    Signatures,
    /// A script under notes, of which the whole record is told.
    Script,
    /// Binds under the notes of two images, of which all are told.
    Binds,
}

impl Reader {
    /// The reader of this name.
    pub fn named(name: &str) -> Option<Reader> {
        match name {
            "keys" => Some(Reader::Keys),
            "notes" => Some(Reader::Notes),
            "shapes" => Some(Reader::Shapes),
            "functions" => Some(Reader::Functions),
            "points" => Some(Reader::Points),
            "signatures" => Some(Reader::Signatures),
            "script" => Some(Reader::Script),
            "binds" => Some(Reader::Binds),
            _ => None,
        }
    }

    /// What kind of row its rows are.
    pub fn kind(self) -> Kind {
        match self {
            Reader::Keys => Kind::Keys,
            Reader::Script => Kind::Scripts,
            Reader::Binds => Kind::Binds,
            _ => Kind::Notes,
        }
    }
}

// A fault, as `Kind a.b`.
fn fault(text: &mut Text, end: NotesEnd) {
    let (word, path) = match end {
        NotesEnd::NoMemory => return text.miss(),
        NotesEnd::Fault(TomlFault::NotToml) => return text.word("NotToml"),
        NotesEnd::Fault(TomlFault::Missing(path)) => ("Missing ", path),
        NotesEnd::Fault(TomlFault::Kind(path)) => ("Kind ", path),
        NotesEnd::Fault(TomlFault::Name(path)) => ("Name ", path),
        NotesEnd::Fault(TomlFault::Range(path)) => ("Range ", path),
        NotesEnd::Fault(TomlFault::Twice(path)) => ("Twice ", path),
    };
    text.word(word);
    text.word(path.as_str());
}

// A record that was read, or its fault; no more than `Ok` where that is what is wanted.
fn record<T: Shown + Drop>(text: &mut Text, record: Result<T, NotesEnd>, wanted: &str) {
    match record {
        Ok(_) if wanted == "Ok" => text.word("Ok"),
        Ok(record) => record.show(text),
        Err(end) => fault(text, end),
    }
}

// A part of notes.
fn part(text: &mut Text, reader: Reader, notes: &Notes) {
    match reader {
        Reader::Shapes => notes.shape.show(text),
        Reader::Functions => notes.function.show(text),
        Reader::Points => notes.point.show(text),
        Reader::Signatures => {
            notes.methods.show(text);
            text.put(" ", &notes.signature);
        }
        _ => notes.show(text),
    }
}

fn notes(text: &mut Text, alloc: Global, reader: Reader, read: &[u8], wanted: &str) {
    match read_notes(alloc, read) {
        Ok(_) if wanted == "Ok" => text.word("Ok"),
        Ok(notes) => part(text, reader, &notes),
        Err(end) => fault(text, end),
    }
}

// A script under notes, which are read each time.
fn script(text: &mut Text, alloc: Global, under: &str, read: &[u8], wanted: &str) {
    match read_notes(alloc, under.as_bytes()) {
        Ok(notes) => record(text, read_script(alloc, read, &notes), wanted),
        Err(_) => text.word("the notes are refused"),
    }
}

// Binds under the notes of both images, which are read each time.
fn binds(text: &mut Text, alloc: Global, under: &str, beside: &str, read: &[u8], wanted: &str) {
    let a = read_notes(alloc, under.as_bytes());
    let b = read_notes(alloc, beside.as_bytes());
    match (a, b) {
        (Ok(a), Ok(b)) => record(text, read_binds(alloc, read, &a, &b), wanted),
        _ => text.word("the notes are refused"),
    }
}

/// What is told of a text, of a script under the notes that a text stands for, of binds under these and those beside them. Where the
/// text is read and `Ok` is wanted, it is `Ok`.
///
/// # Errors
///
/// Want of memory.
pub fn told(
    alloc: Global,
    reader: Reader,
    under: &str,
    beside: &str,
    read: &[u8],
    wanted: &str,
) -> Result<String, AllocError> {
    let mut text = Text::new(alloc);
    match reader {
        Reader::Keys => record(&mut text, read_sample(alloc, read), wanted),
        Reader::Script => script(&mut text, alloc, under, read, wanted),
        Reader::Binds => binds(&mut text, alloc, under, beside, read, wanted),
        _ => notes(&mut text, alloc, reader, read, wanted),
    }
    text.done()
}

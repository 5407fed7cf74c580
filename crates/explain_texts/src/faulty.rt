//! A text in TOML with a fault, and what stands at a path of a key in it.

use crate::forms::{KeyForm, Thing};
use explain_base::{Line, Said};
use note_types::Notes;
use std::alloc::Global;
use toml::{Table, Value};
use toml_spans::{KeySpan, key_span, position_of};

/// Notes, and the name of their file.
#[derive(Clone, Copy)]
pub struct NotesFile<'a> {
    pub file: &'a str,
    pub notes: &'a Notes,
}

/// What a text in TOML is, with the notes whose names it may use.
#[derive(Clone, Copy)]
pub enum TomlText<'a> {
    Notes,
    /// A script, under the notes of its program.
    Script(&'a Notes),
    Plan,
    /// Binds, under the notes of the consumer, whose methods they name, and of the provider, whose functions.
    Binds(NotesFile<'a>, NotesFile<'a>),
}

impl TomlText<'_> {
    /// The page that has the keys, and the one that has the conditions over several keys.
    pub fn pages(&self) -> (&'static str, &'static str) {
        match self {
            TomlText::Notes => (
                "docs/NOTES.md, \"The file\" and \"Texts\"",
                "docs/NOTES.md, \"The conditions\"",
            ),
            TomlText::Script(_) => (
                "docs/SCRIPTS.md, \"The file\" and \"Texts\"",
                "docs/SCRIPTS.md, \"What the reader refuses\"",
            ),
            TomlText::Plan => ("docs/LINKING.md, \"Plans\"", "docs/LINKING.md, \"Plans\""),
            TomlText::Binds(..) => (
                "docs/PAIRS.md, \"A text of binds\"",
                "docs/PAIRS.md, \"Binds\"",
            ),
        }
    }
}

/// Writes `:LINE:COLUMN` of an offset of a text.
pub(crate) fn write_position(text: &[u8], offset: usize, line: &mut Line) {
    let at = position_of(text, offset);
    line.text(":").number(at.line).text(":").number(at.column);
}

/// What is said at an offset of a text, and the page that mends it.
pub(crate) fn said_at(text: &[u8], offset: usize, what: Line, page: &str) -> Said {
    let mut at = Line::new(what.alloc);
    write_position(text, offset, &mut at);
    Said::at_place(at, what, page)
}

// What a part of a path leads to in a table: the value of a key, or the item of its list that the part names.
fn value_in<'t>(table: &'t Table, part: &str) -> Option<&'t Value> {
    let Some((key, rest)) = part.split_once('[') else {
        return table.get(part);
    };
    let (digits, _) = rest.split_once(']')?;
    let number = digits.parse::<usize>().ok()?;
    table.get(key)?.as_array()?.get(number)
}

/// What stands at a path, as `function[2].need`, if it is there.
pub(crate) fn value_at<'t>(table: &'t Table, path: &str) -> Option<&'t Value> {
    let mut value: Option<&'t Value> = None;
    for part in path.split('.') {
        let inner = match value {
            Some(outer) => outer.as_table()?,
            None => table,
        };
        value = Some(value_in(inner, part)?);
    }
    value
}

/// The number of the last table of a list that a path goes through; 0 where it goes through none.
pub(crate) fn table_number(path: &str) -> usize {
    match path.rsplit_once('[') {
        Some((_, rest)) => match rest.split_once(']') {
            Some((digits, _)) => digits.parse::<usize>().unwrap_or(0),
            None => 0,
        },
        None => 0,
    }
}

/// The path of the table that a path of a key goes through last, and the key.
pub(crate) fn table_and_key(path: &str) -> (&str, &str) {
    path.rsplit_once('.').unwrap_or(("", path))
}

/// A text with a fault: its file, what it is, the text, and the table that it stands for.
#[derive(Clone, Copy)]
pub(crate) struct Faulty<'a> {
    pub alloc: Global,
    pub file: &'a str,
    pub kind: TomlText<'a>,
    pub text: &'a str,
    pub table: &'a Table,
}

/// What stands at a path: the path, what is wanted there, where it stands, and its value.
#[derive(Drop)]
pub(crate) struct Found<'a> {
    pub path: &'a str,
    pub form: KeyForm,
    pub span: KeySpan,
    pub value: &'a Value,
}

/// What a sentence speaks of: a value as a whole, or the item of that number of a list; of a value that is no list it is 0.
#[derive(Clone, Copy)]
pub(crate) enum Subject {
    Whole,
    Item(usize),
}

impl<'a> Faulty<'a> {
    /// What is said at an offset. The page is that of the keys.
    pub fn said(&self, offset: usize, what: Line) -> Said {
        said_at(self.text.as_bytes(), offset, what, self.kind.pages().0)
    }

    /// What is said where nothing is found at a path: the fault's word and the path.
    pub fn plain_said(&self, mut what: Line, word: &str, path: &str) -> Said {
        what.text(word).text(" at ").word(path);
        Said::with_page(what, self.kind.pages().0)
    }

    /// Where the key at a path and its value stand, if it is there. The line remembers want of memory.
    pub fn span(&self, path: &str, line: &mut Line) -> Option<KeySpan> {
        match key_span(self.alloc, self.text, path) {
            Ok(span) => span,
            Err(_) => {
                line.kept(false);
                None
            }
        }
    }

    /// The text between two offsets.
    pub fn part(&self, from: usize, to: usize) -> &'a str {
        match self.text.get(from..to) {
            Some(part) => part.trim_end(),
            None => "",
        }
    }

    /// What stands at a path of a key. The line remembers want of memory.
    pub fn find(&self, path: &'a str, line: &mut Line) -> Option<Found<'a>> {
        let form = self.kind.form_at(path)?;
        let value = value_at(self.table, path)?;
        let span = self.span(path, line)?;
        Some(Found {
            path,
            form,
            span,
            value,
        })
    }

    /// The name of the thing of that number, if there is one.
    pub fn name(&self, thing: Thing, number: usize) -> Option<&'a str> {
        let notes = match (self.kind, thing) {
            (TomlText::Script(notes), _) => notes,
            (TomlText::Binds(consumer, _), Thing::Method) => consumer.notes,
            (TomlText::Binds(_, provider), _) => provider.notes,
            _ => return written_name(self.table, thing, number),
        };
        match thing {
            Thing::Function => Some(notes.function.as_slice().get(number)?.name.as_str()),
            Thing::Shape => Some(notes.shape.as_slice().get(number)?.name.as_str()),
            Thing::Signature => Some(notes.signature.as_slice().get(number)?.name.as_str()),
            Thing::Method => Some(notes.methods.as_slice().get(number)?.as_str()),
        }
    }
}

// The name of the thing of that number that a text of notes has, if there is one.
fn written_name<'t>(table: &'t Table, thing: Thing, number: usize) -> Option<&'t str> {
    let (list, key) = match thing {
        Thing::Function => ("function", "name"),
        Thing::Shape => ("shape", "name"),
        Thing::Signature => ("signature", "name"),
        Thing::Method => ("signature", "method"),
    };
    table.get(list)?.as_array()?.get(number)?.get(key)?.as_str()
}

impl<'a> Found<'a> {
    /// The text that the item of that number is, if it is one; of a value that is no list the text that it is.
    pub fn item(&self, number: usize) -> Option<&'a str> {
        match self.value {
            Value::Array(items) => items.get(number)?.as_str(),
            _ => self.value.as_str(),
        }
    }

    /// How many items a list has; 1 for a value that is no list.
    pub fn count(&self) -> usize {
        match self.value {
            Value::Array(items) => items.len(),
            _ => 1,
        }
    }

    /// Writes the item of that number as it stands in the text, or the value: `item 1 of args is "null"`, or `version is 3`.
    /// It tells where the item begins.
    pub fn write_item(&self, f: &Faulty, number: usize, line: &mut Line) -> usize {
        if self.value.is_array() {
            line.text("item ").count(number).text(" of ");
        }
        let (from, to) = match self.span.items.get(number) {
            Some(span) => *span,
            None => (self.span.from, self.span.to),
        };
        line.word(self.path).text(" is ").value(f.part(from, to));
        from
    }

    /// What is said of what is wrong by a condition over several keys.
    pub fn wrong_said(&self, f: &Faulty, subject: Subject, wrong: &Line) -> Said {
        let mut what = Line::new(f.alloc);
        let offset = match subject {
            Subject::Item(number) => self.write_item(f, number, &mut what),
            Subject::Whole => {
                what.text(self.path);
                self.span.from
            }
        };
        what.line(wrong);
        said_at(f.text.as_bytes(), offset, what, f.kind.pages().1)
    }
}

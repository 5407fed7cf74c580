//! Values and names, as they are printed under the notes of a program.
ghost use Rattle.std.specs.Prelude.{◌≡◌, ◌++◌, [], Some, option_map};
ghost use Rattle.std.specs.Fmt.{decimal};
ghost use Rattle.std.specs.Option.{option_map_or};
ghost use Rattle.printed_texts.specs.RunTexts.{function_text, signature_text};
ghost use Rattle.script_draft.specs.Printed.{function_name, method_name, seen_text, value_text};

use crate::number::Wild;
use note_types::{Notes, Seen, Value};
use std::fmt::{self, Display};

fn function_name(notes: &Notes, func: u32) -> Option<&str>
    ensures { option_map (λ name. name.now) result ≡ function_name notes.now func }
{
    match notes.function.as_slice().get(func as usize) {
        Some(function) => Some(function.name.as_str()),
        None => None,
    }
}

fn method_name(notes: &Notes, method: u32) -> Option<&str>
    ensures { option_map (λ name. name.now) result ≡ method_name notes.now method }
{
    match notes.methods.as_slice().get(method as usize) {
        Some(name) => Some(name.as_str()),
        None => None,
    }
}

/// The name of a function.
pub(crate) fn function_text(notes: &Notes, func: u32) -> &str
    ensures { result.now ≡ function_text notes.now func }
{
    match function_name(notes, func) {
        Some(name) => name,
        None => "",
    }
}

/// The name of a signature, if there is one.
pub(crate) fn signature_text(notes: &Notes, signature: Option<u32>) -> &str
    ensures { result.now ≡ signature_text notes.now signature }
{
    let Some(number) = signature else {
        return "none";
    };
    match notes.signature.as_slice().get(number as usize) {
        Some(signature) => signature.name.as_str(),
        None => "",
    }
}

// A word, and a number behind it.
#[derive(Clone, Copy)]
struct Numbered(&'static str, u64);

impl fmt::Display for Numbered {
    ghost output = { λ n. Some (n.0.now ++ decimal n.1) };

    fn fmt<W: fmt::Write>(&self, f: &mut fmt::Formatter<W>) -> fmt::Result {
        let (word, number) = (self.0, self.1);
        write!(f, "{word}{number}")
    }
}

// A word, a number, a mark, and another number.
#[derive(Clone, Copy)]
struct Paired(&'static str, u64, &'static str, u64);

impl fmt::Display for Paired {
    ghost output = { λ p. Some (p.0.now ++ (decimal p.1 ++ (p.2.now ++ decimal p.3))) };

    fn fmt<W: fmt::Write>(&self, f: &mut fmt::Formatter<W>) -> fmt::Result {
        let (word, first, mark, second) = (self.0, self.1, self.2, self.3);
        write!(f, "{word}{first}{mark}{second}")
    }
}

// A word, and a name behind it; nothing where there is no name.
#[derive(Clone, Copy)]
struct Named<'a>(&'static str, Option<&'a str>);

impl fmt::Display for Named<'_> {
    ghost output = { λ n. Some (option_map_or (λ name. n.0.now ++ name.now) n.1 []) };

    fn fmt<W: fmt::Write>(&self, f: &mut fmt::Formatter<W>) -> fmt::Result {
        let word = self.0;
        match self.1 {
            Some(name) => write!(f, "{word}{name}"),
            None => Ok(()),
        }
    }
}

// A value, with the things of the notes by their names.
#[derive(Clone, Copy)]
pub(crate) struct ShownValue<'a> {
    pub notes: &'a Notes,
    pub value: Value,
}

impl fmt::Display for ShownValue<'_> {
    ghost output = { λ v. Some (value_text v.notes.now v.value) };

    #[tactic(auto, unfolding(script_draft::specs::Printed::named_value, script_draft::specs::Printed::value_text))]
    fn fmt<W: fmt::Write>(&self, f: &mut fmt::Formatter<W>) -> fmt::Result {
        let notes = self.notes;
        match self.value {
            Value::Int(n) => Numbered("int ", n).fmt(f),
            Value::Size { n, c } => Paired("size ", u64::from(n), ",", u64::from(c)).fmt(f),
            Value::Ptr { object, instance } => Paired("ptr ", object, " ", instance).fmt(f),
            Value::Null => f.write_str("null"),
            Value::StatusOk(code) => Numbered("status ok ", u64::from(code)).fmt(f),
            Value::StatusError(code) => Numbered("status error ", u64::from(code)).fmt(f),
            Value::Handle(k) => Numbered("handle ", u64::from(k)).fmt(f),
            Value::Entry(func) => Named("entry ", function_name(notes, func)).fmt(f),
            Value::Method(method) => Named("method ", method_name(notes, method)).fmt(f),
            Value::Any => f.write_str("any"),
            Value::Out => f.write_str("out"),
            Value::Wild(number) => Wild(number).fmt(f),
        }
    }
}

// An argument, with the things of the notes by their names.
#[derive(Clone, Copy)]
pub(crate) struct ShownArgument<'a> {
    pub notes: &'a Notes,
    pub seen: Seen,
}

impl fmt::Display for ShownArgument<'_> {
    ghost output = { λ s. Some (seen_text s.notes.now s.seen) };

    fn fmt<W: fmt::Write>(&self, f: &mut fmt::Formatter<W>) -> fmt::Result {
        let value = ShownValue {
            notes: self.notes,
            value: self.seen.value,
        };
        if self.seen.lent {
            write!(f, "lent {value}")
        } else {
            value.fmt(f)
        }
    }
}

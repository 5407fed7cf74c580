//! What is said of names that aren't there.

use crate::faulty::{Faulty, Found, TomlText};
use crate::fields::{Wrong, sought_in};
use crate::forms::{Form, Thing};
use explain_base::{Line, Said};

/// Names that are listed.
const MOST_NAMES: usize = 64;

/// The number of the thing of that name, if it is there.
pub(crate) fn thing_number(f: &Faulty, thing: Thing, name: &str) -> Option<usize> {
    for number in 0..usize::MAX {
        if f.name(thing, number)? == name {
            return Some(number);
        }
    }
    None
}

// Writes the names of the things of a kind, with commas.
fn write_names(f: &Faulty, thing: Thing, line: &mut Line) {
    for number in 0..MOST_NAMES {
        let Some(name) = f.name(thing, number) else {
            return;
        };
        line.text(if number == 0 { "" } else { ", " }).text(name);
    }
    line.text(", ..");
}

fn is_break(c: char) -> bool {
    matches!(c, ' ' | ':' | ',' | '*' | '+' | '!')
}

// The first name in a text of a list that isn't there, and what it is to name. The word before a name tells what it names.
fn unknown_name<'t>(f: &Faulty, form: Form, text: &'t str) -> Option<(Thing, &'t str)> {
    let mut named = match form {
        Form::Callback => Some(Thing::Function),
        _ => None,
    };
    for word in text.split(is_break) {
        if let Some(thing) = named {
            if thing_number(f, thing, word).is_none() {
                return Some((thing, word));
            }
        }
        named = match (word, f.kind) {
            ("method", _) => Some(Thing::Method),
            ("entry", TomlText::Script(_)) => Some(Thing::Function),
            ("ptr" | "ptr?" | "p64" | "p64?", TomlText::Notes) => Some(Thing::Shape),
            _ => None,
        };
    }
    None
}

// What is said of an item of a list, or of a text, in which a name isn't there.
fn item_said(f: &Faulty, at: &Found, number: usize, thing: Thing, name: &str) -> Said {
    let mut what = Line::new(f.alloc);
    let offset = at.write_item(f, number, &mut what);
    what.text(", which names the ")
        .text(thing.word())
        .text(" ")
        .text(name)
        .text(" that the notes don't have");
    let (mut names, mut more) = (Line::new(f.alloc), Line::new(f.alloc));
    write_names(f, thing, &mut names);
    more.list("they have: ", &names, "they have none");
    let mut said = f.said(offset, what);
    said.add(more);
    said
}

// What is said of a name that the notes don't have; of binds the notes are told by their file.
fn thing_said(f: &Faulty, at: &Found, thing: Thing) -> Said {
    let (owner, verb, whose) = match (f.kind, thing) {
        (TomlText::Binds(consumer, _), Thing::Method) => (consumer.file, "doesn't", "it has"),
        (TomlText::Binds(_, provider), _) => (provider.file, "doesn't", "it has"),
        _ => ("the notes", "don't", "they have"),
    };
    let mut what = Line::new(f.alloc);
    let offset = at.write_item(f, 0, &mut what);
    what.text(", which names a ")
        .text(thing.word())
        .text(" that ")
        .word(owner);
    what.text(" ").text(verb).text(" have");
    let mut more = Line::of(f.alloc, whose);
    if f.name(thing, 0).is_some() {
        more.text(": ");
        write_names(f, thing, &mut more);
    } else {
        more.text(" none");
        write_other_names(f, thing, &mut more);
    }
    let mut said = f.said(offset, what);
    said.add(more);
    said
}

// Writes the things of that kind that the other notes of binds have.
fn write_other_names(f: &Faulty, thing: Thing, line: &mut Line) {
    let TomlText::Binds(consumer, provider) = f.kind else {
        return;
    };
    let turned = Faulty {
        kind: TomlText::Binds(provider, consumer),
        ..*f
    };
    if turned.name(thing, 0).is_none() {
        return;
    }
    let file = match thing {
        Thing::Method => provider.file,
        _ => consumer.file,
    };
    line.text("; ").word(file).text(" has: ");
    write_names(&turned, thing, line);
}

/// What is said of the first name that isn't there. A field stands before what its cell holds.
pub(crate) fn name_said(f: &Faulty, at: &Found) -> Said {
    if let Form::NameOf(thing) = at.form.form {
        return thing_said(f, at, thing);
    }
    let mut wrong = Wrong::new(f.alloc);
    let sought = sought_in(f, at, &mut wrong);
    for number in 0..at.count() {
        let text = at.item(number).unwrap_or("");
        if sought.lacks_field(text, &mut wrong) {
            return wrong.item_said(f, at, number);
        }
        if let Some((thing, name)) = unknown_name(f, at.form.form, text) {
            return item_said(f, at, number, thing, name);
        }
    }
    wrong.plain_said(f, at)
}

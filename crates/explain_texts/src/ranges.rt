//! What is said of values that are past a limit, not of their form, or not as a condition over several keys wants it.

use crate::bind_conditions::bind_condition;
use crate::faulty::{Faulty, Found, TomlText};
use crate::forms::Form;
use crate::note_conditions::note_condition;
use crate::script_conditions::script_condition;
use explain_base::{Line, Said};
use toml::Value;

// Whether a number or a text isn't of a form. The line remembers want of memory.
fn is_odd(form: Form, value: &Value, line: &mut Line) -> bool {
    match (value, form) {
        (Value::Integer(number), Form::Number { low, high }) => *number < low || high < *number,
        (Value::Integer(number), Form::Pair { high }) => *number < 0 || high < *number,
        (Value::String(text), _) => !form.takes(text.as_str(), line),
        _ => false,
    }
}

// The first item of a list that isn't of its form; 0 of a value that is no list.
fn first_odd(at: &Found, line: &mut Line) -> Option<usize> {
    let Value::Array(items) = at.value else {
        return if is_odd(at.form.form, at.value, line) {
            Some(0)
        } else {
            None
        };
    };
    for (number, item) in items.as_slice().iter().enumerate() {
        if is_odd(at.form.form, item, line) {
            return Some(number);
        }
    }
    None
}

// What is said of an item or a value that isn't of its form.
fn odd_said(f: &Faulty, at: &Found, number: usize, mut what: Line) -> Said {
    let offset = at.write_item(f, number, &mut what);
    what.text("; wanted: ").text(at.form.wanted);
    let mut said = f.said(offset, what);
    said.add(Line::of(f.alloc, at.form.form.parts()));
    said
}

// What is said of a value as a whole, or of a list by how many items it has.
fn whole_said(f: &Faulty, at: &Found, counts: bool, mut what: Line) -> Said {
    what.text(at.path);
    let offset = if counts {
        what.text(" has ").count(at.count()).text(" items");
        at.span.key
    } else {
        what.text(" is ").value(f.part(at.span.from, at.span.to));
        at.span.from
    };
    what.text("; wanted: ").text(at.form.wanted);
    f.said(offset, what)
}

// What is said of a value by a condition over several keys. `wrong` is empty.
fn condition_said(f: &Faulty, at: &Found, mut wrong: Line) -> Said {
    let subject = match f.kind {
        TomlText::Notes => note_condition(f, at, &mut wrong),
        TomlText::Script(notes) => script_condition(f, notes, at, &mut wrong),
        TomlText::Binds(consumer, provider) => {
            bind_condition(consumer.notes, provider.notes, at, &mut wrong)
        }
        TomlText::Plan => None,
    };
    match (subject, at.value) {
        (Some(subject), _) => at.wrong_said(f, subject, &wrong),
        (None, Value::Array(_) | Value::Table(_)) => whole_said(f, at, true, wrong),
        _ => whole_said(f, at, false, wrong),
    }
}

/// What is said of a value that is past a limit, not of its form, or not as a condition wants it.
pub(crate) fn range_said(f: &Faulty, at: &Found) -> Said {
    let mut what = Line::new(f.alloc);
    let (form, first, count) = (at.form.form, first_odd(at, &mut what), at.count());
    if at.value.is_array() {
        match form {
            Form::Pair { .. } if count != 2 || first.is_some() => {
                return whole_said(f, at, false, what);
            }
            Form::File if count == 0 => return whole_said(f, at, true, what),
            _ if at.form.most() < count => return whole_said(f, at, true, what),
            _ => {}
        }
    }
    match first {
        Some(number) => odd_said(f, at, number, what),
        None => condition_said(f, at, what),
    }
}

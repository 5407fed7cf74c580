//! What is said of a bind that doesn't agree with the notes of both images: docs/PAIRS.md, "Binds".

use crate::faulty::{Found, Subject};
use crate::values::{write_params, write_result, write_type};
use explain_base::Line;
use note_types::{FnNote, Notes, Signature};

// Writes what a signature and a function take and give.
fn write_interfaces(
    consumer: &Notes,
    provider: &Notes,
    signature: &Signature,
    function: &FnNote,
    line: &mut Line,
) {
    line.text(" doesn't agree: signature ")
        .text(signature.name.as_str())
        .text(" has ");
    write_params(consumer, signature.params.as_slice(), line);
    line.text(", result ");
    write_result(consumer, signature, "none", line);
    line.text("; function ")
        .text(function.name.as_str())
        .text(" has ");
    write_params(provider, function.params.as_slice(), line);
    line.text(", result ");
    write_type(provider, function.result, line);
}

// The signature of a method.
fn signature_of<'n>(notes: &'n Notes, method: &str) -> Option<&'n Signature> {
    for signature in notes.signature.as_slice() {
        if let Some(name) = notes.methods.as_slice().get(signature.method as usize) {
            if name.as_str() == method {
                return Some(signature);
            }
        }
    }
    None
}

fn text_at<'a>(at: &Found<'a>, key: &str) -> &'a str {
    match at.value.get(key) {
        Some(value) => value.as_str().unwrap_or(""),
        None => "",
    }
}

// The function of that name, and its number.
fn function_named<'n>(notes: &'n Notes, name: &str) -> Option<(usize, &'n FnNote)> {
    for (number, function) in notes.function.as_slice().iter().enumerate() {
        if function.name.as_str() == name {
            return Some((number, function));
        }
    }
    None
}

/// What of a bind doesn't agree with the notes of both images; it writes what is wrong with it.
pub(crate) fn bind_condition(
    consumer: &Notes,
    provider: &Notes,
    at: &Found,
    line: &mut Line,
) -> Option<Subject> {
    let (method, name) = (text_at(at, "method"), text_at(at, "function"));
    let (number, function) = function_named(provider, name)?;
    if number == provider.entry as usize {
        line.text(" doesn't agree: ")
            .text(name)
            .text(" is the entry function, which no bind enters");
    } else if !function.enter {
        line.text(" doesn't agree: ")
            .text(name)
            .text(" isn't marked enter = true");
    } else {
        write_interfaces(
            consumer,
            provider,
            signature_of(consumer, method)?,
            function,
            line,
        );
    }
    Some(Subject::Whole)
}

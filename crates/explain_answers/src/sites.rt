//! What may be the cause where a native call has no site.

use crate::answer::Answer;
use crate::refusals::{Read, scene_of};
use ebc_base::NoMemory;
use explain_base::{Line, Said, Scene};
use explain_rows::candidate_line;
use note_types::{Notes, Signature};
use state_walk::Before;
use toml_spans::key_span;

// How many signatures of a method are told at most.
const CANDIDATES: usize = 8;

fn has_site(notes: &Notes, place: u32) -> bool {
    notes.site.as_slice().iter().any(|site| site.place == place)
}

// Whether a signature is one of the method that is called, with whose name the first line begins.
fn is_called(notes: &Notes, signature: &Signature, said: &Said) -> bool {
    let Some(name) = notes.methods.as_slice().get(signature.method as usize) else {
        return false;
    };
    match said.what.as_str().strip_prefix(name.as_str()) {
        Some(rest) => rest.starts_with(" is called"),
        None => false,
    }
}

// The line of the method's signatures.
fn signatures_line(notes: &Notes, said: &Said) -> Line {
    let mut line = Line::of(
        said.what.alloc,
        "a site is found where one signature alone of the method takes what lies on the stack; there are:",
    );
    let mut count = 0usize;
    for signature in notes.signature.as_slice() {
        if is_called(notes, signature, said) {
            line.text(if count == 0 { " " } else { ", " })
                .text(signature.name.as_str());
            count = count.saturating_add(1);
        }
    }
    line.text(if count == 0 { " none" } else { "" });
    line
}

// Adds a line of each signature of the method: whether it takes what lies on the stack.
fn add_candidates(scene: &Scene, said: &mut Said) {
    let mut count = 0usize;
    for (number, signature) in scene.notes.signature.as_slice().iter().enumerate() {
        if count < CANDIDATES && is_called(scene.notes, signature, said) {
            said.add(candidate_line(scene, number));
            count = count.saturating_add(1);
        }
    }
}

// Adds why no site was found for a text of notes with labels.
fn add_unfound(
    answer: &Answer,
    read: &Read,
    at: Option<&Before>,
    said: &mut Said,
) -> Result<(), NoMemory> {
    let alloc = answer.alloc;
    let text = std::str::from_utf8(read.text).unwrap_or("");
    if key_span(alloc, text, "point[0]")?.is_some() {
        said.add(Line::of(
            alloc,
            "where the text has a point, all points and sites are its own",
        ));
        return Ok(());
    }
    said.add(signatures_line(read.notes, said));
    let scene = match at {
        Some(at) => scene_of(alloc, read.notes, at),
        None => None,
    };
    if let Some(scene) = scene {
        add_candidates(&scene, said);
    }
    Ok(())
}

/// Adds what may be the cause if a native call at a place has no site: all places behind an edit move, or no site is found for it.
pub(crate) fn add_cause(
    answer: &Answer,
    read: &Read,
    place: u32,
    at: Option<&Before>,
    said: &mut Said,
) -> Result<(), NoMemory> {
    if has_site(read.notes, place) {
        return Ok(());
    }
    if answer.program.completes() {
        return add_unfound(answer, read, at, said);
    }
    said.add(Line::of(
        answer.alloc,
        "an edit of the source moves all places behind it; ebc_notes finds them by labels: docs/LABELS.md",
    ));
    Ok(())
}

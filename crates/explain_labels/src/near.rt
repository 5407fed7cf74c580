//! Lists of labels, and which are near to one that isn't there.

use ebc_base::Name;
use explain_base::Line;
use label_places::Label;

/// Labels and objects that are listed.
const MOST_LISTED: usize = 8;

// How many bytes at the beginning of two texts are the same.
fn same_first(a: &[u8], b: &[u8]) -> usize {
    a.iter()
        .zip(b.iter())
        .take_while(|(x, y)| **x == **y)
        .count()
}

// How many bytes at the end of two texts are the same.
fn same_last(a: &[u8], b: &[u8]) -> usize {
    a.iter()
        .rev()
        .zip(b.iter().rev())
        .take_while(|(x, y)| **x == **y)
        .count()
}

// Whether all but two bytes of each of two names are the same as at the beginning or the end of the other.
fn is_near(a: &str, b: &str) -> bool {
    let (a, b) = (a.as_bytes(), b.as_bytes());
    let same = same_first(a, b).saturating_add(same_last(a, b));
    same > 0 && a.len() <= same.saturating_add(2) && b.len() <= same.saturating_add(2)
}

// Adds one of a list, behind so many others; false where the list is full.
fn add_listed(count: usize, object: &str, name: &str, line: &mut Line) -> bool {
    if count == MOST_LISTED {
        line.text(", ..");
        return false;
    }
    line.text(if count == 0 { "" } else { ", " }).word(object);
    line.text(if object.is_empty() { "" } else { ":" })
        .word(name);
    true
}

// Adds the labels that are near to a name; it tells how many.
fn add_near(labels: &[Label], name: &str, line: &mut Line) -> usize {
    let mut count = 0usize;
    for label in labels {
        let other = label.name.as_str();
        if is_near(name, other) {
            if !add_listed(count, "", other, line) {
                return count;
            }
            count = count.saturating_add(1);
        }
    }
    count
}

// Adds the first labels.
fn add_first(labels: &[Label], line: &mut Line) {
    for (count, label) in labels.iter().enumerate() {
        if !add_listed(count, "", label.name.as_str(), line) {
            return;
        }
    }
}

/// Adds labels that are near to a name, or the first ones where none is.
pub(crate) fn add_known(labels: &[Label], name: &str, line: &mut Line) {
    let mut near = Line::of(line.alloc, "near to it: ");
    if add_near(labels, name, &mut near) > 0 {
        line.line(&near);
    } else if labels.is_empty() {
        line.text("the objects have no label");
    } else {
        line.text("labels: ");
        add_first(labels, line);
    }
}

/// Adds the names of files.
pub(crate) fn add_files(names: &[Name], line: &mut Line) {
    for (count, name) in names.iter().enumerate() {
        if !add_listed(count, "", name.as_str(), line) {
            return;
        }
    }
}

/// Adds all labels of a name, with the files of their objects.
pub(crate) fn add_namesakes(labels: &[Label], names: &[Name], sought: &str, line: &mut Line) {
    let mut count = 0usize;
    for label in labels {
        if label.name.as_str() == sought {
            let object = match names.get(label.position.object) {
                Some(object) => object.as_str(),
                None => "",
            };
            if !add_listed(count, object, sought, line) {
                return;
            }
            count = count.saturating_add(1);
        }
    }
}

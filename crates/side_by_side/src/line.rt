//! A line, and two of them side by side.
ghost use Rattle.std.specs.Prelude.{◌≡◌, ◌++◌, OnOk, codes, drop, take};
ghost use Rattle.side_by_side.specs.SideBySide.{but_last_word, first_word, margin, marked_line, paired, past_word, place, row_place_words};
ghost use Rattle.side_by_side.specs.SideBySide.{same_object, same_subject, subject};

use std::alloc::AllocError;

/// The mark of a line of width 32 alone.
pub(crate) const AT32: &[u8] = b"32 ";

/// The mark of a line of width 64 alone.
pub(crate) const AT64: &[u8] = b"64 ";

// The first word of a row of bytes.
const ROW: &[u8] = b"bytes";

// The blanks that a line begins with, and what follows them.
fn parts(line: &[u8]) -> (&[u8], &[u8])
    ensures blanks { result.0.now ≡ take (margin line.now) line.now }
    ensures words { result.1.now ≡ drop (margin line.now) line.now }
{
    match line.iter().position(|byte| *byte != b' ') {
        Some(at) => line.split_at(at),
        None => (line, &[]),
    }
}

// What stands before the first blank of a text.
fn first_word(text: &[u8]) -> &[u8]
    ensures { result.now ≡ first_word text.now }
{
    match text.iter().position(|byte| *byte == b' ') {
        Some(at) => text.split_at(at).0,
        None => text,
    }
}

// What a line is about: its first word.
fn subject(line: &[u8]) -> &[u8]
    ensures { result.now ≡ subject line.now }
{
    let (_, words) = parts(line);
    first_word(words)
}

// What stands behind the first blank of a text.
fn past_word(text: &[u8]) -> &[u8]
    ensures { result.now ≡ past_word text.now }
{
    match text.iter().position(|byte| *byte == b' ') {
        Some(at) => text.split_at(at + 1).1,
        None => &[],
    }
}

// What stands before the last blank of a text.
fn but_last_word(text: &[u8]) -> &[u8]
    ensures { result.now ≡ but_last_word text.now }
{
    match text.iter().rposition(|byte| *byte == b' ') {
        Some(at) => text.split_at(at).0,
        None => &[],
    }
}

// Where the bytes of a row lie.
fn row_place_words(line: &[u8]) -> &[u8]
    ensures { result.now ≡ row_place_words line.now }
{
    let (_, words) = parts(line);
    but_last_word(past_word(past_word(words)))
}

// Where the bytes of a line lie that is a row of bytes.
fn place(line: &[u8]) -> &[u8]
    ensures { result.now ≡ place line.now }
{
    if subject(line) == ROW {
        row_place_words(line)
    } else {
        &[]
    }
}

// Whether two places are one of the image, or are in one object.
fn same_object(p: &[u8], q: &[u8]) -> bool
    ensures { result ≡ same_object p.now q.now }
{
    first_word(p) == first_word(q) && but_last_word(p) == but_last_word(q)
}

/// Whether two lines are about the same.
pub(crate) fn same_subject(a: &[u8], b: &[u8]) -> bool
    ensures { result ≡ same_subject a.now b.now }
{
    subject(a) == subject(b) && same_object(place(a), place(b))
}

/// Appends a line of one width alone.
pub(crate) fn append_marked(mark: &[u8], line: &[u8], out: &mut Vec<u8>) -> Result<(), AllocError>
    ensures { OnOk result (out.new.items ≡ out.old.items ++ marked_line mark.now line.now) }
{
    let (blanks, words) = parts(line);
    out.extend_from_slice(blanks)?;
    out.extend_from_slice(mark)?;
    out.extend_from_slice(words)?;
    out.push(b'\n')?;
    Ok(())
}

// Appends a line of both widths.
fn append_shared(line: &[u8], out: &mut Vec<u8>) -> Result<(), AllocError>
    ensures { OnOk result (out.new.items ≡ out.old.items ++ (line.now ++ codes "\n")) }
{
    out.extend_from_slice(line)?;
    out.push(b'\n')?;
    Ok(())
}

/// Appends two lines that are about the same.
pub(crate) fn append_pair(at32: &[u8], at64: &[u8], out: &mut Vec<u8>) -> Result<(), AllocError>
    ensures { OnOk result (out.new.items ≡ out.old.items ++ paired at32.now at64.now) }
{
    if at32 == at64 {
        return append_shared(at32, out);
    }
    append_marked(AT32, at32, out)?;
    append_marked(AT64, at64, out)
}

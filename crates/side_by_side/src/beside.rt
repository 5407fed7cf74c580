//! The lines of two texts, side by side.
ghost use Rattle.std.specs.Prelude.{◌≡◌, ◌++◌, ℕ, IfOk, List, OnOk};
ghost use Rattle.std.specs.List.{flat_map, list_any};
ghost use Rattle.asm_text.specs.Splits.{lines_of};
ghost use Rattle.side_by_side.specs.SideBySide.{line_beside, only64, same_subject, side_by_side, until_beside};

use crate::line::{AT32, AT64, append_marked, append_pair, same_subject};
use asm_text::next_line;
use std::alloc::AllocError;

// Whether a text has a line that is about the same as this one.
fn has_subject(line: &[u8], text: &[u8]) -> bool
    ensures { result ≡ list_any (same_subject line.now) (lines_of text.now) }
{
    let mut rest = text;
    while let Some((next, after)) = next_line(rest) {
        if same_subject(line, next) {
            return true;
        }
        rest = after;
    }
    false
}

// Appends a line of width 32 beside the first of a text of width 64 that is about the same, and those in front of this; and says what
// of the text is left.
fn append_until<'a>(line: &[u8], text: &'a [u8], out: &mut Vec<u8>) -> Result<&'a [u8], AllocError>
    ensures { IfOk result (λ left. (rest : List (List ℕ) → List ℕ) →
        out.new.items ++ rest (lines_of left.now) ≡ out.old.items ++ until_beside line.now rest (lines_of text.now)) }
{
    let mut left = text;
    while let Some((next, after)) = next_line(left) {
        if same_subject(line, next) {
            append_pair(line, next, out)?;
            return Ok(after);
        }
        append_marked(AT64, next, out)?;
        left = after;
    }
    Ok(left)
}

// Appends a line of width 32 beside a text of width 64, and says what of the text is left.
fn append_line<'a>(line: &[u8], text: &'a [u8], out: &mut Vec<u8>) -> Result<&'a [u8], AllocError>
    ensures { IfOk result (λ left. (rest : List (List ℕ) → List ℕ) →
        out.new.items ++ rest (lines_of left.now) ≡ out.old.items ++ line_beside line.now rest (lines_of text.now)) }
{
    if has_subject(line, text) {
        return append_until(line, text, out);
    }
    append_marked(AT32, line, out)?;
    Ok(text)
}

// Appends the lines of a text of width 64 that have none beside them.
fn append_rest(text: &[u8], out: &mut Vec<u8>) -> Result<(), AllocError>
    ensures { OnOk result (out.new.items ≡ out.old.items ++ flat_map only64 (lines_of text.now)) }
{
    let mut rest = text;
    while let Some((next, after)) = next_line(rest) {
        append_marked(AT64, next, out)?;
        rest = after;
    }
    Ok(())
}

/// Appends the lines of a text of width 32 beside those of one of width 64.
///
/// # Errors
///
/// Want of memory alone.
pub fn append_beside(at32: &[u8], at64: &[u8], out: &mut Vec<u8>) -> Result<(), AllocError>
    ensures { OnOk result (out.new.items ≡ out.old.items ++ side_by_side at32.now at64.now) }
{
    let mut left = at32;
    let mut other = at64;
    while let Some((line, after)) = next_line(left) {
        let below = append_line(line, other, out)?;
        left = after;
        other = below;
    }
    append_rest(other, out)
}

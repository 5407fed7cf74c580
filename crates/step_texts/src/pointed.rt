//! The lines of what arguments of native calls point to.
ghost use Rattle.std.specs.Prelude.{◌≡◌, ◌++◌, IfOk, OnOk, option_map, string_bytes, take, ◌==◌};
ghost use Rattle.std.specs.List.{flat_map, list_all, position_or_len};
ghost use Rattle.step_texts.specs.PointedTexts.{before_zero, contents_text, dots, is_printable, is_unescaped, leading_text, pointed_line};
ghost use Rattle.step_texts.specs.PointedTexts.{shown_text, unit_text, words};

use crate::changes::push_bytes;
use crate::numbers::Unit;
use crate::text::LINE_ROOM;
use note_types::NoMemory;
use std::alloc::Global;

// How many cells of a text are shown.
const TEXT_CELLS: usize = 64;

// How many bytes are shown of what is no text.
const SHOWN_BYTES: usize = 16;

/// What the instances hold that an argument points to.
#[derive(Clone, Copy)]
pub enum Cells {
    /// One number of two bytes each.
    Words,
    /// One number of one byte each.
    Bytes,
    /// Anything else.
    Others,
}

fn is_printable(unit: u16) -> bool
    ensures { result ≡ is_printable unit }
{
    32 <= unit && unit <= 126
}

// Whether a cell stands as it is in quotes.
fn is_unescaped(unit: u16) -> bool
    ensures { result ≡ is_unescaped unit }
{
    is_printable(unit) && unit != u16::from(b'"') && unit != u16::from(b'\\')
}

// The numbers of cells of two bytes each.
#[tactic(auto, using(crate::proofs::PointedLaws::no_words, crate::proofs::PointedLaws::one_word_more))]
fn words(alloc: Global, bytes: &[u8]) -> Result<Vec<u16>, NoMemory>
    ensures { IfOk result (λ cells. cells.items ≡ words bytes.now) }
{
    let mut cells = Vec::new(alloc);
    for k in 0..bytes.len() / 2 {
        cells.push(u16::from_le_bytes([bytes[2 * k], bytes[2 * k + 1]]))?;
    }
    Ok(cells)
}

// The numbers of cells of one byte each.
fn numbers(alloc: Global, bytes: &[u8]) -> Result<Vec<u16>, NoMemory>
    ensures { IfOk result (λ cells. cells.items ≡ bytes.now) }
{
    let mut cells = Vec::new(alloc);
    for byte in bytes {
        cells.push(u16::from(*byte))?;
    }
    Ok(cells)
}

// The cells in front of the first that is zero.
fn before_zero(cells: &[u16]) -> &[u16]
    ensures { result.now ≡ before_zero cells.now }
{
    match cells.iter().position(|cell| *cell == 0) {
        Some(at) => &cells[..at],
        None => cells,
    }
}

// How many bytes there are in front of the first zero.
fn zero_at(bytes: &[u8]) -> usize
    ensures { result ≡ position_or_len (λ b. b == 0) bytes.now }
{
    match bytes.iter().position(|byte| *byte == 0) {
        Some(at) => at,
        None => bytes.len(),
    }
}

fn are_printable(bytes: &[u8]) -> bool
    ensures { result ≡ list_all is_printable bytes.now }
{
    bytes.iter().all(|byte| 32 <= *byte && *byte <= 126)
}

// The text that bytes begin with, if they do.
#[tactic(auto, unfolding(crate::specs::PointedTexts::leading_text))]
fn leading_text(bytes: &[u8]) -> Option<&[u8]>
    ensures { option_map (λ text. text.now) result ≡ leading_text bytes.now }
{
    let at = zero_at(bytes);
    if at < bytes.len() && 0 < at && are_printable(&bytes[..at]) {
        Some(&bytes[..at])
    } else {
        None
    }
}

// The first items, so many of them, or all if they are fewer.
fn front<T: Drop>(items: &[T], count: usize) -> &[T]
    ensures { result.now ≡ take count items.now }
{
    items.get(..count).unwrap_or(items)
}

// Adds a cell of a text as it stands in quotes.
#[tactic(auto, unfolding(crate::specs::PointedTexts::unit_text))]
fn push_unit(unit: u16, line: &mut String) -> Result<(), NoMemory>
    ensures { OnOk result (string_bytes line.new ≡ string_bytes line.old ++ unit_text unit) }
{
    if is_unescaped(unit) {
        line.push(char::from(unit as u8))?;
        return Ok(());
    }
    let unit = Unit(unit);
    write!(line, "\\u{unit}")?;
    Ok(())
}

// Adds cells of a text as they stand in quotes.
fn push_units(cells: &[u16], line: &mut String) -> Result<(), NoMemory>
    ensures { OnOk result (string_bytes line.new ≡ string_bytes line.old ++ flat_map unit_text cells.now) }
{
    for cell in cells {
        push_unit(*cell, line)?;
    }
    Ok(())
}

// What stands behind a text of so many cells: three dots if they are more than are shown.
fn dots(cells: usize) -> &'static str
    ensures { result.now ≡ dots cells }
{
    if TEXT_CELLS < cells { "..." } else { "" }
}

// Adds a text in quotes.
fn push_text(cells: &[u16], line: &mut String) -> Result<(), NoMemory>
    ensures { OnOk result (string_bytes line.new ≡ string_bytes line.old ++ shown_text cells.now) }
{
    line.push('"')?;
    push_units(front(cells, TEXT_CELLS), line)?;
    line.push('"')?;
    line.push_str(dots(cells.len()))?;
    Ok(())
}

// Adds what lies where an argument points to. One cell more than is shown tells whether there are more.
fn push_contents(
    alloc: Global,
    cells: Cells,
    bytes: &[u8],
    line: &mut String,
) -> Result<(), NoMemory>
    ensures { OnOk result (string_bytes line.new ≡ string_bytes line.old ++ contents_text cells bytes.now) }
{
    if let Cells::Words = cells {
        let cells = words(alloc, front(bytes, 2 * (TEXT_CELLS + 1)))?;
        return push_text(before_zero(cells.as_slice()), line);
    }
    if let Cells::Bytes = cells {
        if let Some(text) = leading_text(bytes) {
            let cells = numbers(alloc, front(text, TEXT_CELLS + 1))?;
            return push_text(cells.as_slice(), line);
        }
    }
    push_bytes(front(bytes, SHOWN_BYTES), line)
}

/// Appends the line of what an argument points to: which argument it is, from 0, what the instances hold there, and the bytes from there
/// to the end of the object.
///
/// # Errors
///
/// Want of memory alone.
pub fn append_pointed(
    alloc: Global,
    argument: u64,
    cells: Cells,
    bytes: &[u8],
    out: &mut Vec<u8>,
) -> Result<(), NoMemory>
    ensures { OnOk result (out.new.items ≡ out.old.items ++ pointed_line argument cells bytes.now) }
{
    let mut line = String::with_capacity(alloc, LINE_ROOM)?;
    write!(line, "  argument {argument} ")?;
    push_contents(alloc, cells, bytes, &mut line)?;
    line.push('\n')?;
    out.extend_from_slice(line.as_bytes())?;
    Ok(())
}

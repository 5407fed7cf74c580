//! The texts of types.
ghost use Rattle.std.specs.Prelude.{◌≡◌, ◌++◌, IfOk, string_bytes};
ghost use Rattle.note_texts.specs.TypeGrammar.{grants_text, range_text};
ghost use Rattle.printed_texts.specs.PrintedTypes.{divisor_text, field_names, int_text, is_every_number, offset_text, pointer_text};
ghost use Rattle.printed_texts.specs.PrintedTypes.{ranged_text, type_text};

use crate::cell::{cell_text, counted_text, mark_of};
use crate::names::{field_name, field_names, method_name, shape_name};
use note_types::{Field, Name, NoMemory, Notes, Ty};
use std::alloc::{AllocError, Global};

// `/DIV`, or nothing where DIV is 1.
#[tactic(auto, unfolding(crate::specs::PrintedTypes::divisor_text))]
fn divisor_text(alloc: Global, div: u64) -> Result<String, AllocError>
    ensures { IfOk result (λ text. string_bytes text ≡ divisor_text div) }
{
    if div == 1 {
        Ok(String::new(alloc))
    } else {
        format!(in alloc; "/{div}")
    }
}

// Whether these are all 64-bit numbers.
#[tactic(auto, unfolding(crate::specs::PrintedTypes::is_every_number))]
fn is_every_number(lo: u64, hi: u64, div: u64) -> bool
    ensures { result ≡ is_every_number lo hi div }
{
    lo == 0 && hi == u64::MAX && div == 1
}

// `LO..HI`.
fn range_text(alloc: Global, lo: u64, hi: u64) -> Result<String, AllocError>
    ensures { IfOk result (λ text. string_bytes text ≡ range_text lo hi) }
{
    format!(in alloc; "{lo}..{hi}")
}

// `int:LO..HI/DIV`.
fn ranged_text(alloc: Global, lo: u64, hi: u64, div: u64) -> Result<String, AllocError>
    ensures { IfOk result (λ text. string_bytes text ≡ ranged_text lo hi div) }
{
    let range = range_text(alloc, lo, hi)?;
    let divisor = divisor_text(alloc, div)?;
    format!(in alloc; "int:{range}{divisor}")
}

// The same, or `int` for all 64-bit numbers.
#[tactic(auto, unfolding(crate::specs::PrintedTypes::int_text))]
fn int_text(alloc: Global, lo: u64, hi: u64, div: u64) -> Result<String, AllocError>
    ensures { IfOk result (λ text. string_bytes text ≡ int_text lo hi div) }
{
    if is_every_number(lo, hi, div) {
        String::from_str(alloc, "int")
    } else {
        ranged_text(alloc, lo, hi, div)
    }
}

// `+N,C`, or nothing for (0, 0).
#[tactic(auto, unfolding(crate::specs::PrintedTypes::offset_text))]
fn offset_text(alloc: Global, n: i32, c: i32) -> Result<String, AllocError>
    ensures { IfOk result (λ text. string_bytes text ≡ offset_text n c) }
{
    if n == 0 && c == 0 {
        Ok(String::new(alloc))
    } else {
        format!(in alloc; "+{n},{c}")
    }
}

// A pointer: what it points to, and its offset.
fn pointer_text(
    alloc: Global,
    shape: &str,
    count: u64,
    n: i32,
    c: i32,
    null: bool,
) -> Result<String, AllocError>
    ensures { IfOk result (λ text. string_bytes text ≡ pointer_text shape.now count n c null) }
{
    let mark = mark_of(null);
    let target = counted_text(alloc, shape, count)?;
    let offset = offset_text(alloc, n, c)?;
    format!(in alloc; "ptr{mark}{target}{offset}")
}

// A word, and the fields that a status grants, `!` before each.
fn granting(alloc: Global, word: &str, names: &[Name]) -> Result<String, AllocError>
    ensures { IfOk result (λ text. string_bytes text ≡ word.now ++ grants_text names.now) }
{
    let mut text = String::from_str(alloc, word)?;
    for name in names {
        text.push_str("!")?;
        text.push_str(name.as_str())?;
    }
    Ok(text)
}

// A word, and a name behind it.
fn named(alloc: Global, word: &str, name: &str) -> Result<String, AllocError>
    ensures { IfOk result (λ text. string_bytes text ≡ word.now ++ name.now) }
{
    format!(in alloc; "{word}{name}")
}

/// The text of a type, with things of the notes by their names, and the fields of locals by theirs.
///
/// # Errors
///
/// Want of memory alone.
#[tactic(auto, unfolding(crate::specs::PrintedTypes::type_text))]
pub fn type_text(alloc: Global, notes: &Notes, fields: &[Field], ty: Ty) -> Result<String, NoMemory>
    ensures { IfOk result (λ text. string_bytes text ≡ type_text notes.now fields.now ty) }
{
    match ty {
        Ty::Any => Ok(String::from_str(alloc, "any")?),
        Ty::Int { lo, hi, div } => Ok(int_text(alloc, lo, hi, div)?),
        Ty::Lin { n, c } => Ok(format!(in alloc; "lin:{n},{c}")?),
        Ty::Scaled { n, c, hi } => Ok(format!(in alloc; "scaled:{n},{c},{hi}")?),
        Ty::Ptr {
            shape,
            count,
            n,
            c,
            null,
        } => Ok(pointer_text(alloc, shape_name(notes, shape), count, n, c, null)?),
        Ty::Local(field) => Ok(named(alloc, "local:", field_name(fields, field))?),
        Ty::Lent(cell) => {
            let cell = cell_text(alloc, notes, cell)?;
            Ok(named(alloc, "lent:", cell.as_str())?)
        }
        Ty::Status(set) => {
            let names = field_names(alloc, fields, set)?;
            Ok(granting(alloc, "status", names.as_slice())?)
        }
        Ty::SignedStatus(set) => {
            let names = field_names(alloc, fields, set)?;
            Ok(granting(alloc, "sstatus", names.as_slice())?)
        }
        Ty::Mask => Ok(String::from_str(alloc, "mask")?),
        Ty::Handle => Ok(String::from_str(alloc, "handle")?),
        Ty::Entry => Ok(String::from_str(alloc, "entry")?),
        Ty::Method(method) => Ok(named(alloc, "method:", method_name(notes, method))?),
        Ty::ThunkAt(index) => Ok(format!(in alloc; "thunk:{index}")?),
        Ty::Saved(register) => Ok(format!(in alloc; "saved:{register}")?),
    }
}

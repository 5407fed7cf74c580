//! Types, as their texts have them.
ghost use Rattle.std.specs.Prelude.{◌≡◌, ◌+◌, ◌*◌, ◌^◌, ◌<◌, ◌-◌, ◌==◌, IfOk, Some, None, nat_lt, option_map};
ghost use Rattle.std.specs.List.{slice_split};
ghost use Rattle.note_texts.specs.CellTexts.{cell_of};
ghost use Rattle.note_texts.specs.Grammar.{ReadsJust};
ghost use Rattle.note_texts.specs.TypeGrammar.{IsTypeText};
ghost use Rattle.note_texts.specs.Names.{names_of};
ghost use Rattle.note_texts.specs.Numbers.{number_in};
ghost use Rattle.note_texts.specs.Ranges.{pair_of};
ghost use Rattle.note_texts.specs.TypeTexts.{granting_type, int_of, marked_type, number_type, offset_of, plain_type, pointer_of, scaled_of};
ghost use Rattle.note_texts.specs.TypeTexts.{type_of, word_type};
ghost use Rattle.note_texts.specs.declared.ty.TypeText.TheVariants.{Lent, Lin, Local, Method, Saved, ThunkAt};
ghost use Rattle.ebc_base.specs.Names.{name_of};

use crate::cell::{CellText, counted_of};
use crate::from_text::FromText;
use crate::name::names_of;
use crate::number::{number_in, number_of, short_number};
use crate::range::{count_of, pair_of, range_of};
use crate::split::{parts_at, pieces, split_at};
use note_types::{Name, Names};
use std::alloc::{AllocError, Global};

/// A type as its text has it: shapes, methods and local fields by their names. The numbers are within the bounds of the
/// types (`note_types::Ty`).
#[derive(PartialEq, Drop)]
pub enum TypeText {
    /// `any`
    Any,
    /// `int`, all 64-bit numbers; `int:LO..HI`; `int:LO..HI/DIV`
    Int {
        lo: u64,
        hi: u64,
        div: u64,
    },
    /// `lin:N,C`
    Lin {
        n: i32,
        c: i32,
    },
    /// `scaled:N,C,HI`
    Scaled {
        n: u64,
        c: u64,
        hi: u64,
    },
    /// `ptr:S*K+N,C`, or `ptr?:S*K+N,C` where it may be null
    Ptr {
        shape: Name,
        count: u64,
        n: i32,
        c: i32,
        null: bool,
    },
    /// `local:F`
    Local(Name),
    /// `lent:CELL`
    Lent(CellText),
    /// `status!F!G`, with the fields that it grants
    Status(Names),
    /// `sstatus!F!G`, with the fields that it grants
    SignedStatus(Names),
    /// `mask`
    Mask,
    /// `handle`
    Handle,
    /// `entry`
    Entry,
    /// `method:M`
    Method(Name),
    /// `thunk:I`
    ThunkAt(u32),
    /// `saved:I`
    Saved(u8),
}

#[tactic(auto, unfolding(crate::specs::TypeTexts::int_of))]
fn int_of(text: &str) -> Option<TypeText>
    ensures { result ≡ int_of text.now }
{
    let (range, div) = parts_at(b'/', text);
    let (lo, hi) = range_of(range)?;
    let div = count_of(div)?;
    Some(TypeText::Int { lo, hi, div })
}

/// Whether HI × (8N + C) is below 2^32.
fn is_scaled(n: u64, c: u64, hi: u64) -> bool
    ensures { result ≡ nat_lt (hi * (8 * n + c)) (2 ^ 32) }
{
    if hi == 0 {
        return true;
    }
    let Some(bytes) = n.checked_mul(8) else {
        return false;
    };
    let Some(step) = bytes.checked_add(c) else {
        return false;
    };
    match hi.checked_mul(step) {
        Some(last) => last < 1 << 32,
        None => false,
    }
}

#[tactic(auto, unfolding(crate::specs::TypeTexts::scaled_of))]
fn scaled_of(text: &str) -> Option<TypeText>
    ensures { result ≡ scaled_of text.now }
{
    let (n, rest) = split_at(b',', text)?;
    let (c, hi) = split_at(b',', rest)?;
    let n = number_in(1, u64::MAX, n.as_bytes())?;
    let c = number_of(c.as_bytes())?;
    let hi = number_of(hi.as_bytes())?;
    if is_scaled(n, c, hi) {
        Some(TypeText::Scaled { n, c, hi })
    } else {
        None
    }
}

fn offset_of(text: Option<&str>) -> Option<(i32, i32)>
    ensures { result ≡ offset_of (option_map (λ pair. pair.now) text.entry) }
{
    match text {
        None => Some((0, 0)),
        Some(text) => pair_of(0, text),
    }
}

#[tactic(auto, unfolding(crate::specs::TypeTexts::pointer_of))]
fn pointer_of(alloc: Global, null: bool, text: &str) -> Result<Option<TypeText>, AllocError>
    ensures { IfOk result (λ ty. ty ≡ pointer_of null text.now) }
{
    let (target, offset) = parts_at(b'+', text);
    let Some((shape, count)) = counted_of(alloc, target)? else {
        return Ok(None);
    };
    let Some((n, c)) = offset_of(offset) else {
        return Ok(None);
    };
    Ok(Some(TypeText::Ptr {
        shape,
        count,
        n,
        c,
        null,
    }))
}

#[tactic(auto, unfolding(crate::specs::TypeTexts::plain_type))]
fn plain_type(alloc: Global, word: &str) -> Option<TypeText>
    ensures { result ≡ plain_type word.now }
{
    match word {
        "any" => Some(TypeText::Any),
        "int" => Some(TypeText::Int {
            lo: 0,
            hi: u64::MAX,
            div: 1,
        }),
        "status" => Some(TypeText::Status(Names::new(Vec::new(alloc)))),
        "sstatus" => Some(TypeText::SignedStatus(Names::new(Vec::new(alloc)))),
        "mask" => Some(TypeText::Mask),
        "handle" => Some(TypeText::Handle),
        "entry" => Some(TypeText::Entry),
        _ => None,
    }
}

fn granted(alloc: Global, text: &str) -> Result<Option<Names>, AllocError>
    ensures { IfOk result (λ names. names ≡ names_of (slice_split (λ b. b == 33) text.now)) }
{
    let fields = pieces(alloc, text)?;
    names_of(alloc, fields.as_slice())
}

#[tactic(auto, unfolding(crate::specs::TypeTexts::granting_type))]
fn granting_type(alloc: Global, word: &str, fields: &str) -> Result<Option<TypeText>, AllocError>
    ensures { IfOk result (λ ty. ty ≡ granting_type word.now fields.now) }
{
    let Some(names) = granted(alloc, fields)? else {
        return Ok(None);
    };
    match word {
        "status" => Ok(Some(TypeText::Status(names))),
        "sstatus" => Ok(Some(TypeText::SignedStatus(names))),
        _ => Ok(None),
    }
}

#[tactic(auto, unfolding(crate::specs::TypeTexts::word_type))]
fn word_type(alloc: Global, text: &str) -> Result<Option<TypeText>, AllocError>
    ensures { IfOk result (λ ty. ty ≡ word_type text.now) }
{
    match parts_at(b'!', text) {
        (word, None) => Ok(plain_type(alloc, word)),
        (word, Some(fields)) => granting_type(alloc, word, fields),
    }
}

fn lin_of(text: &str) -> Option<TypeText>
    ensures { result ≡ option_map (λ pair. Lin pair.0 pair.1) (pair_of 1 text.now) }
{
    let (n, c) = pair_of(1, text)?;
    Some(TypeText::Lin { n, c })
}

fn saved_of(text: &str) -> Option<TypeText>
    ensures { result ≡ option_map (λ register. Saved register) (number_in 1 3 text.now) }
{
    let register = number_in(1, 3, text.as_bytes())?;
    Some(TypeText::Saved(register as u8))
}

fn thunk_of(text: &str) -> Option<TypeText>
    ensures { result ≡ option_map (λ index. ThunkAt index) (number_in 0 (2 ^ 32 - 1) text.now) }
{
    let index = short_number(text.as_bytes())?;
    Some(TypeText::ThunkAt(index))
}

#[tactic(auto, unfolding(crate::specs::TypeTexts::number_type))]
fn number_type(word: &str, rest: &str) -> Option<TypeText>
    ensures { result ≡ number_type word.now rest.now }
{
    match word {
        "int" => int_of(rest),
        "lin" => lin_of(rest),
        "scaled" => scaled_of(rest),
        "thunk" => thunk_of(rest),
        "saved" => saved_of(rest),
        _ => None,
    }
}

fn local_of(alloc: Global, text: &str) -> Result<Option<TypeText>, AllocError>
    ensures { IfOk result (λ ty. ty ≡ option_map (λ name. Local name) (name_of text.now)) }
{
    let Some(name) = Name::from_text(alloc, text)? else {
        return Ok(None);
    };
    Ok(Some(TypeText::Local(name)))
}

fn lent_of(alloc: Global, text: &str) -> Result<Option<TypeText>, AllocError>
    ensures { IfOk result (λ ty. ty ≡ option_map (λ cell. Lent cell) (cell_of text.now)) }
{
    let Some(cell) = CellText::from_text(alloc, text)? else {
        return Ok(None);
    };
    Ok(Some(TypeText::Lent(cell)))
}

fn method_of(alloc: Global, text: &str) -> Result<Option<TypeText>, AllocError>
    ensures { IfOk result (λ ty. ty ≡ option_map (λ name. Method name) (name_of text.now)) }
{
    let Some(name) = Name::from_text(alloc, text)? else {
        return Ok(None);
    };
    Ok(Some(TypeText::Method(name)))
}

#[tactic(auto, unfolding(crate::specs::TypeTexts::marked_type))]
fn marked_type(alloc: Global, word: &str, rest: &str) -> Result<Option<TypeText>, AllocError>
    ensures { IfOk result (λ ty. ty ≡ marked_type word.now rest.now) }
{
    match word {
        "ptr" => pointer_of(alloc, false, rest),
        "ptr?" => pointer_of(alloc, true, rest),
        "local" => local_of(alloc, rest),
        "lent" => lent_of(alloc, rest),
        "method" => method_of(alloc, rest),
        _ => Ok(number_type(word, rest)),
    }
}

#[tactic(auto, unfolding(crate::specs::TypeTexts::type_of))]
fn type_of(alloc: Global, text: &str) -> Result<Option<TypeText>, AllocError>
    ensures { IfOk result (λ ty. ty ≡ type_of text.now) }
{
    match parts_at(b':', text) {
        (word, None) => word_type(alloc, word),
        (word, Some(rest)) => marked_type(alloc, word, rest),
    }
}

impl FromText for TypeText {
    ghost reads_as = { type_of };

    fn from_text(alloc: Global, text: &str) -> Result<Option<Self>, AllocError>
        ensures value { IfOk result (λ ty. ty ≡ type_of text.now) }
        ensures grammar { IfOk result (λ ty. ReadsJust ty (IsTypeText text.now)) }
    {
        type_of(alloc, text)
    }
}

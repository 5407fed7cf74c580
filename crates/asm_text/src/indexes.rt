//! Natural indexes as they are read.

ghost use Rattle.std.specs.Prelude.{◌≡◌, ◌<◌, ◌^◌};
ghost use Rattle.natural_index.specs.Index.{IsIndexSize, index_of};
ghost use Rattle.asm_text.specs.Indexes.{are_signs, bytes_part, first_part, index, pair_index, raw_index, raw_part, second_part};
ghost use Rattle.asm_text.specs.Indexes.{smallest_of};

use crate::fault::{AsmFault, both};
use crate::numbers::{count, digits};
use crate::splits::{lacks, until};
use natural_index::{Index, read16, read32, read64, smallest};

fn index_of(bits: u8, raw: u64) -> Option<Index>
    requires size { IsIndexSize bits }
    requires within { raw < 2 ^ bits }
    ensures { result ≡ index_of bits raw }
{
    match bits {
        16 => read16(raw as u16),
        32 => Some(read32(raw as u32)),
        _ => Some(read64(raw)),
    }
}

// The smallest index with these numbers.

pub(crate) fn smallest_of(bits: u8, neg: bool, units: u64, bytes: u64) -> Option<Index>
    requires { IsIndexSize bits }
    ensures { result ≡ smallest_of bits neg units bytes }
{
    smallest(bits, neg, units, bytes)
}

fn pair_index(bits: u8, neg: bool, units: u64, bytes: u64) -> Result<Index, AsmFault>
    requires { IsIndexSize bits }
    ensures { result ≡ pair_index bits neg (units, bytes) }
{
    if neg && units == 0 && bytes == 0 {
        return Err(AsmFault::Index);
    }
    smallest_of(bits, neg, units, bytes).ok_or(AsmFault::Index)
}

fn are_signs(first: u8, second: u8) -> bool
    ensures { result ≡ are_signs first second }
{
    first == second && (first == b'+' || first == b'-')
}

fn bytes_part(
    bits: u8,
    first: u8,
    units: &[u8],
    second: u8,
    bytes: &[u8],
    after: &[u8],
) -> Result<Index, AsmFault>
    requires { IsIndexSize bits }
    ensures { result ≡ bytes_part bits first units.now second (bytes.now, after.now) }
{
    let is_pair = after.is_empty() && are_signs(first, second);
    let is_plain = lacks(b'(', units)
        && lacks(b')', units)
        && lacks(b'(', bytes)
        && lacks(b',', bytes);
    if !is_pair || !is_plain {
        return Err(AsmFault::Operand);
    }
    let (units, bytes) = both(count(units), count(bytes))?;
    pair_index(bits, first == b'-', units, bytes)
}

fn second_part(bits: u8, first: u8, units: &[u8], rest: &[u8]) -> Result<Index, AsmFault>
    requires { IsIndexSize bits }
    ensures { result ≡ second_part bits first (units.now, rest.now) }
{
    match rest {
        [] => Err(AsmFault::Operand),
        [second, rest @ ..] => match until(b')', rest) {
            Some((bytes, after)) => bytes_part(bits, first, units, *second, bytes, after),
            None => Err(AsmFault::Operand),
        },
    }
}

fn first_part(bits: u8, text: &[u8]) -> Result<Index, AsmFault>
    requires { IsIndexSize bits }
    ensures { result ≡ first_part bits text.now }
{
    match text {
        [] => Err(AsmFault::Operand),
        [first, rest @ ..] => match until(b',', rest) {
            Some((units, rest)) => second_part(bits, *first, units, rest),
            None => Err(AsmFault::Operand),
        },
    }
}

#[tactic(auto, using(crate::proofs::Digits::raw_fits))]
fn raw_index(bits: u8, text: &[u8]) -> Result<Index, AsmFault>
    requires { IsIndexSize bits }
    ensures { result ≡ raw_index bits text.now }
{
    if text.len() != usize::from(bits / 4) {
        return Err(AsmFault::Operand);
    }
    let raw = digits(16, text).ok_or(AsmFault::Operand)?;
    index_of(bits, raw).ok_or(AsmFault::Index)
}

fn raw_part(bits: u8, text: &[u8]) -> Result<Index, AsmFault>
    requires { IsIndexSize bits }
    ensures { result ≡ raw_part bits text.now }
{
    match text {
        [b'0', b'x', digits @ ..] => raw_index(bits, digits),
        _ => Err(AsmFault::Operand),
    }
}

// An index, by its numbers or as a raw number.
#[tactic(auto, unfolding(crate::specs::Indexes::index))]
pub(crate) fn index(bits: u8, text: &[u8]) -> Result<Index, AsmFault>
    requires { IsIndexSize bits }
    ensures { result ≡ index bits text.now }
{
    match text {
        [b'#', rest @ ..] => raw_part(bits, rest),
        [b'(', rest @ ..] => first_part(bits, rest),
        _ => Err(AsmFault::Operand),
    }
}

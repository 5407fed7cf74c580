//! Operands as they are read.

ghost use Rattle.std.specs.Prelude.{◌≡◌, ◌⊎◌, IfOk, Some, option_map};
ghost use Rattle.natural_index.specs.Index.{IsIndexSize};
ghost use Rattle.ebc_insn.specs.Spelling.{FitsInt};
ghost use Rattle.asm_text.specs.Faults.{made};
ghost use Rattle.asm_text.specs.Operands.{at_value, bare, extra, flags_special, left, near_target, operand_of, register, register_of};
ghost use Rattle.asm_text.specs.Operands.{right, special, target, value};
ghost use Rattle.asm_text.specs.Texts.{seen_name, seen_target, seen_value};

use crate::fault::AsmFault;
use crate::indexes::index;
use crate::names::is_register;
use crate::numbers::{is_numeral, number};
use ebc_base::name_text;
use ebc_insn::{Extra, Operand};
use natural_index::Index;

fn register_of(indirect: bool, text: &[u8]) -> Option<(Operand, &[u8])>
    ensures { option_map (λ p. (p.0, p.1.now)) result ≡ register_of indirect text.now }
{
    match text {
        [b'R', digit, rest @ ..] if *digit >= b'0' && *digit <= b'7' => {
            let reg = *digit - b'0';
            Some((Operand { reg, indirect }, rest))
        }
        _ => None,
    }
}

#[tactic(auto, unfolding(crate::specs::Operands::operand_of))]
fn operand_of(text: &[u8]) -> Option<(Operand, &[u8])>
    ensures { option_map (λ p. (p.0, p.1.now)) result ≡ operand_of text.now }
{
    match text {
        [b'@', rest @ ..] => register_of(true, rest),
        _ => register_of(false, text),
    }
}

// A register, or the memory at it.
#[tactic(auto, unfolding(crate::specs::Operands::bare))]
pub(crate) fn bare(text: &[u8]) -> Result<Operand, AsmFault>
    ensures { result ≡ bare text.now }
{
    match operand_of(text) {
        Some((operand, [])) => Ok(operand),
        _ => Err(AsmFault::Operand),
    }
}

// A register.
pub(crate) fn register(text: &[u8]) -> Result<u8, AsmFault>
    ensures { result ≡ register text.now }
{
    let operand = bare(text)?;
    if operand.indirect {
        Err(AsmFault::Operand)
    } else {
        Ok(operand.reg)
    }
}

// Operand 1 of a move or a CMPI, with an index where it is memory.
#[tactic(auto, unfolding(crate::specs::Operands::left))]
pub(crate) fn left(bits: u8, text: &[u8]) -> Result<(Operand, Option<Index>), AsmFault>
    requires { IsIndexSize bits }
    ensures { result ≡ left bits text.now }
{
    let (operand, rest) = operand_of(text).ok_or(AsmFault::Operand)?;
    match rest {
        [] => Ok((operand, None)),
        _ if operand.indirect => Ok((operand, Some(index(bits, rest)?))),
        _ => Err(AsmFault::Operand),
    }
}

// Operand 2 of a move, with an index.
#[tactic(auto, unfolding(crate::specs::Operands::right))]
pub(crate) fn right(bits: u8, text: &[u8]) -> Result<(Operand, Option<Index>), AsmFault>
    requires { IsIndexSize bits }
    ensures { result ≡ right bits text.now }
{
    let (operand, rest) = operand_of(text).ok_or(AsmFault::Operand)?;
    match rest {
        [] => Ok((operand, None)),
        _ => Ok((operand, Some(index(bits, rest)?))),
    }
}

// An operand with its immediate or its index.
#[tactic(auto, unfolding(crate::specs::Operands::extra))]
pub(crate) fn extra(bits: u8, text: &[u8]) -> Result<(Operand, Extra), AsmFault>
    requires { IsIndexSize bits }
    ensures { result ≡ extra bits text.now }
{
    let (operand, rest) = operand_of(text).ok_or(AsmFault::Operand)?;
    match rest {
        [] => Ok((operand, Extra::Nothing)),
        _ if operand.indirect => Ok((operand, Extra::Idx(index(bits, rest)?))),
        [b' ', digits @ ..] => Ok((operand, Extra::Imm(number(bits, digits)?))),
        _ => Err(AsmFault::Operand),
    }
}

// A number, or a name in its place.
#[tactic(auto, unfolding(crate::specs::Operands::value))]
pub(crate) fn value(bits: u8, text: &[u8]) -> Result<(i64, Option<&str>), AsmFault>
    requires { (bits ≡ 8) ⊎ (bits ≡ 16) ⊎ (bits ≡ 32) ⊎ (bits ≡ 64) }
    ensures value { made seen_value result ≡ value bits text.now }
    ensures fits { IfOk result (λ v. FitsInt bits v.0) }
{
    if let Some(name) = name_text(text) {
        return Ok((0, Some(name)));
    }
    Ok((number(bits, text)?, None))
}

// The target of a jump or a call: its operand, what stands beside it, and the name in place of an immediate.
pub(crate) type Target<'a> = (Operand, Extra, Option<&'a str>);

fn at_value(value: i64, name: Option<&str>) -> Target<'_>
    ensures { seen_target result ≡ at_value (value, seen_name name.entry) }
{
    let operand = Operand {
        reg: 0,
        indirect: false,
    };
    (operand, Extra::Imm(value), name)
}

#[tactic(auto, unfolding(crate::specs::Operands::near_target))]
fn near_target(relative: bool, text: &[u8]) -> Result<Target<'_>, AsmFault>
    ensures { made seen_target result ≡ near_target relative text.now }
{
    if is_numeral(text) {
        return Ok(at_value(number(32, text)?, None));
    }
    if relative
        && !is_register(text)
        && let Some(name) = name_text(text)
    {
        return Ok(at_value(0, Some(name)));
    }
    let (operand, extra) = extra(32, text)?;
    match extra {
        Extra::Imm(_) if operand.reg == 0 => Err(AsmFault::Operand),
        _ => Ok((operand, extra, None)),
    }
}

// The target of a jump or a call.
pub(crate) fn target(far: bool, relative: bool, text: &[u8]) -> Result<Target<'_>, AsmFault>
    ensures { made seen_target result ≡ target far relative text.now }
{
    if !far {
        return near_target(relative, text);
    }
    let (immediate, name) = value(64, text)?;
    Ok(at_value(immediate, name))
}

// `[FLAGS]`.
pub(crate) fn flags_special(text: &[u8]) -> Result<(), AsmFault>
    ensures { result ≡ flags_special text.now }
{
    if text == b"[FLAGS]".as_slice() {
        Ok(())
    } else {
        Err(AsmFault::Operand)
    }
}

// `[FLAGS]` as 0, or `[IP]` as 1.
pub(crate) fn special(text: &[u8]) -> Result<u8, AsmFault>
    ensures { result ≡ special text.now }
{
    if text == b"[FLAGS]".as_slice() {
        Ok(0)
    } else if text == b"[IP]".as_slice() {
        Ok(1)
    } else {
        Err(AsmFault::Operand)
    }
}

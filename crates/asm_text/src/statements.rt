//! Statements as they are read.

ghost use Rattle.std.specs.Prelude.{◌≡◌, ◌++◌, IfOk, IfSome, OnOk, Err};
ghost use Rattle.ebc_insn.specs.Spelling.{FitsInt};
ghost use Rattle.asm_text.specs.declared.fault.AsmFault.{AsmFault};
ghost use Rattle.asm_text.specs.declared.directive.Directive.TheVariants as directives;
ghost use Rattle.asm_text.specs.Faults.{made};
ghost use Rattle.asm_text.specs.Numbers.{number};
ghost use Rattle.asm_text.specs.Instructions.{one};
ghost use Rattle.asm_text.specs.Statements.{alone, directed, directive_of, name, numbers_of, statement_of};
ghost use Rattle.asm_text.specs.Texts.{AreNumbers, DirectiveFits, IsHeld, IsNumberSize, are_read, bytes_of_number, bytes_of_numbers};
ghost use Rattle.asm_text.specs.Texts.{bytes_read, seen, seen_numbers};

use crate::directive::Directive;
use crate::fault::AsmFault;
use crate::instructions::insn_in;
use crate::numbers::{number, zeros_of};
use crate::splits::{cut, sole, word_part};
use ebc_base::name_text;
use ebc_insn::Insn;
use std::alloc::AllocError;

/// A statement (docs/ASSEMBLY.md, "Statements"). Names are of 1 to 63 letters, digits, underscores and points.
#[derive(Clone, Copy)]
pub enum Statement<'a> {
    /// `.code`.
    Code,
    /// `.data`.
    Data,
    /// `.global NAME`.
    Global(&'a str),
    /// `.db`, `.dw`, `.dd` or `.dq` with numbers.
    Numbers(Numbers<'a>),
    /// `.dq NAME`.
    Place(&'a str),
    /// `.thunk NAME`.
    Thunk(&'a str),
    /// `.zero N`: so many bytes.
    Zeros(u64),
    /// An instruction. A name stands in place of its immediate, which is 0 then.
    Instruction { insn: Insn, name: Option<&'a str> },
}

/// The numbers of a `.db`, `.dw`, `.dd` or `.dq`, which contracts see as the list of them.
#[derive(Clone, Copy)]
pub struct Numbers<'a> {
    /// How many bits each has: 8, 16, 32 or 64.
    bits: u8,
    // The numbers as they are written.
    text: &'a [u8],
}

// Whether each of the texts between commas is a number of so many bits.
fn are_numbers(bits: u8, text: &[u8]) -> Result<(), AsmFault>
    requires { IsNumberSize bits }
    ensures { result ≡ are_read (numbers_of bits text.now) }
{
    if text.is_empty() {
        return Err(AsmFault::Operand);
    }
    let mut rest = text;
    for _ in 0..text.len() {
        match cut(rest) {
            Some((first, more)) => {
                number(bits, first)?;
                rest = more;
            }
            None => {
                number(bits, rest)?;
                return Ok(());
            }
        }
    }
    Err(AsmFault::Number)
}

impl Numbers<'_> {
    /// Appends the bytes of the numbers, the lowest first. It fails only where there is no memory for them.
    pub fn append_to(&self, out: &mut Vec<u8>) -> Result<(), AllocError>
        requires { AreNumbers self.now }
        ensures { OnOk result (out.new.items ≡ out.old.items ++ bytes_of_numbers self.now.bits (seen_numbers self.now)) }
    {
        let mut rest = self.text;
        for _ in 0..self.text.len() {
            match cut(rest) {
                Some((first, more)) => {
                    append_number(self.bits, first, out)?;
                    rest = more;
                }
                None => return append_number(self.bits, rest, out),
            }
        }
        Ok(())
    }
}

// Appends the bytes of one number.
fn append_number(bits: u8, text: &[u8], out: &mut Vec<u8>) -> Result<(), AllocError>
    requires size { IsNumberSize bits }
    requires number { (e : AsmFault) → number bits text.now ≡ Err e → ⊥ }
    ensures { OnOk result (out.new.items ≡ out.old.items ++ bytes_read bits (number bits text.now)) }
{
    match number(bits, text) {
        Ok(value) => append_value(bits, value, out),
        Err(_) => unreachable!(),
    }
}

#[tactic(auto, unfolding(ebc_insn::specs::Spelling::field_bytes))]
fn append_value(bits: u8, value: i64, out: &mut Vec<u8>) -> Result<(), AllocError>
    requires size { IsNumberSize bits }
    requires fits { FitsInt bits value }
    ensures { OnOk result (out.new.items ≡ out.old.items ++ bytes_of_number bits value) }
{
    match bits {
        8 => {
            let byte = (value as i8).cast_unsigned();
            out.push(byte)?;
            Ok(())
        }
        16 => {
            let word = (value as i16).cast_unsigned();
            out.extend_from_slice(&word.to_le_bytes())
        }
        32 => {
            let dword = (value as i32).cast_unsigned();
            out.extend_from_slice(&dword.to_le_bytes())
        }
        _ => {
            let qword = value.cast_unsigned();
            out.extend_from_slice(&qword.to_le_bytes())
        }
    }
}

#[tactic(auto, unfolding(crate::specs::Statements::directive_of))]
fn directive_of(word: &[u8]) -> Option<Directive>
    ensures found { result ≡ directive_of word.now }
    ensures fits { IfSome result DirectiveFits }
{
    if word == b".code".as_slice() {
        Some(Directive::Code)
    } else if word == b".data".as_slice() {
        Some(Directive::Data)
    } else if word == b".global".as_slice() {
        Some(Directive::Global)
    } else if word == b".db".as_slice() {
        Some(Directive::Numbers(8))
    } else if word == b".dw".as_slice() {
        Some(Directive::Numbers(16))
    } else if word == b".dd".as_slice() {
        Some(Directive::Numbers(32))
    } else if word == b".dq".as_slice() {
        Some(Directive::Numbers(64))
    } else if word == b".thunk".as_slice() {
        Some(Directive::Thunk)
    } else if word == b".zero".as_slice() {
        Some(Directive::Zeros)
    } else {
        None
    }
}

// The text where it is a name.
pub(crate) fn name(text: &[u8]) -> Result<&str, AsmFault>
    ensures { made (λ n. n.now) result ≡ name text.now }
{
    name_text(text).ok_or(AsmFault::Label)
}

fn sole_name(text: &[u8]) -> Result<&str, AsmFault>
    ensures { made (λ n. n.now) result ≡ one name text.now }
{
    name(sole(text).ok_or(AsmFault::Operand)?)
}

fn alone<'a>(statement: Statement<'a>, text: &[u8]) -> Result<Statement<'a>, AsmFault>
    requires { IsHeld statement }
    ensures { made seen result ≡ alone (seen statement.entry) text.now }
{
    if text.is_empty() {
        Ok(statement)
    } else {
        Err(AsmFault::Operand)
    }
}

fn numbers_or_place(bits: u8, text: &[u8]) -> Result<Statement<'_>, AsmFault>
    requires { IsNumberSize bits }
    ensures same { made seen result ≡ directed (directives.Numbers bits) text.now }
    ensures held { IfOk result IsHeld }
{
    if bits == 64
        && let Some(name) = name_text(text)
    {
        return Ok(Statement::Place(name));
    }
    are_numbers(bits, text)?;
    Ok(Statement::Numbers(Numbers { bits, text }))
}

fn directed(directive: Directive, text: &[u8]) -> Result<Statement<'_>, AsmFault>
    requires { DirectiveFits directive }
    ensures same { made seen result ≡ directed directive text.now }
    ensures held { IfOk result IsHeld }
{
    match directive {
        Directive::Code => alone(Statement::Code, text),
        Directive::Data => alone(Statement::Data, text),
        Directive::Global => Ok(Statement::Global(sole_name(text)?)),
        Directive::Numbers(bits) => numbers_or_place(bits, text),
        Directive::Thunk => Ok(Statement::Thunk(sole_name(text)?)),
        Directive::Zeros => {
            Ok(Statement::Zeros(zeros_of(sole(text).ok_or(AsmFault::Operand)?)?))
        }
    }
}

// The statement that a text is.
#[tactic(auto, unfolding(crate::specs::Statements::statement_of))]
pub(crate) fn statement_of(text: &[u8]) -> Result<Statement<'_>, AsmFault>
    ensures same { made seen result ≡ statement_of text.now }
    ensures held { IfOk result IsHeld }
{
    if let [b'.', ..] = text {
        let (word, operands) = word_part(text);
        let directive = directive_of(word).ok_or(AsmFault::Word)?;
        return directed(directive, operands);
    }
    let (insn, name) = insn_in(text)?;
    Ok(Statement::Instruction { insn, name })
}

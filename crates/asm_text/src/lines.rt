//! Lines as they are read.

ghost use Rattle.std.specs.Prelude.{◌≡◌, IfOk, Some, option_map};
ghost use Rattle.asm_text.specs.Splits.{line_cut};
ghost use Rattle.asm_text.specs.Faults.{made};
ghost use Rattle.asm_text.specs.Lines.{is_ascii, label_of, line_in, parted, statement_in};
ghost use Rattle.asm_text.specs.Texts.{IsHeldLine, IsHeldStatement, seen_line, seen_statement};

use crate::fault::{AsmFault, both};
use crate::splits::{trim, trim_front, until, without_comment};
use crate::statements::{Statement, name, statement_of};
use ebc_base::name_text;

/// What a line says (docs/ASSEMBLY.md, "Lines").
#[derive(Clone, Copy)]
pub struct Line<'a> {
    /// The name before the colon.
    pub label: Option<&'a str>,
    /// The statement.
    pub statement: Option<Statement<'a>>,
}

#[tactic(auto, using(crate::proofs::AsciiLaws::same_ascii))]
fn is_ascii(text: &[u8]) -> bool
    ensures { result ≡ is_ascii text.now }
{
    text.is_ascii()
}

fn statement_in(text: &[u8]) -> Result<Option<Statement<'_>>, AsmFault>
    ensures same { made seen_statement result ≡ statement_in text.now }
    ensures held { IfOk result IsHeldStatement }
{
    if text.is_empty() {
        return Ok(None);
    }
    Ok(Some(statement_of(text)?))
}

fn labelled<'a>(front: &'a [u8], back: &'a [u8]) -> Result<Line<'a>, AsmFault>
    ensures same { made seen_line result ≡ parted front.now (Some (front.now, back.now)) }
    ensures held { IfOk result IsHeldLine }
{
    let (label, statement) = both(name(trim_front(front)), statement_in(trim(back)))?;
    let label = Some(label);
    Ok(Line { label, statement })
}

/// What a line of a source says, without its line feed, or the lowest of the faults that are seen in the line alone: Word to
/// Label. An instruction that it gives may be encoded.
#[tactic(auto, unfolding(crate::specs::Lines::line_in))]
pub fn line_in(line: &[u8]) -> Result<Line<'_>, AsmFault>
    ensures same { made seen_line result ≡ line_in line.now }
    ensures held { IfOk result IsHeldLine }
{
    if !is_ascii(line) {
        return Err(AsmFault::Word);
    }
    let text = without_comment(line);
    match until(b':', text) {
        Some((front, back)) => labelled(front, back),
        None => {
            let statement = statement_in(trim(text))?;
            let label = None;
            Ok(Line { label, statement })
        }
    }
}

/// The label of a line: none where it has none, where what stands before its colon is no name, and where it has a byte past
/// ASCII. What else the line says doesn't matter.
pub fn label_of(line: &[u8]) -> Option<&str>
    ensures { option_map (λ n. n.now) result ≡ label_of line.now }
{
    if !is_ascii(line) {
        return None;
    }
    let (front, _) = until(b':', without_comment(line))?;
    name_text(trim_front(front))
}

/// The first line of a text, without its line feed, and what follows it: none where the text is empty.
#[tactic(auto, unfolding(crate::specs::Splits::line_cut))]
pub fn next_line(text: &[u8]) -> Option<(&[u8], &[u8])>
    ensures { option_map (λ p. (p.0.now, p.1.now)) result ≡ line_cut text.now }
{
    if text.is_empty() {
        return None;
    }
    match until(b'\n', text) {
        Some(parts) => Some(parts),
        None => Some((text, &[])),
    }
}

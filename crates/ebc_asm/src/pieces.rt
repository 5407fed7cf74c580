//! What a statement puts into its section.

ghost use Rattle.std.specs.Prelude.{◌≡◌, ◌≤◌, length, replicate, Some, IfSome};
ghost use Rattle.ebc_insn.specs.Spelling.{WellFormed};
ghost use Rattle.ebc_object.specs.Objects.{most};
ghost use Rattle.asm_text.specs.Instructions.{InsnFits};
ghost use Rattle.asm_text.specs.Texts.{IsHeldStatement, seen_statement};
ghost use Rattle.ebc_asm.specs.Held.{Appends, SmallUse, seen_use, seen_uses};
ghost use Rattle.ebc_asm.specs.Pieces.{bytes_of, data_after, distance_kind, immediate_size, insn_use, is_distance, use_of};

use crate::end::LineEnd;
use asm_text::{AsmFault, Statement};
use ebc_decode::encode;
use ebc_insn::Insn;

/// The most bytes that a section has.
const MOST: usize = 1 << 20;

/// A name that a statement uses, and how the bytes for it are filled in (docs/ASSEMBLY.md, "Objects").
#[derive(Clone, Copy)]
pub(crate) struct Use<'a> {
    /// The name.
    pub name: &'a str,
    /// The kind of its fixup, 1 to 5.
    pub kind: u8,
    /// Where the bytes begin in those of the statement.
    pub at: u32,
    /// From where in the statement's bytes a distance counts; none where an address is filled in.
    pub from: Option<u32>,
}

/// Whether what follows a statement stands in data, where it stands in data itself or not.
pub(crate) fn data_after(in_data: bool, statement: &Option<Statement>) -> bool
    ensures { result ≡ data_after in_data (seen_statement statement.now) }
{
    match statement {
        Some(Statement::Code) => false,
        Some(Statement::Data) => true,
        _ => in_data,
    }
}

/// Appends the bytes of a statement to a section.
///
/// # Errors
///
/// Far: the section would pass 1 MiB. Or there was no memory. In both cases the section may have more bytes than before.
pub(crate) fn append(statement: &Option<Statement>, section: &mut Vec<u8>) -> Result<(), LineEnd>
    requires held { IsHeldStatement statement.now }
    requires room { length section.old.items ≤ most }
    ensures { Appends result section.old.items (bytes_of (seen_statement statement.now)) section.new.items }
{
    match statement {
        Some(Statement::Numbers(numbers)) => numbers.append_to(section)?,
        Some(Statement::Place(_)) | Some(Statement::Thunk(_)) => section.extend_from_slice(
            &[0; 8],
        )?,
        Some(Statement::Zeros(count)) => return append_zeros(*count, section),
        Some(Statement::Instruction { insn, .. }) => section.extend_from_slice(encode(
            insn,
        ).as_slice())?,
        _ => {}
    }
    if section.len() > MOST {
        return Err(LineEnd::Fault(AsmFault::Far));
    }
    Ok(())
}

fn append_zeros(count: u64, section: &mut Vec<u8>) -> Result<(), LineEnd>
    requires { length section.old.items ≤ most }
    ensures { Appends result section.old.items (replicate count 0) section.new.items }
{
    if count > (MOST - section.len()) as u64 {
        return Err(LineEnd::Fault(AsmFault::Far));
    }
    section.resize(section.len() + count as usize, 0)?;
    Ok(())
}

/// The name that a statement uses, if any.
pub(crate) fn use_of<'a>(statement: &Option<Statement<'a>>) -> Option<Use<'a>>
    requires { IsHeldStatement statement.now }
    ensures use_of { seen_uses result ≡ use_of (seen_statement statement.now) }
    ensures small { IfSome result SmallUse }
{
    match statement {
        Some(Statement::Place(name)) => Some(Use {
            name,
            kind: 5,
            at: 0,
            from: None,
        }),
        Some(Statement::Thunk(name)) => Some(Use {
            name,
            kind: 3,
            at: 0,
            from: Some(4),
        }),
        Some(
            Statement::Instruction {
                insn,
                name: Some(name),
            },
        ) => Some(insn_use(insn, name)),
        _ => None,
    }
}

fn insn_use<'a>(insn: &Insn, name: &'a str) -> Use<'a>
    requires { WellFormed insn.now }
    ensures use_of { seen_use result ≡ insn_use insn.now name.now }
    ensures small { SmallUse result }
{
    let size = immediate_size(insn);
    let length = encode(insn).len() as u32;
    let at = length.saturating_sub(size);
    if is_distance(insn) {
        let kind = distance_kind(size);
        let from = Some(length);
        Use {
            name,
            kind,
            at,
            from,
        }
    } else {
        let kind = 5;
        let from = None;
        Use {
            name,
            kind,
            at,
            from,
        }
    }
}

fn distance_kind(size: u32) -> u8
    ensures { result ≡ distance_kind size }
{
    match size {
        1 => 1,
        2 => 2,
        4 => 3,
        _ => 4,
    }
}

fn immediate_size(insn: &Insn) -> u32
    ensures { result ≡ immediate_size insn.now }
{
    match insn {
        Insn::Jump8 { .. } => 1,
        Insn::Jump { far: false, .. } | Insn::Call { far: false, .. } => 4,
        Insn::MoveRelative { bits: 16, .. } => 2,
        Insn::MoveRelative { bits: 32, .. } => 4,
        _ => 8,
    }
}

fn is_distance(insn: &Insn) -> bool
    ensures { result ≡ is_distance insn.now }
{
    match insn {
        Insn::Jump8 { .. } | Insn::MoveRelative { .. } => true,
        Insn::Jump { relative, .. } | Insn::Call { relative, .. } => *relative,
        _ => false,
    }
}

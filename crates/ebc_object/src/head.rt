//! The head of an object file: its mark, its version, and how long each part is.

ghost use Rattle.std.specs.Prelude.{◌≡◌, ◌≤◌, OnOk, IfOk, length};
ghost use Rattle.ebc_object.specs.Objects.{most};
ghost use Rattle.ebc_object.specs.Readings.{Gives, head_of, mark_of};
ghost use Rattle.ebc_object.specs.Walks.{IsSmall};

use crate::fault::{ObjectEnd, ObjectFault};
use crate::fields::{bytes_at, count_at, require, u32_at};

/// How long the parts of an object file are: the bytes of its code and of its data, and how many symbols and fixups it has.
#[derive(Clone, Copy, PartialEq, Eq)]
pub(crate) struct Head {
    pub code: usize,
    pub contents: usize,
    pub symbols: usize,
    pub fixups: usize,
}

// The mark and the version.
#[tactic(auto, unfolding(crate::specs::Readings::mark_of))]
fn mark_of(file: &[u8]) -> Result<(), ObjectEnd>
    ensures mark { Gives result (mark_of file.now) }
    ensures within { OnOk result (8 ≤ length file.now) }
{
    let mark = bytes_at(file, 0, 4)?;
    require(*mark == *b"EBCO".as_slice(), ObjectFault::Mark, 0)?;
    let version = u32_at(file, 4)?;
    require(version == 1, ObjectFault::Mark, 4)
}

// The head of a file.
#[tactic(auto, unfolding(crate::specs::Readings::head_of))]
pub fn head_of(file: &[u8]) -> Result<Head, ObjectEnd>
    ensures head { Gives result (head_of file.now) }
    ensures small { IfOk result IsSmall }
    ensures within { OnOk result (24 ≤ length file.now) }
{
    mark_of(file)?;
    let code = count_at(file, 8)?;
    let contents = count_at(file, 12)?;
    let symbols = count_at(file, 16)?;
    let fixups = count_at(file, 20)?;
    Ok(Head {
        code,
        contents,
        symbols,
        fixups,
    })
}

//! The reading of an object file.

ghost use Rattle.std.specs.Prelude.{◌≡◌, IfOk};
ghost use Rattle.ebc_object.specs.Files.{object_bytes};
ghost use Rattle.ebc_object.specs.Objects.{IsObject};
ghost use Rattle.ebc_object.specs.Readings.{Gives, object_of_file};

use crate::fault::{ObjectEnd, ObjectFault};
use crate::fields::{bytes_at, require};
use crate::fixups::fixups_at;
use crate::head::head_of;
use crate::object::Object;
use crate::sections::Sections;
use crate::symbols::symbols_at;
use ebc_base::Sequence;
use std::alloc::Global;

/// The object that a file stands for.
///
/// # Errors
///
/// The fault of the first field that fails, as docs/OBJECTS.md has them, with its offset in the file; and want of memory.
#[tactic(auto, unfolding(crate::specs::Readings::object_of_file))]
pub fn read_object(alloc: Global, file: &[u8]) -> Result<Object, ObjectEnd>
    ensures reading { Gives result (object_of_file file.now) }
    ensures format { IfOk result (λ object. object_bytes object ≡ file.now) }
    ensures sound { IfOk result IsObject }
{
    let head = head_of(file)?;
    let code = bytes_at(file, 24, head.code)?;
    let contents = bytes_at(file, 24 + head.code, head.contents)?;
    let sections = Sections { code, contents };
    let start = 24 + head.code + head.contents;
    let (symbols, behind) = symbols_at(alloc, file, &sections, head.symbols, start)?;
    let fixups = fixups_at(alloc, file, &sections, symbols.len(), head.fixups, behind)?;
    let end = behind + 14 * head.fixups;
    require(file.len() <= end, ObjectFault::Count, end)?;
    Ok(Object {
        code: Sequence::new(Vec::from_slice(alloc, code)?),
        contents: Sequence::new(Vec::from_slice(alloc, contents)?),
        symbols: Sequence::new(symbols),
        fixups: Sequence::new(fixups),
    })
}

//! The sections of a source as its lines are taken.

ghost use Rattle.std.specs.Prelude.{◌≡◌, ◌≤◌, ◌++◌, ◌∷◌, [], length, OnOk, IfSome, Err};
ghost use Rattle.ebc_object.specs.Objects.{most};
ghost use Rattle.asm_text.specs.Texts.{IsHeldStatement, seen_statement};
ghost use Rattle.ebc_asm.specs.declared.end.LineEnd.TheVariants as ends;
ghost use Rattle.asm_text.specs.declared.fault.AsmFault.{AsmFault};
ghost use Rattle.ebc_asm.specs.Held.{Appends, SmallUse, and_place, and_used_place, seen_use};
ghost use Rattle.ebc_asm.specs.Pieces.{bytes_of, use_of};
ghost use Rattle.ebc_asm.specs.Symbols.{and_name, fixup_of, fixups_of, from_of, section_kind, used_name};
ghost use Rattle.ebc_base.specs.Tables.{with_name};

use crate::end::LineEnd;
use crate::names::Names;
use crate::pieces::{Use, append, use_of};
use asm_text::Statement;
use ebc_base::NoMemory;
use ebc_object::Fixup;
use std::alloc::Global;

/// A section so far.
#[derive(Drop)]
pub(crate) struct Section {
    pub bytes: Vec<u8>,
    pub fixups: Vec<Fixup>,
}

// 1 for the code, 2 for the data.
pub(crate) fn section_kind(in_data: bool) -> u8
    ensures { result ≡ section_kind in_data }
{
    if in_data { 2 } else { 1 }
}

fn from_of(offset: u32, from: Option<u32>) -> u32
    requires offset { offset ≤ most }
    requires small { IfSome from (λ n. n ≤ 18) }
    ensures { result ≡ from_of offset from }
{
    match from {
        Some(from) => offset + from,
        None => 0,
    }
}

impl Section {
    /// No bytes.
    pub fn new(alloc: Global) -> Section
        ensures bytes { result.bytes.items ≡ [] }
        ensures fixups { result.fixups.items ≡ [] }
    {
        Section {
            bytes: Vec::new(alloc),
            fixups: Vec::new(alloc),
        }
    }

    // Adds the fixup of a use in a statement that begins at an offset of code or of data.
    fn add_fixup(
        &mut self,
        alloc: Global,
        in_data: bool,
        offset: u32,
        u: &Use,
        names: &mut Names,
    ) -> Result<(), NoMemory>
        requires offset { offset ≤ most }
        requires small { SmallUse u.now }
        requires beside { length names.old.places.items ≡ length names.old.table }
        ensures bytes { self.new.bytes.items ≡ self.old.bytes.items }
        ensures table { OnOk result (names.new.table ≡ with_name u.now.name.now names.old.table) }
        ensures places { OnOk result (names.new.places.items ≡ and_place u.now.name.now names.old.table names.old.places.items) }
        ensures beside { OnOk result (length names.new.places.items ≡ length names.new.table) }
        ensures fixups { OnOk result (self.new.fixups.items ≡
            self.old.fixups.items ++ fixup_of in_data offset names.new.table (seen_use u.now) ∷ []) }
    {
        let symbol = names.number(alloc, u.name)?;
        let kind = u.kind;
        let section = section_kind(in_data);
        let from = from_of(offset, u.from);
        let offset = offset + u.at;
        self.fixups.push(Fixup {
            section,
            kind,
            offset,
            symbol,
            from,
        })?;
        Ok(())
    }

    /// Adds a statement that stands in code or in data.
    pub fn add(
        &mut self,
        alloc: Global,
        in_data: bool,
        statement: &Option<Statement>,
        names: &mut Names,
    ) -> Result<(), LineEnd>
        requires held { IsHeldStatement statement.now }
        requires most { length self.old.bytes.items ≤ most }
        requires beside { length names.old.places.items ≡ length names.old.table }
        ensures bytes { Appends result self.old.bytes.items (bytes_of (seen_statement statement.now)) self.new.bytes.items }
        ensures table { OnOk result (names.new.table ≡ and_name (used_name (use_of (seen_statement statement.now))) names.old.table) }
        ensures places { OnOk result (names.new.places.items ≡
            and_used_place (used_name (use_of (seen_statement statement.now))) names.old.table names.old.places.items) }
        ensures beside { OnOk result (length names.new.places.items ≡ length names.new.table) }
        ensures fixups { OnOk result (self.new.fixups.items ≡
            self.old.fixups.items ++
            fixups_of in_data (length self.old.bytes.items) names.new.table (use_of (seen_statement statement.now))) }
    {
        let offset = self.bytes.len() as u32;
        append(statement, &mut self.bytes)?;
        let Some(u) = use_of(statement) else {
            return Ok(());
        };
        self.add_fixup(alloc, in_data, offset, &u, names)?;
        Ok(())
    }
}

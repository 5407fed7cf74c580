//! The names of a source and what is known of each.

ghost use Rattle.std.specs.Prelude.{◌≡◌, ◌<◌, [], length, not, IfOk, OnOk};
ghost use Rattle.asm_text.specs.Texts.{seen_name};
ghost use Rattle.ebc_base.specs.Tables.{is_named, with_name};
ghost use Rattle.ebc_asm.specs.Held.{Defines, Labels, and_global_place, and_place, number_of, replaced, standing_of};
ghost use Rattle.ebc_asm.specs.Symbols.{and_name};

use crate::end::LineEnd;
use asm_text::AsmFault;
use ebc_base::{Name, NameTable, NoMemory};
use std::alloc::Global;

// The most names, all of which a table holds: the number of a symbol has 32 bits.
const MOST_NAMES: usize = u32::MAX as usize;

// Adds a name to a table unless it is there, and tells whether it was new. Names past the most find no memory.
pub(crate) fn add_name(alloc: Global, table: &mut NameTable, name: &Name) -> Result<bool, NoMemory>
    ensures new { IfOk result (λ new. new ≡ not (is_named name.now table.old)) }
    ensures table { OnOk result (table.new ≡ with_name name.now table.old) }
{
    if table.len() >= MOST_NAMES {
        return Err(NoMemory);
    }
    Ok(table.add(alloc, name)?)
}

/// Where a name stands.
#[derive(Clone, Copy)]
pub(crate) struct Standing {
    /// 0 where no line had it as its label yet, 1 in code, 2 in data.
    pub kind: u8,
    /// 1 where it is global.
    pub global: u8,
    /// The offset in its section.
    pub offset: u32,
}

/// The names that were seen, in the order in which they first appear, and the place of each.
#[derive(Drop)]
pub(crate) struct Names {
    pub table: NameTable,
    pub places: Vec<Standing>,
}

impl Names {
    /// No names.
    pub fn new(alloc: Global) -> Names
        ensures table { result.table ≡ [] }
        ensures places { result.places.items ≡ [] }
    {
        Names {
            table: NameTable::new(alloc),
            places: Vec::new(alloc),
        }
    }

    /// The number of a name, which is added unless it is there.
    #[tactic(auto, using(crate::proofs::NumberLaws::number_within, crate::proofs::NumberLaws::same_number, crate::proofs::NumberLaws::known_name))]
    pub fn number(&mut self, alloc: Global, text: &str) -> Result<u32, NoMemory>
        requires { length self.old.places.items ≡ length self.old.table }
        ensures within { IfOk result (λ number. number < length self.new.places.items) }
        ensures beside { OnOk result (length self.new.places.items ≡ length self.new.table) }
        ensures number { IfOk result (λ number. number ≡ number_of text.now self.old.table) }
        ensures table { OnOk result (self.new.table ≡ with_name text.now self.old.table) }
        ensures places { OnOk result (self.new.places.items ≡ and_place text.now self.old.table self.old.places.items) }
    {
        let name = Name::new(String::from_str(alloc, text)?);
        let number = self.table.number(&name);
        if (number as usize) < self.table.len() {
            return Ok(number);
        }
        self.add(alloc, &name)?;
        Ok(number)
    }

    // Adds a name unless it is there.
    fn add(&mut self, alloc: Global, name: &Name) -> Result<(), NoMemory>
        ensures table { OnOk result (self.new.table ≡ with_name name.now self.old.table) }
        ensures places { OnOk result (self.new.places.items ≡ and_place name.now self.old.table self.old.places.items) }
    {
        if !add_name(alloc, &mut self.table, name)? {
            return Ok(());
        }
        let (kind, global, offset) = (0, 0, 0);
        self.places.push(Standing {
            kind,
            global,
            offset,
        })?;
        Ok(())
    }

    // A line has this name as its label.
    fn define(&mut self, alloc: Global, text: &str, kind: u8, offset: u32) -> Result<(), LineEnd>
        requires { length self.old.places.items ≡ length self.old.table }
        ensures defines { Defines result text.now kind offset self.old.table self.old.places.items self.new.places.items }
        ensures table { OnOk result (self.new.table ≡ with_name text.now self.old.table) }
        ensures beside { OnOk result (length self.new.places.items ≡ length self.new.table) }
    {
        let number = self.number(alloc, text)? as usize;
        let before = self.places[number];
        if before.kind != 0 {
            return Err(LineEnd::Fault(AsmFault::Twice));
        }
        let global = before.global;
        self.places[number] = Standing {
            kind,
            global,
            offset,
        };
        Ok(())
    }

    // A line makes this name global.
    fn make_global(&mut self, alloc: Global, text: &str) -> Result<(), NoMemory>
        requires { length self.old.places.items ≡ length self.old.table }
        ensures table { OnOk result (self.new.table ≡ with_name text.now self.old.table) }
        ensures places { OnOk result (self.new.places.items ≡
            replaced text.now self.old.table self.old.places.items
            (record (standing_of text.now self.old.table self.old.places.items) { global = 1 })) }
        ensures beside { OnOk result (length self.new.places.items ≡ length self.new.table) }
    {
        let number = self.number(alloc, text)? as usize;
        let Standing { kind, offset, .. } = self.places[number];
        let global = 1;
        self.places[number] = Standing {
            kind,
            global,
            offset,
        };
        Ok(())
    }

    /// Takes the label of a line that stands in a section of this kind, at this offset.
    ///
    /// # Errors
    ///
    /// Twice: it is a label already. Or there was no memory.
    pub fn take_label(
        &mut self,
        alloc: Global,
        label: Option<&str>,
        kind: u8,
        offset: u32,
    ) -> Result<(), LineEnd>
        requires { length self.old.places.items ≡ length self.old.table }
        ensures labels { Labels result (seen_name label.entry) kind offset self.old.table self.old.places.items self.new.places.items }
        ensures table { OnOk result (self.new.table ≡ and_name (seen_name label.entry) self.old.table) }
        ensures beside { OnOk result (length self.new.places.items ≡ length self.new.table) }
    {
        match label {
            Some(name) => self.define(alloc, name, kind, offset),
            None => Ok(()),
        }
    }

    /// Takes the name that a line makes global.
    pub fn take_global(&mut self, alloc: Global, global: Option<&str>) -> Result<(), NoMemory>
        requires { length self.old.places.items ≡ length self.old.table }
        ensures table { OnOk result (self.new.table ≡ and_name (seen_name global.entry) self.old.table) }
        ensures places { OnOk result (self.new.places.items ≡
            and_global_place (seen_name global.entry) self.old.table self.old.places.items) }
        ensures beside { OnOk result (length self.new.places.items ≡ length self.new.table) }
    {
        match global {
            Some(name) => self.make_global(alloc, name),
            None => Ok(()),
        }
    }
}

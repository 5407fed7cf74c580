//! The symbols of an object file.

ghost use Rattle.std.specs.Prelude.{◌≡◌, ◌+◌, ◌-◌, ◌<◌, ◌≤◌, ◌^◌, ◌++◌, ◌∷◌, [], length, IfOk};
ghost use Rattle.ebc_object.specs.Files.{symbol_size};
ghost use Rattle.ebc_object.specs.Objects.{most};
ghost use Rattle.ebc_object.specs.Readings.{Gives, GivesBy, name_at, named_at, names_of, symbol_at, symbols_at, symbols_size};

use crate::fault::{ObjectEnd, ObjectFault};
use crate::fields::{byte_at, bytes_at, require, u32_at};
use crate::object::Symbol;
use crate::sections::Sections;
use ebc_base::{Name, NameTable, name_text};
use std::alloc::Global;

// The name at an offset, which isn't among those before; then it is among them.
#[tactic(auto, unfolding(crate::specs::Readings::name_at))]
fn name_at(alloc: Global, file: &[u8], names: &mut NameTable, at: usize) -> Result<Name, ObjectEnd>
    requires at { at ≤ length file.now }
    requires room { length names.old < 2 ^ 32 - 1 }
    ensures name { Gives result (name_at file.now names.old at) }
    ensures names { IfOk result (λ name. names.new ≡ names.old ++ name ∷ []) }
    ensures within { IfOk result (λ name. at + 1 + length name ≤ length file.now) }
{
    let count = byte_at(file, at)?;
    require(1 <= count && count <= 63, ObjectFault::Range, at)?;
    let bytes = bytes_at(file, at + 1, count as usize)?;
    let Some(text) = name_text(bytes) else {
        return Err(ObjectEnd::at(ObjectFault::Range, at + 1));
    };
    let name = Name::new(String::from_str(alloc, text)?);
    let new = names.add(alloc, &name)?;
    require(new, ObjectFault::Order, at + 1)?;
    Ok(name)
}

// The symbol of a name, whose kind stands at an offset.
#[tactic(auto, unfolding(crate::specs::Readings::named_at))]
fn named_at(
    file: &[u8],
    sections: &Sections<'_>,
    name: Name,
    at: usize,
) -> Result<Symbol, ObjectEnd>
    requires { at ≤ length file.now }
    ensures symbol { Gives result (named_at file.now sections.now.code.now sections.now.contents.now name at) }
    ensures name { IfOk result (λ symbol. symbol.name ≡ name) }
    ensures within { IfOk result (λ symbol. at + 6 ≤ length file.now) }
{
    let kind = byte_at(file, at)?;
    require(kind <= 2, ObjectFault::Range, at)?;
    let global = byte_at(file, at + 1)?;
    require(global <= 1, ObjectFault::Range, at + 1)?;
    let offset = u32_at(file, at + 2)?;
    let most = sections.bytes(kind).len();
    require(offset as usize <= most, ObjectFault::Range, at + 2)?;
    Ok(Symbol {
        name,
        kind,
        global,
        offset,
    })
}

// The symbol at an offset, whose name isn't among those before; then it is among them.
#[tactic(auto, unfolding(crate::specs::Readings::symbol_at))]
fn symbol_at(
    alloc: Global,
    file: &[u8],
    sections: &Sections<'_>,
    names: &mut NameTable,
    at: usize,
) -> Result<Symbol, ObjectEnd>
    requires at { at ≤ length file.now }
    requires room { length names.old < 2 ^ 32 - 1 }
    ensures symbol { Gives result (symbol_at file.now sections.now.code.now sections.now.contents.now names.old at) }
    ensures names { IfOk result (λ symbol. names.new ≡ names.old ++ symbol.name ∷ []) }
    ensures within { IfOk result (λ symbol. at + symbol_size symbol ≤ length file.now) }
{
    let name = name_at(alloc, file, names, at)?;
    let behind = at + 1 + name.as_str().len();
    named_at(file, sections, name, behind)
}

// So many symbols from an offset on, and the offset behind them.
pub fn symbols_at(
    alloc: Global,
    file: &[u8],
    sections: &Sections<'_>,
    count: usize,
    start: usize,
) -> Result<(Vec<Symbol>, usize), ObjectEnd>
    requires count { count ≤ most }
    requires start { start ≤ length file.now }
    ensures symbols { GivesBy (λ read. read.0.items) result (symbols_at count file.now sections.now.code.now sections.now.contents.now []
        start) }
    ensures behind { IfOk result (λ read. read.1 ≡ start + symbols_size read.0.items) }
    ensures within { IfOk result (λ read. read.1 ≤ length file.now) }
    ensures count { IfOk result (λ read. length read.0.items ≡ count) }
{
    let mut names = NameTable::new(alloc);
    let mut symbols = Vec::new(alloc);
    let mut at = start;
    for _read in 0..count {
        let symbol = symbol_at(alloc, file, sections, &mut names, at)?;
        at += 7 + symbol.name.as_str().len();
        symbols.push(symbol)?;
    }
    Ok((symbols, at))
}

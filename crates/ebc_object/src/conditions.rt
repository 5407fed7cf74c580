//! Whether an object meets its conditions.

ghost use Rattle.std.specs.Prelude.{◌≡◌, ◌↔◌, IsTrue, AllPairs, bytes_eq, length};
ghost use Rattle.std.specs.List.{list_all, list_any};
ghost use Rattle.ebc_object.specs.Objects.{AreNamedApart, EndsBefore, IsObject};
ghost use Rattle.ebc_object.specs.declared.object.Symbol.{Symbol};
ghost use Rattle.ebc_object.specs.Walks.{are_few, is_fixup, is_symbol};

use crate::fields::MOST;
use crate::fixups::last_ends_before;
use crate::object::{Fixup, Object, Symbol};
use crate::sections::{Sections, has_zeros, width};
use ebc_base::{Name, is_name};

// Whether no part of an object is too large.
fn are_few(object: &Object) -> bool
    ensures { result ≡ are_few object.now }
{
    let most = MOST as usize;
    object.code.len() <= most
        && object.contents.len() <= most
        && object.symbols.len() <= most
        && object.fixups.len() <= most
}

// Whether a symbol is one.
#[tactic(auto, unfolding(crate::specs::Walks::is_symbol))]
fn is_symbol(sections: &Sections<'_>, symbol: &Symbol) -> bool
    ensures { result ≡ is_symbol sections.now.code.now sections.now.contents.now symbol.now }
{
    is_name(symbol.name.as_str().as_bytes())
        && symbol.kind <= 2
        && symbol.global <= 1
        && symbol.offset as usize <= sections.bytes(symbol.kind).len()
}

fn are_symbols(sections: &Sections<'_>, symbols: &[Symbol]) -> bool
    ensures { result ≡ list_all (is_symbol sections.now.code.now sections.now.contents.now) symbols.now }
{
    symbols.iter().all(|symbol| is_symbol(sections, symbol))
}

// Whether a fixup is one, for so many symbols.
#[tactic(auto, unfolding(crate::specs::Walks::is_fixup))]
fn is_fixup(sections: &Sections<'_>, symbols: usize, fixup: &Fixup) -> bool
    ensures { result ≡ is_fixup sections.now.code.now sections.now.contents.now symbols fixup.now }
{
    let Fixup {
        section,
        kind,
        offset,
        symbol,
        from: _from,
    } = *fixup;
    1 <= section
        && section <= 2
        && 1 <= kind
        && kind <= 5
        && has_zeros(sections.bytes(section), offset, width(kind))
        && (symbol as usize) < symbols
}

fn are_fixups(sections: &Sections<'_>, symbols: usize, fixups: &[Fixup]) -> bool
    ensures { result ≡ list_all (is_fixup sections.now.code.now sections.now.contents.now symbols) fixups.now }
{
    fixups
        .iter()
        .all(|fixup| is_fixup(sections, symbols, fixup))
}

// Whether a symbol has this name.
fn is_among(name: &Name, symbols: &[Symbol]) -> bool
    ensures { result ≡ list_any (λ (s : Symbol). bytes_eq name.now s.name) symbols.now }
{
    symbols.iter().any(|symbol| *name == symbol.name)
}

// Whether no two symbols share a name.
fn are_named_apart(symbols: &[Symbol]) -> bool
    ensures { IsTrue result ↔ AllPairs AreNamedApart symbols.now }
{
    for (i, symbol) in symbols.iter().enumerate() {
        if is_among(&symbol.name, &symbols[..i]) {
            return false;
        }
    }
    true
}

// Whether fixups ascend.
fn ascend(fixups: &[Fixup]) -> bool
    ensures { IsTrue result ↔ AllPairs EndsBefore fixups.now }
{
    for (i, fixup) in fixups.iter().enumerate() {
        if !last_ends_before(fixup.section, fixup.offset, &fixups[..i]) {
            return false;
        }
    }
    true
}

/// Whether an object meets the conditions on objects (docs/OBJECTS.md), so that it has a file. It takes no memory, and for
/// n symbols compares up to n * n names.
pub fn object_ok(object: &Object) -> bool
    ensures { IsTrue result ↔ IsObject object.now }
{
    let sections = Sections {
        code: object.code.as_slice(),
        contents: object.contents.as_slice(),
    };
    let symbols = object.symbols.as_slice();
    let fixups = object.fixups.as_slice();
    if !are_few(object) {
        return false;
    }
    if !are_symbols(&sections, symbols) {
        return false;
    }
    if !are_fixups(&sections, symbols.len(), fixups) {
        return false;
    }
    if !are_named_apart(symbols) {
        return false;
    }
    ascend(fixups)
}

//! What is said of objects that aren't linked.

ghost use Rattle.std.specs.Prelude.{◌≤◌, All, length};
ghost use Rattle.ebc_object.specs.Objects.{IsObject};

use crate::far::far_said;
use crate::fixups::fixup_said;
use crate::symbols::{definition_in, file_name};
use ebc_base::NoMemory;
use ebc_link::{LinkEnd, LinkPlan};
use ebc_object::{Fixup, Object, Symbol};
use explain_base::{Line, Said};
use std::alloc::Global;

// What is said of an object as a whole, or of the plan if the file is empty.
fn whole_said(file: &str, what: Line) -> Said {
    let mut said = Said::with_page(what, "docs/LINKING.md, \"Faults\"");
    said.file.text(file);
    said
}

// The number of the symbol of a name that an object doesn't define.
fn undefined_number(object: &Object, name: &str) -> Option<usize> {
    for (number, symbol) in object.symbols.as_slice().iter().enumerate() {
        if symbol.kind == 0 && symbol.name.as_str() == name {
            return Some(number);
        }
    }
    None
}

// The first fixup by a symbol with a number.
fn first_use(object: &Object, number: usize) -> Option<&Fixup> {
    for fixup in object.fixups.as_slice() {
        if fixup.symbol as usize == number {
            return Some(fixup);
        }
    }
    None
}

// A symbol with a number that no object defines.
fn use_said(alloc: Global, file: &str, object: &Object, number: usize, name: &str) -> Said {
    let mut what = Line::of(alloc, name);
    let Some(fixup) = first_use(object, number) else {
        what.text(" is a symbol of it, and no object defines it");
        return whole_said(file, what);
    };
    what.text(
        " is used here, and no object defines it: a label in its source, or in another one a label with .global",
    );
    fixup_said(file, object, fixup, what, ", with 0 in place of the name")
}

// A name that is used, and that no object defines.
fn undefined_said(alloc: Global, plan: &LinkPlan, objects: &[Object], name: &str) -> Option<Said> {
    for (number, object) in objects.iter().enumerate() {
        if let Some(symbol) = undefined_number(object, name) {
            let file = file_name(plan, number);
            return Some(use_said(alloc, file, object, symbol, name));
        }
    }
    None
}

// The files of the first two objects that define a name for all.
fn definitions<'a>(
    plan: &'a LinkPlan,
    objects: &[Object],
    name: &str,
) -> Option<(&'a str, &'a str)> {
    let mut first = None;
    for (number, object) in objects.iter().enumerate() {
        if definition_in(object, name).is_none() {
            continue;
        }
        let file = file_name(plan, number);
        if let Some(first) = first {
            return Some((first, file));
        }
        first = Some(file);
    }
    None
}

// A name with two definitions.
fn twice_said(alloc: Global, plan: &LinkPlan, objects: &[Object], name: &str) -> Option<Said> {
    let (first, second) = definitions(plan, objects, name)?;
    let mut what = Line::of(alloc, name);
    what.text(" is defined for all here, and in ")
        .text(first)
        .text(" too; wanted: one .global of it");
    Some(whole_said(second, what))
}

// Writes why a symbol isn't the entry: how its object has it.
fn write_cause(file: &str, symbol: &Symbol, line: &mut Line) {
    line.text(file);
    match (symbol.kind, symbol.global) {
        (0, _) => line.text(" uses it and doesn't define it"),
        (2, _) => line.text(" defines it in the data"),
        (_, 0) => line.text(" defines it without .global"),
        _ => line
            .text(" defines it at code+")
            .at(symbol.offset)
            .text(", which is odd or the end of its code"),
    };
}

// The symbol of a name in an object.
fn symbol_named<'a>(object: &'a Object, name: &str) -> Option<&'a Symbol> {
    for symbol in object.symbols.as_slice() {
        if symbol.name.as_str() == name {
            return Some(symbol);
        }
    }
    None
}

// A symbol of the plan's entry, with the file of its object: the first that defines it, or else the last.
fn entry_symbol<'a>(plan: &'a LinkPlan, objects: &'a [Object]) -> Option<(&'a str, &'a Symbol)> {
    let mut found = None;
    for (number, object) in objects.iter().enumerate() {
        if let Some(symbol) = symbol_named(object, plan.entry.as_str()) {
            found = Some((file_name(plan, number), symbol));
            if symbol.kind != 0 {
                break;
            }
        }
    }
    found
}

fn entry_said(alloc: Global, plan: &LinkPlan, objects: &[Object]) -> Said {
    let mut what = Line::of(alloc, "the entry is ");
    what.text(plan.entry.as_str())
        .text("; wanted: a label of the code with .global; ");
    match entry_symbol(plan, objects) {
        Some((file, symbol)) => write_cause(file, symbol, &mut what),
        None => {
            what.text("no object has it");
        }
    }
    whole_said("", what)
}

fn size_said(alloc: Global) -> Said {
    let what =
        "the image takes more than 4194304 bytes, its relocations counted; wanted: that at most";
    whole_said("", Line::of(alloc, what))
}

/// What is said of objects that aren't linked by a plan, as `link` ends; none for want of memory. Of an object the file is its name
/// in the plan, and of the plan it is empty.
///
/// # Errors
///
/// Want of memory alone.
pub fn link_said(
    alloc: Global,
    plan: &LinkPlan,
    objects: &[Object],
    end: &LinkEnd,
) -> Result<Option<Said>, NoMemory>
    requires objects { All IsObject objects.now }
    requires few { length objects.now ≤ 256 }
{
    match end {
        LinkEnd::Undefined(name) => Ok(undefined_said(alloc, plan, objects, name.as_str())),
        LinkEnd::Twice(name) => Ok(twice_said(alloc, plan, objects, name.as_str())),
        LinkEnd::Far(place) => far_said(alloc, plan, objects, *place),
        LinkEnd::Entry => Ok(Some(entry_said(alloc, plan, objects))),
        LinkEnd::Size => Ok(Some(size_said(alloc))),
        LinkEnd::NoMemory => Ok(None),
    }
}

//! Sources as they are assembled.

ghost use Rattle.std.specs.Prelude.{◌≡◌, ◌≤◌, [], length, IfOk, OnOk};
ghost use Rattle.asm_text.specs.Lines.{label_of};
ghost use Rattle.asm_text.specs.Splits.{lines_of};
ghost use Rattle.ebc_object.specs.Objects.{IsObject, most};
ghost use Rattle.ebc_asm.specs.Held.{AreLabels, HoldsLines};
ghost use Rattle.ebc_asm.specs.Sources.{Gives, lines_behind, object_of};
ghost use Rattle.ebc_asm.specs.Symbols.{and_name};

use crate::assembler::Assembler;
use crate::end::AsmEnd;
use crate::names::add_name;
use asm_text::{label_of, next_line};
use ebc_base::{Name, NameTable, NoMemory};
use ebc_object::Object;
use std::alloc::Global;

// Adds the label of a line, if it has one, unless it is there.
fn add_label(alloc: Global, text: &[u8], labels: &mut NameTable) -> Result<(), NoMemory>
    ensures { OnOk result (labels.new ≡ and_name (label_of text.now) labels.old) }
{
    let Some(label) = label_of(text) else {
        return Ok(());
    };
    add_name(alloc, labels, &Name::new(String::from_str(alloc, label)?))?;
    Ok(())
}

// The labels of a source.
fn labels_in(alloc: Global, source: &[u8]) -> Result<NameTable, NoMemory>
    ensures { IfOk result (λ labels. AreLabels labels (lines_of source.now)) }
{
    let mut labels = NameTable::new(alloc);
    let mut rest = source;
    while let Some((text, more)) = next_line(rest) {
        add_label(alloc, text, &mut labels)?;
        rest = more;
    }
    Ok(labels)
}

// Takes the lines of a source that has these labels.
fn take_lines(alloc: Global, labels: &NameTable, source: &[u8]) -> Result<Assembler, AsmEnd>
    requires { AreLabels labels.now (lines_of source.now) }
    ensures { HoldsLines result (lines_behind (lines_of source.now) [] (lines_of source.now)) }
{
    let mut assembler = Assembler::new(alloc);
    let mut rest = source;
    let mut number = 0;
    while let Some((text, more)) = next_line(rest) {
        number += 1;
        if let Err(end) = assembler.take_text(alloc, labels, text) {
            return Err(end.at(number));
        }
        rest = more;
    }
    Ok(assembler)
}

/// The object that a source stands for (docs/ASSEMBLY.md, "Objects"). It has a file where it has at most 2^20 symbols and as many
/// fixups; that of a source of at most 1 MiB has no more.
///
/// # Errors
///
/// The first line that fails, from 1, with the lowest of its faults (docs/ASSEMBLY.md, "Faults"); and want of memory.
pub fn assemble(alloc: Global, source: &[u8]) -> Result<Object, AsmEnd>
    ensures reading { Gives result (object_of source.now) }
    ensures counted { IfOk result (λ object. length object.symbols ≤ most → length object.fixups ≤ most → IsObject object) }
    ensures sound { length source.now ≤ most → IfOk result IsObject }
{
    let labels = labels_in(alloc, source)?;
    let assembler = take_lines(alloc, &labels, source)?;
    Ok(assembler.into_object(alloc)?)
}

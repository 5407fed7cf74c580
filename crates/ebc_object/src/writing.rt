//! The writing of an object file.

ghost use Rattle.std.specs.Prelude.{◌≡◌, ◌<◌, ◌^◌, ◌++◌, All, Ok, IfOk, OnOk, length};
ghost use Rattle.std.specs.Int.{w32, to_le_bytes};
ghost use Rattle.std.specs.List.{flat_map};
ghost use Rattle.ebc_object.specs.Files.{fixup_bytes, head_bytes, object_bytes, symbol_bytes};
ghost use Rattle.ebc_object.specs.Objects.{IsObject};
ghost use Rattle.ebc_object.specs.Readings.{object_of_file};

use crate::object::{Fixup, Object, Symbol};
use ebc_base::NoMemory;
use std::alloc::{AllocError, Global};

// Appends some bytes.
fn append(file: &mut Vec<u8>, bytes: &[u8]) -> Result<(), AllocError>
    ensures { OnOk result (file.new.items ≡ file.old.items ++ bytes.now) }
{
    file.extend_from_slice(bytes)
}

// Appends a number in four bytes.
fn append_u32(file: &mut Vec<u8>, number: u32) -> Result<(), AllocError>
    ensures { OnOk result (file.new.items ≡ file.old.items ++ to_le_bytes w32 number) }
{
    append(file, &number.to_le_bytes())
}

// Appends the mark, the version and the length of each part.
#[tactic(auto, unfolding(crate::specs::Files::head_bytes))]
fn append_head(file: &mut Vec<u8>, object: &Object) -> Result<(), AllocError>
    requires code { length object.now.code < 2 ^ 32 }
    requires contents { length object.now.contents < 2 ^ 32 }
    requires symbols { length object.now.symbols < 2 ^ 32 }
    requires fixups { length object.now.fixups < 2 ^ 32 }
    ensures { OnOk result (file.new.items ≡ file.old.items ++ head_bytes object.now) }
{
    append(file, b"EBCO")?;
    append_u32(file, 1)?;
    append_u32(file, object.code.len() as u32)?;
    append_u32(file, object.contents.len() as u32)?;
    append_u32(file, object.symbols.len() as u32)?;
    append_u32(file, object.fixups.len() as u32)
}

#[tactic(auto, unfolding(crate::specs::Files::symbol_bytes))]
fn append_symbol(file: &mut Vec<u8>, symbol: &Symbol) -> Result<(), AllocError>
    requires { length symbol.now.name < 256 }
    ensures { OnOk result (file.new.items ≡ file.old.items ++ symbol_bytes symbol.now) }
{
    let name = symbol.name.as_str().as_bytes();
    append(file, &[name.len() as u8])?;
    append(file, name)?;
    append(file, &[symbol.kind, symbol.global])?;
    append_u32(file, symbol.offset)
}

#[tactic(auto, unfolding(crate::specs::Files::fixup_bytes))]
fn append_fixup(file: &mut Vec<u8>, fixup: &Fixup) -> Result<(), AllocError>
    ensures { OnOk result (file.new.items ≡ file.old.items ++ fixup_bytes fixup.now) }
{
    append(file, &[fixup.section, fixup.kind])?;
    append_u32(file, fixup.offset)?;
    append_u32(file, fixup.symbol)?;
    append_u32(file, fixup.from)
}

fn append_symbols(file: &mut Vec<u8>, symbols: &[Symbol]) -> Result<(), AllocError>
    requires { All (λ (s : Symbol). length s.name < 256) symbols.now }
    ensures { OnOk result (file.new.items ≡ file.old.items ++ flat_map symbol_bytes symbols.now) }
{
    for symbol in symbols {
        append_symbol(file, symbol)?;
    }
    Ok(())
}

fn append_fixups(file: &mut Vec<u8>, fixups: &[Fixup]) -> Result<(), AllocError>
    ensures { OnOk result (file.new.items ≡ file.old.items ++ flat_map fixup_bytes fixups.now) }
{
    for fixup in fixups {
        append_fixup(file, fixup)?;
    }
    Ok(())
}

/// The file of an object, one that `object_ok` accepts. Reading the file gives this object again.
///
/// # Errors
///
/// There was no memory.
#[tactic(auto, unfolding(crate::specs::Files::object_bytes))]
pub fn write_object(alloc: Global, object: &Object) -> Result<Vec<u8>, NoMemory>
    requires { IsObject object.now }
    ensures format { IfOk result (λ file. file.items ≡ object_bytes object.now) }
    ensures read_again { IfOk result (λ file. object_of_file file.items ≡ Ok object.now) }
{
    let mut file = Vec::new(alloc);
    append_head(&mut file, object)?;
    append(&mut file, object.code.as_slice())?;
    append(&mut file, object.contents.as_slice())?;
    append_symbols(&mut file, object.symbols.as_slice())?;
    append_fixups(&mut file, object.fixups.as_slice())?;
    Ok(file)
}

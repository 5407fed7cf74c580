//! The faults of the files but images that a command reads: their numbers, and their names as they are printed.
ghost use Rattle.std.specs.Prelude.{◌≡◌};
ghost use Rattle.file_inputs.specs.Faults.{asm_fault_text, toml_fault_number, toml_fault_text, key_path};
ghost use Rattle.file_inputs.specs.Faults.{object_fault_number, object_fault_text, rom_fault_number, rom_fault_text, take_fault_number};
ghost use Rattle.file_inputs.specs.Faults.{take_fault_text};

use ebc_asm::AsmFault;
use ebc_object::ObjectFault;
use note_types::TomlFault;
use option_rom::{RomFault, TakeFault};

/// The number of a fault of a TOML text, from 1 to 6.
pub fn toml_fault_number(fault: &TomlFault) -> u8
    ensures { result ≡ toml_fault_number fault.now }
{
    match fault {
        TomlFault::NotToml => 1,
        TomlFault::Missing(_) => 2,
        TomlFault::Kind(_) => 3,
        TomlFault::Name(_) => 4,
        TomlFault::Range(_) => 5,
        TomlFault::Twice(_) => 6,
    }
}

/// The name of a fault of a TOML text.
pub fn toml_fault_text(fault: &TomlFault) -> &'static str
    ensures { result.now ≡ toml_fault_text fault.now }
{
    match fault {
        TomlFault::NotToml => "nottoml",
        TomlFault::Missing(_) => "missing",
        TomlFault::Kind(_) => "kind",
        TomlFault::Name(_) => "name",
        TomlFault::Range(_) => "range",
        TomlFault::Twice(_) => "twice",
    }
}

/// The path of the key where a fault of a TOML text stands, and a dash where the text isn't TOML.
pub fn key_path(fault: &TomlFault) -> &str
    ensures { result.now ≡ key_path fault.now }
{
    match fault {
        TomlFault::NotToml => "-",
        TomlFault::Missing(path) => path.as_str(),
        TomlFault::Kind(path) => path.as_str(),
        TomlFault::Name(path) => path.as_str(),
        TomlFault::Range(path) => path.as_str(),
        TomlFault::Twice(path) => path.as_str(),
    }
}

/// The name of a fault of a source.
pub fn asm_fault_text(fault: AsmFault) -> &'static str
    ensures { result.now ≡ asm_fault_text fault }
{
    match fault {
        AsmFault::Word => "word",
        AsmFault::Operand => "operand",
        AsmFault::Number => "number",
        AsmFault::Index => "index",
        AsmFault::Label => "label",
        AsmFault::Twice => "twice",
        AsmFault::Far => "far",
        AsmFault::Section => "section",
    }
}

/// The number of a fault of an object, from 1 to 5.
pub fn object_fault_number(fault: ObjectFault) -> u8
    ensures { result ≡ object_fault_number fault }
{
    match fault {
        ObjectFault::Short => 1,
        ObjectFault::Mark => 2,
        ObjectFault::Count => 3,
        ObjectFault::Range => 4,
        ObjectFault::Order => 5,
    }
}

/// The name of a fault of an object.
pub fn object_fault_text(fault: ObjectFault) -> &'static str
    ensures { result.now ≡ object_fault_text fault }
{
    match fault {
        ObjectFault::Short => "short",
        ObjectFault::Mark => "mark",
        ObjectFault::Count => "count",
        ObjectFault::Range => "range",
        ObjectFault::Order => "order",
    }
}

/// The number of a fault of an option ROM, from 1 to 5.
pub fn rom_fault_number(fault: RomFault) -> u8
    ensures { result ≡ rom_fault_number fault }
{
    match fault {
        RomFault::Short => 1,
        RomFault::Mark => 2,
        RomFault::Pcir => 3,
        RomFault::Length => 4,
        RomFault::Efi => 5,
    }
}

/// The name of a fault of an option ROM.
pub fn rom_fault_text(fault: RomFault) -> &'static str
    ensures { result.now ≡ rom_fault_text fault }
{
    match fault {
        RomFault::Short => "short",
        RomFault::Mark => "mark",
        RomFault::Pcir => "pcir",
        RomFault::Length => "length",
        RomFault::Efi => "efi",
    }
}

/// The number of a fault of what is to be taken out of an option ROM, from 6 to 8.
pub fn take_fault_number(fault: TakeFault) -> u8
    ensures { result ≡ take_fault_number fault }
{
    match fault {
        TakeFault::Number => 6,
        TakeFault::NotEbc => 7,
        TakeFault::Compressed => 8,
    }
}

/// The name of a fault of what is to be taken out of an option ROM.
pub fn take_fault_text(fault: TakeFault) -> &'static str
    ensures { result.now ≡ take_fault_text fault }
{
    match fault {
        TakeFault::Number => "number",
        TakeFault::NotEbc => "notebc",
        TakeFault::Compressed => "compressed",
    }
}

//! Bytes at the end of a file that is written.

ghost use Rattle.std.specs.Prelude.{◌≡◌, ◌+◌, ◌<◌, ◌^◌, ◌++◌, OnOk, vec_len};
ghost use Rattle.std.specs.Int.{w16, w32, w64, to_le_bytes};
ghost use Rattle.pe_image.specs.Files.{zeros};

use std::alloc::AllocError;

// Appends some bytes.
pub fn append(file: &mut Vec<u8>, bytes: &[u8]) -> Result<(), AllocError>
    ensures { OnOk result (file.new.items ≡ file.old.items ++ bytes.now) }
{
    file.extend_from_slice(bytes)
}

// Appends a number in two bytes.
pub fn append_u16(file: &mut Vec<u8>, number: u16) -> Result<(), AllocError>
    ensures { OnOk result (file.new.items ≡ file.old.items ++ to_le_bytes w16 number) }
{
    append(file, &number.to_le_bytes())
}

// Appends a number in four bytes.
pub fn append_u32(file: &mut Vec<u8>, number: u32) -> Result<(), AllocError>
    ensures { OnOk result (file.new.items ≡ file.old.items ++ to_le_bytes w32 number) }
{
    append(file, &number.to_le_bytes())
}

// Appends a number in eight bytes.
pub fn append_u64(file: &mut Vec<u8>, number: u64) -> Result<(), AllocError>
    ensures { OnOk result (file.new.items ≡ file.old.items ++ to_le_bytes w64 number) }
{
    append(file, &number.to_le_bytes())
}

// Appends zeros, fewer than 1024.
pub fn append_zeros(file: &mut Vec<u8>, count: usize) -> Result<(), AllocError>
    requires { count < 1024 }
    ensures { OnOk result (file.new.items ≡ file.old.items ++ zeros count) }
{
    file.resize(file.len() + count, 0)
}

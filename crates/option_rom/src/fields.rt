//! Numbers at an offset of a file.

ghost use Rattle.std.specs.Prelude.{◌≡◌, ◌+◌, ◌≤◌, length};
ghost use Rattle.pe_image.specs.Fields.{u16_at, u32_at};

// The number in two bytes.
#[tactic(auto, unfolding(pe_image::specs::Fields::number_at, ebc_width::specs::Bytes::little_endian))]
pub fn u16_at(file: &[u8], at: usize) -> u16
    requires { at + 2 ≤ length file.now }
    ensures { result ≡ u16_at file.now at }
{
    u16::from_le_bytes([file[at], file[at + 1]])
}

// The number in four bytes.
#[tactic(auto, unfolding(pe_image::specs::Fields::number_at, ebc_width::specs::Bytes::little_endian))]
pub fn u32_at(file: &[u8], at: usize) -> u32
    requires { at + 4 ≤ length file.now }
    ensures { result ≡ u32_at file.now at }
{
    u32::from_le_bytes([file[at], file[at + 1], file[at + 2], file[at + 3]])
}

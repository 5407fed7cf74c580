//! Numbers at an offset of a file.

ghost use Rattle.std.specs.Prelude.{◌≡◌, ◌+◌, ◌≤◌, length};
ghost use Rattle.pe_image.specs.Fields.{bytes_at, u16_at, u32_at, u64_at};

// The number in two bytes.
#[tactic(auto, unfolding(crate::specs::Fields::number_at, ebc_width::specs::Bytes::little_endian))]
pub fn u16_at(file: &[u8], at: usize) -> u16
    requires { at + 2 ≤ length file.now }
    ensures { result ≡ u16_at file.now at }
{
    u16::from_le_bytes([file[at], file[at + 1]])
}

// The number in four bytes.
#[tactic(auto, unfolding(crate::specs::Fields::number_at, ebc_width::specs::Bytes::little_endian))]
pub fn u32_at(file: &[u8], at: usize) -> u32
    requires { at + 4 ≤ length file.now }
    ensures { result ≡ u32_at file.now at }
{
    u32::from_le_bytes([file[at], file[at + 1], file[at + 2], file[at + 3]])
}

// The number in eight bytes.
#[tactic(auto, unfolding(crate::specs::Fields::number_at, ebc_width::specs::Bytes::little_endian))]
pub fn u64_at(file: &[u8], at: usize) -> u64
    requires { at + 8 ≤ length file.now }
    ensures { result ≡ u64_at file.now at }
{
    u64::from(u32_at(file, at)) + 0x1_0000_0000 * u64::from(u32_at(file, at + 4))
}

// Some bytes.
#[tactic(auto, unfolding(crate::specs::Fields::bytes_at))]
pub fn bytes_at(file: &[u8], at: usize, n: usize) -> &[u8]
    requires { at + n ≤ length file.now }
    ensures bytes { result.now ≡ bytes_at file.now at n }
    ensures len { length result.now ≡ n }
{
    &file[at..at + n]
}

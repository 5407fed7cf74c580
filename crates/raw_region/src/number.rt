//! Numbers and other bytes among the bytes of a region; a number's lowest byte comes first.

ghost use Rattle.std.specs.Prelude.{◌≡◌, ℕ, ◌+◌, ◌^◌, ◌<◌, ◌≤◌, length, slice_index};
ghost use Rattle.ebc_width.specs.Bytes.{little_endian, put, overlaid, IsAccess};

/// The number in the `count` bytes from an offset on.
pub(crate) fn read_number(bytes: &[u8], offset: usize, count: usize) -> u64
    requires count { IsAccess count }
    requires within { offset + count ≤ length bytes.now }
    ensures number { result ≡ little_endian (slice_index bytes.now) offset count }
    ensures below { result < 256 ^ count }
{
    // Each call is of a known size, so that none copies by a loop.
    match count {
        1 => read_sized(bytes, offset, 1),
        2 => read_sized(bytes, offset, 2),
        4 => read_sized(bytes, offset, 4),
        _ => read_sized(bytes, offset, 8),
    }
}

#[inline(always)]
fn read_sized(bytes: &[u8], offset: usize, count: usize) -> u64
    requires count { IsAccess count }
    requires within { offset + count ≤ length bytes.now }
    ensures number { result ≡ little_endian (slice_index bytes.now) offset count }
    ensures below { result < 256 ^ count }
{
    let mut word = [0; 8];
    word[..count].copy_from_slice(&bytes[offset..offset + count]);
    u64::from_le_bytes(word)
}

/// Writes the low `count` bytes of a number from an offset on.
pub(crate) fn write_number(bytes: &mut [u8], offset: usize, count: usize, value: u64)
    requires count { IsAccess count }
    requires within { offset + count ≤ length bytes.old }
    ensures { (i : ℕ) → slice_index bytes.new i ≡ put (slice_index bytes.old) offset count value i }
{
    match count {
        1 => write_sized(bytes, offset, 1, value),
        2 => write_sized(bytes, offset, 2, value),
        4 => write_sized(bytes, offset, 4, value),
        _ => write_sized(bytes, offset, 8, value),
    }
}

#[inline(always)]
fn write_sized(bytes: &mut [u8], offset: usize, count: usize, value: u64)
    requires count { IsAccess count }
    requires within { offset + count ≤ length bytes.old }
    ensures { (i : ℕ) → slice_index bytes.new i ≡ put (slice_index bytes.old) offset count value i }
{
    write_bytes(bytes, offset, &value.to_le_bytes()[..count]);
}

/// Writes the bytes of a part from an offset on.
#[inline(always)]
pub(crate) fn write_bytes(bytes: &mut [u8], offset: usize, part: &[u8])
    requires { offset + length part.now ≤ length bytes.old }
    ensures { (i : ℕ) → slice_index bytes.new i ≡ overlaid (slice_index bytes.old) offset part.now i }
{
    bytes[offset..offset + part.len()].copy_from_slice(part);
}

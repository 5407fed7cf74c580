//! Fields at an offset of a file.

ghost use Rattle.std.specs.Prelude.{◌≡◌, ◌+◌, ◌≤◌, IsTrue, OnOk, IfOk, length};
ghost use Rattle.ebc_base.specs.Steps.{passes};
ghost use Rattle.ebc_object.specs.Objects.{most};
ghost use Rattle.ebc_object.specs.Readings.{Gives, GivesBy, byte_at, count_at, u32_at, bytes_at};

use crate::fault::{ObjectEnd, ObjectFault};

// The most bytes of a section, and the most symbols and fixups.
pub const MOST: u32 = 0x10_0000;

// The bytes of a field, which lie in the file.
#[tactic(auto, unfolding(crate::specs::Readings::bytes_at))]
pub fn bytes_at(file: &[u8], at: usize, count: usize) -> Result<&[u8], ObjectEnd>
    requires { at ≤ length file.now }
    ensures field { GivesBy (λ bytes. bytes.now) result (bytes_at file.now at count) }
    ensures length { IfOk result (λ bytes. length bytes.now ≡ count) }
    ensures within { OnOk result (at + count ≤ length file.now) }
{
    if file.len() - at < count {
        return Err(ObjectEnd::at(ObjectFault::Short, at));
    }
    Ok(&file[at..at + count])
}

// The byte at an offset.
#[tactic(auto, unfolding(crate::specs::Readings::byte_at))]
pub fn byte_at(file: &[u8], at: usize) -> Result<u8, ObjectEnd>
    requires { at ≤ length file.now }
    ensures byte { Gives result (byte_at file.now at) }
    ensures within { OnOk result (at + 1 ≤ length file.now) }
{
    let bytes = bytes_at(file, at, 1)?;
    Ok(bytes[0])
}

// The number in four bytes.
#[tactic(auto, unfolding(crate::specs::Readings::u32_at))]
pub fn u32_at(file: &[u8], at: usize) -> Result<u32, ObjectEnd>
    requires { at ≤ length file.now }
    ensures number { Gives result (u32_at file.now at) }
    ensures within { OnOk result (at + 4 ≤ length file.now) }
{
    let bytes = bytes_at(file, at, 4)?;
    Ok(u32::from_le_bytes([bytes[0], bytes[1], bytes[2], bytes[3]]))
}

// A fault of the field at an offset, unless a test holds.
pub fn require(holds: bool, fault: ObjectFault, at: usize) -> Result<(), ObjectEnd>
    ensures passes { Gives result (passes holds (fault, at)) }
    ensures holds { OnOk result (IsTrue holds) }
{
    if holds {
        Ok(())
    } else {
        Err(ObjectEnd::at(fault, at))
    }
}

// A length or a count, which isn't too large.
#[tactic(auto, unfolding(crate::specs::Readings::count_at))]
pub fn count_at(file: &[u8], at: usize) -> Result<usize, ObjectEnd>
    requires { at ≤ length file.now }
    ensures count { Gives result (count_at file.now at) }
    ensures small { IfOk result (λ count. count ≤ most) }
    ensures within { OnOk result (at + 4 ≤ length file.now) }
{
    let count = u32_at(file, at)?;
    require(count <= MOST, ObjectFault::Count, at)?;
    Ok(count as usize)
}

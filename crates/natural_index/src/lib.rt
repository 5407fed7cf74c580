//! Natural indexes of EFI Byte Code: a sign, natural units and bytes in 16, 32 or 64 bits. UEFI specification, chapter
//! "EFI Byte Code Virtual Machine", section "Natural Indexing".
//!
//! Promises:
//!
//! - `read16`: `found` says that the number spells the index, `none` that there is none exactly where the tag is 7, and
//!   `reading` that the answer is the definition's.
//! - `read32`, `read64`: `spelled` says that the number spells the index, and `reading` that it is the definition's.
//! - `write16`, `write32`, `write64`: of an index that fits, `raw` gives the number that spells it, and `read_again`
//!   says that this number reads as the index.
//! - `spelling_laws`: `one_index`, no two indexes are spelled by one number; `reads_spelled`, an index is read from the
//!   number that spells it; `spells_read`, a number spells the index that is read from it.
//! - `smallest`: `fits` and `numbers`, an index with both numbers and the sign that fits; `least`, no lower tag has
//!   room for them; `none`, there is none where no tag has.
//! - `Index::fits`: true exactly where the index has a spelling of that size.
//! - `Index::pair`: natural units and bytes, both negated under a sign.
#![tactic(auto)]

ghost use Rattle.std.specs.Prelude.{◌≡◌, ℕ, ◌+◌, ◌-◌, ◌^◌, ◌<◌, ◌≤◌, Some, IfSome, IfNone, IsNone, IsTrue, ◌↔◌};
ghost use Rattle.natural_index.specs.Index.{IsIndexSize, HasRoom, IsIndex, IsSpelled, OneIndex, ReadsSpelled, SpellsRead, raw_of};
ghost use Rattle.natural_index.specs.Index.{natural_bits, field_at, tag_at, fields_of, index_of, pair_of};

/// An index: so many natural units and bytes, both negated where `neg` is set. A natural unit is
/// the width W of a pointer, so the value is n × W + c bytes, where (n, c) is the pair.
///
/// In its spelling the sign is the top bit, and the tag the next three bits. The tag times 2, 4
/// or 8, in 16, 32 or 64 bits, is the width of the field of natural units, the low bits. The bits
/// between are the field of bytes, or constant units.
#[derive(Clone, Copy, PartialEq, Eq)]
pub struct Index {
    /// Whether both counts are negated.
    pub neg: bool,
    /// How the bits are divided between natural units and bytes, from 0 to 7.
    pub tag: u8,
    /// Natural units, without the sign.
    pub units: u64,
    /// Bytes, without the sign.
    pub bytes: u64,
}

// How many bits the field of natural units has.
#[inline(always)]
fn natural_width(bits: u8, tag: u8) -> u32
    ensures { result ≡ natural_bits bits tag }
{
    tag as u32 * bits as u32 / 8
}

// The number in some bits of a raw number, from a place on.
#[inline(always)]
fn field(raw: u64, place: u32, width: u32) -> u64
    requires place { place < 64 }
    requires width { width < 64 }
    ensures { result ≡ field_at raw place width }
{
    raw >> place & ((1 << width) - 1)
}

// The index that a raw number spells, where its tag leaves room.
#[inline(always)]
fn read(bits: u8, raw: u64) -> Index
    requires size { IsIndexSize bits }
    requires within { raw < 2 ^ bits }
    requires split { natural_bits bits (tag_at bits raw) ≤ bits - 4 }
    ensures fields { result ≡ fields_of bits raw }
    ensures spelled { IsSpelled bits raw result }
{
    let sign_place = bits as u32 - 1;
    let tag_place = bits as u32 - 4;
    let tag = field(raw, tag_place, 3) as u8;
    let natural = natural_width(bits, tag);
    Index {
        neg: field(raw, sign_place, 1) == 1,
        tag,
        units: field(raw, 0, natural),
        bytes: field(raw, natural, tag_place - natural),
    }
}

/// The index that a raw number of 16 bits spells: none exactly where the tag is 7, whose 14 bits of
/// natural units have no room beside sign and tag.
#[inline(always)]
pub fn read16(raw: u16) -> Option<Index>
    ensures found { IfSome result (λ i. IsSpelled 16 raw i) }
    ensures none { IsNone result ↔ (tag_at 16 raw ≡ 7) }
    ensures reading { result ≡ index_of 16 raw }
{
    if raw >> 12 & 7 == 7 {
        None
    } else {
        Some(read(16, raw as u64))
    }
}

/// The index that a raw number of 32 bits spells.
#[inline(always)]
pub fn read32(raw: u32) -> Index
    ensures spelled { IsSpelled 32 raw result }
    ensures reading { index_of 32 raw ≡ Some result }
{
    read(32, raw as u64)
}

/// The index that a raw number of 64 bits spells.
#[inline(always)]
pub fn read64(raw: u64) -> Index
    ensures spelled { IsSpelled 64 raw result }
    ensures reading { index_of 64 raw ≡ Some result }
{
    read(64, raw)
}

// The raw number that spells an index.
fn write(bits: u8, i: &Index) -> u64
    requires size { IsIndexSize bits }
    requires room { IsIndex bits i.now }
    ensures raw { result ≡ raw_of bits i.now }
    ensures within { result < 2 ^ bits }
    ensures read_again { index_of bits result ≡ Some i.now }
{
    let sign_place = bits as u32 - 1;
    let tag_place = bits as u32 - 4;
    let natural = natural_width(bits, i.tag);
    i.units | i.bytes << natural | (i.tag as u64) << tag_place | (i.neg as u64) << sign_place
}

/// The raw number of 16 bits that spells an index, which must [fit](Index::fits).
pub fn write16(i: &Index) -> u16
    requires { IsIndex 16 i.now }
    ensures raw { result ≡ raw_of 16 i.now }
    ensures read_again { index_of 16 result ≡ Some i.now }
{
    write(16, i) as u16
}

/// The raw number of 32 bits that spells an index, which must [fit](Index::fits).
pub fn write32(i: &Index) -> u32
    requires { IsIndex 32 i.now }
    ensures raw { result ≡ raw_of 32 i.now }
    ensures read_again { index_of 32 result ≡ Some i.now }
{
    write(32, i) as u32
}

/// The raw number of 64 bits that spells an index, which must [fit](Index::fits).
pub fn write64(i: &Index) -> u64
    requires { IsIndex 64 i.now }
    ensures raw { result ≡ raw_of 64 i.now }
    ensures read_again { index_of 64 result ≡ Some i.now }
{
    write(64, i)
}

/// The laws of spelling, at each size: a raw number spells one index at most, an index is read
/// from the number that spells it, and a number spells the index that is read from it.
pub fn spelling_laws()
    ensures one_index { OneIndex }
    ensures reads_spelled { ReadsSpelled }
    ensures spells_read { SpellsRead }
{}

/// The index of 16, 32 or 64 bits with the least tag whose fields hold both numbers: none exactly
/// where no tag's fields do.
pub fn smallest(bits: u8, neg: bool, units: u64, bytes: u64) -> Option<Index>
    requires { IsIndexSize bits }
    ensures fits { IfSome result (IsIndex bits) }
    ensures numbers { IfSome result (λ i. i ≡ record { neg = neg; tag = i.tag; units = units; bytes = bytes }) }
    ensures least { IfSome result (λ i. (tag : ℕ) → tag < i.tag → ¬ HasRoom bits tag units bytes) }
    ensures none { IfNone result ((tag : ℕ) → ¬ HasRoom bits tag units bytes) }
{
    for tag in 0..8 {
        let index = Index {
            neg,
            tag,
            units,
            bytes,
        };
        if index.fits(bits) {
            return Some(index);
        }
    }
    None
}

impl Index {
    /// Whether the index has a spelling of 16, 32 or 64 bits.
    #[tactic(auto, using(crate::proofs::Fields::shifted_out, crate::proofs::Laws::has_room))]
    pub fn fits(&self, bits: u8) -> bool
        requires { IsIndexSize bits }
        ensures { IsTrue result ↔ IsIndex bits self.now }
    {
        let tag_place = bits as u32 - 4;
        let natural = natural_width(bits, self.tag);
        natural <= tag_place
            && self.units >> natural == 0
            && self.bytes >> (tag_place - natural) == 0
    }

    /// The pair: natural units and bytes, each below 2^63, both negated under a sign.
    #[inline(always)]
    pub fn pair(&self) -> (i64, i64)
        requires units { self.now.units < 2 ^ 63 }
        requires bytes { self.now.bytes < 2 ^ 63 }
        ensures { result ≡ pair_of self.now }
    {
        let (units, bytes) = (self.units as i64, self.bytes as i64);
        if self.neg {
            (-units, -bytes)
        } else {
            (units, bytes)
        }
    }
}

//! The memory of a machine: objects that never overlap and never move, at addresses of a pointer's width. Contracts see
//! it as the list of its objects with their bytes, and its two limits (`Memory`). All that it uses is reserved when it
//! is made: one region of as many bytes as the limit, where an object begins at its base less the first base, and 4
//! bytes for each 16 of these, by which a byte's object is found at once. It stands on `raw_region`, `ebc_base` and
//! `ebc_width`.
//!
//! Promises:
//!
//! Of each call that takes a memory, `memory` says that what holds of every memory holds of the one that it leaves
//! (`IsMemory`): no two objects overlap, no address of an object wraps, the limits are kept.
//!
//! - `ObjMem::new`: no object, and the limits that were asked for (`empty`). It fails only with `NoMemory`.
//! - `place`: the memory with one object more, at the next base (`placed`, `id`). `Full` comes exactly where the bytes
//!   with their padding and gap pass what is left of the limit, or as many objects are placed as there may be (`full`),
//!   and then nothing changes (`same`). No byte at any address changes (`bytes`), and each byte of the new object is
//!   zero (`zeros`).
//! - `holds`: whether one object holds a range (`answer`).
//! - `load`: the number in 1, 2, 4 or 8 bytes, its lowest byte first, and none exactly where no one object holds them
//!   (`number`).
//! - `store`: true exactly where one object holds the range (`done`); the memory is then the one after that store
//!   (`after`), whose bytes are these at the range's addresses and the old ones at all others (`bytes`); else nothing
//!   changes (`same`).
//! - `fill`: the same for a slice of any length (`done`, `after`, `bytes`, `same`).
//! - `owner`: the object that holds a byte, by number and base, and the byte's offset (`found`); none exactly where no
//!   object does (`none`).
//! - `bytes_from`: the bytes from an address to the end of the object that holds it (`found`); none exactly where no
//!   object does (`none`).
//! - `region`: the region, which has as many bytes as the limit (`limit`), and at a byte's offset that byte (`bytes`).
//! - `offset`: a byte's address less the first base, and none exactly where no object holds the byte (`offset`). It
//!   lies in the region (`within`), and no other address has it (`alone`).
#![tactic(auto)]

ghost use Rattle.std.specs.Prelude.{◌≡◌, ℕ, ◌+◌, ◌*◌, ◌^◌, ◌<◌, ◌≤◌, ◌↔◌, [], length, slice_index, true, false, Err, IfOk, OnOk, OnErr};
ghost use Rattle.std.specs.Prelude.{IfSome, IfNone, Some, None};
ghost use Rattle.std.specs.Bool.{OnTrue, OnFalse};
ghost use Rattle.ebc_width.specs.Width.{IsWidth};
ghost use Rattle.ebc_width.specs.Bytes.{IsAccess, put, overlaid};
ghost use Rattle.object_memory.specs.Memory.{first_base, padded, top_limit};

mod span;

pub use ebc_base::NoMemory;
use raw_region::Region;
use span::{Span, find_span};
use std::alloc::Global;
use std::marker::Model;

/// Why an object is not placed.
#[derive(Clone, Copy, PartialEq, Eq, Debug)]
pub enum PlaceFault {
    /// Its bytes pass what is left of the limit, or no further object may be placed.
    Full,
}

/// An object: its number in the order of placing, from 0, and the address of its first byte.
#[derive(Clone, Copy, PartialEq, Eq)]
pub struct ObjId {
    pub number: u32,
    pub base: u64,
}

/// The memory of a machine whose pointers have `W` bytes, 4 or 8.
///
/// The first object lies at 0x00100000 at 4 and at 0x0000000200000000 at 8, and each next one at
/// the base before plus its size rounded up to 16, plus 16. So objects never overlap, and their
/// addresses never wrap.
#[derive(Drop)]
pub struct ObjMem<const W: usize> {
    spans: Vec<Span>,
    // The bytes from the first base on, as many as the limit. Behind each object are zeros that
    // belong to none.
    region: Region,
    // For each 16 bytes that are taken the number of the object that took them, so that a byte's
    // object is found at once.
    homes: Vec<u32>,
    object_limit: u32,
}

impl<const W: usize> Model for ObjMem<W> {
    ghost use Rattle.std.specs.Prelude.{vec_capacity, length};
    ghost use Rattle.object_memory.specs.Memory.{Memory};
    ghost use Rattle.object_memory.specs.Layout.{memory_of, IsKept};

    ghost Value = { Memory };

    ghost view = { λ m. memory_of W m.spans.items m.region (length m.region) m.object_limit };

    ghost invariant = { λ m. IsKept W m.spans.items m.region m.homes.items m.object_limit (vec_capacity m.spans) (vec_capacity m.homes) };
}

// What an object takes: its size rounded up to 16, and a gap of 16.
fn padded_size(size: u64) -> u64
    requires { size < 2 ^ 32 }
    ensures { result ≡ padded size }
{
    size.next_multiple_of(16) + 16
}

impl<const W: usize> ObjMem<W> {
    ghost use Rattle.object_memory.specs.Layout.{IsFound};
    ghost use Rattle.ebc_width.specs.Ranges.{holds};
    ghost use Rattle.object_memory.specs.Memory.{IsMemory, ranges, byte_at, held_number, memory_after, memory_filled, rest_from, offset_of};
    ghost use Rattle.object_memory.specs.Memory.{IsOwner, used, next_base, IsFull, placed};

    /// An empty memory for `limit` bytes, with the padding and gaps of objects, and for as many
    /// objects. All memory that it will use is reserved here: a quarter more than `limit`, and what
    /// tells where each object lies.
    pub fn new(alloc: Global, limit: u64, objects: u32) -> Result<ObjMem<W>, NoMemory>
        requires width { IsWidth W }
        requires limit { limit ≤ top_limit W }
        ensures empty { IfOk result (λ m. m ≡ record { objects = []; byte_limit = limit; object_limit = objects }) }
        ensures memory { IfOk result (IsMemory W) }
    {
        let spans = Vec::with_capacity(alloc, objects as usize)?;
        let homes = Vec::with_capacity(alloc, (limit / 16) as usize)?;
        let region = Region::new(alloc, limit as usize)?;
        Ok(ObjMem {
            spans,
            region,
            homes,
            object_limit: objects,
        })
    }

    // Where the first object lies.
    fn first() -> u64
        ensures { result ≡ first_base W }
    {
        if W == 4 { 0x10_0000 } else { 0x2_0000_0000 }
    }

    /// Places an object of `size * count` zero bytes.
    ///
    /// `Full` comes exactly where the bytes, rounded up to 16, plus 16, pass what is left of the
    /// limit, or where as many objects are placed as there may be.
    pub fn place(&mut self, size: u32, count: u32) -> Result<ObjId, PlaceFault>
        requires some { 1 ≤ size * count }
        requires below { size * count < 2 ^ 32 }
        ensures placed { OnOk result (self.new ≡ placed W self.old (size * count)) }
        ensures id { IfOk result (λ id. id ≡ record { number = length self.old.objects; base = next_base W self.old }) }
        ensures full { (result ≡ Err PlaceFault.Full) ↔ IsFull self.old (size * count) }
        ensures same { OnErr result (self.new ≡ self.old) }

        // No byte at any address changes, and those of the new object are zeros.
        ensures bytes { (x : ℕ) → byte_at self.new x ≡ byte_at self.old x }
        ensures zeros { IfOk result (λ id. (x : ℕ) → id.base ≤ x → x < id.base + size * count → byte_at self.new x ≡ 0) }
        ensures memory { IsMemory W self.new }
    {
        let bytes = u64::from(size) * u64::from(count);
        let before = 16 * self.homes.len() as u64;
        let after = before + padded_size(bytes);
        let number = self.spans.len();
        if after > self.region.len() as u64 || number >= self.object_limit as usize {
            return Err(PlaceFault::Full);
        }
        let base = Self::first() + before;
        let Ok(()) = self.homes.resize((after / 16) as usize, number as u32) else {
            unreachable!();
        };
        let Ok(()) = self.spans.push(Span { base, size: bytes }) else {
            unreachable!();
        };
        Ok(ObjId {
            number: number as u32,
            base,
        })
    }

    // The span of the object that holds the `count` bytes from an address on, and its number.
    fn find(&self, addr: u64, count: u64) -> Option<(usize, Span)>
        ensures found { IfSome result (λ r. IsFound W self.now addr count r.0 r.1) }
        ensures none { IfNone result (holds (ranges self.now) addr count ≡ false) }
        ensures memory { IsMemory W self.now }
    {
        find_span(&self.spans, &self.homes, Self::first(), addr, count)
    }

    /// Whether one object holds the `count` bytes from an address on.
    pub fn holds(&self, addr: u64, count: usize) -> bool
        ensures answer { result ≡ holds (ranges self.now) addr count }
        ensures memory { IsMemory W self.now }
    {
        self.find(addr, count as u64).is_some()
    }

    /// The number in the `count` bytes from an address on, the lowest byte first: none exactly where
    /// no one object holds them. `count` is 1, 2, 4 or 8.
    pub fn load(&self, addr: u64, count: usize) -> Option<u64>
        requires { IsAccess count }
        ensures number { result ≡ held_number self.now addr count }
        ensures memory { IsMemory W self.now }
    {
        let _ = self.find(addr, count as u64)?;
        let offset = (addr - Self::first()) as usize;
        Some(self.region.load(offset, count))
    }

    /// Stores the low `count` bytes of a number from an address on, the lowest byte first, and
    /// changes no other byte: false exactly where no one object holds the range, and then nothing
    /// changes. `count` is 1, 2, 4 or 8.
    pub fn store(&mut self, addr: u64, count: usize, value: u64) -> bool
        requires { IsAccess count }
        ensures done { result ≡ holds (ranges self.old) addr count }
        ensures after { self.new ≡ memory_after self.old addr count value }
        ensures bytes { OnTrue result ((x : ℕ) → byte_at self.new x ≡ put (byte_at self.old) addr count value x) }
        ensures same { OnFalse result (self.new ≡ self.old) }
        ensures memory { IsMemory W self.new }
    {
        let Some(_) = self.find(addr, count as u64) else {
            return false;
        };
        let offset = (addr - Self::first()) as usize;
        self.region.store(offset, count, value);
        true
    }

    /// Writes bytes from an address on, and changes no other byte: false exactly where no one object
    /// holds the range, and then nothing changes.
    pub fn fill(&mut self, addr: u64, bytes: &[u8]) -> bool
        ensures done { result ≡ holds (ranges self.old) addr (length bytes.now) }
        ensures after { self.new ≡ memory_filled self.old addr bytes.now }
        ensures bytes { OnTrue result ((x : ℕ) → byte_at self.new x ≡ overlaid (byte_at self.old) addr bytes.now x) }
        ensures same { OnFalse result (self.new ≡ self.old) }
        ensures memory { IsMemory W self.new }
    {
        let Some(_) = self.find(addr, bytes.len() as u64) else {
            return false;
        };
        let offset = (addr - Self::first()) as usize;
        self.region.fill(offset, bytes);
        true
    }

    /// The object that holds a byte, and the byte's offset in it: none exactly where no object does.
    pub fn owner(&self, addr: u64) -> Option<(ObjId, u64)>
        ensures found { IfSome result (λ r. IsOwner self.now addr r.0 r.1) }
        ensures none { IfNone result (holds (ranges self.now) addr 1 ≡ false) }
        ensures memory { IsMemory W self.now }
    {
        let (number, span) = self.find(addr, 1)?;
        let id = ObjId {
            number: number as u32,
            base: span.base,
        };
        Some((id, addr - span.base))
    }

    /// The region that the objects lie in, which has as many bytes as the limit. The region's byte at
    /// an address's offset is the memory's byte at that address.
    pub fn region(&self) -> &Region
        ensures limit { length result.now ≡ self.now.byte_limit }
        ensures bytes { (x i : ℕ) → offset_of W self.now x ≡ Some i → slice_index result.now i ≡ byte_at self.now x }
        ensures memory { IsMemory W self.now }
    {
        &self.region
    }

    /// Where a byte lies in the region, which is at its address less the first base: none exactly
    /// where no object holds it. No two addresses have one offset.
    pub fn offset(&self, addr: u64) -> Option<usize>
        ensures offset { result ≡ offset_of W self.now addr }
        ensures within { IfSome result (λ i. i < self.now.byte_limit) }
        ensures alone { IfSome result (λ i. (x : ℕ) → offset_of W self.now x ≡ Some i → x ≡ addr) }
        ensures memory { IsMemory W self.now }
    {
        let _ = self.find(addr, 1)?;
        Some((addr - Self::first()) as usize)
    }

    /// The bytes from an address to the end of the object that holds it, as they lie: none exactly
    /// where no object holds it.
    pub fn bytes_from(&self, addr: u64) -> Option<&[u8]>
        ensures found { IfSome result (λ bytes. rest_from self.now addr ≡ Some bytes.now) }
        ensures none { IfNone result (rest_from self.now addr ≡ None) }
        ensures memory { IsMemory W self.now }
    {
        let (_, span) = self.find(addr, 1)?;
        let (_, rest) = self
            .region
            .bytes()
            .split_at((addr - Self::first()) as usize);
        let (bytes, _) = rest.split_at((span.base + span.size - addr) as usize);
        Some(bytes)
    }
}
